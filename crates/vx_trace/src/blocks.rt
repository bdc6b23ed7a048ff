// What is read of a block of the graph.

ghost use Rattle.std.specs.Prelude.{◌≡◌, ◌==◌, ◌<◌, ◌^◌, true, false, length};
ghost use Rattle.std.specs.List.{list_any};
ghost use Rattle.vx_flow.specs.Effects.{IsIn};
ghost use Rattle.vx_mixed.specs.TraceOf.{block_at, EndsWithCall};
ghost use Rattle.vx_trace.specs.Picked.{IsUnused};

use vx_flow::graph::{BlockId, Edge, Exit};
use vx_replace::Mixed;

/// Whether the block is in no region.
pub(crate) fn is_unused(mixed: &Mixed, block: BlockId) -> bool
    ensures holds { result ≡ true → IsUnused mixed.now block }
    ensures fails { result ≡ false → IsUnused mixed.now block → ⊥ }
{
    if block < mixed.blocks() {
        match mixed.unused(block) {
            Some(_) => true,
            None => false,
        }
    } else {
        false
    }
}

/// How many operations an unused block has.
pub(crate) fn ops_of(mixed: &Mixed, block: BlockId) -> u64
    requires { block < length mixed.now.nodes }
    ensures is { result ≡ length (block_at mixed.now block).ops }
    ensures few { result < 2 ^ 32 }
{
    match mixed.unused(block) {
        Some(block) => block.ops.len() as u64,
        None => 0,
    }
}

/// Whether an unused block ends with a call.
pub(crate) fn calls(mixed: &Mixed, block: BlockId) -> bool
    ensures holds { result ≡ true → EndsWithCall (block_at mixed.now block).exit }
    ensures fails { result ≡ false → EndsWithCall (block_at mixed.now block).exit → ⊥ }
{
    if block < mixed.blocks() {
        match mixed.unused(block) {
            Some(block) => is_call(&block.exit),
            None => false,
        }
    } else {
        false
    }
}

fn is_call(exit: &Exit) -> bool
    ensures holds { result ≡ true → EndsWithCall exit.now }
    ensures fails { result ≡ false → EndsWithCall exit.now → ⊥ }
{
    match exit {
        Exit::Call { .. } => true,
        Exit::Goto(_) => false,
        Exit::Split { .. } => false,
        Exit::Return(_) => false,
        Exit::Ends(_) => false,
    }
}

/// Whether the block is among these.
pub(crate) fn contains(blocks: &[BlockId], block: BlockId) -> bool
    ensures holds { result ≡ true → IsIn block blocks.now }
    ensures fails { result ≡ false → IsIn block blocks.now → ⊥ }
{
    is_among(blocks, block)
}

fn is_among(blocks: &[BlockId], block: BlockId) -> bool
    ensures { result ≡ list_any (λ other. other == block) blocks.now }
{
    for other in blocks {
        if *other == block {
            return true;
        }
    }
    false
}

/// Whether the block is a header.
pub(crate) fn is_header(mixed: &Mixed, block: BlockId) -> bool
    requires { block < length mixed.now.nodes }
    ensures holds { result ≡ true → IsIn block mixed.now.headers }
    ensures fails { result ≡ false → IsIn block mixed.now.headers → ⊥ }
{
    mixed.is_header(block)
}

/// Whether the edge is a back edge.
pub(crate) fn is_back(mixed: &Mixed, edge: Edge) -> bool
    ensures holds { result ≡ true → IsIn edge mixed.now.back }
    ensures fails { result ≡ false → IsIn edge mixed.now.back → ⊥ }
{
    mixed.is_back(edge)
}
