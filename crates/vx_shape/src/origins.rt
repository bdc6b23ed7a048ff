// Which block comes before each block of a graph.

ghost use Rattle.std.specs.Prelude.{◌≡◌, ◌<◌, ◌-◌, ◌^◌, [], ◌∷◌, IfOk, length};
ghost use Rattle.vx_flow.specs.Sound.{targets_of};
ghost use Rattle.vx_shape.specs.Origins.{AreOrigins, IsJoined, Takes};

use std::alloc::Global;
use vx_base::outcome::NoMemory;
use vx_flow::graph::{Block, BlockId, Exit};

/// For each block the number of the one from which edges lead to it, or how many blocks there are where they come from many; the
/// greatest number where none does. Many are told only where edges come from two blocks.
pub fn origins(alloc: Global, blocks: &[Block]) -> Result<Vec<usize>, NoMemory>
    ensures { IfOk result (λ origins. AreOrigins blocks.now origins.items) }
{
    let mut origins = vec![in alloc; usize::MAX; blocks.len()]?;
    for (from, block) in blocks.iter().enumerate() {
        note_exit(&mut origins, from, &block.exit);
    }
    Ok(origins)
}

#[tactic(auto, using(crate::proofs::Noting::takes_both, crate::proofs::Noting::takes_none))]
fn note_exit(origins: &mut Vec<usize>, from: usize, exit: &Exit)
    requires { from < length origins.old.items }
    ensures { Takes from (targets_of exit.now) origins.old.items origins.new.items }
{
    match exit {
        Exit::Goto(next) => note(origins, from, *next),
        Exit::Split { yes, no, .. } => {
            note(origins, from, *yes);
            note(origins, from, *no);
        }
        Exit::Call { next, .. } => note(origins, from, *next),
        Exit::Return(_) => {}
        Exit::Ends(_) => {}
    }
}

#[tactic(auto, using(crate::proofs::Noting::takes_one, crate::proofs::Noting::takes_past))]
fn note(origins: &mut Vec<usize>, from: usize, block: BlockId)
    requires { from < length origins.old.items }
    ensures { Takes from (block ∷ []) origins.old.items origins.new.items }
{
    let many = origins.len();
    if (block as usize) < many {
        let known = origins[block as usize];
        origins[block as usize] = joined(known, from, many);
    }
}

/// What is noted where a block is known from which edges come, and one more is found.
#[tactic(auto, using(crate::proofs::Noting::joins_this, crate::proofs::Noting::joins_many))]
fn joined(known: usize, from: usize, many: usize) -> usize
    ensures either { IsJoined many known from result }
    ensures other { known < 2 ^ 64 - 1 → (known ≡ from → ⊥) → result ≡ many }
{
    if known == usize::MAX || known == from {
        from
    } else {
        many
    }
}
