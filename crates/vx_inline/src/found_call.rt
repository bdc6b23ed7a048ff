// The call of a site, found in the flow.

ghost use Rattle.std.specs.Prelude.{◌≡◌, slice_get};
ghost use Rattle.std.specs.Option.{option_map};
ghost use Rattle.vx_inline.specs.Finding.{block_in, call_in, exit_in, seen};

use crate::site::Site;
use vx_base::listed::Listed;
use vx_flow::graph::{Block, BlockId, Exit, Flow, Graph, Operand, Value};

/// A block that calls, its call, and the graphs of the caller and of the callee.
#[derive(Clone, Copy)]
pub struct FoundCall<'a> {
    pub caller: &'a Graph,
    pub block: &'a Block,
    pub called: u32,
    pub arguments: &'a Listed<Operand>,
    pub result: Option<Value>,
    pub next: BlockId,
    pub callee: &'a Graph,
}

/// The call of a site; none where no block that calls a function of the flow stands there.
pub(crate) fn find<'a>(flow: &'a Flow, site: &Site) -> Option<FoundCall<'a>>
    ensures { option_map seen result ≡ call_in flow.now site.now }
{
    match flow.functions.as_slice().get(site.function as usize) {
        Some(caller) => find_in(flow, caller, site.block),
        None => None,
    }
}

/// The call of a block of a graph.
fn find_in<'a>(flow: &'a Flow, caller: &'a Graph, block: BlockId) -> Option<FoundCall<'a>>
    ensures { option_map seen result ≡ block_in flow.now caller.now (slice_get caller.now.blocks block) }
{
    match caller.blocks.as_slice().get(block as usize) {
        Some(block) => find_at(flow, caller, block),
        None => None,
    }
}

/// The call by which a block of a graph ends.
pub(crate) fn find_at<'a>(
    flow: &'a Flow,
    caller: &'a Graph,
    block: &'a Block,
) -> Option<FoundCall<'a>>
    ensures { option_map seen result ≡ exit_in flow.now caller.now block.now block.now.exit }
{
    match &block.exit {
        Exit::Call {
            function,
            arguments,
            result,
            next,
        } => match flow.functions.as_slice().get(*function as usize) {
            Some(callee) => Some(FoundCall {
                caller,
                block,
                called: *function,
                arguments,
                result: *result,
                next: *next,
                callee,
            }),
            None => None,
        },
        Exit::Goto(_) | Exit::Split { .. } | Exit::Return(_) | Exit::Ends(_) => None,
    }
}
