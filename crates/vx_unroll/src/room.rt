// Whether a function has room for a loop of it unrolled, and what it has then.

ghost use Rattle.std.specs.Prelude.{◌≡◌, ◌+◌, ◌<◌, ◌≤◌, ◌&&◌, true, ℕ, None, Some, option_map};
ghost use Rattle.vx_ast.specs.Accepted.{at_most, code_nodes, nodes_of};
ghost use Rattle.vx_ast.specs.View.{action_of, code_of, tree_of};
ghost use Rattle.vx_limits.specs.Capped.{capped};
ghost use Rattle.vx_unroll.specs.Growth.{fitting, grown, grown_by, is_block, step_cost, test_cost};
ghost use Rattle.vx_unroll.specs.Unrolling.{block_of, own_words};

use crate::size::Size;
use crate::words::statement_words;
use vx_ast::tree::{Expression, Simple, Statement};
use vx_limits::{expression_nodes, simple_nodes, statement_nodes, sum};

/// The most nodes of a function.
const MOST_NODES: u64 = 4000;

/// The most words of the arrays that a function declares.
const MOST_WORDS: u64 = 8192;

/// Whether a statement is a block.
pub(crate) fn is_block(statement: &Statement) -> bool
    ensures { result ≡ is_block (code_of statement.now) }
{
    match statement {
        Statement::Block(_) => true,
        Statement::Empty => false,
        Statement::Declaration(_) => false,
        Statement::Simple(_) => false,
        Statement::Print(_, _) => false,
        Statement::If(_, _) => false,
        Statement::IfElse(_, _, _) => false,
        Statement::While(_, _) => false,
        Statement::DoWhile(_, _) => false,
        Statement::For(_, _, _, _) => false,
        Statement::Break => false,
        Statement::Continue => false,
        Statement::Return => false,
        Statement::ReturnValue(_) => false,
    }
}

// The nodes of `if (!(c)) break;`.
fn exit_cost(test: &Expression) -> u64
    ensures { result ≡ capped (3 + nodes_of (tree_of test.now)) }
{
    sum(3, expression_nodes(test))
}

/// The nodes of what stands behind a turn of a `while`.
pub(crate) fn while_cost(test: &Expression) -> u64
    ensures { result ≡ capped (step_cost None + test_cost (Some (tree_of test.now))) }
{
    exit_cost(test)
}

// The nodes of the test of a `for` behind a turn.
fn test_cost(test: &Option<Expression>) -> u64
    ensures { result ≡ capped (test_cost (option_map tree_of test.now)) }
{
    match test {
        None => 0,
        Some(test) => exit_cost(test),
    }
}

// The nodes of the step of a `for` behind a turn.
fn step_cost(step: &Option<Simple>) -> u64
    ensures { result ≡ capped (step_cost (option_map action_of step.now)) }
{
    match step {
        None => 0,
        Some(step) => sum(1, simple_nodes(step)),
    }
}

/// The nodes of what stands behind a turn of a `for`.
#[tactic(auto, using(vx_limits::proofs::Caps::capped_pair))]
pub(crate) fn for_cost(test: &Option<Expression>, step: &Option<Simple>) -> u64
    ensures { result ≡ capped (step_cost (option_map action_of step.now) + test_cost (option_map tree_of test.now)) }
{
    sum(step_cost(step), test_cost(test))
}

// The nodes of a turn.
#[tactic(auto, using(crate::proofs::Rooms::block_stays, crate::proofs::Rooms::block_added))]
fn turn_nodes(body: &Statement) -> u64
    ensures { result ≡ capped (code_nodes (block_of (code_of body.now))) }
{
    let nodes = statement_nodes(body);
    if is_block(body) { nodes } else { sum(1, nodes) }
}

// Whether what is put together is small enough to be counted.
fn is_small(size: Size, nodes: u64, behind: u64, words: u64) -> bool
    ensures { result ≡ (at_most size.nodes 4000 && (at_most size.words 8192 && (at_most nodes 4000 && (at_most behind 4000 && at_most words 8192)))) }
{
    size.nodes <= MOST_NODES
        && size.words <= MOST_WORDS
        && nodes <= MOST_NODES
        && behind <= MOST_NODES
        && words <= MOST_WORDS
}

// A size, where it is within the limits.
fn fitting(size: Size) -> Option<Size>
    ensures { result ≡ fitting size }
{
    if size.nodes <= MOST_NODES && size.words <= MOST_WORDS {
        Some(size)
    } else {
        None
    }
}

// What a function has with a loop unrolled.
#[tactic(auto, using(crate::proofs::Rooms::product_small))]
fn grown_by(more: u32, size: Size, nodes: u64, turn: u64, behind: u64, words: u64) -> Size
    requires few { more < 8 }
    requires nodes { size.nodes ≤ 4000 }
    requires words { size.words ≤ 8192 }
    requires least { nodes ≤ turn }
    requires turn { turn ≤ 4001 }
    requires behind { behind ≤ 4000 }
    requires declared { words ≤ 8192 }
    ensures { result ≡ grown_by more size nodes turn behind words }
{
    let times = u64::from(more);
    let turns = times * (turn + behind);
    let declared = times * words;
    Size {
        nodes: size.nodes + (1 + turn - nodes) + turns,
        words: size.words + declared,
    }
}

/// What a function has with a loop unrolled, by its body and the nodes behind each turn, where it is then within its
/// limits.
pub(crate) fn room_for(
    more: u32,
    own: usize,
    arrays: &[u32],
    size: Size,
    body: &Statement,
    behind: u64,
) -> Option<Size>
    requires some { 0 < more }
    requires few { more < 8 }
    ensures { (b : ℕ) → behind ≡ capped b → result ≡ fitting (grown more (own_words own arrays.now) size (code_of body.now) b) }
{
    let nodes = statement_nodes(body);
    let turn = turn_nodes(body);
    let words = statement_words(body, own, arrays);
    if is_small(size, nodes, behind, words) {
        fitting(grown_by(more, size, nodes, turn, behind, words))
    } else {
        None
    }
}
