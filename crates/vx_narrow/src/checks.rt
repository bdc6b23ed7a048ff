// Whether a block passes by what is known behind its operations: its exit gives what is claimed at the blocks to which it leads.

ghost use Rattle.std.specs.Prelude.{◌≡◌, ◌&&◌, true, [], IfOk};
ghost use Rattle.std.specs.List.{list_all};
ghost use Rattle.vx_claims.specs.Facts.{decided, on_side, without_written};
ghost use Rattle.vx_claims.specs.Claims.{listed_claims};
ghost use Rattle.vx_narrow.specs.Checking.{are_given, are_given_behind, are_given_on, has_number, has_numbers, is_against, is_exit_checked, is_left_checked, is_number, listed_given};

use crate::given::{are_passed, given_of};
use std::alloc::Global;
use vx_base::listed::Listed;
use vx_base::outcome::NoMemory;
use vx_claims::access::{Access, tell};
use vx_claims::claim::{Claim, accesses_in, facts_in};
use vx_claims::effects::{on_side, without};
use vx_claims::fact::Fact;
use vx_claims::intervals::Interval;
use vx_claims::known::{decided, give, is_never};
use vx_flow::graph::{Block, BlockId, Exit, Op, Operand, Value};

/// As many arrays a function has at most, so that where each array of a run stands is a number of 32 bits.
pub const MOST_ARRAYS: u32 = 1_048_576;

/// Whether a number has 32 bits.
pub fn is_number(number: i32) -> bool
    ensures { result ≡ is_number number }
{
    i32::MIN <= number && number <= i32::MAX
}

fn has_number(operand: Operand) -> bool
    ensures { result ≡ has_number operand }
{
    match operand {
        Operand::Held(_) => true,
        Operand::Number(number) => is_number(number),
        Operand::Stack => true,
    }
}

#[tactic(auto, unfolding(crate::specs::Checking::most_arrays))]
fn has_numbers(op: &Op) -> bool
    ensures { result ≡ has_numbers op.now }
{
    match *op {
        Op::Compute { left, right, .. } | Op::Select { left, right, .. } => {
            has_number(left) && has_number(right)
        }
        Op::Store { from, .. } => has_number(from),
        Op::Base { array, .. } => array < MOST_ARRAYS,
        _ => true,
    }
}

fn have_numbers(ops: &[Op]) -> bool
    ensures { result ≡ list_all has_numbers ops.now }
{
    for op in ops {
        if !has_numbers(op) {
            return false;
        }
    }
    true
}

fn are_numbers(operands: &[Operand]) -> bool
    ensures { result ≡ list_all has_number operands.now }
{
    for operand in operands {
        if !has_number(*operand) {
            return false;
        }
    }
    true
}

/// Whether the facts and what is known of arrays give what is claimed at a block.
fn are_given(facts: &[Fact], known: &[Access], table: &[Claim], block: BlockId) -> bool
    ensures { result ≡ are_given facts.now known.now (listed_claims table.now block) }
{
    give(facts, facts_in(table, block as usize)) && tell(known, accesses_in(table, block as usize))
}

/// The same behind a call, where nothing is known of arrays.
fn are_given_behind(facts: &[Fact], table: &[Claim], block: BlockId) -> bool
    ensures { result ≡ are_given_behind facts.now (listed_claims table.now block) }
{
    give(facts, facts_in(table, block as usize)) && tell(&[], accesses_in(table, block as usize))
}

/// Whether a test came out the other way.
fn is_against(answer: bool, decision: Option<bool>) -> bool
    ensures { result ≡ is_against answer decision }
{
    match decision {
        None => false,
        Some(true) => !answer,
        Some(false) => answer,
    }
}

/// Whether what holds on a side of a split gives what is claimed at a block.
fn are_given_on_side(
    alloc: Global,
    facts: &[Fact],
    known: &[Access],
    answer: bool,
    test: Value,
    table: &[Claim],
    block: BlockId,
) -> Result<bool, NoMemory>
    ensures { IfOk result (λ given. given ≡ are_given (on_side facts.now answer test) known.now (listed_claims table.now block)) }
{
    let there = on_side(alloc, facts, answer, test)?;
    Ok(are_given(there.as_slice(), known, table, block))
}

/// Whether nothing is claimed at a block.
fn is_free(table: &[Claim], block: BlockId) -> bool
    ensures facts { result ≡ true → (listed_claims table.now block).facts ≡ [] }
    ensures accesses { result ≡ true → (listed_claims table.now block).accesses ≡ [] }
{
    facts_in(table, block as usize).is_empty() && accesses_in(table, block as usize).is_empty()
}

/// The same, or no run goes there.
#[tactic(auto, using(crate::proofs::Free::given_where_free))]
fn are_given_on(
    alloc: Global,
    facts: &[Fact],
    known: &[Access],
    answer: bool,
    test: Value,
    table: &[Claim],
    block: BlockId,
) -> Result<bool, NoMemory>
    ensures { IfOk result (λ given. given ≡ are_given_on answer facts.now known.now test (listed_claims table.now block)) }
{
    if is_free(table, block) {
        return Ok(true);
    }
    Ok(
        is_against(answer, decided(facts, test))
            || are_given_on_side(alloc, facts, known, answer, test, table, block)?,
    )
}

/// Whether what holds behind a call gives what is claimed at a block.
fn are_given_after(
    alloc: Global,
    facts: &[Fact],
    held: Option<Value>,
    table: &[Claim],
    block: BlockId,
) -> Result<bool, NoMemory>
    ensures { IfOk result (λ given. given ≡ are_given_behind (without_written held facts.now) (listed_claims table.now block)) }
{
    match held {
        Some(value) => {
            let left = without(alloc, facts, value)?;
            Ok(are_given_behind(left.as_slice(), table, block))
        }
        None => Ok(are_given_behind(facts, table, block)),
    }
}

/// Whether an exit gives what is claimed at the blocks to which it leads, and a call what is given of the parameters.
fn is_exit_checked(
    alloc: Global,
    given: &[Listed<Interval>],
    table: &[Claim],
    facts: &[Fact],
    known: &[Access],
    exit: &Exit,
) -> Result<bool, NoMemory>
    ensures { IfOk result (λ passes. passes ≡ is_exit_checked (listed_given given.now) (listed_claims table.now) facts.now known.now exit.now) }
{
    match exit {
        Exit::Goto(next) => Ok(are_given(facts, known, table, *next)),
        Exit::Split { test, yes, no } => Ok(
            are_given_on(alloc, facts, known, true, *test, table, *yes)?
                && are_given_on(alloc, facts, known, false, *test, table, *no)?,
        ),
        Exit::Call {
            function,
            arguments,
            result: held,
            next,
        } => {
            let intervals = given_of(given, *function as usize);
            let passed = are_passed(facts, arguments.as_slice(), intervals);
            Ok(
                are_numbers(arguments.as_slice())
                    && (passed && are_given_after(alloc, facts, *held, table, *next)?),
            )
        }
        Exit::Return(operand) => Ok(has_number(*operand)),
        Exit::Ends(_) => Ok(true),
    }
}

/// Whether a block passes, where so much is known behind its operations: its numbers have 32 bits, and its exit gives what is
/// claimed at the blocks to which it leads, or no run comes to it.
pub fn is_left_checked(
    alloc: Global,
    given: &[Listed<Interval>],
    table: &[Claim],
    facts: &[Fact],
    known: &[Access],
    block: &Block,
) -> Result<bool, NoMemory>
    ensures { IfOk result (λ passes. passes ≡ (list_all has_numbers block.now.ops && is_left_checked (listed_given given.now) (listed_claims table.now) facts.now known.now block.now.exit)) }
{
    Ok(
        have_numbers(block.ops.as_slice())
            && (is_never(facts)
                || is_exit_checked(alloc, given, table, facts, known, &block.exit)?),
    )
}
