// The pass over one block: its operations in the forms that what is known gives them, and the block narrowed, where it passes.

ghost use Rattle.std.specs.Prelude.{◌≡◌, ◌++◌, ◌&&◌, true, IfOk, IfSome};
ghost use Rattle.std.specs.List.{list_all};
ghost use Rattle.vx_claims.specs.Forming.{accessed_from, after_from};
ghost use Rattle.vx_claims.specs.Claims.{listed_claims};
ghost use Rattle.vx_narrow.specs.Checking.{has_numbers, is_block_checked, is_left_checked, listed_given};
ghost use Rattle.vx_narrow.specs.Placing.{placed};
ghost use Rattle.vx_narrow.specs.Shortening.{improved_from, shortened};
ghost use Rattle.vx_narrow.specs.Rewriting.{narrowed_block, narrowed_exit};

use crate::checks::is_left_checked;
use crate::near_place::placed;
use crate::one_product::shortened;
use std::alloc::Global;
use vx_base::listed::Listed;
use vx_base::outcome::NoMemory;
use vx_claims::access::{Access, accessed, copied_accesses};
use vx_claims::claim::{Claim, accesses_in, facts_in};
use vx_claims::fact::Fact;
use vx_claims::fact_list::FactList;
use vx_claims::forms::form;
use vx_claims::intervals::Interval;
use vx_claims::known::decided;
use vx_claims::update::learn;
use vx_flow::copies::copied_exit;
use vx_flow::graph::{Array, Block, Exit, Op};

/// What stands behind the operations of a block.
#[derive(Drop)]
pub struct Passed {
    pub facts: Listed<Fact>,
    pub accesses: Listed<Access>,
    pub ops: Listed<Op>,
}

/// Goes over operations of a function with these arrays from what is known before them.
pub fn pass_ops(
    alloc: Global,
    arrays: &[Array],
    claims: &[Fact],
    accesses: &[Access],
    ops: &[Op],
) -> Result<Passed, NoMemory>
    ensures facts { IfOk result (λ passed. passed.facts ≡ after_from arrays.now claims.now accesses.now ops.now) }
    ensures accesses { IfOk result (λ passed. passed.accesses ≡ accessed_from arrays.now claims.now accesses.now ops.now) }
    ensures ops { IfOk result (λ passed. passed.ops ≡ improved_from arrays.now ops.now claims.now accesses.now ops.now) }
{
    let mut facts = FactList::new(alloc, claims, ops.len())?;
    let mut known = copied_accesses(alloc, accesses)?;
    let mut made = Listed::new(alloc);
    pass_each(alloc, arrays, ops, &mut facts, &mut known, &mut made, ops)?;
    Ok(Passed {
        facts: Listed::from_vec(facts.into_vec())?,
        accesses: known,
        ops: made,
    })
}

/// The form of an operation of a block in one operation where it is the last of three or near a place at hand.
fn improved(arrays: &[Array], block: &[Op], facts: &FactList, known: &[Access], form: Op) -> Op
    ensures { result ≡ placed arrays.now block.now facts.now known.now (shortened facts.now form) }
{
    placed(
        arrays,
        block,
        facts.as_slice(),
        known,
        shortened(facts, form),
    )
}

/// Puts what is known behind operations in place of what is known before them, and puts their forms behind what is made.
fn pass_each(
    alloc: Global,
    arrays: &[Array],
    all: &[Op],
    facts: &mut FactList,
    known: &mut Listed<Access>,
    made: &mut Listed<Op>,
    ops: &[Op],
) -> Result<(), NoMemory>
    ensures facts { IfOk result (λ _. facts.new ≡ after_from arrays.now facts.old known.old ops.now) }
    ensures known { IfOk result (λ _. known.new ≡ accessed_from arrays.now facts.old known.old ops.now) }
    ensures made { IfOk result (λ _. made.new ≡ made.old ++ improved_from arrays.now all.now facts.old known.old ops.now) }
{
    for op in ops {
        let form = form(facts, known.as_slice(), op);
        made.push(improved(arrays, all, facts, known.as_slice(), form))?;
        learn(alloc, facts, known.as_slice(), op, &form)?;
        *known = accessed(alloc, arrays, known.as_slice(), &form)?;
    }
    Ok(())
}

/// The exit, where a decided split is a jump.
fn narrowed_exit(alloc: Global, facts: &[Fact], exit: &Exit) -> Result<Exit, NoMemory>
    ensures { IfOk result (λ made. made ≡ narrowed_exit facts.now exit.now) }
{
    match exit {
        Exit::Split { test, yes, no } => match decided(facts, *test) {
            Some(true) => Ok(Exit::Goto(*yes)),
            Some(false) => Ok(Exit::Goto(*no)),
            None => copied_exit(alloc, exit),
        },
        _ => copied_exit(alloc, exit),
    }
}

/// The block at a place of a function with these arrays narrowed, where it passes.
pub fn narrowed_block(
    alloc: Global,
    arrays: &[Array],
    given: &[Listed<Interval>],
    table: &[Claim],
    place: usize,
    block: &Block,
) -> Result<Option<Block>, NoMemory>
    ensures narrowed { IfOk result (λ found. IfSome found (λ made. made ≡ narrowed_block arrays.now (listed_claims table.now) place block.now)) }
    ensures checked { IfOk result (λ found. IfSome found (λ _. is_block_checked arrays.now (listed_given given.now) (listed_claims table.now) place block.now ≡ true)) }
{
    let passed = pass_ops(
        alloc,
        arrays,
        facts_in(table, place),
        accesses_in(table, place),
        block.ops.as_slice(),
    )?;
    match checked_exit(alloc, given, table, &passed, block) {
        Ok(Some(exit)) => Ok(Some(Block {
            ops: passed.ops,
            exit,
        })),
        Ok(None) => {
            drop(passed);
            Ok(None)
        }
        Err(error) => {
            drop(passed);
            Err(error)
        }
    }
}

/// The exit of a block behind whose operations this stands, where the block passes.
fn checked_exit(
    alloc: Global,
    given: &[Listed<Interval>],
    table: &[Claim],
    passed: &Passed,
    block: &Block,
) -> Result<Option<Exit>, NoMemory>
    ensures narrowed { IfOk result (λ found. IfSome found (λ exit. exit ≡ narrowed_exit passed.now.facts block.now.exit)) }
    ensures checked { IfOk result (λ found. IfSome found (λ _. (list_all has_numbers block.now.ops && is_left_checked (listed_given given.now) (listed_claims table.now) passed.now.facts passed.now.accesses block.now.exit) ≡ true)) }
{
    let facts = passed.facts.as_slice();
    let accesses = passed.accesses.as_slice();
    if is_left_checked(alloc, given, table, facts, accesses, block)? {
        let exit = narrowed_exit(alloc, facts, &block.exit)?;
        Ok(Some(exit))
    } else {
        Ok(None)
    }
}
