// What is known behind the operations of a block is kept in one list, which each operation changes in place: what speaks of the value
// that it writes is forgotten, what it says is put before the rest, and of the facts on what operations give the oldest one goes.

ghost use Rattle.std.specs.Prelude.{◌≡◌, ◌++◌, ◌-◌, true, length, take, IfOk};
ghost use Rattle.vx_flow.specs.declared.graph.Op.TheVariants.{Compute};
ghost use Rattle.vx_claims.specs.Facts.{without_written};
ghost use Rattle.vx_claims.specs.Forming.{after_known, most_equals, newest};
ghost use Rattle.vx_claims.specs.Keeping.{all_said, has_more, said_by};

use crate::access::{Access, append_place};
use crate::effects::{
    append_lies, append_newest, append_result, append_said_unless, same_form, without,
};
use crate::fact::Fact;
use crate::fact_list::FactList;
use crate::intervals::{bit, times_if};
use crate::known::range_in;
use std::alloc::Global;
use vx_base::arithmetic::Code;
use vx_base::listed::Listed;
use vx_base::outcome::NoMemory;
use vx_flow::graph::{Op, Operand, Value};
use vx_flow::operands::{is_value, written_by};

/// How many facts on what operations give are kept.
const MOST_EQUALS: usize = 64;

/// Puts what is known behind an operation that has a form in place of what is known before it.
#[tactic(auto, using(crate::proofs::Kept::known_parts))]
pub fn learn(
    alloc: Global,
    facts: &mut FactList,
    known: &[Access],
    op: &Op,
    form: &Op,
) -> Result<(), NoMemory>
    ensures { IfOk result (λ _. facts.new ≡ after_known facts.old known.now op.now form.now) }
{
    let said = all_said(alloc, facts, known, op, form)?;
    forget(alloc, facts, written_by(form))?;
    put_said(facts, said.as_slice())?;
    keep_newest(alloc, facts)
}

/// All that an operation says that has a form.
fn all_said(
    alloc: Global,
    facts: &FactList,
    known: &[Access],
    op: &Op,
    form: &Op,
) -> Result<Listed<Fact>, NoMemory>
    ensures { IfOk result (λ said. said ≡ all_said facts.now known.now op.now form.now) }
{
    let mut said = Listed::new(alloc);
    append_place(&mut said, known, form)?;
    append_said_unless(&mut said, facts, same_form(op, form), op)?;
    append_said_by(&mut said, facts, form)?;
    Ok(said)
}

/// Puts what an operation says of the value that it writes at the end of a list.
fn append_said_by(list: &mut Listed<Fact>, facts: &FactList, op: &Op) -> Result<(), NoMemory>
    ensures { IfOk result (λ _. list.new ≡ list.old ++ said_by facts.now op.now) }
{
    match *op {
        Op::Compute {
            code,
            to,
            left,
            right,
        } => append_computed(list, facts, code, to, left, right),
        Op::Place { to, index, .. } => {
            append_lies(list, to, times_if(true, range_in(facts, index), 4))
        }
        Op::More { to } => append_lies(list, to, bit()),
        _ => Ok(()),
    }
}

/// Puts what a computation gives at the end of a list.
fn append_computed(
    list: &mut Listed<Fact>,
    facts: &FactList,
    code: Code,
    to: Value,
    left: Operand,
    right: Operand,
) -> Result<(), NoMemory>
    ensures { IfOk result (λ _. list.new ≡ list.old ++ said_by facts.now (Compute code to left right)) }
{
    append_result(list, facts, code, to, left, right)?;
    if !(is_value(to, &left) || is_value(to, &right)) {
        list.push(Fact::Equals {
            value: to,
            code,
            left,
            right,
        })?;
    }
    Ok(())
}

/// Forgets what speaks of the value that is written, if one is.
#[tactic(auto, using(crate::proofs::Kept::none_named, crate::proofs::Covering::part_without, crate::proofs::Covering::same_part))]
fn forget(alloc: Global, facts: &mut FactList, written: Option<Value>) -> Result<(), NoMemory>
    ensures { IfOk result (λ _. facts.new ≡ without_written written facts.old) }
{
    let Some(value) = written else {
        return Ok(());
    };
    if !facts.has_name(value) {
        return Ok(());
    }
    let left = without(alloc, facts.as_slice(), value)?;
    facts.leave(left.into_vec());
    Ok(())
}

/// Puts what is said before the facts.
fn put_said(facts: &mut FactList, said: &[Fact]) -> Result<(), NoMemory>
    ensures { IfOk result (λ _. facts.new ≡ said.now ++ facts.old) }
{
    put_before(facts, said)?;
    facts.renew();
    Ok(())
}

/// Puts facts before others.
fn put_before(facts: &mut FactList, said: &[Fact]) -> Result<(), NoMemory>
    ensures { IfOk result (λ _. facts.new ≡ said.now ++ facts.old) }
{
    match said {
        [] => Ok(()),
        [first, rest @ ..] => {
            put_before(facts, rest)?;
            facts.put(*first)
        }
    }
}

/// Keeps of the facts on what operations give so many as are kept at most.
#[tactic(auto, using(crate::proofs::Kept::all_kept))]
fn keep_newest(alloc: Global, facts: &mut FactList) -> Result<(), NoMemory>
    ensures { IfOk result (λ _. facts.new ≡ newest most_equals facts.old) }
{
    if is_over(facts.as_slice()) {
        cut(alloc, facts)
    } else {
        Ok(())
    }
}

/// Whether there are more facts on what operations give than are kept.
#[tactic(auto, using(crate::proofs::Kept::few_facts))]
fn is_over(facts: &[Fact]) -> bool
    ensures { result ≡ has_more most_equals facts.now }
{
    facts.len() > MOST_EQUALS && has_more(facts, MOST_EQUALS)
}

/// The facts but the last.
fn front_of(facts: &[Fact]) -> &[Fact]
    ensures { result.now ≡ take (length facts.now - 1) facts.now }
{
    &facts[..facts.len().saturating_sub(1)]
}

/// The same for a list that has more: most often it is the last one that goes.
#[tactic(auto, using(crate::proofs::Kept::front_is_kept))]
fn cut(alloc: Global, facts: &mut FactList) -> Result<(), NoMemory>
    requires { has_more most_equals facts.old ≡ true }
    ensures { IfOk result (λ _. facts.new ≡ newest most_equals facts.old) }
{
    if has_more(front_of(facts.as_slice()), MOST_EQUALS) {
        rebuild(alloc, facts)
    } else {
        facts.drop_last();
        Ok(())
    }
}

#[tactic(auto, using(crate::proofs::Covering::part_newest, crate::proofs::Covering::same_part))]
fn rebuild(alloc: Global, facts: &mut FactList) -> Result<(), NoMemory>
    ensures { IfOk result (λ _. facts.new ≡ newest most_equals facts.old) }
{
    let mut kept = Listed::new(alloc);
    append_newest(&mut kept, facts.as_slice(), MOST_EQUALS)?;
    facts.leave(kept.into_vec());
    Ok(())
}

/// Whether there are more facts on what operations give than so many.
fn has_more(facts: &[Fact], left: usize) -> bool
    ensures { result ≡ has_more left facts.now }
{
    match facts {
        [] => false,
        [first, rest @ ..] => match *first {
            Fact::Between { .. } | Fact::Congruent { .. } | Fact::Never => has_more(rest, left),
            Fact::Equals { .. } => {
                if left == 0 {
                    true
                } else {
                    has_more(rest, left - 1)
                }
            }
        },
    }
}
