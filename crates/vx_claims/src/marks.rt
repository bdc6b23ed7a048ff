// Marks of the values of which facts of a list tell, so that a list need not be passed over for a value of which it tells nothing. A
// value is marked at the remainder of its number, so that the tables are short; another one may then seem to be marked too.

ghost use Rattle.std.specs.Prelude.{◌≡◌};
ghost use Rattle.vx_claims.specs.Marking.{all_marked, is_link, is_marked, is_number, link_marked, name_marked, operand_marked, read_marked, value_marked, value_marked_if};

use crate::fact::Fact;
use std::alloc::Global;
use vx_base::arithmetic::Code;
use vx_base::outcome::NoMemory;
use vx_flow::graph::{Operand, Value};

/// How many marks a table has.
const MOST_MARKS: u32 = 512;

/// Where fewer pairs of an operation and a fact that it is asked for come up there are no marks.
const FEW_PAIRS: usize = 2048;

/// The tables of marks. One that is too short has all marks.
#[derive(Drop)]
pub(crate) struct Marks {
    /// The values that facts name.
    pub(crate) named: Vec<bool>,
    /// Those that are read by operations whose results facts tell.
    pub(crate) read: Vec<bool>,
    /// Those of which facts tell where they lie, what their low bits are, or how they are linked with others.
    pub(crate) linked: Vec<bool>,
}

/// Whether a value is marked.
pub(crate) fn is_marked(marks: &[bool], value: Value) -> bool
    ensures { result ≡ is_marked marks.now value }
{
    match marks.get((value % MOST_MARKS) as usize) {
        Some(marked) => *marked,
        None => true,
    }
}

/// Marks a value.
fn mark(marks: &mut Vec<bool>, value: Value)
    ensures { marks.new.items ≡ value_marked value marks.old.items }
{
    let place = (value % MOST_MARKS) as usize;
    if place < marks.len() {
        marks[place] = true;
    }
}

fn mark_operand(marks: &mut Vec<bool>, operand: Operand)
    ensures { marks.new.items ≡ operand_marked operand marks.old.items }
{
    match operand {
        Operand::Held(value) => mark(marks, value),
        Operand::Number(_) => {}
        Operand::Stack => {}
    }
}

fn is_number(operand: Operand) -> bool
    ensures { result ≡ is_number operand }
{
    match operand {
        Operand::Number(_) => true,
        _ => false,
    }
}

/// Whether a fact on what an operation gives tells more than that.
fn is_link(code: Code, right: Operand) -> bool
    ensures { result ≡ is_link code right }
{
    match code {
        Code::Mov | Code::Mpylu => true,
        Code::Add | Code::Sub => is_number(right),
        _ => false,
    }
}

fn mark_if(marks: &mut Vec<bool>, test: bool, value: Value)
    ensures { marks.new.items ≡ value_marked_if test value marks.old.items }
{
    if test {
        mark(marks, value);
    }
}

/// Marks the values that a fact names.
#[tactic(auto, using(crate::proofs::Covering::no_name_marked))]
fn mark_named(marks: &mut Vec<bool>, fact: Fact)
    ensures { marks.new.items ≡ name_marked fact marks.old.items }
{
    if marks.is_empty() {
        return;
    }
    match fact {
        Fact::Between { value, .. } => mark(marks, value),
        Fact::Congruent { value, .. } => mark(marks, value),
        Fact::Equals {
            value,
            left,
            right,
            ..
        } => {
            mark(marks, value);
            mark_operand(marks, left);
            mark_operand(marks, right);
        }
        Fact::Never => {}
    }
}

/// Marks the values that an operation reads whose result a fact tells.
#[tactic(auto, using(crate::proofs::Covering::no_read_marked))]
fn mark_read(marks: &mut Vec<bool>, fact: Fact)
    ensures { marks.new.items ≡ read_marked fact marks.old.items }
{
    if marks.is_empty() {
        return;
    }
    match fact {
        Fact::Between { .. } => {}
        Fact::Congruent { .. } => {}
        Fact::Equals { left, right, .. } => {
            mark_operand(marks, left);
            mark_operand(marks, right);
        }
        Fact::Never => {}
    }
}

/// Marks the value of which a fact tells more than that an operation gives it.
#[tactic(auto, using(crate::proofs::Covering::no_link_marked))]
fn mark_linked(marks: &mut Vec<bool>, fact: Fact)
    ensures { marks.new.items ≡ link_marked fact marks.old.items }
{
    if marks.is_empty() {
        return;
    }
    match fact {
        Fact::Between { value, .. } => mark(marks, value),
        Fact::Congruent { value, .. } => mark(marks, value),
        Fact::Equals {
            value,
            code,
            right,
            ..
        } => mark_if(marks, is_link(code, right), value),
        Fact::Never => {}
    }
}

/// Marks what a fact tells of.
pub(crate) fn mark_fact(marks: &mut Marks, fact: Fact)
    ensures named { marks.new.named.items ≡ name_marked fact marks.old.named.items }
    ensures read { marks.new.read.items ≡ read_marked fact marks.old.read.items }
    ensures linked { marks.new.linked.items ≡ link_marked fact marks.old.linked.items }
{
    mark_named(&mut marks.named, fact);
    mark_read(&mut marks.read, fact);
    mark_linked(&mut marks.linked, fact);
}

/// Marks what the facts of a list tell of.
pub(crate) fn mark_facts(marks: &mut Marks, facts: &[Fact])
    ensures named { marks.new.named.items ≡ all_marked name_marked facts.now marks.old.named.items }
    ensures read { marks.new.read.items ≡ all_marked read_marked facts.now marks.old.read.items }
    ensures linked { marks.new.linked.items ≡ all_marked link_marked facts.now marks.old.linked.items }
{
    for fact in facts {
        mark_fact(marks, *fact);
    }
}

/// Takes all marks away.
pub(crate) fn clear(marks: &mut Marks) {
    clear_table(&mut marks.named);
    clear_table(&mut marks.read);
    clear_table(&mut marks.linked);
}

fn clear_table(marks: &mut Vec<bool>) {
    for place in 0..marks.len() {
        if place < marks.len() {
            marks[place] = false;
        }
    }
}

/// Tables without marks for so many facts and operations that are passed over, and where those are few such as have all.
pub(crate) fn new_marks(alloc: Global, facts: usize, ops: usize) -> Result<Marks, NoMemory> {
    let size = if ops.saturating_mul(facts.saturating_add(ops)) < FEW_PAIRS {
        0
    } else {
        MOST_MARKS as usize
    };
    let named = vec![in alloc; false; size]?;
    let read = vec![in alloc; false; size]?;
    let linked = vec![in alloc; false; size]?;
    Ok(Marks {
        named,
        read,
        linked,
    })
}
