// What the words of a program are whatever the state: why a word is stuck wherever it is issued, how many operations of each
// kind it has, and how many can write. It is found once, at the start.

ghost use Rattle.std.specs.Prelude.{◌≡◌, ◌<◌, ◌≤◌, map, length, count_by, slice_index_or, IfOk};
ghost use Rattle.vx_isa.specs.Fits.{is_of};
ghost use Rattle.vx_sim.specs.Shapes.{unfit_of, counts_of, width_by, shape_of};

use std::alloc::{AllocError, Global};
use vx_base::outcome::Reason;
use vx_isa::operation::{Operation, UnitKind};
use vx_isa::program::Word;
use vx_machine::{Machine, fits, is_bad_word};

/// How many operations of a word take each kind of unit.
#[derive(Clone, Copy, Drop)]
pub(crate) struct UnitCounts {
    pub(crate) alu: u32,
    pub(crate) multiply: u32,
    pub(crate) memory: u32,
    pub(crate) copy: u32,
    pub(crate) control: u32,
}

/// What a word is whatever the state.
#[derive(Clone, Copy, Drop)]
pub(crate) struct Shape {
    /// The reason for which it is stuck wherever it is issued.
    pub(crate) unfit: Option<Reason>,
    pub(crate) counts: UnitCounts,
    /// How many operations it has, each of which can write; 0 where it is unfit, since it has no effect then.
    pub(crate) width: u32,
}

/// The shape of each word of a program.
pub(crate) fn shapes_of(
    alloc: Global,
    machine: &Machine,
    words: &[Word],
) -> Result<Vec<Shape>, AllocError>
    ensures { IfOk result (λ shapes. shapes.items ≡ map (shape_of machine.now) words.now) }
{
    let mut shapes = Vec::with_capacity(alloc, words.len())?;
    for word in words {
        shapes.push(shape_of(machine, word))?;
    }
    Ok(shapes)
}

fn shape_of(machine: &Machine, word: &Word) -> Shape
    ensures { result ≡ shape_of machine.now word.now }
{
    let unfit = unfit_of(machine, word);
    Shape {
        unfit,
        counts: counts_of(word),
        width: width_by(unfit, word),
    }
}

/// How many operations a word has that is stuck for no such reason; else 0.
fn width_by(unfit: Option<Reason>, word: &Word) -> u32
    ensures { result ≡ width_by unfit word.now.ops }
{
    match unfit {
        Some(_) => 0,
        None => word.ops.len() as u32,
    }
}

/// The shape of the word at a place.
pub(crate) fn shape_at(shapes: &Vec<Shape>, place: u32) -> &Shape
    requires { place < length shapes.now.items }
    ensures { result.now ≡ slice_index_or shapes.now.items place result.now }
{
    &shapes[place as usize]
}

/// The reason for which a word is stuck wherever it is issued.
fn unfit_of(machine: &Machine, word: &Word) -> Option<Reason>
    ensures { result ≡ unfit_of machine.now word.now.ops }
{
    if is_bad_word(machine, word) {
        Some(Reason::BadWord)
    } else if !fits(machine, word) {
        Some(Reason::Overfull)
    } else {
        None
    }
}

fn counts_of(word: &Word) -> UnitCounts
    ensures { result ≡ counts_of word.now.ops }
{
    UnitCounts {
        alu: count_of(word, UnitKind::Alu),
        multiply: count_of(word, UnitKind::Multiply),
        memory: count_of(word, UnitKind::Memory),
        copy: count_of(word, UnitKind::Copies),
        control: count_of(word, UnitKind::Control),
    }
}

fn count_of(word: &Word, unit: UnitKind) -> u32
    ensures { result ≡ count_by (is_of unit) word.now.ops }
{
    let _few = word.ops.len();
    count_in(word.ops.as_slice(), unit) as u32
}

fn count_in(ops: &[Operation], unit: UnitKind) -> usize
    ensures exact { result ≡ count_by (is_of unit) ops.now }
    ensures few { result ≤ length ops.now }
{
    let mut count = 0;
    for op in ops {
        if is_of(unit, op) {
            count += 1;
        }
    }
    count
}

fn is_of(unit: UnitKind, op: &Operation) -> bool
    ensures { result ≡ is_of unit op.now }
{
    op.unit() == unit
}
