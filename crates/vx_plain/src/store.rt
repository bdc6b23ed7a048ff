// The store of the interpreter: what the active function's scalars, the arrays, the input and the output hold. It stands
// for a store of specs/Meaning.antt of vx_ast (`store_of`), and each call is one step of the meaning.

ghost use Rattle.std.specs.Prelude.{◌≡◌, ◌++◌, ◌≤◌, ℕ, pos, List, [], length, map, replicate, take, slice_set, slice_index_or, IfOk, OnOk, MatchOption};
ghost use Rattle.std.specs.Fmt.{signed_decimal};
ghost use Rattle.vx_ast.specs.Meaning.{array_at, word_at, with_word, cleared, with_scalar, next_input, is_left, pieces_of, printed, prints, words_at_start, With, Trapped};
ghost use Rattle.vx_base.specs.declared.outcome.Trap.TheVariants.{Input as ByInput};
ghost use Rattle.vx_plain.specs.Kept.{scalars_of, store_of};

use std::alloc::Global;
use std::marker::Model;
use std::mem;
use vx_ast::tree::GlobalVariable;
use vx_base::outcome::NoMemory;

/// The words of an array.
#[derive(Drop)]
struct Row {
    words: Vec<i32>,
}

impl Model for Row {
    ghost use Rattle.std.specs.Prelude.{ℤ, List};

    ghost Value = { List ℤ };

    ghost view = { λ row. row.words.items };
}

impl Row {
    /// So many words, each 0.
    fn zeros(alloc: Global, size: usize) -> Result<Row, NoMemory>
        ensures { IfOk result (λ row. row ≡ replicate size (pos 0)) }
    {
        let words = Vec::from_elem(alloc, 0, size)?;
        Ok(Row { words })
    }

    /// How many words there are.
    fn len(&self) -> usize
        ensures { result ≡ length self.now }
    {
        self.words.len()
    }

    /// A word, and 0 past the end.
    fn word(&self, i: usize) -> i32
        ensures { result ≡ slice_index_or self.now i (pos 0) }
    {
        if i < self.words.len() {
            self.words[i]
        } else {
            0
        }
    }

    /// Changes a word. Past the end nothing changes.
    fn set(&mut self, i: usize, v: i32)
        ensures { self.new ≡ slice_set self.old i v }
    {
        if i < self.words.len() {
            self.words[i] = v;
        }
    }
}

/// What a running program holds.
#[derive(Drop)]
pub struct Memory {
    scalars: Vec<i32>,
    arrays: Vec<Row>,
    input: Vec<i32>,
    taken: usize,
    out: Vec<u8>,
}

impl Model for Memory {
    ghost use Rattle.std.specs.Prelude.{drop};
    ghost use Rattle.vx_plain.specs.Kept.{Kept};

    ghost Value = { Kept };

    ghost view = { λ m. record { scalars = m.scalars.items; arrays = m.arrays.items; input = drop m.taken m.input.items; out = m.out.items } };
}

impl Memory {
    /// What a program holds at its start.
    pub fn make(
        alloc: Global,
        globals: &[GlobalVariable],
        input: &[i32],
    ) -> Result<Memory, NoMemory>
        ensures { IfOk result (λ m. store_of m ≡ record { scalars = λ x. pos 0; arrays = map words_at_start globals.now; input = input.now; out = [] }) }
    {
        let arrays = rows_of(alloc, globals)?;
        let mut numbers = Vec::new(alloc);
        numbers.extend_from_slice(input)?;
        Ok(Memory {
            scalars: Vec::new(alloc),
            arrays,
            input: numbers,
            taken: 0,
            out: Vec::new(alloc),
        })
    }

    /// All that was printed.
    pub fn into_out(self) -> Vec<u8>
        ensures { result.items ≡ self.out }
    {
        self.out
    }

    /// A scalar of the active function.
    pub fn scalar(&self, x: u32) -> i32
        ensures { result ≡ scalars_of self.now.scalars x }
    {
        let x = x as usize;
        if x < self.scalars.len() {
            self.scalars[x]
        } else {
            0
        }
    }

    /// Changes a scalar of the active function.
    pub fn set_scalar(&mut self, x: u32, v: i32) -> Result<(), NoMemory>
        ensures { OnOk result (store_of self.new ≡ with_scalar (store_of self.old) x v) }
    {
        let x = x as usize;
        reach(&mut self.scalars, x + 1)?;
        self.scalars[x] = v;
        Ok(())
    }

    /// How many words an array has.
    pub fn size(&self, a: usize) -> usize
        ensures { result ≡ length (array_at (store_of self.now) a) }
    {
        if a < self.arrays.len() {
            self.arrays[a].len()
        } else {
            0
        }
    }

    /// A word of an array, and 0 where there is none.
    pub fn word(&self, a: usize, i: usize) -> i32
        ensures { result ≡ word_at (store_of self.now) a i }
    {
        if a < self.arrays.len() {
            self.arrays[a].word(i)
        } else {
            0
        }
    }

    /// Changes a word of an array. Where there is none nothing changes.
    pub fn set_word(&mut self, a: usize, i: usize, v: i32)
        ensures { store_of self.new ≡ with_word (store_of self.old) a i v }
    {
        if a < self.arrays.len() {
            self.arrays[a].set(i, v);
        }
    }

    /// Sets each word of an array to 0.
    pub fn clear(&mut self, alloc: Global, a: usize) -> Result<(), NoMemory>
        ensures { OnOk result (store_of self.new ≡ cleared (store_of self.old) a) }
    {
        if a < self.arrays.len() {
            let row = cleared_row(alloc, &self.arrays[a])?;
            self.arrays[a] = row;
        }
        Ok(())
    }

    /// Whether the input has a number left.
    #[tactic(auto, using(crate::proofs::KeptSteps::left_is))]
    pub fn has_more(&self) -> bool
        ensures { result ≡ is_left self.now.input }
    {
        self.taken < self.input.len()
    }

    /// The next number of the input, where it has one left.
    pub fn next(&mut self) -> Option<i32>
        ensures { MatchOption result (next_input self.old.input (store_of self.old) ≡ Trapped ByInput self.new.out) (λ x. next_input self.old.input (store_of self.old) ≡ With x (store_of self.new)) }
    {
        if self.taken < self.input.len() {
            let x = self.input[self.taken];
            self.taken += 1;
            Some(x)
        } else {
            None
        }
    }

    /// Prints a format, a number in the place of each `%d`.
    pub fn print(&mut self, alloc: Global, format: &[u8], numbers: &[i32]) -> Result<(), NoMemory>
        ensures { OnOk result (store_of self.new ≡ prints (printed (pieces_of format.now) numbers.now) (store_of self.old)) }
    {
        put_format(&mut self.out, alloc, format, numbers)
    }

    /// How many arrays there are: the globals, and the own ones of the active functions.
    pub fn arrays(&self) -> usize
        ensures { result ≡ length self.now.arrays }
    {
        self.arrays.len()
    }

    /// Makes a function active, with its arguments and the sizes of its own arrays. Gives the scalars of the caller.
    pub fn enter(
        &mut self,
        alloc: Global,
        arguments: Vec<i32>,
        sizes: &[u32],
    ) -> Result<Vec<i32>, NoMemory>
        ensures entered { OnOk result (store_of self.new ≡ record (store_of self.old) { scalars = scalars_of arguments.items; arrays = self.old.arrays ++ map (λ size. replicate size (pos 0)) sizes.now }) }
        ensures caller { IfOk result (λ scalars. scalars.items ≡ self.old.scalars) }
    {
        push_rows(&mut self.arrays, alloc, sizes)?;
        Ok(mem::replace(&mut self.scalars, arguments))
    }

    /// Goes back to the caller, by its scalars and by how many arrays there were.
    pub fn leave(&mut self, scalars: Vec<i32>, arrays: usize)
        ensures { store_of self.new ≡ record (store_of self.old) { scalars = scalars_of scalars.items; arrays = take arrays self.old.arrays } }
    {
        self.scalars = scalars;
        self.arrays.truncate(arrays);
    }
}

/// The words of a global as they start.
fn row_of(alloc: Global, global: &GlobalVariable) -> Result<Row, NoMemory>
    ensures { IfOk result (λ row. row ≡ words_at_start global.now) }
{
    match global {
        GlobalVariable::Scalar(start) => {
            let mut words = Vec::new(alloc);
            words.push(*start)?;
            Ok(Row { words })
        }
        GlobalVariable::Array(size) => Row::zeros(alloc, *size as usize),
    }
}

/// The globals as they start.
fn rows_of(alloc: Global, globals: &[GlobalVariable]) -> Result<Vec<Row>, NoMemory>
    ensures { IfOk result (λ rows. rows.items ≡ map words_at_start globals.now) }
{
    let mut rows = Vec::new(alloc);
    for global in globals {
        let row = row_of(alloc, global)?;
        rows.push(row)?;
    }
    Ok(rows)
}

/// As many words as a row has, each 0.
#[tactic(auto, using(crate::proofs::KeptSteps::zeros_are))]
fn cleared_row(alloc: Global, row: &Row) -> Result<Row, NoMemory>
    ensures { IfOk result (λ zeros. zeros ≡ map (λ z. pos 0) row.now) }
{
    Row::zeros(alloc, row.len())
}

/// Puts arrays of these sizes behind the others.
fn push_rows(arrays: &mut Vec<Row>, alloc: Global, sizes: &[u32]) -> Result<(), NoMemory>
    ensures { OnOk result (arrays.new.items ≡ arrays.old.items ++ map (λ size. replicate size (pos 0)) sizes.now) }
{
    for size in sizes {
        let row = Row::zeros(alloc, *size as usize)?;
        arrays.push(row)?;
    }
    Ok(())
}

/// Puts zeros behind the scalars until there are so many.
fn reach(scalars: &mut Vec<i32>, size: usize) -> Result<(), NoMemory>
    ensures reached { OnOk result (size ≤ length scalars.new.items) }
    ensures same { OnOk result (scalars_of scalars.new.items ≡ scalars_of scalars.old.items) }
{
    if scalars.len() < size {
        scalars.resize(size, 0)?;
    }
    Ok(())
}

/// Puts a number in signed decimal behind the output.
fn put_number(out: &mut Vec<u8>, alloc: Global, number: i32) -> Result<(), NoMemory>
    ensures { OnOk result (out.new.items ≡ out.old.items ++ signed_decimal number) }
{
    let text = format!(in alloc; "{number}")?;
    out.extend_from_slice(text.as_bytes())?;
    Ok(())
}

/// Puts a format behind the output, a number in the place of each `%d`.
fn put_format(
    out: &mut Vec<u8>,
    alloc: Global,
    format: &[u8],
    numbers: &[i32],
) -> Result<(), NoMemory>
    ensures { OnOk result (out.new.items ≡ out.old.items ++ printed (pieces_of format.now) numbers.now) }
{
    let mut next = 0;
    let mut special = false;
    for b in format {
        if special {
            special = false;
            if *b != b'd' {
                out.push(*b)?;
            } else if next < numbers.len() {
                put_number(out, alloc, numbers[next])?;
                next += 1;
            }
        } else if *b == b'%' {
            special = true;
        } else {
            out.push(*b)?;
        }
    }
    Ok(())
}
