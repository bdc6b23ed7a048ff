// Unrolling a whole program.

ghost use Rattle.std.specs.Prelude.{◌≡◌, ◌∷◌, [], ◌≤◌, ◌<◌, ◌^◌, ℤ, List, true, IfOk, IfSome, length, map};
ghost use Rattle.vx_ast.specs.Accepted.{arrays_among};
ghost use Rattle.vx_ast.specs.Meaning.{source};
ghost use Rattle.vx_ast.specs.View.{function_of, program_of};
ghost use Rattle.vx_base.specs.Outcome.{Same};
ghost use Rattle.std.specs.List.{list_all};
ghost use Rattle.vx_unroll.specs.Growth.{has_few_words, is_small_function};
ghost use Rattle.vx_unroll.specs.Laws.{names};
ghost use Rattle.vx_unroll.specs.Unrolling.{Unrolled, UnrolledBy, first_own, function_words, size_of, unrolled_function, unrolled_program};

use crate::memory::append;
use crate::size::Size;
use crate::unrolling::decided_all;
use crate::words::list_words;
use std::alloc::Global;
use vx_ast::tree::{Function, Program, Takes};
use vx_ast::typed::Typed;
use vx_base::listed::copied;
use vx_base::outcome::NoMemory;
use vx_limits::counted_nodes;

// Whether a parameter takes an array: how many do, of it alone.
fn array_taken(takes: Takes) -> usize
    ensures count { result ≡ arrays_among (takes ∷ []) }
    ensures one { result ≤ 1 }
{
    match takes {
        Takes::Number => 0,
        Takes::Array => 1,
    }
}

// How many parameters take an array.
fn arrays_taken(takes: &[Takes]) -> usize
    ensures count { result ≡ arrays_among takes.now }
    ensures few { result ≤ length takes.now }
{
    let mut count = 0;
    for taken in takes {
        count += array_taken(*taken);
    }
    count
}

// The number of the first of a function's own arrays.
fn first_own(function: &Function, globals: usize) -> usize
    requires few { globals < 2 ^ 32 }
    ensures { result ≡ first_own globals (function_of function.now) }
{
    globals + arrays_taken(function.takes.as_slice())
}

// What a function has.
fn size_of(function: &Function, globals: usize) -> Size
    requires few { globals < 2 ^ 32 }
    requires small { is_small_function (function_of function.now) ≡ true }
    ensures { result ≡ size_of globals (function_of function.now) }
{
    let nodes = counted_nodes(function);
    let own = first_own(function, globals);
    let words = list_words(function.body.as_slice(), own, function.arrays.as_slice());
    Size { nodes, words }
}

// A function with its loops unrolled.
fn function_unrolled(
    alloc: Global,
    function: &Function,
    factor: u32,
    globals: usize,
) -> Result<Function, NoMemory>
    requires least { 2 ≤ factor }
    requires most { factor ≤ 8 }
    requires few { globals < 2 ^ 32 }
    requires small { is_small_function (function_of function.now) ≡ true }
    ensures { IfOk result (λ made. function_of made ≡ unrolled_function factor globals (function_of function.now)) }
{
    let size = size_of(function, globals);
    let name = copied(alloc, function.name.as_slice())?;
    let takes = copied(alloc, function.takes.as_slice())?;
    let arrays = copied(alloc, function.arrays.as_slice())?;
    let made = decided_all(
        alloc,
        function.body.as_slice(),
        factor - 1,
        first_own(function, globals),
        function.arrays.as_slice(),
        size,
    )?;
    Ok(Function {
        name,
        gives: function.gives,
        parameters: function.parameters,
        takes,
        scalars: function.scalars,
        arrays,
        body: made.all,
    })
}

// Functions with their loops unrolled.
fn functions_unrolled(
    alloc: Global,
    functions: &[Function],
    factor: u32,
    globals: usize,
) -> Result<Vec<Function>, NoMemory>
    requires least { 2 ≤ factor }
    requires most { factor ≤ 8 }
    requires few { globals < 2 ^ 32 }
    requires small { list_all is_small_function (map function_of functions.now) ≡ true }
    ensures { IfOk result (λ made. map function_of made.items ≡ map (unrolled_function factor globals) (map function_of functions.now)) }
{
    let mut made = Vec::new(alloc);
    for function in functions {
        let one = function_unrolled(alloc, function, factor, globals)?;
        append(&mut made, one)?;
    }
    Ok(made)
}

// A program with its loops unrolled.
fn program_unrolled(alloc: Global, program: &Program, factor: u32) -> Result<Program, NoMemory>
    requires least { 2 ≤ factor }
    requires most { factor ≤ 8 }
    requires small { list_all is_small_function (program_of program.now).functions ≡ true }
    ensures { IfOk result (λ made. Unrolled (program_of program.now) factor (program_of made)) }
{
    let globals = copied(alloc, program.globals.as_slice())?;
    let functions = functions_unrolled(
        alloc,
        program.functions.as_slice(),
        factor,
        program.globals.len(),
    )?;
    Ok(Program {
        globals,
        functions,
        main: program.main,
    })
}

// The same of a program that is accepted.
fn typed_unrolled(alloc: Global, typed: &Typed, factor: u32) -> Result<Typed, NoMemory>
    requires least { 2 ≤ factor }
    requires most { factor ≤ 8 }
    ensures { IfOk result (λ made. Unrolled (program_of typed.now.program) factor (program_of made.program)) }
{
    let program = program_unrolled(alloc, &typed.program, factor)?;
    Ok(Typed::make(program))
}

/// A program with its loops unrolled to so many turns each, where they contain no loop and their function keeps its limits.
/// It ends and prints as the program does with every input, is accepted as its type says, and has its functions by their
/// names. Where the functions of the program declare no more words of arrays than they may, so do its own.
pub fn unroll(alloc: Global, typed: Typed, factor: u32) -> Result<Typed, NoMemory>
    requires least { 2 ≤ factor }
    requires most { factor ≤ 8 }
    ensures unrolled { IfOk result (λ made. Unrolled (program_of typed.program) factor (program_of made.program)) }
    ensures same { IfOk result (λ made. (input : List ℤ) → Same (source (program_of typed.program) input) (source (program_of made.program) input)) }
    ensures words { IfOk result (λ made. has_few_words (program_of typed.program) ≡ true → has_few_words (program_of made.program) ≡ true) }
    ensures names { IfOk result (λ made. names (program_of made.program) ≡ names (program_of typed.program)) }
{
    typed_unrolled(alloc, &typed, factor)
}

/// A program with its loops unrolled as `unroll` does, where so many turns are asked, and as it is where none are.
pub fn unrolled_by(alloc: Global, typed: Typed, factor: Option<u32>) -> Result<Typed, NoMemory>
    requires turns { IfSome factor (λ k. (2 ≤ k) × (k ≤ 8)) }
    ensures unrolled { IfOk result (λ made. UnrolledBy factor (program_of typed.program) (program_of made.program)) }
    ensures same { IfOk result (λ made. (input : List ℤ) → Same (source (program_of typed.program) input) (source (program_of made.program) input)) }
    ensures words { IfOk result (λ made. has_few_words (program_of typed.program) ≡ true → has_few_words (program_of made.program) ≡ true) }
    ensures names { IfOk result (λ made. names (program_of made.program) ≡ names (program_of typed.program)) }
{
    match factor {
        Some(factor) => unroll(alloc, typed, factor),
        None => Ok(typed),
    }
}
