// The limits L3 to L8 of a program: the lowest one that is over, with the count of the first function or format that is.

ghost use Rattle.std.specs.Prelude.{◌≡◌, ◌∷◌, [], true, List, ℕ, None, length, map, min, option_map, IfOk, OnOk};
ghost use Rattle.std.specs.List.{flat_map, list_all};
ghost use Rattle.std.specs.List.{sum as sum_of};
ghost use Rattle.vx_ast.specs.Accepted.{formats_of, function_nodes, global_words, limit_of, or_else, over};
ghost use Rattle.vx_ast.specs.Tree as tree;
ghost use Rattle.vx_ast.specs.View.{all_in, code_of, function_of, program_of};
ghost use Rattle.vx_limits.specs.Capped.{capped, lengths_of, or_count, over_is, over_of};
ghost use Rattle.vx_limits.specs.Words as words;
ghost use Rattle.vx_limits.specs.Words.{function_words, program_words};

use crate::node_counts::{counted_nodes, sum};
use vx_ast::tree::{Function, GlobalVariable, Program, Statement};
use vx_base::outcome::NoMemory;

/// A limit that a program is over.
#[derive(Clone, Copy)]
pub struct Over {
    /// The number of the limit.
    pub number: u32,
    /// The count that was found.
    pub count: u64,
}

// The count of functions, if there are too many.
#[tactic(auto, using(crate::proofs::Limited::map_length))]
fn over_functions(functions: &[Function]) -> Option<u64>
    ensures { option_map (over_of 3) result ≡ over 3 256 (length (map function_of functions.now) ∷ []) }
{
    if functions.len() > 256 {
        Some(functions.len() as u64)
    } else {
        None
    }
}

// The parameters of the first function with too many.
fn over_parameters(functions: &[Function]) -> Option<u64>
    ensures { option_map (over_of 4) result ≡ over 4 8 (map (λ (f : tree.Function). length f.takes) (map function_of functions.now)) }
{
    for function in functions {
        let count = function.takes.len();
        if count > 8 {
            return Some(count as u64);
        }
    }
    None
}

// The nodes of the first function with too many. Where there is none, all numbers of the functions are of 32 bits.
fn over_nodes(functions: &[Function]) -> Result<Option<u64>, NoMemory>
    ensures limit { IfOk result (λ found. option_map (over_of 5) found ≡ over 5 4000 (map function_nodes (map function_of functions.now))) }
    ensures words { IfOk result (λ found. found ≡ None → list_all function_words (map function_of functions.now) ≡ true) }
{
    for function in functions {
        let count = counted_nodes(function);
        if count == u64::MAX {
            return Err(NoMemory);
        }
        if count > 4000 {
            return Ok(Some(count));
        }
    }
    Ok(None)
}

// A sum of words, or the greatest `u64` where it is more.
fn words_of(sizes: &[u32]) -> u64
    ensures { result ≡ capped (sum_of sizes.now) }
{
    let mut words: u64 = 0;
    for size in sizes {
        words = sum(words, u64::from(*size));
    }
    words
}

// The words of the arrays of the first function with too many.
fn over_words(functions: &[Function]) -> Result<Option<u64>, NoMemory>
    ensures { IfOk result (λ found. option_map (over_of 6) found ≡ over 6 8192 (map (λ (f : tree.Function). sum_of f.arrays) (map function_of functions.now))) }
{
    for function in functions {
        let count = words_of(function.arrays.as_slice());
        if count == u64::MAX {
            return Err(NoMemory);
        }
        if count > 8192 {
            return Ok(Some(count));
        }
    }
    Ok(None)
}

// The words of a global variable.
fn global_words(global: GlobalVariable) -> u64
    ensures { result ≡ global_words global }
{
    match global {
        GlobalVariable::Scalar(_) => 1,
        GlobalVariable::Array(words) => u64::from(words),
    }
}

fn is_word(global: GlobalVariable) -> bool
    ensures { words.global_words global ≡ true }
{
    match global {
        GlobalVariable::Scalar(_) => true,
        GlobalVariable::Array(_) => true,
    }
}

// The words of all global variables, or the greatest `u64` where they are more.
fn globals_words(globals: &[GlobalVariable]) -> u64
    ensures sum { result ≡ capped (sum_of (map global_words globals.now)) }
    ensures words { list_all words.global_words globals.now ≡ true }
{
    let mut words: u64 = 0;
    for global in globals {
        is_word(*global);
        words = sum(words, global_words(*global));
    }
    words
}

// The words of all global variables, if they are too many.
fn over_globals(globals: &[GlobalVariable]) -> Result<Option<u64>, NoMemory>
    ensures limit { IfOk result (λ found. option_map (over_of 7) found ≡ over 7 262144 (sum_of (map global_words globals.now) ∷ [])) }
    ensures words { OnOk result (list_all words.global_words globals.now ≡ true) }
{
    let count = globals_words(globals);
    if count == u64::MAX {
        return Err(NoMemory);
    }
    if count > 262144 {
        Ok(Some(count))
    } else {
        Ok(None)
    }
}

// One of two counts, the first where there are both.
fn either(first: Option<u64>, other: Option<u64>) -> Option<u64>
    ensures { result ≡ or_count first other }
{
    match first {
        Some(count) => Some(count),
        None => other,
    }
}

// The bytes of the first format of a statement that is too long.
#[cycle(formats)]
#[tactic(auto, using(crate::proofs::Limited::over_both, crate::proofs::Views::block_view))]
fn long_format(statement: &Statement) -> Option<u64>
    ensures { option_map (over_of 8) result ≡ over 8 4096 (lengths_of (formats_of (code_of statement.now))) }
{
    match statement {
        Statement::Print(format, _) => {
            if format.len() > 4096 {
                Some(format.len() as u64)
            } else {
                None
            }
        }
        Statement::Block(all) => long_format_in(all.as_slice()),
        Statement::If(_, branch) => long_format(branch),
        Statement::IfElse(_, left, right) => {
            let first = long_format(left);
            either(first, long_format(right))
        }
        Statement::While(_, body) => long_format(body),
        Statement::DoWhile(body, _) => long_format(body),
        Statement::For(_, _, _, body) => long_format(body),
        Statement::Empty => None,
        Statement::Declaration(_) => None,
        Statement::Simple(_) => None,
        Statement::Break => None,
        Statement::Continue => None,
        Statement::Return => None,
        Statement::ReturnValue(_) => None,
    }
}

#[cycle(formats)]
fn long_format_in(all: &[Statement]) -> Option<u64>
    ensures { option_map (over_of 8) result ≡ over 8 4096 (lengths_of (formats_of (all_in all.now))) }
{
    for statement in all {
        match long_format(statement) {
            Some(count) => return Some(count),
            None => {}
        }
    }
    None
}

// The bytes of the first format that is too long.
fn over_formats(functions: &[Function]) -> Option<u64>
    ensures { option_map (over_of 8) result ≡ over 8 4096 (flat_map (λ (f : tree.Function). lengths_of (formats_of f.body)) (map function_of functions.now)) }
{
    for function in functions {
        match long_format_in(function.body.as_slice()) {
            Some(count) => return Some(count),
            None => {}
        }
    }
    None
}

fn over_of(number: u32, found: Option<u64>) -> Option<Over>
    ensures { option_map over_is result ≡ option_map (over_of number) found }
{
    match found {
        Some(count) => Some(Over { number, count }),
        None => None,
    }
}

// A limit that is over, if this count was found, or else what is over behind it.
fn first_over(number: u32, found: Option<u64>, rest: Option<Over>) -> Option<Over>
    ensures over { option_map over_is result ≡ or_else (option_map (over_of number) found) (option_map over_is rest) }
    ensures none { result ≡ None → (found ≡ None) × (rest ≡ None) }
{
    match found {
        Some(count) => Some(Over { number, count }),
        None => rest,
    }
}

/// The lowest of the limits L3 to L8 that is over. Where none is, all numbers are of 32 bits.
pub fn limit(program: &Program) -> Result<Option<Over>, NoMemory>
    ensures limit { IfOk result (λ found. option_map over_is found ≡ limit_of (program_of program.now)) }
    ensures words { IfOk result (λ found. found ≡ None → program_words (program_of program.now) ≡ true) }
{
    let functions = program.functions.as_slice();
    let nodes = over_nodes(functions)?;
    let words = over_words(functions)?;
    let globals = over_globals(program.globals.as_slice())?;
    let formats = over_of(8, over_formats(functions));
    let by_globals = first_over(7, globals, formats);
    let by_words = first_over(6, words, by_globals);
    let by_nodes = first_over(5, nodes, by_words);
    let by_parameters = first_over(4, over_parameters(functions), by_nodes);
    let by_functions = first_over(3, over_functions(functions), by_parameters);
    Ok(by_functions)
}
