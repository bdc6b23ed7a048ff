// What of the trees of sources no command of the compiler shows: the interpreter and the count of nodes.

use crate::sources::program_of;
use std::alloc::Global;
use std::test::Fail;
use vx_base::outcome::{NoMemory, Trap};
use vx_limits::nodes;
use vx_plain::interpreter::{End, interpret};

/// A source, its input, how many turns a loop may take, how it ends and what it prints.
type Row = (&'static str, &'static [i32], u64, End, &'static str);

const ROWS: [Row; 3] = [
    (
        "int a[4]; int f(int n) { if (n < 2) return n; return f(n - 1) + f(n - 2); }
        int main(void) { a[3] = f(read_int()); printf(\"%d\\n\", a[3]); return a[3] % 7; }",
        &[10],
        100,
        End::Result(6),
        "55\n",
    ),
    (
        "int main(void) { printf(\"before\\n\"); return 1 / read_int(); }",
        &[0],
        100,
        End::Trap(Trap::Divide),
        "before\n",
    ),
    (
        "int main(void) { while (1) printf(\"x\"); return 0; }",
        &[],
        3,
        End::Bound,
        "xxx",
    ),
];

fn does(alloc: Global, row: &Row) -> Result<bool, NoMemory> {
    let (source, input, turns, end, out) = row;
    match program_of(alloc, source)? {
        Some(typed) => {
            let ending = interpret(alloc, &typed.program, input, *turns)?;
            Ok(ending.end == *end && ending.out.as_slice() == out.as_bytes())
        }
        None => Ok(false),
    }
}

fn first_wrong(alloc: Global) -> Result<usize, NoMemory> {
    for (number, row) in ROWS.iter().enumerate() {
        if !does(alloc, row)? {
            return Ok(number);
        }
    }
    Ok(ROWS.len())
}

#[test]
fn programs_that_are_interpreted(rt: HostRuntime) -> Result<(), Fail> {
    assert_eq!(rt; first_wrong(rt.alloc())?, ROWS.len());
    Ok(())
}

/// The nodes of the first function of a source.
fn nodes_of(alloc: Global, source: &str) -> Result<Option<u32>, NoMemory> {
    match program_of(alloc, source)? {
        Some(typed) => Ok(
            typed
                .program
                .functions
                .first()
                .map(|function| nodes(function)),
        ),
        None => Ok(None),
    }
}

// The body, the empty statement, and two statements with a number each, whatever parentheses stand round it.
#[test]
fn nodes_of_a_function(rt: HostRuntime) -> Result<(), Fail> {
    let found = nodes_of(rt.alloc(), "int main(void) { ; ((1)); return 0; }")?;
    assert_eq!(rt; found, Some(6));
    Ok(())
}
