// Graphs and programs of which each breaks one of the rules of soundness.

use std::alloc::Global as Heap;
use std::test::Fail;
use vx_base::arithmetic::{Code, Compare};
use vx_base::outcome::NoMemory;
use vx_flow::graph::{Array, Bank, Global, Op, Operand};
use vx_sound::{flow_is_sound, graph_is_sound};
use vx_test_graphs::{Act, Part, Shape, Way, Whole, graph, program};

const GLOBAL: u32 = 0;

const LOCAL: u32 = 1;

/// Value 4 is a branch value.
const BANKS: [Bank; 5] = [
    Bank::General,
    Bank::General,
    Bank::General,
    Bank::General,
    Bank::Branch,
];

const ARRAYS: [Array; 2] = [
    Array {
        words: 2,
        global: true,
        named: 0,
        base: None,
    },
    Array {
        words: 4,
        global: false,
        named: 1,
        base: None,
    },
];

/// Accesses the local array, of which value 1 is a place, and splits.
const FIRST: Part<'static> = Part(
    &[
        Act::Plain(Op::Place {
            to: 1,
            array: LOCAL,
            index: Operand::Held(0),
        }),
        Act::Store(LOCAL, Operand::Held(1), Operand::Number(7)),
        Act::Load(2, LOCAL, Operand::Number(4)),
        Act::On(Code::ToBranch(Compare::Lt), 4, 2, Operand::Number(9)),
    ],
    Way::Split(4, 1, 2),
);

const LAST: Part<'static> = Part(&[], Way::Return(Operand::Held(2)));

/// Whether the graph is sound of which this value is the parameter, and block 1 has this operation and is left so.
fn is_sound(alloc: Heap, parameter: u32, act: Act, way: Way) -> Result<bool, NoMemory> {
    let acts = [act];
    let parts = [FIRST, Part(&acts, way), LAST];
    let parameters = [parameter];
    let shape = Shape {
        parts: &parts,
        banks: &BANKS,
        parameters: &parameters,
        arrays: &ARRAYS,
    };
    Ok(graph_is_sound(&graph(alloc, &shape)?))
}

const TEXT: Act = Act::Plain(Op::Text { number: 0 });

const NUMBER: Operand = Operand::Number(8);

/// The place of the local array.
const PLACE: Operand = Operand::Held(1);

const OPERATIONS: [(Act, bool); 22] = [
    (Act::Plain(Op::Text { number: 9 }), true),
    (Act::Select(3, 4), true),
    (Act::Load(3, LOCAL, PLACE), true),
    (Act::Load(3, GLOBAL, Operand::Held(0)), true),
    (Act::On(Code::Mov, 3, 2, Operand::Number(0)), true),
    // a value, an array that is not there, and values of the other kind
    (Act::On(Code::Add, 5, 2, NUMBER), false),
    (Act::On(Code::Add, 3, 5, NUMBER), false),
    (Act::Load(3, 2, NUMBER), false),
    (Act::On(Code::Add, 4, 2, NUMBER), false),
    (Act::On(Code::ToBranch(Compare::Eq), 3, 2, NUMBER), false),
    (Act::On(Code::Add, 3, 4, NUMBER), false),
    (Act::Select(3, 2), false),
    // the stack pointer, and a value from another cluster
    (Act::On(Code::Add, 3, 2, Operand::Stack), false),
    (
        Act::Plain(Op::Decimal {
            from: Operand::Stack,
        }),
        false,
    ),
    (Act::Plain(Op::Across { to: 3, from: 2 }), false),
    // a place of the local array: written by something else, used as a number, stored, and used for another array
    (Act::Plain(Op::Input { to: 1 }), false),
    (Act::Plain(Op::Decimal { from: PLACE }), false),
    (Act::Store(LOCAL, PLACE, PLACE), false),
    (Act::Load(3, GLOBAL, PLACE), false),
    // an access to the local array at a value that is no place of it
    (Act::Load(3, LOCAL, Operand::Held(0)), false),
    // what stands as the right operand of a move
    (Act::On(Code::Mov, 3, 2, Operand::Number(1)), false),
    (Act::On(Code::Mov, 3, 2, Operand::Held(0)), false),
];

/// The parameter, how block 1 is left, and whether the graph is sound.
const WAYS: [(u32, Way, bool); 11] = [
    (0, Way::Call(0, Some(NUMBER), None, Some(3), 2), true),
    (0, Way::Return(NUMBER), true),
    // a block that is not there, and a test that is no branch value
    (0, Way::Goto(3), false),
    (0, Way::Split(2, 1, 2), false),
    // the stack pointer
    (0, Way::Return(Operand::Stack), false),
    (0, Way::Call(0, Some(Operand::Stack), None, None, 2), false),
    // a place of the local array: passed, returned, a result of a call, a parameter
    (0, Way::Call(0, Some(PLACE), None, None, 2), false),
    (0, Way::Return(PLACE), false),
    (0, Way::Call(0, Some(NUMBER), None, Some(1), 2), false),
    (1, Way::Goto(2), false),
    (4, Way::Goto(2), false),
];

/// The first row of another answer; the number of rows where there is none.
fn first_wrong_operation(alloc: Heap) -> Result<usize, NoMemory> {
    for (row, (act, wanted)) in OPERATIONS.iter().enumerate() {
        if is_sound(alloc, 0, *act, Way::Goto(2))? != *wanted {
            return Ok(row);
        }
    }
    Ok(OPERATIONS.len())
}

fn first_wrong_way(alloc: Heap) -> Result<usize, NoMemory> {
    for (row, (parameter, way, wanted)) in WAYS.iter().enumerate() {
        if is_sound(alloc, *parameter, TEXT, *way)? != *wanted {
            return Ok(row);
        }
    }
    Ok(WAYS.len())
}

#[test]
fn sound_graphs(rt: HostRuntime) -> Result<(), Fail> {
    assert_eq!(rt; first_wrong_operation(rt.alloc())?, OPERATIONS.len());
    assert_eq!(rt; first_wrong_way(rt.alloc())?, WAYS.len());
    Ok(())
}

const GENERALS: [Bank; 2] = [Bank::General, Bank::General];

const SEEN: [Array; 2] = [
    Array {
        words: 3,
        global: true,
        named: 0,
        base: None,
    },
    Array {
        words: 5,
        global: false,
        named: 1,
        base: None,
    },
];

const CALLED: [Part<'static>; 1] = [Part(&[], Way::Return(Operand::Held(1)))];

const RETURNS_STACK: [Part<'static>; 1] = [Part(&[], Way::Return(Operand::Stack))];

const ONE: Option<Operand> = Some(Operand::Number(1));

const TWO: Option<Operand> = Some(Operand::Number(2));

const RETURNS: Part<'static> = Part(&[], Way::Return(Operand::Held(0)));

const CALLS: [Part<'static>; 2] = [Part(&[TEXT], Way::Call(0, ONE, TWO, Some(0), 1)), RETURNS];

const CALLS_NONE: [Part<'static>; 2] = [Part(&[TEXT], Way::Call(2, ONE, TWO, Some(0), 1)), RETURNS];

const CALLS_ITSELF: [Part<'static>; 2] = [
    Part(&[TEXT], Way::Call(1, ONE, TWO, Some(0), 1)),
    RETURNS,
];

const PRINTS_NONE: [Part<'static>; 2] = [
    Part(
        &[Act::Plain(Op::Text { number: 1 })],
        Way::Call(0, ONE, TWO, Some(0), 1),
    ),
    RETURNS,
];

/// Blocks and parameters of function 0, and those of function 1; the number of main; the words of the global, of which the functions
/// see 3; whether the program is sound.
type Row = (
    &'static [Part<'static>],
    &'static [u32],
    &'static [Part<'static>],
    &'static [u32],
    u32,
    u32,
    bool,
);

const PROGRAMS: [Row; 10] = [
    (&CALLED, &[0, 1], &CALLS, &[], 1, 3, true),
    // the stack pointer is returned, there is no block, and two parameters are one
    (&RETURNS_STACK, &[0, 1], &CALLS, &[], 1, 3, false),
    (&[], &[0, 1], &CALLS, &[], 1, 3, false),
    (&CALLED, &[0, 0], &CALLS, &[], 1, 3, false),
    // calls of a function that is not there and of one with another number of parameters, and a text that is not there
    (&CALLED, &[0, 1], &CALLS_NONE, &[], 1, 3, false),
    (&CALLED, &[0, 1], &CALLS_ITSELF, &[], 1, 3, false),
    (&CALLED, &[0, 1], &PRINTS_NONE, &[], 1, 3, false),
    // a main that is not there, one with a parameter, and a global with more words than its array
    (&CALLED, &[0, 1], &CALLS, &[], 2, 3, false),
    (&CALLED, &[0, 1], &CALLS, &[0], 1, 3, false),
    (&CALLED, &[0, 1], &CALLS, &[], 1, 4, false),
];

const fn shape(parts: &'static [Part<'static>], parameters: &'static [u32]) -> Shape<'static> {
    Shape {
        parts,
        banks: &GENERALS,
        parameters,
        arrays: &SEEN,
    }
}

fn is_sound_program(alloc: Heap, row: &Row) -> Result<bool, NoMemory> {
    let functions = [shape(row.0, row.1), shape(row.2, row.3)];
    let globals = [Global {
        words: row.5,
        first: 0,
    }];
    let whole = Whole {
        functions: &functions,
        globals: &globals,
        main: row.4,
    };
    Ok(flow_is_sound(&program(alloc, &whole)?))
}

fn first_wrong_program(alloc: Heap) -> Result<usize, NoMemory> {
    for (number, row) in PROGRAMS.iter().enumerate() {
        if is_sound_program(alloc, row)? != row.6 {
            return Ok(number);
        }
    }
    Ok(PROGRAMS.len())
}

#[test]
fn sound_programs(rt: HostRuntime) -> Result<(), Fail> {
    assert_eq!(rt; first_wrong_program(rt.alloc())?, PROGRAMS.len());
    Ok(())
}
