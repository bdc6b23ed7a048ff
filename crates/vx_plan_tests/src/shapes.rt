// What stands in the graphs of a few small programs: the index of a next element, a sum without a move, a compare that is
// tested, and the length of blocks.

use crate::sources::graphs_of;
use std::alloc::{AllocError, Global};
use std::test::Fail;
use vx_base::arithmetic::{Code, Compare};
use vx_base::outcome::NoMemory;
use vx_flow::graph::{Bank, Exit, Flow, Graph, Op, Operand, Value};

/// The operations of all blocks, one block after the other.
fn operations(alloc: Global, graph: &Graph) -> Result<Vec<Op>, NoMemory> {
    let mut all = Vec::new(alloc);
    for block in graph.blocks.as_slice() {
        all.extend_from_slice(block.ops.as_slice())?;
    }
    Ok(all)
}

/// The operations of the first function of a source; none where it is refused.
fn first_operations(alloc: Global, source: &str) -> Result<Vec<Op>, NoMemory> {
    match graphs_of(alloc, source)? {
        Some(flow) => operations_in(alloc, &flow),
        None => Ok(Vec::new(alloc)),
    }
}

fn operations_in(alloc: Global, flow: &Flow) -> Result<Vec<Op>, NoMemory> {
    match flow.functions.as_slice().first() {
        Some(graph) => operations(alloc, graph),
        None => Ok(Vec::new(alloc)),
    }
}

/// The places of the stores.
fn stored(alloc: Global, ops: &[Op]) -> Result<Vec<Operand>, NoMemory> {
    let mut places = Vec::new(alloc);
    for op in ops {
        match op {
            Op::Store { place, .. } => places.push(*place)?,
            _ => {}
        }
    }
    Ok(places)
}

/// The index of which a value is the place.
fn index_of(ops: &[Op], value: Operand) -> Option<Operand> {
    for op in ops {
        match op {
            Op::Place { to, index, .. } => {
                if Operand::Held(*to) == value {
                    return Some(*index);
                }
            }
            _ => {}
        }
    }
    None
}

/// What a value is the sum of.
fn summands_of(ops: &[Op], value: Operand) -> Option<(Operand, Operand)> {
    for op in ops {
        match op {
            Op::Compute {
                code: Code::Add,
                to,
                left,
                right,
            } => {
                if Operand::Held(*to) == value {
                    return Some((*left, *right));
                }
            }
            _ => {}
        }
    }
    None
}

/// Whether the index of the second place is the sum of the index of the first place and 1.
fn is_next(ops: &[Op], first: Operand, second: Operand) -> bool {
    match (index_of(ops, first), index_of(ops, second)) {
        (Some(one), Some(other)) => match summands_of(ops, other) {
            Some((left, right)) => left == one && right == Operand::Number(1),
            None => false,
        },
        _ => false,
    }
}

const NEXT: &str =
    "int a[8]; int main(void) { int i = read_int(); a[i] = 1; a[i + 1] = 2; return 0; }";

#[test]
fn next_index(rt: HostRuntime) -> Result<(), Fail> {
    let alloc = rt.alloc();
    let ops = first_operations(alloc, NEXT)?;
    let places = stored(alloc, ops.as_slice())?;
    let is_as_wanted = match places.as_slice() {
        [first, second] => is_next(ops.as_slice(), *first, *second),
        _ => false,
    };
    assert!(rt; is_as_wanted);
    Ok(())
}

/// Whether these are two scalars that are set to 0, and the sum of the second one and 1 in the first one.
fn is_one_sum(ops: &[Op]) -> bool {
    match ops {
        [
            Op::Compute {
                code: Code::Mov,
                ..
            },
            Op::Compute {
                code: Code::Mov,
                ..
            },
            Op::Compute {
                code: Code::Add,
                to: 0,
                left,
                right,
            },
        ] => *left == Operand::Held(1) && *right == Operand::Number(1),
        _ => false,
    }
}

#[test]
fn sum_without_move(rt: HostRuntime) -> Result<(), Fail> {
    let source = "int main(void) { int x, y; x = y + 1; return x; }";
    let ops = first_operations(rt.alloc(), source)?;
    assert!(rt; is_one_sum(ops.as_slice()));
    Ok(())
}

/// The branch value that tells whether the first scalar is below 5.
fn below_five(ops: &[Op]) -> Option<Value> {
    for op in ops {
        match op {
            Op::Compute {
                code: Code::ToBranch(Compare::Lt),
                to,
                left: Operand::Held(0),
                right: Operand::Number(5),
            } => return Some(*to),
            _ => {}
        }
    }
    None
}

fn is_general_compare(op: &Op) -> bool {
    match op {
        Op::Compute {
            code: Code::ToGeneral(_),
            ..
        } => true,
        _ => false,
    }
}

fn tests_by(exit: &Exit, value: Value) -> bool {
    match exit {
        Exit::Split { test, .. } => *test == value,
        _ => false,
    }
}

/// Whether some block is left by a test of a branch value.
fn is_tested(graph: &Graph, value: Value) -> bool {
    for block in graph.blocks.as_slice() {
        if tests_by(&block.exit, value) {
            return true;
        }
    }
    false
}

/// Whether the first scalar is compared with 5 in a branch value that is tested.
fn is_tested_directly(graph: &Graph, ops: &[Op]) -> bool {
    match below_five(ops) {
        Some(value) => {
            is_tested(graph, value)
                && graph.banks.as_slice().get(value as usize) == Some(&Bank::Branch)
        }
        None => false,
    }
}

fn tests_directly(flow: &Flow, ops: &[Op]) -> bool {
    match flow.functions.as_slice().first() {
        Some(graph) => is_tested_directly(graph, ops),
        None => false,
    }
}

/// Whether a source tests its first scalar below 5 directly, and makes no number of any compare.
fn is_direct(alloc: Global, source: &str) -> Result<bool, NoMemory> {
    let ops = first_operations(alloc, source)?;
    let without = !ops.as_slice().iter().any(|op| is_general_compare(op));
    match graphs_of(alloc, source)? {
        Some(flow) => Ok(without && tests_directly(&flow, ops.as_slice())),
        None => Ok(false),
    }
}

#[test]
fn tests_without_numbers(rt: HostRuntime) -> Result<(), Fail> {
    let alloc = rt.alloc();
    let plain = "int main(void) { int x = read_int(); if (x < 5) return 1; return 0; }";
    let mixed = "int main(void) { int x = read_int(); while (!(x < 5) && (x > 9 || x == 7)) x--; }";
    let number = "int main(void) { int x = read_int(); return x < 5; }";
    assert!(rt; is_direct(alloc, plain)?);
    assert!(rt; is_direct(alloc, mixed)?);
    assert!(rt; !is_direct(alloc, number)?);
    Ok(())
}

/// A main that adds 1 to its scalar so many times and returns it.
fn counting(alloc: Global, times: u32) -> Result<String, AllocError> {
    let mut source = String::from_str(alloc, "int main(void) { int x; ")?;
    for _ in 0..times {
        source.push_str("x++; ")?;
    }
    source.push_str("return x; }")?;
    Ok(source)
}

/// The most operations of a block of a graph.
fn longest(graph: &Graph) -> usize {
    let mut most = 0;
    for block in graph.blocks.as_slice() {
        if block.ops.len() > most {
            most = block.ops.len();
        }
    }
    most
}

fn longest_of(alloc: Global, source: &str) -> Result<usize, NoMemory> {
    match graphs_of(alloc, source)? {
        Some(flow) => Ok(
            flow.functions
                .as_slice()
                .first()
                .map_or(0, |graph| longest(graph)),
        ),
        None => Ok(0),
    }
}

#[test]
fn long_code(rt: HostRuntime) -> Result<(), Fail> {
    let alloc = rt.alloc();
    let source = counting(alloc, 600)?;
    assert_eq!(rt; longest_of(alloc, source.as_str())?, 512);
    Ok(())
}
