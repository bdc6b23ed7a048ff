// An operation, and how a block ends, as a line of text.

use crate::page::{Page, small};
use crate::view::Names;
use vx_base::arithmetic::Code;
use vx_base::listed::Bytes;
use vx_base::outcome::Trap;
use vx_dep::mode::Mode;
use vx_flow::graph::{ArrayId, BlockId, Exit, Op, Operand, Value};
use vx_flow::trace::TraceOp;
use vx_words::operation_text::name_of_code;

/// Puts a value.
pub fn put_value(page: &mut Page, value: Value) {
    page.field(b"v", value);
}

fn put_operand(page: &mut Page, operand: &Operand) {
    match operand {
        Operand::Held(value) => put_value(page, *value),
        Operand::Number(number) => page.signed(*number),
        Operand::Stack => page.put(b"sp"),
    }
}

/// Puts the value that an operation writes.
fn put_to(page: &mut Page, value: Value) {
    put_value(page, value);
    page.put(b" = ");
}

/// The bytes of a name or text, none where it is not there.
pub fn bytes_at(all: &[Bytes], number: u32) -> &[u8] {
    match all.get(number as usize) {
        Some(bytes) => bytes.as_slice(),
        None => &[],
    }
}

/// The name of an array in the source, no bytes where it is not known.
fn name_of_array<'a>(names: &Names<'a>, array: ArrayId, is_global: bool) -> &'a [u8] {
    if is_global {
        bytes_at(names.globals, array)
    } else {
        bytes_at(names.own, array.saturating_sub(small(names.globals.len())))
    }
}

/// Puts an array by its name; where that is not known, `g` and its number for a global, `a` and its number for one of the function's own.
fn put_array(page: &mut Page, names: &Names, array: ArrayId) {
    let is_global = match names.arrays.get(array as usize) {
        Some(found) => found.global,
        None => false,
    };
    let name = name_of_array(names, array, is_global);
    if name.is_empty() {
        page.field(if is_global { b"g" } else { b"a" }, array);
    } else {
        page.source(name);
    }
}

/// Puts the name of a function.
pub fn put_function(page: &mut Page, names: &Names, function: u32) {
    page.source(bytes_at(names.functions, function));
}

fn put_text(page: &mut Page, names: &Names, number: u32) {
    page.put(b"print ");
    page.quoted(bytes_at(names.texts, number));
}

fn put_pair(page: &mut Page, left: &Operand, right: &Operand) {
    put_operand(page, left);
    page.put(b", ");
    put_operand(page, right);
}

fn put_compute(page: &mut Page, code: Code, to: Value, left: &Operand, right: &Operand) {
    put_to(page, to);
    page.put(name_of_code(code));
    page.put(b" ");
    match code {
        Code::Mov => put_operand(page, left),
        _ => put_pair(page, left, right),
    }
}

fn put_select(page: &mut Page, to: Value, test: Value, left: &Operand, right: &Operand) {
    put_to(page, to);
    page.put(b"select ");
    put_value(page, test);
    page.put(b", ");
    put_pair(page, left, right);
}

fn put_element(page: &mut Page, names: &Names, array: ArrayId, place: &Operand) {
    put_array(page, names, array);
    page.put(b"[");
    put_operand(page, place);
    page.put(b"]");
}

fn put_load(page: &mut Page, names: &Names, to: Value, array: ArrayId, place: &Operand) {
    put_to(page, to);
    page.put(b"load ");
    put_element(page, names, array, place);
}

fn put_store(page: &mut Page, names: &Names, array: ArrayId, place: &Operand, from: &Operand) {
    page.put(b"store ");
    put_element(page, names, array, place);
    page.put(b", ");
    put_operand(page, from);
}

fn put_place(page: &mut Page, names: &Names, to: Value, array: ArrayId, index: &Operand) {
    put_to(page, to);
    page.put(b"place ");
    put_array(page, names, array);
    page.put(b", ");
    put_operand(page, index);
}

fn put_base(page: &mut Page, names: &Names, to: Value, array: ArrayId) {
    put_to(page, to);
    page.put(b"base ");
    put_array(page, names, array);
}

fn put_place_in(
    page: &mut Page,
    names: &Names,
    to: Value,
    array: ArrayId,
    base: Value,
    index: &Operand,
) {
    put_place(page, names, to, array, index);
    page.put(b" from ");
    put_value(page, base);
}

fn put_from_input(page: &mut Page, to: Value, name: &[u8]) {
    put_to(page, to);
    page.put(name);
}

fn put_decimal(page: &mut Page, from: &Operand) {
    page.put(b"print ");
    put_operand(page, from);
}

fn put_across(page: &mut Page, to: Value, from: Value) {
    put_to(page, to);
    page.put(b"copy ");
    put_value(page, from);
}

/// Puts an operation of a block.
pub fn put_op(page: &mut Page, names: &Names, op: &Op) {
    match op {
        Op::Compute {
            code,
            to,
            left,
            right,
        } => put_compute(page, *code, *to, left, right),
        Op::Select {
            to,
            test,
            left,
            right,
        } => put_select(page, *to, *test, left, right),
        Op::Place { to, array, index } => put_place(page, names, *to, *array, index),
        Op::Load {
            to,
            array,
            place,
            ..
        } => put_load(page, names, *to, *array, place),
        Op::Store { array, place, from } => put_store(page, names, *array, place, from),
        Op::More { to } => put_from_input(page, *to, b"more"),
        Op::Input { to } => put_from_input(page, *to, b"input"),
        Op::Text { number } => put_text(page, names, *number),
        Op::Decimal { from } => put_decimal(page, from),
        Op::Across { to, from } => put_across(page, *to, *from),
        Op::Base { to, array, .. } => put_base(page, names, *to, *array),
        Op::PlaceIn {
            to,
            array,
            base,
            index,
        } => put_place_in(page, names, *to, *array, *base, index),
    }
}

fn put_split(page: &mut Page, test: Value, leaves_when: bool, to: BlockId) {
    page.put(if leaves_when { b"if " } else { b"unless " });
    put_value(page, test);
    page.field(b" to block ", to);
}

/// Puts an operation of a trace.
pub fn put_trace_op(page: &mut Page, names: &Names, op: &TraceOp) {
    match op {
        TraceOp::Plain(op) => put_op(page, names, op),
        TraceOp::Split {
            test,
            leaves_when,
            edge,
            ..
        } => put_split(page, *test, *leaves_when, edge.to),
    }
}

fn put_arguments(page: &mut Page, arguments: &[Operand]) {
    for (place, argument) in arguments.iter().enumerate() {
        if place > 0 {
            page.put(b", ");
        }
        put_operand(page, argument);
    }
}

fn put_call(page: &mut Page, names: &Names, function: u32, arguments: &[Operand], next: BlockId) {
    page.put(b"call ");
    put_function(page, names, function);
    page.put(b"(");
    put_arguments(page, arguments);
    page.field(b"), then block ", next);
}

fn put_two_ways(page: &mut Page, test: Value, yes: BlockId, no: BlockId) {
    page.put(b"if ");
    put_value(page, test);
    page.field(b" to block ", yes);
    page.field(b", else to block ", no);
}

fn name_of_trap(trap: Trap) -> &'static [u8] {
    match trap {
        Trap::Divide => b"trap divide",
        Trap::Index => b"trap index",
        Trap::Input => b"trap input",
        Trap::Depth => b"trap depth",
    }
}

/// Puts how a block ends.
pub fn put_exit(page: &mut Page, names: &Names, exit: &Exit) {
    match exit {
        Exit::Goto(next) => page.field(b"to block ", *next),
        Exit::Split { test, yes, no } => put_two_ways(page, *test, *yes, *no),
        Exit::Call {
            function,
            arguments,
            result,
            next,
        } => {
            if let Some(value) = result {
                put_to(page, *value);
            }
            put_call(page, names, *function, arguments.as_slice(), *next);
        }
        Exit::Return(operand) => {
            page.put(b"return ");
            put_operand(page, operand);
        }
        Exit::Ends(trap) => page.put(name_of_trap(*trap)),
    }
}

/// Puts the name of a mode.
pub fn put_mode(page: &mut Page, mode: Mode) {
    match mode {
        Mode::Free => page.put(b"free"),
        Mode::Barred => page.put(b"barred"),
    }
}
