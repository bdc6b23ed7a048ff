// Reads the operation of a line, as specs/Reading.antt says.

ghost use Rattle.std.specs.Prelude.{◌≡◌, ◌+◌, ◌≤◌, length, IfOk, OnOk, ◌++◌};
ghost use Rattle.std.specs.List.{list_all, prefix_len};
ghost use Rattle.vx_reader.specs.Fields.{is_digit};
ghost use Rattle.vx_reader.specs.Reading.{Gives, is_number, is_numbered, branch_front, has_form, texts_named, has_operands, is_field, operation_of};
ghost use Rattle.vx_words.specs.Spelling.{target_of};

use crate::fault::LineFault;
use crate::fields::{byte_at, is_digit, skip};
use crate::form::{candidate_of, form_named};
use std::alloc::Global;
use vx_base::outcome::NoMemory;
use vx_isa::is_sound_operation;
use vx_isa::operation::Operation;
use vx_words::operation_text::{push_body, push_bytes, push_number};
use vx_words::program_text::target_of_operation;

fn are_digits(text: &[u8]) -> bool
    ensures { result ≡ list_all is_digit text.now }
{
    for byte in text {
        if !is_digit(*byte) {
            return false;
        }
    }
    true
}

/// Whether the text is a number: digits, at least one, without a leading zero.
pub fn is_number_text(text: &[u8]) -> bool
    ensures { result ≡ is_number text.now }
{
    are_digits(text) && !text.is_empty() && (byte_at(text, 0) != 48 || text.len() == 1)
}

fn is_numbered_text(front: &[u8], text: &[u8]) -> bool
    ensures { result ≡ is_numbered front.now text.now }
{
    text.starts_with(front) && is_number_text(skip(text, front.len()))
}

fn push_branch_front(out: &mut Vec<u8>, test: u32, taken_at_one: bool) -> Result<(), NoMemory>
    ensures { OnOk result (out.new.items ≡ out.old.items ++ branch_front test taken_at_one) }
{
    let name: &[u8] = if taken_at_one {
        b"br $b0."
    } else {
        b"brf $b0."
    };
    push_bytes(out, name)?;
    push_number(out, test as usize)?;
    push_bytes(out, b", L")
}

#[tactic(auto, unfolding(crate::specs::Reading::has_form))]
fn is_of_form(alloc: Global, operation: Operation, text: &[u8]) -> Result<bool, NoMemory>
    ensures { IfOk result (λ same. same ≡ has_form operation text.now) }
{
    let mut spelled = Vec::new(alloc);
    match operation {
        Operation::Goto { .. } => Ok(is_numbered_text(b"goto L", text)),
        Operation::Call { .. } => Ok(is_numbered_text(b"call $l0.0 = L", text)),
        Operation::BranchOn {
            test,
            taken_at_one,
            ..
        } => {
            push_branch_front(&mut spelled, test, taken_at_one)?;
            Ok(is_numbered_text(spelled.as_slice(), text))
        },
        _ => {
            push_body(&mut spelled, operation)?;
            Ok(spelled.as_slice() == text)
        },
    }
}

/// How many texts there are at least where an operation's text is there.
pub fn texts_of(operation: Operation) -> usize
    ensures { result ≡ texts_named operation }
{
    match operation {
        Operation::OutText { text } => text as usize + 1,
        _ => 0,
    }
}

#[tactic(auto, unfolding(crate::specs::Reading::has_operands))]
fn operands_are_named(operation: Operation) -> bool
    ensures { result ≡ has_operands operation }
{
    let target = target_of_operation(operation).unwrap_or(0);
    is_sound_operation(&operation, target as usize + 1, texts_of(operation))
}

/// How many bytes stand before the first blank.
pub fn field_end(text: &[u8]) -> usize
    ensures length { result ≤ length text.now }
    ensures end { result ≡ prefix_len is_field text.now }
{
    for (place, byte) in text.iter().enumerate() {
        if *byte == 32 {
            return place;
        }
    }
    text.len()
}

/// The operation that a text behind a cluster and its blank is, or the code of its fault.
#[tactic(auto, unfolding(crate::specs::Reading::operation_of, crate::specs::Reading::operation_by))]
pub fn read_operation(alloc: Global, cluster: u32, text: &[u8]) -> Result<Operation, LineFault>
    ensures { Gives (λ x. x) result (operation_of cluster text.now) }
{
    let end = field_end(text);
    match form_named(&text[..end]) {
        None => Err(LineFault::Code(2)),
        Some(form) => {
            let operation = candidate_of(cluster, form, skip(text, end + 1));
            if is_of_form(alloc, operation, text)? && operands_are_named(operation) {
                Ok(operation)
            } else {
                Err(LineFault::Code(3))
            }
        },
    }
}
