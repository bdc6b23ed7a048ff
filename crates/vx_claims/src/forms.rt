// Operations in another form with the same result. What was moved is read where it was moved from, and what stands in a value
// already is moved from there.

ghost use Rattle.std.specs.Prelude.{◌≡◌};
ghost use Rattle.vx_claims.specs.Forming.{computed_as, form, formed, is_readable, moves, read, read_if, source_of};

use crate::access::{Access, with_words};
use crate::fact::Fact;
use crate::fact_list::FactList;
use crate::known::found_in;
use crate::sums::based;
use vx_base::arithmetic::Code;
use vx_flow::graph::{Op, Operand, Value};
use vx_flow::operands::{first_operand, second_operand, with_two};

/// Whether a code is a move into a value.
fn moves(value: Value, to: Value, code: Code) -> bool
    ensures { result ≡ moves value to code }
{
    match code {
        Code::Mov => to == value,
        _ => false,
    }
}

/// From where a value was moved, and the value itself where it was not.
fn source_of(facts: &[Fact], value: Value) -> Operand
    ensures { result ≡ source_of facts.now value }
{
    for fact in facts {
        match *fact {
            Fact::Between { .. } | Fact::Congruent { .. } | Fact::Never => {}
            Fact::Equals {
                value: to,
                code,
                left,
                ..
            } => {
                if moves(value, to, code) {
                    return left;
                }
            }
        }
    }
    Operand::Held(value)
}

/// The same by the facts of a list.
#[tactic(auto, using(crate::proofs::Covering::unlinked_source))]
fn source_in(facts: &FactList, value: Value) -> Operand
    ensures { result ≡ source_of facts.now value }
{
    if facts.is_linked(value) {
        source_of(facts.as_slice(), value)
    } else {
        Operand::Held(value)
    }
}

/// An operand that holds the same.
pub fn read(facts: &FactList, operand: Operand) -> Operand
    ensures { result ≡ read facts.now operand }
{
    match operand {
        Operand::Held(value) => source_in(facts, value),
        Operand::Number(number) => Operand::Number(number),
        Operand::Stack => Operand::Stack,
    }
}

fn is_readable(code: Code) -> bool
    ensures { result ≡ is_readable code }
{
    match code {
        Code::Mov => false,
        Code::ToBranch(_) => false,
        _ => true,
    }
}

fn read_if(
    test: bool,
    code: Code,
    to: Value,
    left: Operand,
    right: Operand,
    place: Option<Value>,
) -> Op
    ensures { result ≡ read_if test code to left right place }
{
    let op = Op::Compute {
        code,
        to,
        left,
        right,
    };
    if !test {
        return op;
    }
    match place {
        Some(value) => Op::Compute {
            code: Code::Mov,
            to,
            left: Operand::Held(value),
            right: Operand::Number(0),
        },
        None => op,
    }
}

fn computed_as(facts: &FactList, code: Code, to: Value, left: Operand, right: Operand) -> Op
    ensures { result ≡ computed_as facts.now code to left right }
{
    read_if(
        is_readable(code),
        code,
        to,
        left,
        right,
        found_in(facts, code, left, right),
    )
}

/// The operation with its operands read where they were moved from, or a move of its result from where it stands already.
fn formed(facts: &FactList, op: &Op) -> Op
    ensures { result ≡ formed facts.now op.now }
{
    match *op {
        Op::Compute {
            code,
            to,
            left,
            right,
        } => {
            let based = based(facts, code, read(facts, left), read(facts, right));
            computed_as(facts, based.code, to, based.left, based.right)
        }
        _ => with_two(
            op,
            read(facts, first_operand(op)),
            read(facts, second_operand(op)),
        ),
    }
}

/// The same, and a move where it is a load of a word that an operand holds.
pub fn form(facts: &FactList, known: &[Access], op: &Op) -> Op
    ensures { result ≡ form facts.now known.now op.now }
{
    with_words(known, formed(facts, op))
}
