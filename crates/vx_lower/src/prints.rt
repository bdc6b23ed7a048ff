// The code of a print: the pieces of its format, one after the other.

ghost use Rattle.std.specs.Prelude.{◌≡◌, ℕ, List, [], ◌∷◌, ◌++◌, drop, IfOk, OnOk};
ghost use Rattle.vx_ast.specs.Meaning.{ANumber, Piece, pieces_of};
ghost use Rattle.vx_flow.specs.declared.graph.Operand.{Operand as AnOperand};
ghost use Rattle.vx_lower.specs.Builds.{Ready};
ghost use Rattle.vx_lower.specs.StatementFits.{ShowsWell};
ghost use Rattle.vx_lower.specs.Makes.{Shifts, Showed, bytes_of, to_show};

use crate::builder::Builder;
use std::alloc::Global;
use std::mem;
use vx_base::listed::{Bytes, Listed};
use vx_base::outcome::NoMemory;
use vx_flow::graph::{Op, Operand};

/// How far the format of a print is read.
#[derive(Drop)]
pub struct Format {
    /// The bytes that are read and not shown yet.
    pub text: Bytes,
    /// Whether the last byte was the first one of a directive.
    pub directive: bool,
    /// How many arguments are shown.
    pub next: usize,
}

const PERCENT: u8 = 37;

const DECIMAL: u8 = 100;

/// The bytes that are read are shown as a text of the program.
fn show_text(
    b: &mut Builder,
    alloc: Global,
    texts: &mut Listed<Bytes>,
    format: &mut Format,
) -> Result<(), NoMemory>
    ensures code { OnOk result ((format.new ≡ record format.old { text = [] }) × (Ready b.old → (ps : List Piece) (os : List AnOperand) → Shifts (bytes_of format.old.text ++ ps) os ps os b.old b.new texts.old texts.new)) }
    ensures fits { OnOk result (ShowsWell [] b.old b.new texts.old texts.new) }
{
    if format.text.is_empty() {
        return Ok(());
    }
    let text = mem::replace(&mut format.text, Listed::new(alloc));
    let number = texts.len();
    texts.push(text)?;
    b.put(
        alloc,
        Op::Text {
            number: number as u32,
        },
    )
}

/// The next argument is shown as a number.
fn show_number(
    b: &mut Builder,
    alloc: Global,
    arguments: &[Operand],
    next: usize,
) -> Result<usize, NoMemory>
    ensures code { IfOk result (λ n. Ready b.old → (ps : List Piece) (texts : List (List ℕ)) → Shifts (ANumber ∷ ps) (drop next arguments.now) ps (drop n arguments.now) b.old b.new texts texts) }
    ensures fits { IfOk result (λ n. (texts : List (List ℕ)) → ShowsWell arguments.now b.old b.new texts texts) }
{
    if next < arguments.len() {
        b.put(
            alloc,
            Op::Decimal {
                from: arguments[next],
            },
        )?;
        return Ok(next + 1);
    }
    Ok(next)
}

/// A byte of the format.
fn show_byte(
    b: &mut Builder,
    alloc: Global,
    texts: &mut Listed<Bytes>,
    arguments: &[Operand],
    format: &mut Format,
    byte: u8,
) -> Result<(), NoMemory>
    ensures code { OnOk result (Ready b.old → (bs : List ℕ) → Shifts (to_show format.old (byte ∷ bs)) (drop format.old.next arguments.now) (to_show format.new bs) (drop format.new.next arguments.now) b.old b.new texts.old texts.new) }
    ensures fits { OnOk result (ShowsWell arguments.now b.old b.new texts.old texts.new) }
{
    if format.directive {
        if byte == DECIMAL {
            show_text(b, alloc, texts, format)?;
            format.next = show_number(b, alloc, arguments, format.next)?;
            format.directive = false;
            Ok(())
        } else {
            format.text.push(byte)?;
            format.directive = false;
            Ok(())
        }
    } else if byte == PERCENT {
        format.directive = true;
        Ok(())
    } else {
        format.text.push(byte)?;
        Ok(())
    }
}

/// The code that prints by a format whose escapes are read, the numbers from the arguments in their order.
pub fn show(
    b: &mut Builder,
    alloc: Global,
    texts: &mut Listed<Bytes>,
    bytes: &[u8],
    arguments: &[Operand],
) -> Result<(), NoMemory>
    ensures code { OnOk result (Ready b.old → Showed (pieces_of bytes.now) arguments.now b.old b.new texts.old texts.new) }
    ensures fits { OnOk result (ShowsWell arguments.now b.old b.new texts.old texts.new) }
{
    let mut format = Format {
        text: Listed::new(alloc),
        directive: false,
        next: 0,
    };
    for byte in bytes {
        show_byte(b, alloc, texts, arguments, &mut format, *byte)?;
    }
    show_text(b, alloc, texts, &mut format)
}
