// The forms of operations: their names, and what operation a text of each form can only be. specs/Forms.antt says the same.

ghost use Rattle.std.specs.Prelude.{◌≡◌, find};
ghost use Rattle.std.specs.Str.{bytes_eq};
ghost use Rattle.vx_reader.specs.Forms.{form_name, forms, code_to, trap_of, compute_of, move_of, select_of, load_of, store_of, branch_on_of, candidate, form_of};

use crate::fields::{branch, general, number, register, signed, skip, source};
use vx_base::arithmetic::{Code, Compare};
use vx_base::outcome::Trap;
use vx_isa::operation::{Operation, Register};
use vx_words::operation_text::name_of_code;

/// A form of an operation, with the code of those that have one.
#[derive(Clone, Copy)]
pub enum Form {
    Computes(Code),
    Moves,
    Selects,
    Loads { dismissible: bool },
    Stores,
    TakesInput,
    AsksInput,
    PrintsText,
    PrintsDecimal,
    PrintsByte,
    Goes,
    Branches { taken_at_one: bool },
    Calls,
    Returns,
    FromLink,
    ToLink,
    Traps,
    Halts,
}

/// Every form, by the name that stands for it. A compare has one name for both kinds of result.
const FORMS: [Form; 42] = [
    Form::Computes(Code::Add),
    Form::Computes(Code::Sub),
    Form::Computes(Code::And),
    Form::Computes(Code::Or),
    Form::Computes(Code::Xor),
    Form::Computes(Code::Shl),
    Form::Computes(Code::Shr),
    Form::Computes(Code::Shru),
    Form::Computes(Code::Sh2add),
    Form::Computes(Code::Max),
    Form::Computes(Code::Min),
    Form::Computes(Code::Mpylu),
    Form::Computes(Code::Mpyhs),
    Form::Computes(Code::Div),
    Form::Computes(Code::Rem),
    Form::Computes(Code::ToGeneral(Compare::Eq)),
    Form::Computes(Code::ToGeneral(Compare::Ne)),
    Form::Computes(Code::ToGeneral(Compare::Lt)),
    Form::Computes(Code::ToGeneral(Compare::Le)),
    Form::Computes(Code::ToGeneral(Compare::Gt)),
    Form::Computes(Code::ToGeneral(Compare::Ge)),
    Form::Computes(Code::ToGeneral(Compare::Ltu)),
    Form::Computes(Code::ToGeneral(Compare::Geu)),
    Form::Moves,
    Form::Selects,
    Form::Loads { dismissible: false },
    Form::Loads { dismissible: true },
    Form::Stores,
    Form::TakesInput,
    Form::AsksInput,
    Form::PrintsText,
    Form::PrintsDecimal,
    Form::PrintsByte,
    Form::Goes,
    Form::Branches { taken_at_one: true },
    Form::Branches {
        taken_at_one: false,
    },
    Form::Calls,
    Form::Returns,
    Form::FromLink,
    Form::ToLink,
    Form::Traps,
    Form::Halts,
];

fn name_of_form(form: Form) -> &'static [u8]
    ensures { result.now ≡ form_name form }
{
    match form {
        Form::Computes(code) => name_of_code(code),
        Form::Moves => b"mov",
        Form::Selects => b"slct",
        Form::Loads { dismissible } => if dismissible { b"ldw.d" } else { b"ldw" },
        Form::Stores => b"stw",
        Form::TakesInput => b"in",
        Form::AsksInput => b"more",
        Form::PrintsText => b"outs",
        Form::PrintsDecimal => b"outd",
        Form::PrintsByte => b"outb",
        Form::Goes => b"goto",
        Form::Branches { taken_at_one } => if taken_at_one { b"br" } else { b"brf" },
        Form::Calls => b"call",
        Form::Returns => b"return",
        Form::FromLink => b"mfl",
        Form::ToLink => b"mtl",
        Form::Traps => b"trap",
        Form::Halts => b"halt",
    }
}

// The first of these forms that has this name.
fn form_in(forms: &[Form], name: &[u8]) -> Option<Form>
    ensures { result ≡ find (λ form. bytes_eq (form_name form) name.now) forms.now }
{
    for form in forms {
        if name_of_form(*form) == name {
            return Some(*form);
        }
    }
    None
}

/// The form that a name stands for, if it is the name of one.
#[tactic(auto, unfolding(crate::specs::Forms::form_of))]
pub fn form_named(name: &[u8]) -> Option<Form>
    ensures { result ≡ form_of name.now }
{
    form_in(&FORMS, name)
}

fn code_for(code: Code, to: Register) -> Code
    ensures { result ≡ code_to code to }
{
    match code {
        Code::ToGeneral(compare) => match to {
            Register::Branch(_) => Code::ToBranch(compare),
            _ => code,
        },
        _ => code,
    }
}

fn trap_numbered(number: u32) -> Trap
    ensures { result ≡ trap_of number }
{
    match number {
        1 => Trap::Divide,
        2 => Trap::Index,
        3 => Trap::Input,
        _ => Trap::Depth,
    }
}

#[tactic(auto, unfolding(crate::specs::Forms::compute_of))]
fn compute(cluster: u32, code: Code, text: &[u8]) -> Operation
    ensures { result ≡ compute_of cluster code text.now }
{
    let (to, rest) = register(text);
    let (left, rest) = source(skip(rest, 3));
    let (right, _) = source(skip(rest, 2));
    Operation::Compute {
        cluster,
        code: code_for(code, to),
        to,
        left,
        right,
    }
}

#[tactic(auto, unfolding(crate::specs::Forms::move_of))]
fn move_text(cluster: u32, text: &[u8]) -> Operation
    ensures { result ≡ move_of cluster text.now }
{
    let (to, rest) = general(text);
    let (from, _) = source(skip(rest, 3));
    Operation::Move { cluster, to, from }
}

#[tactic(auto, unfolding(crate::specs::Forms::select_of))]
fn select(cluster: u32, text: &[u8]) -> Operation
    ensures { result ≡ select_of cluster text.now }
{
    let (to, rest) = general(text);
    let (test, rest) = branch(skip(rest, 3));
    let (left, rest) = source(skip(rest, 2));
    let (right, _) = source(skip(rest, 2));
    Operation::Select {
        cluster,
        to,
        test,
        left,
        right,
    }
}

#[tactic(auto, unfolding(crate::specs::Forms::load_of))]
fn load(cluster: u32, dismissible: bool, text: &[u8]) -> Operation
    ensures { result ≡ load_of cluster dismissible text.now }
{
    let (to, rest) = general(text);
    let (offset, rest) = signed(skip(rest, 3));
    let (base, _) = general(skip(rest, 1));
    Operation::Load {
        cluster,
        to,
        offset,
        base,
        dismissible,
    }
}

#[tactic(auto, unfolding(crate::specs::Forms::store_of))]
fn store(cluster: u32, text: &[u8]) -> Operation
    ensures { result ≡ store_of cluster text.now }
{
    let (offset, rest) = signed(text);
    let (base, rest) = general(skip(rest, 1));
    let (from, _) = source(skip(rest, 4));
    Operation::Store {
        cluster,
        offset,
        base,
        from,
    }
}

#[tactic(auto, unfolding(crate::specs::Forms::branch_on_of))]
fn branch_on(taken_at_one: bool, text: &[u8]) -> Operation
    ensures { result ≡ branch_on_of taken_at_one text.now }
{
    let (test, rest) = number(skip(text, 4));
    let (target, _) = number(skip(rest, 3));
    Operation::BranchOn {
        test,
        taken_at_one,
        target,
    }
}

/// The one operation of a form that a text can be. It may be spelled otherwise.
#[tactic(auto, unfolding(crate::specs::Forms::candidate))]
pub fn candidate_of(cluster: u32, form: Form, text: &[u8]) -> Operation
    ensures { result ≡ candidate cluster form text.now }
{
    match form {
        Form::Computes(code) => compute(cluster, code, text),
        Form::Moves => move_text(cluster, text),
        Form::Selects => select(cluster, text),
        Form::Loads { dismissible } => load(cluster, dismissible, text),
        Form::Stores => store(cluster, text),
        Form::TakesInput => Operation::Input {
            to: general(text).0,
        },
        Form::AsksInput => Operation::More {
            to: general(text).0,
        },
        Form::PrintsText => Operation::OutText {
            text: number(skip(text, 1)).0,
        },
        Form::PrintsDecimal => Operation::OutDecimal {
            from: source(text).0,
        },
        Form::PrintsByte => Operation::OutByte {
            from: source(text).0,
        },
        Form::Goes => Operation::Goto {
            target: number(skip(text, 1)).0,
        },
        Form::Branches { taken_at_one } => branch_on(taken_at_one, text),
        Form::Calls => Operation::Call {
            target: number(skip(text, 9)).0,
        },
        Form::Returns => Operation::Return,
        Form::FromLink => Operation::FromLink {
            to: general(text).0,
        },
        Form::ToLink => Operation::ToLink {
            from: source(skip(text, 8)).0,
        },
        Form::Traps => Operation::EndByTrap {
            trap: trap_numbered(number(text).0),
        },
        Form::Halts => Operation::Halt {
            from: source(text).0,
        },
    }
}
