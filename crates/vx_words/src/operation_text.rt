// Writes the text of one operation at the end of a list of bytes. The forms are those of specs/Spelling.antt.

ghost use Rattle.std.specs.Prelude.{◌≡◌, ◌++◌, ◌∷◌, [], decimal, OnOk};
ghost use Rattle.std.specs.Fmt.{signed_decimal};
ghost use Rattle.vx_words.specs.Spelling.{general_text, branch_text, register_text, source_text, label_text, address_text, compare_name, code_name, trap_number, compute_text, select_text, load_text, store_text, branch_on_text, body_text, operation_line};

use itoa::Buffer;
use vx_base::arithmetic::{Code, Compare};
use vx_base::outcome::{NoMemory, Trap};
use vx_isa::operation::{BranchRegister, GeneralRegister, Operation, Register, Source};

/// Puts bytes at the end.
pub fn push_bytes(out: &mut Vec<u8>, bytes: &[u8]) -> Result<(), NoMemory>
    ensures { OnOk result (out.new.items ≡ out.old.items ++ bytes.now) }
{
    out.extend_from_slice(bytes)?;
    Ok(())
}

/// Puts a number in decimal at the end.
pub fn push_number(out: &mut Vec<u8>, number: usize) -> Result<(), NoMemory>
    ensures { OnOk result (out.new.items ≡ out.old.items ++ decimal number) }
{
    let mut buffer = Buffer::new();
    push_bytes(out, buffer.format(number).as_bytes())
}

/// Puts a signed number in decimal at the end, with `-` where it is negative.
pub fn push_signed(out: &mut Vec<u8>, number: i32) -> Result<(), NoMemory>
    ensures { OnOk result (out.new.items ≡ out.old.items ++ signed_decimal number) }
{
    let mut buffer = Buffer::new();
    push_bytes(out, buffer.format(number).as_bytes())
}

fn push_general(out: &mut Vec<u8>, register: GeneralRegister) -> Result<(), NoMemory>
    ensures { OnOk result (out.new.items ≡ out.old.items ++ general_text register) }
{
    push_named_number(out, b"$r", register.cluster)?;
    push_named_number(out, b".", register.number)
}

fn push_branch(out: &mut Vec<u8>, register: BranchRegister) -> Result<(), NoMemory>
    ensures { OnOk result (out.new.items ≡ out.old.items ++ branch_text register) }
{
    push_named_number(out, b"$b", register.cluster)?;
    push_named_number(out, b".", register.number)
}

fn push_register(out: &mut Vec<u8>, register: Register) -> Result<(), NoMemory>
    ensures { OnOk result (out.new.items ≡ out.old.items ++ register_text register) }
{
    match register {
        Register::General(general) => push_general(out, general),
        Register::Branch(branch) => push_branch(out, branch),
        Register::Link => push_bytes(out, b"$l0.0"),
    }
}

fn push_source(out: &mut Vec<u8>, source: Source) -> Result<(), NoMemory>
    ensures { OnOk result (out.new.items ≡ out.old.items ++ source_text source) }
{
    match source {
        Source::Held(register) => push_general(out, register),
        Source::Number(number) => push_signed(out, number),
    }
}

/// Puts the name of a place, `Lp`, at the end.
pub fn push_label(out: &mut Vec<u8>, place: usize) -> Result<(), NoMemory>
    ensures { OnOk result (out.new.items ≡ out.old.items ++ label_text place) }
{
    push_bytes(out, b"L")?;
    push_number(out, place)
}

fn push_address(out: &mut Vec<u8>, offset: i32, base: GeneralRegister) -> Result<(), NoMemory>
    ensures { OnOk result (out.new.items ≡ out.old.items ++ address_text offset base) }
{
    push_signed(out, offset)?;
    push_named_general(out, b"[", base)?;
    push_bytes(out, b"]")
}

fn name_of_compare(compare: Compare) -> &'static [u8]
    ensures { result.now ≡ compare_name compare }
{
    match compare {
        Compare::Eq => b"cmpeq",
        Compare::Ne => b"cmpne",
        Compare::Lt => b"cmplt",
        Compare::Le => b"cmple",
        Compare::Gt => b"cmpgt",
        Compare::Ge => b"cmpge",
        Compare::Ltu => b"cmpltu",
        Compare::Geu => b"cmpgeu",
    }
}

pub fn name_of_code(code: Code) -> &'static [u8]
    ensures { result.now ≡ code_name code }
{
    match code {
        Code::Add => b"add",
        Code::Sub => b"sub",
        Code::And => b"and",
        Code::Or => b"or",
        Code::Xor => b"xor",
        Code::Shl => b"shl",
        Code::Shr => b"shr",
        Code::Shru => b"shru",
        Code::Sh2add => b"sh2add",
        Code::Max => b"max",
        Code::Min => b"min",
        Code::Mov => b"mov",
        Code::ToGeneral(compare) => name_of_compare(compare),
        Code::ToBranch(compare) => name_of_compare(compare),
        Code::Mpylu => b"mpylu",
        Code::Mpyhs => b"mpyhs",
        Code::Div => b"div",
        Code::Rem => b"rem",
    }
}

fn number_of_trap(trap: Trap) -> u32
    ensures { result ≡ trap_number trap }
{
    match trap {
        Trap::Divide => 1,
        Trap::Index => 2,
        Trap::Input => 3,
        Trap::Depth => 4,
    }
}

/// Puts a blank and the destination at the end, and ` = `.
fn push_general_to(out: &mut Vec<u8>, name: &[u8], to: GeneralRegister) -> Result<(), NoMemory>
    ensures { OnOk result (out.new.items ≡ out.old.items ++ name.now ++ general_text to ++ 32 ∷ 61 ∷ 32 ∷ []) }
{
    push_named_general(out, name, to)?;
    push_bytes(out, b" = ")
}

fn push_pair(out: &mut Vec<u8>, left: Source, right: Source) -> Result<(), NoMemory>
    ensures { OnOk result (out.new.items ≡ out.old.items ++ source_text left ++ 44 ∷ 32 ∷ [] ++ source_text right) }
{
    push_source(out, left)?;
    push_named_source(out, b", ", right)
}

fn push_compute(
    out: &mut Vec<u8>,
    code: Code,
    to: Register,
    left: Source,
    right: Source,
) -> Result<(), NoMemory>
    ensures { OnOk result (out.new.items ≡ out.old.items ++ compute_text code to left right) }
{
    push_bytes(out, name_of_code(code))?;
    push_bytes(out, b" ")?;
    push_register(out, to)?;
    push_bytes(out, b" = ")?;
    push_pair(out, left, right)
}

fn push_select(
    out: &mut Vec<u8>,
    to: GeneralRegister,
    test: BranchRegister,
    left: Source,
    right: Source,
) -> Result<(), NoMemory>
    ensures { OnOk result (out.new.items ≡ out.old.items ++ select_text to test left right) }
{
    push_general_to(out, b"slct ", to)?;
    push_branch(out, test)?;
    push_bytes(out, b", ")?;
    push_pair(out, left, right)
}

fn push_load(
    out: &mut Vec<u8>,
    to: GeneralRegister,
    offset: i32,
    base: GeneralRegister,
    dismissible: bool,
) -> Result<(), NoMemory>
    ensures { OnOk result (out.new.items ≡ out.old.items ++ load_text to offset base dismissible) }
{
    let name: &[u8] = if dismissible { b"ldw.d " } else { b"ldw " };
    push_general_to(out, name, to)?;
    push_address(out, offset, base)
}

fn push_store(
    out: &mut Vec<u8>,
    offset: i32,
    base: GeneralRegister,
    from: Source,
) -> Result<(), NoMemory>
    ensures { OnOk result (out.new.items ≡ out.old.items ++ store_text offset base from) }
{
    push_bytes(out, b"stw ")?;
    push_address(out, offset, base)?;
    push_named_source(out, b" = ", from)
}

fn push_branch_on(
    out: &mut Vec<u8>,
    test: u32,
    taken_at_one: bool,
    target: u32,
) -> Result<(), NoMemory>
    ensures { OnOk result (out.new.items ≡ out.old.items ++ branch_on_text test taken_at_one target) }
{
    let name: &[u8] = if taken_at_one {
        b"br $b0."
    } else {
        b"brf $b0."
    };
    push_named_number(out, name, test)?;
    push_named_label(out, b", ", target)
}

fn push_named_general(
    out: &mut Vec<u8>,
    name: &[u8],
    register: GeneralRegister,
) -> Result<(), NoMemory>
    ensures { OnOk result (out.new.items ≡ out.old.items ++ name.now ++ general_text register) }
{
    push_bytes(out, name)?;
    push_general(out, register)
}

fn push_named_source(out: &mut Vec<u8>, name: &[u8], source: Source) -> Result<(), NoMemory>
    ensures { OnOk result (out.new.items ≡ out.old.items ++ name.now ++ source_text source) }
{
    push_bytes(out, name)?;
    push_source(out, source)
}

/// Puts a number in decimal at the end, behind a name.
pub(crate) fn push_named_number(out: &mut Vec<u8>, name: &[u8], number: u32) -> Result<(), NoMemory>
    ensures { OnOk result (out.new.items ≡ out.old.items ++ name.now ++ decimal number) }
{
    push_bytes(out, name)?;
    push_number(out, number as usize)
}

fn push_named_label(out: &mut Vec<u8>, name: &[u8], target: u32) -> Result<(), NoMemory>
    ensures { OnOk result (out.new.items ≡ out.old.items ++ name.now ++ label_text target) }
{
    push_bytes(out, name)?;
    push_label(out, target as usize)
}

/// Puts at the end what stands behind an operation's cluster.
pub fn push_body(out: &mut Vec<u8>, operation: Operation) -> Result<(), NoMemory>
    ensures { OnOk result (out.new.items ≡ out.old.items ++ body_text operation) }
{
    match operation {
        Operation::Compute {
            cluster: _,
            code,
            to,
            left,
            right,
        } => push_compute(out, code, to, left, right),
        Operation::Move {
            cluster: _,
            to,
            from,
        } => {
            push_general_to(out, b"mov ", to)?;
            push_source(out, from)
        },
        Operation::Select {
            cluster: _,
            to,
            test,
            left,
            right,
        } => push_select(out, to, test, left, right),
        Operation::Load {
            cluster: _,
            to,
            offset,
            base,
            dismissible,
        } => push_load(out, to, offset, base, dismissible),
        Operation::Store {
            cluster: _,
            offset,
            base,
            from,
        } => push_store(out, offset, base, from),
        Operation::Input { to } => push_named_general(out, b"in ", to),
        Operation::More { to } => push_named_general(out, b"more ", to),
        Operation::OutText { text } => push_named_number(out, b"outs T", text),
        Operation::OutDecimal { from } => push_named_source(out, b"outd ", from),
        Operation::OutByte { from } => push_named_source(out, b"outb ", from),
        Operation::Goto { target } => push_named_label(out, b"goto ", target),
        Operation::BranchOn {
            test,
            taken_at_one,
            target,
        } => push_branch_on(out, test, taken_at_one, target),
        Operation::Call { target } => push_named_label(out, b"call $l0.0 = ", target),
        Operation::Return => push_bytes(out, b"return $l0.0"),
        Operation::FromLink { to } => {
            push_named_general(out, b"mfl ", to)?;
            push_bytes(out, b" = $l0.0")
        },
        Operation::ToLink { from } => push_named_source(out, b"mtl $l0.0 = ", from),
        Operation::EndByTrap { trap } => push_named_number(out, b"trap ", number_of_trap(trap)),
        Operation::Halt { from } => push_named_source(out, b"halt ", from),
    }
}

/// Puts the line of an operation at the end.
pub fn push_operation_line(out: &mut Vec<u8>, operation: Operation) -> Result<(), NoMemory>
    ensures { OnOk result (out.new.items ≡ out.old.items ++ operation_line operation) }
{
    push_named_number(out, b"c", operation.cluster())?;
    push_bytes(out, b" ")?;
    push_body(out, operation)?;
    push_bytes(out, b"\n")
}
