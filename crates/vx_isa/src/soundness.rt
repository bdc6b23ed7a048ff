// Whether a program of words is one that the word text can spell. The clause is `is_sound` of
// specs/Sound.antt; docs/MACHINE.md has the forms.

ghost use Rattle.std.specs.Prelude.{◌≡◌, ◌↔◌, true, length};
ghost use Rattle.std.specs.List.{list_all};
ghost use Rattle.vx_isa.specs.Sound.{can_name_cluster, can_name, can_name_branch, can_spell, is_destination, is_sound_operation, is_sound_word, is_start, is_version, is_sound};

use crate::operation::{BranchRegister, GeneralRegister, Operation, Register, Source};
use crate::program::{Word, WordProgram};
use vx_base::arithmetic::Code;

/// The greatest memory of a program, in bytes.
pub const GREATEST_MEMORY: u32 = 134_217_728;

/// Whether the program is one that the word text can spell: the version is 1 or 2, every target, text number and start address that is
/// named is there, the start list is ascending and without zeros, the memory is a multiple of 4 and at most
/// `GREATEST_MEMORY` bytes, an empty time is at most 255 cycles and stands in a word without operations, and each
/// operation has operands of its form. It takes no memory.
pub fn sound(program: &WordProgram) -> bool
    ensures { result ≡ is_sound program.now }
{
    let words = program.words.len();
    let texts = program.texts.len();
    is_version(program.version)
        && program.memory % 4 == 0
        && program.memory <= GREATEST_MEMORY
        && is_start(program.memory, program.start.as_slice())
        && are_sound_words(program.words.as_slice(), words, texts)
}

fn is_version(version: u32) -> bool
    ensures { result ≡ is_version version }
{
    version == 1 || version == 2
}

/// Whether the addresses are multiples of 4, ascend and lie in the memory, and no number is 0.
fn is_start(memory: u32, start: &[(u32, i32)]) -> bool
    ensures { result ≡ is_start memory 0 start.now }
{
    let mut least: u32 = 0;
    for (address, number) in start {
        if *address < least || *address % 4 != 0 || *address >= memory || *number == 0 {
            return false;
        }
        least = *address + 1;
    }
    true
}

fn are_sound_words(list: &[Word], words: usize, texts: usize) -> bool
    ensures { result ≡ list_all (is_sound_word words texts) list.now }
{
    for word in list {
        if !is_sound_word(word, words, texts) {
            return false;
        }
    }
    true
}

/// A word with an operation has no empty time.
fn is_sound_word(word: &Word, words: usize, texts: usize) -> bool
    ensures { result ≡ is_sound_word words texts word.now }
{
    word.idle <= 255
        && (word.idle == 0 || word.ops.is_empty())
        && are_sound_operations(word.ops.as_slice(), words, texts)
}

fn are_sound_operations(ops: &[Operation], words: usize, texts: usize) -> bool
    ensures { result ≡ list_all (is_sound_operation words texts) ops.now }
{
    for op in ops {
        if !is_sound_operation(op, words, texts) {
            return false;
        }
    }
    true
}

/// Whether the operands are of the operation's form, and the place or text that it names is there, where there are so
/// many words and texts. It takes no memory.
pub fn is_sound_operation(op: &Operation, words: usize, texts: usize) -> bool
    ensures { result ≡ is_sound_operation words texts op.now }
{
    match op {
        Operation::Compute {
            cluster,
            code,
            to,
            left,
            right,
        } => {
            can_name_cluster(*cluster)
                && is_destination(*code, to)
                && can_spell(left)
                && can_spell(right)
        }
        Operation::Move { cluster, to, from } => {
            can_name_cluster(*cluster) && can_name(to) && can_spell(from)
        }
        Operation::Select {
            cluster,
            to,
            test,
            left,
            right,
        } => {
            can_name_cluster(*cluster)
                && can_name(to)
                && can_name_branch(test)
                && can_spell(left)
                && can_spell(right)
        }
        Operation::Load {
            cluster,
            to,
            base,
            ..
        } => can_name_cluster(*cluster) && can_name(to) && can_name(base),
        Operation::Store {
            cluster,
            base,
            from,
            ..
        } => can_name_cluster(*cluster) && can_name(base) && can_spell(from),
        Operation::Input { to } => can_name(to),
        Operation::More { to } => can_name(to),
        Operation::OutText { text } => (*text as usize) < texts,
        Operation::OutDecimal { from } => can_spell(from),
        Operation::OutByte { from } => can_spell(from),
        Operation::Goto { target } => (*target as usize) < words,
        Operation::BranchOn { test, target, .. } => *test <= 7 && (*target as usize) < words,
        Operation::Call { target } => (*target as usize) < words,
        Operation::Return => true,
        Operation::FromLink { to } => can_name(to),
        Operation::ToLink { from } => can_spell(from),
        Operation::EndByTrap { .. } => true,
        Operation::Halt { from } => can_spell(from),
    }
}

/// A text can name clusters 0 to 3.
fn can_name_cluster(cluster: u32) -> bool
    ensures { result ≡ can_name_cluster cluster }
{
    cluster <= 3
}

/// A text can name general registers 0 to 63.
fn can_name(register: &GeneralRegister) -> bool
    ensures { result ≡ can_name register.now }
{
    can_name_cluster(register.cluster) && register.number <= 63
}

/// A text can name branch registers 0 to 7.
fn can_name_branch(register: &BranchRegister) -> bool
    ensures { result ≡ can_name_branch register.now }
{
    can_name_cluster(register.cluster) && register.number <= 7
}

fn can_spell(source: &Source) -> bool
    ensures { result ≡ can_spell source.now }
{
    match source {
        Source::Held(register) => can_name(register),
        Source::Number(_) => true,
    }
}

/// A compare to a branch register writes one, every other code a general register; a move has a form of its own.
fn is_destination(code: Code, to: &Register) -> bool
    ensures { result ≡ is_destination code to.now }
{
    match (code, to) {
        (Code::Mov, _) => false,
        (Code::ToBranch(_), Register::Branch(register)) => can_name_branch(register),
        (Code::ToBranch(_), _) => false,
        (_, Register::General(register)) => can_name(register),
        (_, _) => false,
    }
}
