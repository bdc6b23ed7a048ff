// What the top call answers, and the line that it puts for it.

ghost use Rattle.std.specs.Prelude.{◌≡◌, ◌++◌, ◌∷◌, [], codes, decimal};
ghost use Rattle.vx_machine.specs.Descriptions.{name_of};
ghost use Rattle.vx_status.specs.Status.{number_of, role_name, reason_name, breach_name, counted, twice_counted, field_words, trap_line, status_line, Puts, Tells, Adds};

use vx_base::outcome::{Reason, Trap};
use vx_io::role::Role;
use vx_io::sink::{Sink, SinkFault, put_all};
use vx_machine::field_name;

/// How a word breaks what a strict program keeps.
#[derive(Clone, Copy)]
pub enum Breach {
    /// The word exceeds the machine.
    Unfit,
    /// On some path the word reads a register while a write to it may be in flight.
    Pending,
}

/// How a command ended. docs/PROMISES.md says when each comes.
#[derive(Clone, Copy)]
pub enum Status {
    /// The command's work is done.
    Done,
    /// The run ended with this trap.
    Trapped(Trap),
    /// The words are no command line, or no box has a name that they ask for.
    Usage,
    /// The source has this fault at this line and column, both counted from 1, the column in bytes.
    Source { code: u32, line: u32, column: u32 },
    /// The counted quantity is over the limit of this number. The count is the whole one, but of the bytes of a file and of
    /// nested constructs, where it is one past the limit. Limit 9 is that of the bytes of a text of words, limit 10 of a
    /// profile, limit 11 of a description, limit 12 of an input.
    Limit { number: u32, count: u64 },
    /// The text of words has this fault at this line, from 1; line 0 is the whole text.
    Words { code: u32, line: u32 },
    /// This line of the profile is the first bad one, from 1: outside the grammar (code 1), or with a count over 2^64 - 1
    /// (code 2).
    Profile { code: u32, line: u32 },
    /// The description of the machine has this fault at the field of this number in the table, from 1; codes 1 and 4
    /// have the field 0.
    Machine { code: u32, field: u32 },
    /// There is no file of this role.
    NoFile(Role),
    /// The file of this role cannot be read.
    ReadFault(Role),
    /// A file or an output cannot be written.
    WriteFault,
    /// Exactly the words that were asked for were issued, or blocks run, and none ended the program.
    Stopped,
    /// The word of the input's text that begins at this byte, from 0, is no decimal number of 32 bits.
    Input(u32),
    /// The word at this place is stuck for this reason.
    Stuck(Reason, u32),
    /// Memory is wanted and not there.
    NoMemory,
    /// The word at this place breaks what a strict program keeps, for this reason.
    NotStrict(Breach, u32),
}

impl Status {
    /// The status with which the program ends.
    pub fn number(self) -> u8
        ensures { result ≡ number_of self }
    {
        match self {
            Status::Done => 0,
            Status::Trapped(_) => 1,
            Status::Usage => 2,
            Status::Source { .. } => 3,
            Status::Limit { .. } => 4,
            Status::Words { .. } => 5,
            Status::Profile { .. } => 6,
            Status::Machine { .. } => 7,
            Status::NoFile(_) => 8,
            Status::ReadFault(_) => 9,
            Status::WriteFault => 10,
            Status::Stopped => 11,
            Status::Input(_) => 12,
            Status::Stuck(_, _) => 13,
            Status::NoMemory => 14,
            Status::NotStrict(_, _) => 15,
        }
    }
}

/// The word of a role in a line.
fn role_name(role: Role) -> &'static str
    ensures { result.now ≡ role_name role }
{
    match role {
        Role::Source => "source",
        Role::Words => "words",
        Role::Profile => "profile",
        Role::Machine => "machine",
        Role::Input => "input",
    }
}

/// Puts bytes.
pub fn put<E: Sink>(err: &mut E, bytes: &[u8]) -> Result<(), SinkFault>
    ensures { Puts result bytes.now (E.told err.old) (E.told err.new) (E.faults err.old) (E.faults err.new) }
{
    put_all(err, bytes)
}

/// Puts a text.
pub fn put_text<E: Sink>(err: &mut E, text: &str) -> Result<(), SinkFault>
    ensures { Puts result text.now (E.told err.old) (E.told err.new) (E.faults err.old) (E.faults err.new) }
{
    put(err, text.as_bytes())
}

/// Puts a number in decimal.
fn put_number<E: Sink>(err: &mut E, number: u64) -> Result<(), SinkFault>
    ensures { Puts result (decimal number) (E.told err.old) (E.told err.new) (E.faults err.old) (E.faults err.new) }
{
    let mut buffer = itoa::Buffer::new();
    put(err, buffer.format(number).as_bytes())
}

/// Puts some words, and a number in decimal behind them.
pub fn put_counted<E: Sink>(err: &mut E, words: &[u8], number: u64) -> Result<(), SinkFault>
    ensures { Puts result (counted words.now number) (E.told err.old) (E.told err.new) (E.faults err.old) (E.faults err.new) }
{
    put(err, words)?;
    put_number(err, number)
}

/// Puts some words, a number in decimal behind them, and a line feed.
fn put_counted_line<E: Sink>(err: &mut E, words: &[u8], number: u64) -> Result<(), SinkFault>
    ensures { Puts result (counted words.now number ++ 10 ∷ []) (E.told err.old) (E.told err.new) (E.faults err.old) (E.faults err.new) }
{
    put_counted(err, words, number)?;
    put(err, b"\n")
}

/// Puts some words, and a name behind them.
fn put_named<E: Sink>(err: &mut E, words: &[u8], name: &str) -> Result<(), SinkFault>
    ensures { Puts result (words.now ++ name.now) (E.told err.old) (E.told err.new) (E.faults err.old) (E.faults err.new) }
{
    put(err, words)?;
    put_text(err, name)
}

/// Puts some words and a number, more words and another number, and a line feed.
fn put_twice_counted<E: Sink>(
    err: &mut E,
    words: &[u8],
    number: u64,
    more: &[u8],
    other: u64,
) -> Result<(), SinkFault>
    ensures { Puts result (twice_counted words.now number more.now other) (E.told err.old) (E.told err.new) (E.faults err.old) (E.faults err.new) }
{
    put_counted(err, words, number)?;
    put_counted_line(err, more, other)
}

/// Puts the place and the code of a fault of the source.
fn put_source_line<E: Sink>(err: &mut E, code: u32, line: u32, column: u32) -> Result<(), SinkFault>
    ensures { Puts result (status_line (Status.Source code line column)) (E.told err.old) (E.told err.new) (E.faults err.old) (E.faults err.new) }
{
    put_counted(err, b"source S", u64::from(code))?;
    put_twice_counted(err, b" at ", u64::from(line), b":", u64::from(column))
}

/// Puts the number of a limit and the count that is over it.
fn put_limit_line<E: Sink>(err: &mut E, number: u32, count: u64) -> Result<(), SinkFault>
    ensures { Puts result (status_line (Status.Limit number count)) (E.told err.old) (E.told err.new) (E.faults err.old) (E.faults err.new) }
{
    put_twice_counted(err, b"limit L", u64::from(number), b" at ", count)
}

/// Puts a blank and the name of a field.
fn put_field_name<E: Sink>(err: &mut E, field: u32) -> Result<(), SinkFault>
    ensures { Puts result (codes " " ++ name_of field) (E.told err.old) (E.told err.new) (E.faults err.old) (E.faults err.new) }
{
    put_named(err, b" ", field_name(field))
}

/// The same where there is a field.
fn put_field<E: Sink>(err: &mut E, field: u32) -> Result<(), SinkFault>
    ensures { Puts result (field_words field) (E.told err.old) (E.told err.new) (E.faults err.old) (E.faults err.new) }
{
    if field == 0 {
        Ok(())
    } else {
        put_field_name(err, field)
    }
}

/// Puts the code of a fault of a description, and the name of its field where it has one.
fn put_machine_line<E: Sink>(err: &mut E, code: u32, field: u32) -> Result<(), SinkFault>
    ensures { Puts result (status_line (Status.Machine code field)) (E.told err.old) (E.told err.new) (E.faults err.old) (E.faults err.new) }
{
    put_counted(err, b"machine M", u64::from(code))?;
    put_field(err, field)?;
    put(err, b"\n")
}

/// Puts some words, the name of a role, and a line feed.
fn put_role_line<E: Sink>(err: &mut E, words: &[u8], role: Role) -> Result<(), SinkFault>
    ensures { Puts result (words.now ++ role_name role ++ 10 ∷ []) (E.told err.old) (E.told err.new) (E.faults err.old) (E.faults err.new) }
{
    put_named(err, words, role_name(role))?;
    put(err, b"\n")
}

/// Puts the number and the word of a trap.
fn put_trap_line<E: Sink>(err: &mut E, trap: Trap) -> Result<(), SinkFault>
    ensures { Puts result (trap_line trap) (E.told err.old) (E.told err.new) (E.faults err.old) (E.faults err.new) }
{
    match trap {
        Trap::Divide => put(err, b"trap 1 divide\n"),
        Trap::Index => put(err, b"trap 2 index\n"),
        Trap::Input => put(err, b"trap 3 input\n"),
        Trap::Depth => put(err, b"trap 4 depth\n"),
    }
}

/// Puts the code of a fault of a text of words, and its line.
fn put_words_line<E: Sink>(err: &mut E, code: u32, line: u32) -> Result<(), SinkFault>
    ensures { Puts result (status_line (Status.Words code line)) (E.told err.old) (E.told err.new) (E.faults err.old) (E.faults err.new) }
{
    put_twice_counted(
        err,
        b"words V",
        u64::from(code),
        b" at line ",
        u64::from(line),
    )
}

/// Puts the code of a fault of a profile, and its line.
fn put_profile_line<E: Sink>(err: &mut E, code: u32, line: u32) -> Result<(), SinkFault>
    ensures { Puts result (status_line (Status.Profile code line)) (E.told err.old) (E.told err.new) (E.faults err.old) (E.faults err.new) }
{
    put_twice_counted(
        err,
        b"profile P",
        u64::from(code),
        b" at line ",
        u64::from(line),
    )
}

/// Puts the place of a bad word of an input's text.
fn put_input_line<E: Sink>(err: &mut E, place: u32) -> Result<(), SinkFault>
    ensures { Puts result (status_line (Status.Input place)) (E.told err.old) (E.told err.new) (E.faults err.old) (E.faults err.new) }
{
    put_counted_line(err, b"input at ", u64::from(place))
}

/// The words of a reason in a line.
fn reason_name(reason: Reason) -> &'static str
    ensures { result.now ≡ reason_name reason }
{
    match reason {
        Reason::BadTarget => "bad target",
        Reason::BadWord => "bad word",
        Reason::Overfull => "overfull",
        Reason::BadAddress => "bad address",
        Reason::NoInputLeft => "no input left",
    }
}

/// Puts why a word is stuck, and its place.
fn put_stuck_line<E: Sink>(err: &mut E, reason: Reason, place: u32) -> Result<(), SinkFault>
    ensures { Puts result (status_line (Status.Stuck reason place)) (E.told err.old) (E.told err.new) (E.faults err.old) (E.faults err.new) }
{
    put_named(err, b"stuck ", reason_name(reason))?;
    put_counted_line(err, b" at word ", u64::from(place))
}

/// The words of a breach in a line.
fn breach_name(breach: Breach) -> &'static str
    ensures { result.now ≡ breach_name breach }
{
    match breach {
        Breach::Unfit => "unfit",
        Breach::Pending => "pending",
    }
}

/// Puts how a word breaks what a strict program keeps, and its place.
fn put_breach_line<E: Sink>(err: &mut E, breach: Breach, place: u32) -> Result<(), SinkFault>
    ensures { Puts result (status_line (Status.NotStrict breach place)) (E.told err.old) (E.told err.new) (E.faults err.old) (E.faults err.new) }
{
    put_text(err, breach_name(breach))?;
    put_counted_line(err, b" at word ", u64::from(place))
}

/// Puts the line of a status. A command that is done has none here: what it puts is its own.
pub fn put_line<E: Sink>(err: &mut E, status: Status) -> Result<(), SinkFault>
    ensures { Puts result (status_line status) (E.told err.old) (E.told err.new) (E.faults err.old) (E.faults err.new) }
{
    match status {
        Status::Done => Ok(()),
        Status::Trapped(trap) => put_trap_line(err, trap),
        Status::Usage => put(err, b"no command\n"),
        Status::Source { code, line, column } => put_source_line(err, code, line, column),
        Status::Limit { number, count } => put_limit_line(err, number, count),
        Status::Words { code, line } => put_words_line(err, code, line),
        Status::Profile { code, line } => put_profile_line(err, code, line),
        Status::Machine { code, field } => put_machine_line(err, code, field),
        Status::NoFile(role) => put_role_line(err, b"no file ", role),
        Status::ReadFault(role) => put_role_line(err, b"read fault ", role),
        Status::WriteFault => put(err, b"write fault\n"),
        Status::Stopped => put(err, b"stopped\n"),
        Status::Input(place) => put_input_line(err, place),
        Status::Stuck(reason, place) => put_stuck_line(err, reason, place),
        Status::NoMemory => put(err, b"no memory\n"),
        Status::NotStrict(breach, place) => put_breach_line(err, breach, place),
    }
}

/// Puts the line of a status, and answers the status whether the line could be put or not.
pub fn tell<E: Sink>(err: &mut E, status: Status) -> Status
    ensures same { result ≡ status }
    ensures tells { Tells (status_line result) (E.told err.old) (E.told err.new) (E.faults err.old) (E.faults err.new) }
    ensures adds { Adds (E.told err.old) (E.told err.new) (E.faults err.old) (E.faults err.new) }
{
    let _ = put_line(err, status);
    status
}
