// The words of a command line: the second names the command, and clap reads the others.

ghost use Rattle.std.specs.Prelude.{◌≡◌, ◌≢◌, ◌⊎◌, [], true, unwrap_or, Some, None, map, IfOk, IfErr};
ghost use Rattle.clap.specs.Words.{fault_of, first_value, found_of, is_simple, is_simple_and_free, kind_of, matches_of, new_app, rows_of};
ghost use Rattle.clap.specs.declared.error.kind.ErrorKind.TheVariants.{OutOfMemory};
ghost use Rattle.vx_status.specs.Status.{Adds, Tells, status_line};
ghost use Rattle.vx_command.specs.Asked.{compilation_of, rewriting_asked};
ghost use Rattle.vx_command.specs.Command.{Compile, compile_found, compile_of, compile_unless};
ghost use Rattle.vx_command.specs.Words.{with_words};

use crate::options::{GROWTH, Kind, MACHINE, PROFILE, SOURCE, Word, arg_of, growth_of};
use crate::rewriting::Rewriting;
use crate::rewriting_words::{INLINE, SELECT, UNROLL, rewriting_found};
use clap::error::ErrorKind;
use clap::{ArgMatches, Command, Error};
use std::alloc::Global;
use vx_io::sink::Sink;
use vx_status::{Status, put, tell};

/// The words of `compile`.
#[derive(Drop)]
pub struct CompileWords<'a> {
    /// The name of the source's file.
    pub source: &'a str,
    /// The name of the output's file.
    pub out: &'a str,
    /// The name of the file of the profile.
    pub profile: Option<&'a str>,
    /// The name of the file with the description of the machine.
    pub machine: Option<&'a str>,
    /// How many operations may be copied.
    pub growth: u32,
    /// What is rewritten.
    pub rewriting: Rewriting,
    /// The name of the file of the report.
    pub report: Option<&'a str>,
}

/// `OUT`.
const OUT: Word<'static> = Word {
    name: "OUT",
    help: "The file that the words go to",
    kind: Kind::Required,
};

/// `--report R`.
const REPORT: Word<'static> = Word {
    name: "report",
    help: "The file that the report of the plan goes to [default: none]",
    kind: Kind::Optional,
};

/// The text at a word that has to be there.
pub(crate) fn text_at<'a>(found: &ArgMatches<'a>, name: &str) -> &'a str
    ensures { result.now ≡ unwrap_or (first_value (found_of found.now) name.now) [] }
{
    match found.get_str(name) {
        Some(text) => text,
        None => "",
    }
}

/// Why words are refused: the status, and the text that clap gives, where there is one and memory for it.
#[derive(Drop)]
pub struct Refused {
    /// The status, which is that of no command line, or that of want of memory.
    pub status: Status,
    /// The text of clap, help included.
    pub text: Option<String>,
}

/// A refusal without a text of clap's.
pub(crate) fn without_text(status: Status) -> Refused
    ensures { result.status ≡ status }
{
    Refused { status, text: None }
}

/// The text that clap gives for its refusal.
fn text_of(alloc: Global, error: &Error) -> Option<String> {
    error.to_string(alloc).ok()
}

/// The refusal of clap. Where memory is wanted, the line of that status is put in place of clap's text.
pub(crate) fn refusal_of(alloc: Global, error: &Error) -> Refused
    ensures { ((kind_of error.now ≡ OutOfMemory) × (result.status ≡ Status.NoMemory)) ⊎ ((kind_of error.now ≢ OutOfMemory) × (result.status ≡ Status.Usage)) }
{
    match error.kind() {
        ErrorKind::OutOfMemory => without_text(Status::NoMemory),
        _ => Refused {
            status: Status::Usage,
            text: text_of(alloc, error),
        },
    }
}

/// What clap finds in the words of a command of this name and these words and options, or its refusal.
pub(crate) fn found_or_refused<'a>(
    alloc: Global,
    name: &'a str,
    about: &'a str,
    options: &[Word<'a>],
    words: &'a [&'a str],
) -> Result<ArgMatches<'a>, Refused>
    requires simple { is_simple (with_words (new_app name.now) options.now) ≡ true }
    requires free { is_simple_and_free (with_words (new_app name.now) options.now) ≡ true }
    ensures none { IfOk result (λ found. fault_of (with_words (new_app name.entry.now) options.now) (map (λ w. w.now) words.now) ≡ []) }
    ensures rows { IfOk result (λ found. rows_of (found_of found) ≡ matches_of (with_words (new_app name.entry.now) options.now) (map (λ w. w.now) words.now)) }
    ensures refused { IfErr result (λ refused. (refused.status ≡ Status.NoMemory) ⊎ ((refused.status ≡ Status.Usage) × (fault_of (with_words (new_app name.entry.now) options.now) (map (λ w. w.now) words.now) ≢ []))) }
{
    let mut command = Command::new(alloc, name).about(about);
    for word in options {
        command = match command.arg(arg_of(alloc, word)) {
            Ok(command) => command,
            Err(_) => return Err(without_text(Status::NoMemory)),
        };
    }
    match command.try_get_matches_from(words) {
        Ok(found) => Ok(found),
        Err(error) => Err(refusal_of(alloc, &error)),
    }
}

/// What was found in the words of `compile`, with this number of operations and this to rewrite.
fn compile_with<'a>(found: &ArgMatches<'a>, growth: u32, rewriting: Rewriting) -> CompileWords<'a>
    ensures { Compile (compilation_of result) ≡ compile_found (rows_of (found_of found.now)) growth (rewriting_asked rewriting) }
{
    CompileWords {
        source: text_at(found, "SRC"),
        out: text_at(found, "OUT"),
        profile: found.get_str("profile"),
        machine: found.get_str("machine"),
        growth,
        rewriting,
        report: found.get_str("report"),
    }
}

/// What was found in the words of `compile`, where its numbers are in their ranges.
fn compile_found<'a>(found: &ArgMatches<'a>) -> Result<CompileWords<'a>, Refused>
    ensures asked { IfOk result (λ asked. Some (Compile (compilation_of asked)) ≡ compile_unless [] (rows_of (found_of found.now))) }
    ensures refused { IfErr result (λ refused. (refused.status ≡ Status.Usage) × (None ≡ compile_unless [] (rows_of (found_of found.now)))) }
{
    match growth_of(found.get_str("growth")) {
        Some(growth) => match rewriting_found(found) {
            Some(rewriting) => Ok(compile_with(found, growth, rewriting)),
            None => Err(without_text(Status::Usage)),
        },
        None => Err(without_text(Status::Usage)),
    }
}

/// What the words of `compile SRC OUT [--profile P] [--machine M] [--growth G] [--unroll K] [--select N] [--inline N] [--report R]` ask
/// for, the program's name first, or their refusal.
pub fn compile_asked<'a>(alloc: Global, words: &'a [&'a str]) -> Result<CompileWords<'a>, Refused>
    ensures asked { IfOk result (λ asked. compile_of (map (λ w. w.now) words.now) ≡ Some (Compile (compilation_of asked))) }
    ensures refused { IfErr result (λ refused. (refused.status ≡ Status.NoMemory) ⊎ ((refused.status ≡ Status.Usage) × (compile_of (map (λ w. w.now) words.now) ≡ None))) }
{
    match found_or_refused(
        alloc,
        "compile",
        "Compiles a source, and replaces a file by its words",
        &[
            SOURCE, OUT, PROFILE, MACHINE, GROWTH, UNROLL, SELECT, INLINE, REPORT,
        ],
        words,
    ) {
        Ok(found) => {
            let asked = compile_found(&found);
            drop(found);
            asked
        },
        Err(refused) => Err(refused),
    }
}

/// Puts the text that clap gives for its refusal, or the line of its status.
pub fn refuse<E: Sink>(err: &mut E, refused: &Refused) -> Status
    ensures same { result ≡ refused.now.status }
    ensures tells { result ≢ Status.Usage → Tells (status_line result) (E.told err.old) (E.told err.new) (E.faults err.old) (E.faults err.new) }
    ensures adds { Adds (E.told err.old) (E.told err.new) (E.faults err.old) (E.faults err.new) }
{
    match (refused.status, &refused.text) {
        (Status::Usage, Some(text)) => {
            let _ = put(err, text.as_bytes());
            Status::Usage
        }
        (status, _) => tell(err, status),
    }
}
