// The words of `check`, as clap reads them.

ghost use Rattle.std.specs.Prelude.{◌≡◌, ◌⊎◌, Some, None, map, IfOk, IfErr};
ghost use Rattle.clap.specs.Words.{rows_of, found_of};
ghost use Rattle.vx_command.specs.Command.{Check, check_found, check_of};
ghost use Rattle.vx_command.specs.Asked.{checking_of};

use crate::command::{Refused, found_or_refused, text_at};
use crate::options::MACHINE;
use crate::run_words::WORDS;
use clap::ArgMatches;
use std::alloc::Global;
use vx_status::Status;

/// The words of `check`.
#[derive(Drop)]
pub struct CheckWords<'a> {
    /// The name of the file of the words.
    pub file: &'a str,
    /// The name of the file with the description of the machine.
    pub machine: Option<&'a str>,
}

/// What was found in the words of `check`.
fn check_found<'a>(found: &ArgMatches<'a>) -> CheckWords<'a>
    ensures { Check (checking_of result) ≡ check_found (rows_of (found_of found.now)) }
{
    CheckWords {
        file: text_at(found, "WORDS"),
        machine: found.get_str("machine"),
    }
}

/// What the words of `check WORDS [--machine M]` ask for, the program's name first, or their refusal.
pub fn check_asked<'a>(alloc: Global, words: &'a [&'a str]) -> Result<CheckWords<'a>, Refused>
    ensures asked { IfOk result (λ asked. check_of (map (λ w. w.now) words.now) ≡ Some (Check (checking_of asked))) }
    ensures refused { IfErr result (λ refused. (refused.status ≡ Status.NoMemory) ⊎ ((refused.status ≡ Status.Usage) × (check_of (map (λ w. w.now) words.now) ≡ None))) }
{
    match found_or_refused(
        alloc,
        "check",
        "Checks that a text of words is strict",
        &[WORDS, MACHINE],
        words,
    ) {
        Ok(found) => {
            let asked = check_found(&found);
            drop(found);
            Ok(asked)
        }
        Err(refused) => Err(refused),
    }
}
