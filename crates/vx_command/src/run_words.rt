// The words of `sim` and of `exec`, as clap reads them.

ghost use Rattle.std.specs.Prelude.{◌≡◌, ◌⊎◌, ◌≤◌, [], unwrap_or, Some, None, map, option_map, codes, IfOk, IfErr, MatchOption};
ghost use Rattle.clap.specs.Words.{rows_of, first_value, found_of};
ghost use Rattle.vx_command.specs.Command.{run_unless, Makes, Simulate, Execute, executes, sim_of, exec_of, exec_unless, budget_of};
ghost use Rattle.vx_command.specs.Asked.{asks, simulation_of, execution_of, rewriting_asked};

use crate::command::{Refused, found_or_refused, text_at, without_text};
use crate::options::{GROWTH, INPUT, Kind, MACHINE, PROFILE, SOURCE, Word, growth_of};
use crate::rewriting::Rewriting;
use crate::rewriting_words::{INLINE, SELECT, UNROLL, rewriting_found};
use clap::ArgMatches;
use std::alloc::Global;
use vx_status::Status;

/// The words of a run.
#[derive(Drop)]
pub struct RunWords<'a> {
    /// The name of the file of the words, or of the source.
    pub file: &'a str,
    /// The name of the file with the description of the machine.
    pub machine: Option<&'a str>,
    /// The name of the file of the input.
    pub input: Option<&'a str>,
    /// The most words that are issued.
    pub budget: u64,
    /// The name of the timing.
    pub timing: &'a str,
    /// The name of the probe.
    pub probe: Option<&'a str>,
}

/// The words of `exec`.
#[derive(Drop)]
pub struct ExecWords<'a> {
    /// The words of its run.
    pub run: RunWords<'a>,
    /// The name of the file of the profile.
    pub profile: Option<&'a str>,
    /// How many operations may be copied.
    pub growth: u32,
    /// What is rewritten.
    pub rewriting: Rewriting,
}

pub(crate) const MOST_WORDS: u64 = 1000000000000;

const DEFAULT_WORDS: u64 = 1000000000;

/// `WORDS`.
pub(crate) const WORDS: Word<'static> = Word {
    name: "WORDS",
    help: "The file of the words",
    kind: Kind::Required,
};

/// `--words N`.
const BUDGET: Word<'static> = Word {
    name: "words",
    help: "How many words are run at most, from 1 to 1000000000000 [default: 1000000000]",
    kind: Kind::Number(1, MOST_WORDS),
};

/// `--timing T`.
const TIMING: Word<'static> = Word {
    name: "timing",
    help: "When results land: late, early or cyclic [default: late]",
    kind: Kind::Optional,
};

/// `--probe B`.
const PROBE: Word<'static> = Word {
    name: "probe",
    help: "Who reports at the end: units, words or all [default: none]",
    kind: Kind::Optional,
};

/// A number from 1 to the most words, or blocks.
fn within(number: u64) -> Option<u64>
    ensures { MatchOption result ((1 ≤ number → number ≤ 1000000000000 → ⊥)) (λ n. (n ≡ number) × (1 ≤ number) × (number ≤ 1000000000000)) }
{
    if 1 <= number && number <= MOST_WORDS {
        Some(number)
    } else {
        None
    }
}

/// The number of words, or blocks, that a text asks for.
fn budget_in(text: &str) -> Option<u64>
    ensures { result ≡ budget_of (Some text.now) }
{
    match text.parse::<u64>() {
        Ok(number) => within(number),
        Err(_) => None,
    }
}

/// The number of words, or blocks, that a text asks for, or the default.
pub(crate) fn budget_of(text: Option<&str>) -> Option<u64>
    ensures { result ≡ budget_of (option_map (λ s. s.now) text.entry) }
{
    match text {
        Some(text) => budget_in(text),
        None => Some(DEFAULT_WORDS),
    }
}

/// The text at a word that may be left out, or what stands for it.
fn text_or<'a>(found: &ArgMatches<'a>, name: &str, other: &'a str) -> &'a str
    ensures { result.now ≡ unwrap_or (first_value (found_of found.now) name.now) other.entry.now }
{
    match found.get_str(name) {
        Some(text) => text,
        None => other,
    }
}

/// What was found in the words of a run, whose file stands under this name.
fn words_found<'a>(found: &ArgMatches<'a>, file: &str) -> Option<RunWords<'a>>
    ensures { (makes : Makes) → option_map (asks makes) result ≡ run_unless makes file.now [] (rows_of (found_of found.now)) }
{
    match budget_of(found.get_str("words")) {
        Some(budget) => Some(RunWords {
            file: text_at(found, file),
            machine: found.get_str("machine"),
            input: found.get_str("input"),
            budget,
            timing: text_or(found, "timing", "late"),
            probe: found.get_str("probe"),
        }),
        None => None,
    }
}

/// What was found in the words of a run, where the number of words is one.
fn asked_in<'a>(found: &ArgMatches<'a>, file: &str) -> Result<RunWords<'a>, Refused>
    ensures asked { (makes : Makes) → IfOk result (λ asked. Some (asks makes asked) ≡ run_unless makes file.now [] (rows_of (found_of found.now))) }
    ensures refused { (makes : Makes) → IfErr result (λ refused. (refused.status ≡ Status.Usage) × (None ≡ run_unless makes file.now [] (rows_of (found_of found.now)))) }
{
    match words_found(found, file) {
        Some(asked) => Ok(asked),
        None => Err(without_text(Status::Usage)),
    }
}

/// What was found in the words of `exec`, with this profile, at this number of operations and with this to rewrite.
fn exec_with<'a>(
    found: &ArgMatches<'a>,
    profile: Option<&'a str>,
    growth: u32,
    rewriting: Rewriting,
) -> Result<ExecWords<'a>, Refused>
    ensures asked { IfOk result (λ asked. Some (Execute (execution_of asked)) ≡ run_unless (executes (option_map (λ s. s.now) profile.entry) growth (rewriting_asked rewriting)) (codes "SRC") [] (rows_of (found_of found.now))) }
    ensures refused { IfErr result (λ refused. (refused.status ≡ Status.Usage) × (None ≡ run_unless (executes (option_map (λ s. s.now) profile.entry) growth (rewriting_asked rewriting)) (codes "SRC") [] (rows_of (found_of found.now)))) }
{
    match asked_in(found, "SRC") {
        Ok(run) => Ok(ExecWords {
            run,
            profile,
            growth,
            rewriting,
        }),
        Err(refused) => Err(refused),
    }
}

/// What was found in the words of `exec`, where its numbers are in their ranges.
fn exec_found<'a>(found: &ArgMatches<'a>) -> Result<ExecWords<'a>, Refused>
    ensures asked { IfOk result (λ asked. Some (Execute (execution_of asked)) ≡ exec_unless [] (rows_of (found_of found.now))) }
    ensures refused { IfErr result (λ refused. (refused.status ≡ Status.Usage) × (None ≡ exec_unless [] (rows_of (found_of found.now)))) }
{
    match growth_of(found.get_str("growth")) {
        Some(growth) => match rewriting_found(found) {
            Some(rewriting) => exec_with(found, found.get_str("profile"), growth, rewriting),
            None => Err(without_text(Status::Usage)),
        },
        None => Err(without_text(Status::Usage)),
    }
}

/// What the words of `sim WORDS [--machine M] [--input I] [--words N] [--timing T] [--probe B]` ask for, the program's name first, or their refusal.
pub fn sim_asked<'a>(alloc: Global, words: &'a [&'a str]) -> Result<RunWords<'a>, Refused>
    ensures asked { IfOk result (λ asked. sim_of (map (λ w. w.now) words.now) ≡ Some (Simulate (simulation_of asked))) }
    ensures refused { IfErr result (λ refused. (refused.status ≡ Status.NoMemory) ⊎ ((refused.status ≡ Status.Usage) × (sim_of (map (λ w. w.now) words.now) ≡ None))) }
{
    match found_or_refused(
        alloc,
        "sim",
        "Runs a text of words",
        &[WORDS, MACHINE, INPUT, BUDGET, TIMING, PROBE],
        words,
    ) {
        Ok(found) => {
            let asked = asked_in(&found, "WORDS");
            drop(found);
            asked
        },
        Err(refused) => Err(refused),
    }
}

/// What the words of `exec SRC [--profile P] [--machine M] [--growth G] [--unroll K] [--select N] [--inline N] [--input I] [--words N]
/// [--timing T] [--probe B]` ask for, the program's name first, or their refusal.
pub fn exec_asked<'a>(alloc: Global, words: &'a [&'a str]) -> Result<ExecWords<'a>, Refused>
    ensures asked { IfOk result (λ asked. exec_of (map (λ w. w.now) words.now) ≡ Some (Execute (execution_of asked))) }
    ensures refused { IfErr result (λ refused. (refused.status ≡ Status.NoMemory) ⊎ ((refused.status ≡ Status.Usage) × (exec_of (map (λ w. w.now) words.now) ≡ None))) }
{
    match found_or_refused(
        alloc,
        "exec",
        "Compiles a source and runs its words",
        &[
            SOURCE, PROFILE, MACHINE, GROWTH, UNROLL, SELECT, INLINE, INPUT, BUDGET, TIMING, PROBE,
        ],
        words,
    ) {
        Ok(found) => {
            let asked = exec_found(&found);
            drop(found);
            asked
        },
        Err(refused) => Err(refused),
    }
}
