// The words and options of a command, each with its line of help, and how many operations may be copied.

ghost use Rattle.std.specs.Prelude.{◌≡◌, ◌≤◌, ℕ, false, Some, option_map, IfSome, MatchOption};
ghost use Rattle.clap.specs.Words.{rule_of};
ghost use Rattle.vx_command.specs.Command.{number_in, number_or_none, growth_of};
ghost use Rattle.vx_command.specs.Words.{rule_of_word};

use clap::builder::ValueParser;
use clap::{Arg, ArgAction};
use std::alloc::Global;

const MOST_GROWTH: u32 = 1000000;

const DEFAULT_GROWTH: u32 = 4000;

/// What stands at a word of a command.
pub enum Kind {
    /// A text that has to be there.
    Required,
    /// A number from the least to the most, which has to be there.
    RequiredNumber(u64, u64),
    /// `--name VALUE`.
    Optional,
    /// `--name N`, a number from the least to the most.
    Number(u64, u64),
}

/// A word or an option of a command.
pub struct Word<'a> {
    /// Its name.
    pub name: &'a str,
    /// Its line of help.
    pub help: &'a str,
    /// What stands there.
    pub kind: Kind,
}

/// `SRC`.
pub(crate) const SOURCE: Word<'static> = Word {
    name: "SRC",
    help: "The file of the source",
    kind: Kind::Required,
};

/// `--profile P`.
pub(crate) const PROFILE: Word<'static> = Word {
    name: "profile",
    help: "The file of a profile, whose counts pick the traces [default: no counts]",
    kind: Kind::Optional,
};

/// `--machine M`.
pub(crate) const MACHINE: Word<'static> = Word {
    name: "machine",
    help: "The file that describes the machine [default: the one with a single cluster]",
    kind: Kind::Optional,
};

/// `--growth G`, G from 0 to the most operations that may be copied.
pub(crate) const GROWTH: Word<'static> = Word {
    name: "growth",
    help: "How many operations may be copied, from 0 to 1000000 [default: 4000]",
    kind: Kind::Number(0, MOST_GROWTH as u64),
};

/// `--input I`.
pub(crate) const INPUT: Word<'static> = Word {
    name: "input",
    help: "The file of the input, decimal numbers [default: no numbers]",
    kind: Kind::Optional,
};

/// What clap reads a word by.
pub(crate) fn arg_of<'a>(alloc: Global, word: &Word<'a>) -> Arg<'a>
    ensures rule { rule_of result ≡ rule_of_word word.now }
    ensures local { result.global ≡ false }
{
    let arg = Arg::new(alloc, word.name)
        .action(ArgAction::Set)
        .help(word.help);
    match word.kind {
        Kind::Required => arg.required(true),
        Kind::RequiredNumber(low, high) => arg
            .required(true)
            .value_parser(ValueParser::Unsigned(low, high)),
        Kind::Optional => arg.long(word.name),
        Kind::Number(low, high) => arg
            .long(word.name)
            .value_parser(ValueParser::Unsigned(low, high)),
    }
}

/// A number from 0 to the most operations that may be copied.
fn within(number: u32) -> Option<u32>
    ensures { MatchOption result ((0 ≤ number → number ≤ 1000000 → ⊥)) (λ n. (n ≡ number) × (0 ≤ number) × (number ≤ 1000000)) }
{
    if number <= MOST_GROWTH {
        Some(number)
    } else {
        None
    }
}

/// How many operations may be copied by a text.
fn growth_in(text: &str) -> Option<u32>
    ensures { result ≡ growth_of (Some text.now) }
{
    match text.parse::<u32>() {
        Ok(number) => within(number),
        Err(_) => None,
    }
}

/// How many operations may be copied by a text, or where there is none.
pub(crate) fn growth_of(text: Option<&str>) -> Option<u32>
    ensures { result ≡ growth_of (option_map (λ s. s.now) text.entry) }
{
    match text {
        Some(text) => growth_in(text),
        None => Some(DEFAULT_GROWTH),
    }
}

/// A number that is from low to high.
fn ranged(number: u64, low: u64, high: u64) -> Option<u64>
    ensures { MatchOption result ((low ≤ number → number ≤ high → ⊥)) (λ n. (n ≡ number) × (low ≤ number) × (number ≤ high)) }
{
    if low <= number && number <= high {
        Some(number)
    } else {
        None
    }
}

/// The number from low to high that a text is.
fn number_in(text: &str, low: u64, high: u64) -> Option<u64>
    ensures number { (other : ℕ) → result ≡ number_in low high other (Some text.now) }
    ensures range { IfSome result (λ n. (low ≤ n) × (n ≤ high)) }
{
    match text.parse::<u64>() {
        Ok(number) => ranged(number, low, high),
        Err(_) => None,
    }
}

/// The number from low to high that a text is, or the least one where there is no text.
pub(crate) fn number_or_least(text: Option<&str>, low: u64, high: u64) -> Option<u64>
    requires some { low ≤ high }
    ensures number { result ≡ number_in low high low (option_map (λ s. s.now) text.entry) }
    ensures range { IfSome result (λ n. (low ≤ n) × (n ≤ high)) }
{
    match text {
        Some(text) => number_in(text, low, high),
        None => Some(low),
    }
}

/// The number from low to high that a text is, and nothing where there is no text.
pub(crate) fn number_or_none(text: Option<&str>, low: u32, high: u32) -> Option<Option<u32>>
    ensures number { result ≡ number_or_none low high (option_map (λ s. s.now) text.entry) }
    ensures range { IfSome result (λ number. IfSome number (λ n. (low ≤ n) × (n ≤ high))) }
{
    match text {
        Some(text) => match number_in(text, low as u64, high as u64) {
            Some(number) => Some(Some(number as u32)),
            None => None,
        },
        None => Some(None),
    }
}
