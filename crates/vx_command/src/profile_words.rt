// The words of `profile`, as clap reads them.

ghost use Rattle.std.specs.Prelude.{◌≡◌, ◌⊎◌, [], Some, None, map, IfOk, IfErr};
ghost use Rattle.clap.specs.Words.{rows_of, found_of};
ghost use Rattle.vx_command.specs.Command.{Count, profile_found, profile_of, profile_unless};
ghost use Rattle.vx_command.specs.Asked.{profiling_of, rewriting_asked};

use crate::command::{Refused, found_or_refused, text_at, without_text};
use crate::options::{INPUT, Kind, SOURCE, Word};
use crate::rewriting::Rewriting;
use crate::rewriting_words::{SELECT, UNROLL, rewriting_found};
use crate::run_words::{MOST_WORDS, budget_of};
use clap::ArgMatches;
use std::alloc::Global;
use vx_status::Status;

/// The words of `profile`.
#[derive(Drop)]
pub struct ProfileWords<'a> {
    /// The name of the source's file.
    pub source: &'a str,
    /// The name of the file of the input.
    pub input: Option<&'a str>,
    /// The most blocks that are run.
    pub blocks: u64,
    /// What is rewritten before its blocks are counted.
    pub rewriting: Rewriting,
}

/// `--blocks N`.
const BLOCKS: Word<'static> = Word {
    name: "blocks",
    help: "How many blocks are run at most, from 1 to 1000000000000 [default: 1000000000]",
    kind: Kind::Number(1, MOST_WORDS),
};

/// What was found in the words of `profile`, with this number of blocks and this to rewrite.
fn profile_with<'a>(found: &ArgMatches<'a>, blocks: u64, rewriting: Rewriting) -> ProfileWords<'a>
    ensures { Count (profiling_of result) ≡ profile_found (rows_of (found_of found.now)) blocks (rewriting_asked rewriting) }
{
    ProfileWords {
        source: text_at(found, "SRC"),
        input: found.get_str("input"),
        blocks,
        rewriting,
    }
}

/// What was found in the words of `profile`, where its numbers are in their ranges.
fn profile_found<'a>(found: &ArgMatches<'a>) -> Result<ProfileWords<'a>, Refused>
    ensures asked { IfOk result (λ asked. Some (Count (profiling_of asked)) ≡ profile_unless [] (rows_of (found_of found.now))) }
    ensures refused { IfErr result (λ refused. (refused.status ≡ Status.Usage) × (None ≡ profile_unless [] (rows_of (found_of found.now)))) }
{
    match budget_of(found.get_str("blocks")) {
        Some(blocks) => match rewriting_found(found) {
            Some(rewriting) => Ok(profile_with(found, blocks, rewriting)),
            None => Err(without_text(Status::Usage)),
        },
        None => Err(without_text(Status::Usage)),
    }
}

/// What the words of `profile SRC [--input I] [--blocks N] [--unroll K] [--select N]` ask for, the program's name first, or their refusal.
pub fn profile_asked<'a>(alloc: Global, words: &'a [&'a str]) -> Result<ProfileWords<'a>, Refused>
    ensures asked { IfOk result (λ asked. profile_of (map (λ w. w.now) words.now) ≡ Some (Count (profiling_of asked))) }
    ensures refused { IfErr result (λ refused. (refused.status ≡ Status.NoMemory) ⊎ ((refused.status ≡ Status.Usage) × (profile_of (map (λ w. w.now) words.now) ≡ None))) }
{
    match found_or_refused(
        alloc,
        "profile",
        "Puts how often each block and edge of a source is passed",
        &[SOURCE, INPUT, BLOCKS, UNROLL, SELECT],
        words,
    ) {
        Ok(found) => {
            let asked = profile_found(&found);
            drop(found);
            asked
        },
        Err(refused) => Err(refused),
    }
}
