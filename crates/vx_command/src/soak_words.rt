// The words of `soak`, as clap reads them.

ghost use Rattle.std.specs.Prelude.{◌≡◌, ◌⊎◌, [], Some, None, map, option_map, codes, IfOk, IfErr};
ghost use Rattle.clap.specs.Walk.{first_of};
ghost use Rattle.clap.specs.Words.{rows_of, found_of};
ghost use Rattle.vx_command.specs.Command.{Soak, number_in, soak_found, soak_of, soak_unless};
ghost use Rattle.vx_command.specs.Asked.{soaking_of};

use crate::command::{Refused, found_or_refused, without_text};
use crate::options::{Kind, Word, number_or_least};
use crate::soak_request::SoakWords;
use clap::ArgMatches;
use std::alloc::Global;
use vx_status::Status;

const MOST_SEED: u64 = 1000000000;

const MOST_SIZE: u64 = 10000;

/// `SEED`.
const SEED: Word<'static> = Word {
    name: "SEED",
    help: "Where the draws begin, from 0 to 1000000000",
    kind: Kind::RequiredNumber(0, MOST_SEED),
};

/// `SIZE`.
const SIZE: Word<'static> = Word {
    name: "SIZE",
    help: "How many statements are made, from 1 to 10000",
    kind: Kind::RequiredNumber(1, MOST_SIZE),
};

/// The size that was found, beside a seed.
fn with_seed(found: &ArgMatches, seed: u64) -> Option<SoakWords>
    ensures { option_map (λ asked. Soak (soaking_of asked)) result ≡ soak_found (Some seed) (number_in 1 10000 1 (first_of (codes "SIZE") (rows_of (found_of found.now)))) }
{
    match number_or_least(found.get_str("SIZE"), 1, MOST_SIZE) {
        Some(size) => Some(SoakWords {
            seed,
            size: size as u32,
        }),
        None => None,
    }
}

/// The numbers that were found, where both are in their ranges.
fn numbers_found(found: &ArgMatches) -> Option<SoakWords>
    ensures { option_map (λ asked. Soak (soaking_of asked)) result ≡ soak_unless [] (rows_of (found_of found.now)) }
{
    match number_or_least(found.get_str("SEED"), 0, MOST_SEED) {
        Some(seed) => with_seed(found, seed),
        None => None,
    }
}

/// What was found in the words of `soak`.
fn asked_in(found: &ArgMatches) -> Result<SoakWords, Refused>
    ensures asked { IfOk result (λ asked. Some (Soak (soaking_of asked)) ≡ soak_unless [] (rows_of (found_of found.now))) }
    ensures refused { IfErr result (λ refused. (refused.status ≡ Status.Usage) × (None ≡ soak_unless [] (rows_of (found_of found.now)))) }
{
    match numbers_found(found) {
        Some(asked) => Ok(asked),
        None => Err(without_text(Status::Usage)),
    }
}

/// What the words of `soak SEED SIZE` ask for, the program's name first, or their refusal.
pub fn soak_asked<'a>(alloc: Global, words: &'a [&'a str]) -> Result<SoakWords, Refused>
    ensures asked { IfOk result (λ asked. soak_of (map (λ w. w.now) words.now) ≡ Some (Soak (soaking_of asked))) }
    ensures refused { IfErr result (λ refused. (refused.status ≡ Status.NoMemory) ⊎ ((refused.status ≡ Status.Usage) × (soak_of (map (λ w. w.now) words.now) ≡ None))) }
{
    match found_or_refused(
        alloc,
        "soak",
        "Makes a source, compiles and runs it, and puts one line of it",
        &[SEED, SIZE],
        words,
    ) {
        Ok(found) => {
            let asked = asked_in(&found);
            drop(found);
            asked
        },
        Err(refused) => Err(refused),
    }
}
