// What is asked of a program before its words are planned, as clap finds it.

ghost use Rattle.std.specs.Prelude.{◌≡◌, ◌≤◌, Some, codes, option_map, IfSome};
ghost use Rattle.clap.specs.Words.{first_value, found_of, rows_of};
ghost use Rattle.vx_command.specs.Asked.{rewriting_asked};
ghost use Rattle.vx_command.specs.Command.{number_or_none, rewriting_by, rewriting_of};

use crate::options::{Kind, Word, number_or_none};
use crate::rewriting::Rewriting;
use clap::ArgMatches;

/// The fewest and the most turns of a loop that are taken together.
const LEAST_TURNS: u32 = 2;

const MOST_TURNS: u32 = 8;

/// `--unroll K`, K the turns of a loop that are taken together.
pub(crate) const UNROLL: Word<'static> = Word {
    name: "unroll",
    help: "How many turns of a loop are taken together, from 2 to 8 [default: each by itself]",
    kind: Kind::Number(LEAST_TURNS as u64, MOST_TURNS as u64),
};

/// The fewest and the most operations of a callee whose calls are inlined.
const LEAST_CALLEE: u32 = 1;

const MOST_CALLEE: u32 = 4000;

/// `--inline N`, N the most operations of a callee whose calls are inlined.
pub(crate) const INLINE: Word<'static> = Word {
    name: "inline",
    help: "How many operations a function has at most whose calls are inlined, from 1 to 4000 [default: none is]",
    kind: Kind::Number(LEAST_CALLEE as u64, MOST_CALLEE as u64),
};

/// The fewest and the most operations of the sides of a split that become choices.
const LEAST_SIDES: u32 = 1;

const MOST_SIDES: u32 = 16;

/// `--select N`, N the most operations of the sides of a split that become choices.
pub(crate) const SELECT: Word<'static> = Word {
    name: "select",
    help: "How many operations the two sides of a split have at most that become choices, from 1 to 16 [default: none do]",
    kind: Kind::Number(LEAST_SIDES as u64, MOST_SIDES as u64),
};

/// What was found to be rewritten besides turns of loops and calls, where its number is in its range.
fn with_calls(found: &ArgMatches, unroll: Option<u32>, inline: Option<u32>) -> Option<Rewriting>
    requires turns { IfSome unroll (λ k. (2 ≤ k) × (k ≤ 8)) }
    requires callees { IfSome inline (λ most. (1 ≤ most) × (most ≤ 4000)) }
    ensures { option_map rewriting_asked result ≡ rewriting_by (Some unroll) (Some inline) (number_or_none 1 16 (first_value (found_of found.now) (codes "select"))) }
{
    match number_or_none(found.get_str("select"), LEAST_SIDES, MOST_SIDES) {
        Some(select) => Some(Rewriting {
            unroll,
            inline,
            select,
        }),
        None => None,
    }
}

/// What was found to be rewritten, where its numbers are in their ranges.
pub(crate) fn rewriting_found(found: &ArgMatches) -> Option<Rewriting>
    ensures { option_map rewriting_asked result ≡ rewriting_of (rows_of (found_of found.now)) }
{
    match number_or_none(found.get_str("unroll"), LEAST_TURNS, MOST_TURNS) {
        Some(unroll) => match number_or_none(found.get_str("inline"), LEAST_CALLEE, MOST_CALLEE) {
            Some(inline) => with_calls(found, unroll, inline),
            None => None,
        },
        None => None,
    }
}
