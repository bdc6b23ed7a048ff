// The words of the command line, as clap reads them.

ghost use Rattle.std.specs.Prelude.{◌≤◌, IfSome};

use clap::builder::ValueParser;
use clap::error::ErrorKind;
use clap::{Arg, ArgAction, ArgMatches, Command, Error};
use std::alloc::Global;
use vx_command::{Refused, Rewriting, refuse};
use vx_io::sink::Sink;
use vx_status::Status;

/// The most operations that may be copied, and how many may where nothing is said.
const MOST_GROWTH: u32 = 1000000;

const DEFAULT_GROWTH: u32 = 4000;

/// The fewest and the most turns of a loop that are taken together.
const LEAST_TURNS: u32 = 2;

const MOST_TURNS: u32 = 8;

/// The fewest and the most operations of a callee whose calls are inlined.
const LEAST_CALLEE: u32 = 1;

const MOST_CALLEE: u32 = 4000;

/// The fewest and the most operations of the sides of a split that become choices.
const LEAST_SIDES: u32 = 1;

const MOST_SIDES: u32 = 16;

/// Which text is asked for in place of a page.
#[derive(Clone, Copy)]
pub(crate) enum Stage {
    /// The graphs as they are lowered.
    Lowered,
    /// The graphs that a profile counts.
    Cleaned,
    /// The graphs with operations raised over the bounds of blocks.
    Raised,
    /// The graphs that are planned.
    Renamed,
    /// The traces.
    Traces,
}

/// Where the answer goes.
#[derive(Clone, Copy)]
pub(crate) enum Answer<'a> {
    /// A page, into the file of this name.
    Page(&'a str),
    /// A plain text, to the standard output.
    Text(Stage),
}

/// What is asked for.
#[derive(Clone, Copy)]
pub(crate) struct Request<'a> {
    /// The name of the source's file.
    pub(crate) source: &'a str,
    /// Where the answer goes.
    pub(crate) answer: Answer<'a>,
    /// The name of the file of the profile.
    pub(crate) profile: Option<&'a str>,
    /// The name of the file with the description of the machine.
    pub(crate) machine: Option<&'a str>,
    /// The name of the file with the description of a machine beside it.
    pub(crate) against: Option<&'a str>,
    /// How many operations may be copied.
    pub(crate) growth: u32,
    /// What is rewritten.
    pub(crate) rewriting: Rewriting,
}

/// A word that stands at its place.
fn word<'a>(alloc: Global, name: &'a str, help: &'a str) -> Arg<'a> {
    Arg::new(alloc, name).action(ArgAction::Set).help(help)
}

/// `--name VALUE`.
fn option<'a>(alloc: Global, name: &'a str, help: &'a str) -> Arg<'a> {
    word(alloc, name, help).long(name)
}

/// `--name N`, N from the least to the most.
fn number<'a>(alloc: Global, name: &'a str, help: &'a str, least: u64, most: u64) -> Arg<'a> {
    option(alloc, name, help).value_parser(ValueParser::Unsigned(least, most))
}

fn with_places<'a>(alloc: Global, command: Command<'a>) -> Result<Command<'a>, Status> {
    let source = word(alloc, "SRC", "The file of the source").required(true);
    let page = word(
        alloc,
        "PAGE",
        "The file that the page goes to; none with --text",
    );
    let command = command.arg(source).map_err(|_| Status::NoMemory)?;
    command.arg(page).map_err(|_| Status::NoMemory)
}

fn with_files<'a>(alloc: Global, command: Command<'a>) -> Result<Command<'a>, Status> {
    let profile = option(
        alloc,
        "profile",
        "The file of a profile, whose counts pick the traces [default: no counts]",
    );
    let machine = option(
        alloc,
        "machine",
        "The file that describes the machine [default: the one with a single cluster]",
    );
    let against = option(
        alloc,
        "against",
        "The file that describes another machine, whose traces stand beside",
    );
    let command = command.arg(profile).map_err(|_| Status::NoMemory)?;
    let command = command.arg(machine).map_err(|_| Status::NoMemory)?;
    command.arg(against).map_err(|_| Status::NoMemory)
}

fn with_rewriting<'a>(alloc: Global, command: Command<'a>) -> Result<Command<'a>, Status> {
    let unroll = number(
        alloc,
        "unroll",
        "How many turns of a loop are taken together, from 2 to 8 [default: each by itself]",
        LEAST_TURNS as u64,
        MOST_TURNS as u64,
    );
    let select = number(
        alloc,
        "select",
        "How many operations the two sides of a split have at most that become choices, from 1 to 16 [default: none do]",
        LEAST_SIDES as u64,
        MOST_SIDES as u64,
    );
    let inline = number(
        alloc,
        "inline",
        "How many operations a function has at most whose calls are inlined, from 1 to 4000 [default: none is]",
        LEAST_CALLEE as u64,
        MOST_CALLEE as u64,
    );
    let command = command.arg(unroll).map_err(|_| Status::NoMemory)?;
    let command = command.arg(select).map_err(|_| Status::NoMemory)?;
    command.arg(inline).map_err(|_| Status::NoMemory)
}

fn with_answer<'a>(alloc: Global, command: Command<'a>) -> Result<Command<'a>, Status> {
    let growth = number(
        alloc,
        "growth",
        "How many operations may be copied, from 0 to 1000000 [default: 4000]",
        0,
        MOST_GROWTH as u64,
    );
    let text = option(
        alloc,
        "text",
        "lowered, cleaned, raised, renamed or traces, as a plain text on the standard output",
    );
    let command = command.arg(growth).map_err(|_| Status::NoMemory)?;
    command.arg(text).map_err(|_| Status::NoMemory)
}

fn command_of<'a>(alloc: Global) -> Result<Command<'a>, Status> {
    let command = Command::new(alloc, "vexc-view").about(
        "Shows how a source is compiled, as a page or as a plain text",
    );
    let command = with_places(alloc, command)?;
    let command = with_files(alloc, command)?;
    let command = with_rewriting(alloc, command)?;
    with_answer(alloc, command)
}

fn without_text(status: Status) -> Refused {
    Refused { status, text: None }
}

fn refusal_of(alloc: Global, error: &Error) -> Refused {
    match error.kind() {
        ErrorKind::OutOfMemory => without_text(Status::NoMemory),
        _ => Refused {
            status: Status::Usage,
            text: error.to_string(alloc).ok(),
        },
    }
}

/// How many operations may be copied by a text.
fn growth_of(text: Option<&str>) -> u32 {
    match text {
        None => DEFAULT_GROWTH,
        Some(text) => match text.parse::<u32>() {
            Ok(number) => number.min(MOST_GROWTH),
            Err(_) => DEFAULT_GROWTH,
        },
    }
}

/// A number that is from the least to the most.
fn ranged(number: u32, least: u32, most: u32) -> Option<u32>
    ensures { IfSome result (λ n. (least ≤ n) × (n ≤ most)) }
{
    if least <= number && number <= most {
        Some(number)
    } else {
        None
    }
}

/// The number from the least to the most that a text is, where there is one.
fn number_of(text: Option<&str>, least: u32, most: u32) -> Option<u32>
    ensures { IfSome result (λ n. (least ≤ n) × (n ≤ most)) }
{
    match text {
        None => None,
        Some(text) => match text.parse::<u32>() {
            Ok(number) => ranged(number, least, most),
            Err(_) => None,
        },
    }
}

/// What is rewritten.
fn rewriting_of(found: &ArgMatches) -> Rewriting {
    Rewriting {
        unroll: number_of(found.get_str("unroll"), LEAST_TURNS, MOST_TURNS),
        inline: number_of(found.get_str("inline"), LEAST_CALLEE, MOST_CALLEE),
        select: number_of(found.get_str("select"), LEAST_SIDES, MOST_SIDES),
    }
}

fn stage_of(name: &str) -> Option<Stage> {
    match name {
        "lowered" => Some(Stage::Lowered),
        "cleaned" => Some(Stage::Cleaned),
        "raised" => Some(Stage::Raised),
        "renamed" => Some(Stage::Renamed),
        "traces" => Some(Stage::Traces),
        _ => None,
    }
}

/// Where the answer goes: just one of a page and a text is asked for.
fn answer_of<'a>(page: Option<&'a str>, text: Option<&str>) -> Option<Answer<'a>> {
    match (page, text) {
        (Some(page), None) => Some(Answer::Page(page)),
        (None, Some(name)) => match stage_of(name) {
            Some(stage) => Some(Answer::Text(stage)),
            None => None,
        },
        _ => None,
    }
}

fn request_in<'a>(found: &ArgMatches<'a>) -> Option<Request<'a>> {
    let answer = answer_of(found.get_str("PAGE"), found.get_str("text"))?;
    Some(Request {
        source: found.get_str("SRC")?,
        answer,
        profile: found.get_str("profile"),
        machine: found.get_str("machine"),
        against: found.get_str("against"),
        growth: growth_of(found.get_str("growth")),
        rewriting: rewriting_of(found),
    })
}

fn request_found<'a>(found: ArgMatches<'a>) -> Result<Request<'a>, Refused> {
    match request_in(&found) {
        Some(request) => Ok(request),
        None => Err(without_text(Status::Usage)),
    }
}

/// What the words of the command line ask for, the program's name first, or their refusal.
pub(crate) fn request_of<'a>(alloc: Global, words: &'a [String]) -> Result<Request<'a>, Refused> {
    match command_of(alloc) {
        Ok(command) => match command.try_get_matches_from(words) {
            Ok(found) => request_found(found),
            Err(error) => Err(refusal_of(alloc, &error)),
        },
        Err(status) => Err(without_text(status)),
    }
}

/// Puts the text of a refusal, or the line of its status.
pub(crate) fn usage<E: Sink>(err: &mut E, refused: &Refused) -> Status {
    refuse(err, refused)
}
