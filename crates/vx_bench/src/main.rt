// Measurements, a word for each: what is measured, and the file or number that it wants. The time is taken from outside, by
// the scripts under bench/. No contract here promises anything.
#![tactic(auto)]

mod flow;
mod lowering;
mod operations;
mod plan;
mod result;
mod source;
mod stages;
mod synthetic;
mod words;

use crate::result::Ended;
use std::env;
use std::process::ExitCode;
use vx_io::real::RealSink;
use vx_io::sink::put_all;

const USAGE: &[u8] = b"usage: vx_bench flow
       vx_bench lowering SOURCE
       vx_bench operations SOURCE
       vx_bench planning COUNT
       vx_bench stages SOURCE
       vx_bench words TEXT
";

/// A measurement, with the word that it wants.
#[derive(Clone, Copy)]
enum Measurement<'a> {
    Flow,
    Lowering(&'a str),
    Operations(&'a str),
    Planning(u32),
    Stages(&'a str),
    Words(&'a str),
}

fn words_of(rt: &HostRuntime) -> Option<Vec<String>> {
    match env::args(rt) {
        Ok(words) => words.collect(rt.alloc()).ok(),
        Err(_) => None,
    }
}

/// The measurement that the words of the command line ask for, the program's name first. None where there is none such.
fn asked<'a>(words: &'a [String]) -> Option<Measurement<'a>> {
    match words {
        [_, name] => asked_alone(name.as_str()),
        [_, name, word] => asked_with(name.as_str(), word.as_str()),
        _ => None,
    }
}

fn asked_alone<'a>(name: &str) -> Option<Measurement<'a>> {
    match name {
        "flow" => Some(Measurement::Flow),
        _ => None,
    }
}

fn asked_with<'a>(name: &str, word: &'a str) -> Option<Measurement<'a>> {
    match name {
        "lowering" => Some(Measurement::Lowering(word)),
        "operations" => Some(Measurement::Operations(word)),
        "planning" => planning_of(word),
        "stages" => Some(Measurement::Stages(word)),
        "words" => Some(Measurement::Words(word)),
        _ => None,
    }
}

fn planning_of<'a>(word: &str) -> Option<Measurement<'a>> {
    match word.parse::<u32>() {
        Ok(count) => Some(Measurement::Planning(count)),
        Err(_) => None,
    }
}

fn measure(rt: &HostRuntime, asked: Measurement<'_>) -> Ended {
    match asked {
        Measurement::Flow => flow::measure(rt.alloc()),
        Measurement::Lowering(name) => lowering::measure(rt, name),
        Measurement::Operations(name) => operations::measure(rt, name),
        Measurement::Planning(count) => plan::measure(rt, count),
        Measurement::Stages(name) => stages::measure(rt, name),
        Measurement::Words(name) => words::measure(rt, name),
    }
}

/// Puts how the program is called. The answer is the same where that fails.
fn usage(rt: &HostRuntime) -> Ended {
    let _ = put_all(&mut RealSink::make(rt.stderr()), USAGE);
    Ended::Usage
}

fn answer(rt: &HostRuntime, words: &[String]) -> Ended {
    match asked(words) {
        Some(asked) => measure(rt, asked),
        None => usage(rt),
    }
}

fn main(rt: HostRuntime) -> ExitCode {
    let ended = match words_of(&rt) {
        Some(words) => answer(&rt, words.as_slice()),
        None => Ended::NoMemory,
    };
    ExitCode::from(ended.status())
}
