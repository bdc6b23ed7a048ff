// The commands over any compiler: from the words of a command line to its answer.

ghost use Rattle.std.specs.Prelude.{ℕ, List, Option, map, string_bytes};
ghost use Rattle.vx_command.specs.Command.{command_of, command_named, is_command, names_command, compile_of, sim_of, exec_of, profile_of, soak_of, check_of};
ghost use Rattle.vx_files.specs.Effects.{Effect, effect_of};
ghost use Rattle.vx_runs.specs.Simulated.{streams_of};
ghost use Rattle.vx_runs.specs.Boxes.{Boxes, ProbeBox, boxes_of, timing_boxes};
ghost use Rattle.vx_commands.specs.Performed.{Performed, PerformedAs};
ghost use Rattle.vx_runs.specs.Reading.{OnlyReads};

use crate::compilation::compile;
use crate::exec::execute_with;
use crate::profile::profile;
use crate::soak::soak;
use std::alloc::Global;
use vx_command::{
    check_asked, compile_asked, exec_asked, profile_asked, refuse, sim_asked, soak_asked,
};
use vx_compiled::WordCompiler;
use vx_io::depot::Depot;
use vx_io::sink::Sink;
use vx_probe::{Probe, Timing};
use vx_runs::compiler::Compiler;
use vx_runs::names::{Named, let_go, lookup, without_name};
use vx_runs::{check_with, simulate_with};
use vx_status::{Status, tell};

/// Does what the words of `compile` ask for, the program's name first, and puts the line of its answer.
fn perform_compile<C: WordCompiler, D: Depot, E: Sink>(
    alloc: Global,
    compiler: &C,
    words: &[&str],
    depot: &mut D,
    err: &mut E,
) -> Status
    ensures { ((boxes : Boxes) (told : Option (List ℕ)) (faults : ℕ) → Performed (compile_of (map (λ w. w.now) words.now)) boxes (effect_of D.files D.failed_reads D.failed_replaces depot.old depot.new) (record { out_before = told; out_after = told; out_faults_before = faults; out_faults_after = faults; err_before = E.told err.old; err_after = E.told err.new; err_faults_before = E.faults err.old; err_faults_after = E.faults err.new }) result) }
{
    match compile_asked(alloc, words) {
        Ok(asked) => {
            let status = compile(alloc, compiler, depot, &asked);
            tell(err, status)
        }
        Err(refused) => refuse(err, &refused),
    }
}

/// Does what the words of `sim` ask for, the program's name first, and puts its output and its lines.
fn perform_sim<D: Depot, K: Sink, E: Sink>(
    alloc: Global,
    words: &[&str],
    depot: &mut D,
    out: &mut K,
    err: &mut E,
    probes: Vec<Box<dyn Probe>>,
    timings: Vec<Box<dyn Timing>>,
) -> Status
    ensures { Performed (sim_of (map (λ w. w.now) words.now)) (boxes_of called watch named times probes.items timings.items) (effect_of D.files D.failed_reads D.failed_replaces depot.old depot.new) (streams_of K.told K.faults E.told E.faults out.old out.new err.old err.new) result }
{
    match sim_asked(alloc, words) {
        Ok(asked) => simulate_with(alloc, depot, out, err, &asked, probes, timings),
        Err(refused) => {
            let_go(probes, timings);
            refuse(err, &refused)
        }
    }
}

/// Does what the words of `exec` ask for, the program's name first, and puts its output and its lines.
fn perform_exec<C: WordCompiler, D: Depot, K: Sink, E: Sink>(
    alloc: Global,
    compiler: &C,
    words: &[&str],
    depot: &mut D,
    out: &mut K,
    err: &mut E,
    probes: Vec<Box<dyn Probe>>,
    timings: Vec<Box<dyn Timing>>,
) -> Status
    ensures { Performed (exec_of (map (λ w. w.now) words.now)) (boxes_of called watch named times probes.items timings.items) (effect_of D.files D.failed_reads D.failed_replaces depot.old depot.new) (streams_of K.told K.faults E.told E.faults out.old out.new err.old err.new) result }
{
    match exec_asked(alloc, words) {
        Ok(asked) => execute_with(alloc, compiler, depot, out, err, &asked, probes, timings),
        Err(refused) => {
            let_go(probes, timings);
            refuse(err, &refused)
        }
    }
}

/// Does what the words of `profile` ask for, the program's name first, and puts its counts or the line of its answer.
fn perform_profile<C: Compiler, D: Depot, K: Sink, E: Sink>(
    alloc: Global,
    compiler: &C,
    words: &[&str],
    depot: &mut D,
    out: &mut K,
    err: &mut E,
) -> Status
    ensures { ((boxes : Boxes) → Performed (profile_of (map (λ w. w.now) words.now)) boxes (effect_of D.files D.failed_reads D.failed_replaces depot.old depot.new) (streams_of K.told K.faults E.told E.faults out.old out.new err.old err.new) result) }
{
    match profile_asked(alloc, words) {
        Ok(asked) => profile(alloc, compiler, depot, out, err, &asked),
        Err(refused) => refuse(err, &refused),
    }
}

/// Does what the words of `soak` ask for, the program's name first, and puts its line or the line of its answer.
fn perform_soak<C: WordCompiler, K: Sink, E: Sink>(
    alloc: Global,
    compiler: &C,
    words: &[&str],
    out: &mut K,
    err: &mut E,
    timings: Vec<Box<dyn Timing>>,
) -> Status
    ensures { ((e : Effect) (probes : List ProbeBox) → OnlyReads e → Performed (soak_of (map (λ w. w.now) words.now)) (record { probes = probes; timings = timing_boxes named times timings.items }) e (streams_of K.told K.faults E.told E.faults out.old out.new err.old err.new) result) }
{
    match soak_asked(alloc, words) {
        Ok(asked) => soak(alloc, compiler, out, err, &asked, timings),
        Err(refused) => refuse(err, &refused),
    }
}

/// Does what the words of `check` ask for, the program's name first, and puts what is found.
fn perform_check<D: Depot, K: Sink, E: Sink>(
    alloc: Global,
    words: &[&str],
    depot: &mut D,
    out: &mut K,
    err: &mut E,
) -> Status
    ensures { ((boxes : Boxes) → Performed (check_of (map (λ w. w.now) words.now)) boxes (effect_of D.files D.failed_reads D.failed_replaces depot.old depot.new) (streams_of K.told K.faults E.told E.faults out.old out.new err.old err.new) result) }
{
    match check_asked(alloc, words) {
        Ok(asked) => check_with(alloc, depot, out, err, &asked),
        Err(refused) => refuse(err, &refused),
    }
}

/// Does what a command's words ask for, the program's name first.
fn perform_named<C: Compiler + WordCompiler, D: Depot, K: Sink, E: Sink>(
    alloc: Global,
    compiler: &C,
    name: &str,
    words: &[&str],
    depot: &mut D,
    out: &mut K,
    err: &mut E,
    probes: Vec<Box<dyn Probe>>,
    timings: Vec<Box<dyn Timing>>,
) -> Status
    ensures { PerformedAs (is_command name.now) (command_named name.now (map (λ w. w.now) words.now)) (boxes_of called watch named times probes.items timings.items) (effect_of D.files D.failed_reads D.failed_replaces depot.old depot.new) (streams_of K.told K.faults E.told E.faults out.old out.new err.old err.new) result }
{
    match lookup(name) {
        Named::Compile => {
            let_go(probes, timings);
            perform_compile(alloc, compiler, words, depot, err)
        }
        Named::Sim => perform_sim(alloc, words, depot, out, err, probes, timings),
        Named::Exec => perform_exec(alloc, compiler, words, depot, out, err, probes, timings),
        Named::Profile => {
            let_go(probes, timings);
            perform_profile(alloc, compiler, words, depot, out, err)
        }
        Named::Soak => {
            drop(probes);
            perform_soak(alloc, compiler, words, out, err, timings)
        }
        Named::Check => {
            let_go(probes, timings);
            perform_check(alloc, words, depot, out, err)
        }
        Named::Nothing => {
            let_go(probes, timings);
            tell(err, Status::Usage)
        }
    }
}

/// Does what the words of a command line ask for over the files of a depot, by a compiler, puts its text on `out` and its lines on `err`,
/// and answers how it ended: what `vexc` does, in one clause. The first word is the program's name.
pub fn perform<C: Compiler + WordCompiler, D: Depot, K: Sink, E: Sink>(
    alloc: Global,
    compiler: &C,
    words: &[String],
    depot: &mut D,
    out: &mut K,
    err: &mut E,
    probes: Vec<Box<dyn Probe>>,
    timings: Vec<Box<dyn Timing>>,
) -> Status
    ensures { PerformedAs (names_command (map string_bytes words.now)) (command_of (map string_bytes words.now)) (boxes_of called watch named times probes.items timings.items) (effect_of D.files D.failed_reads D.failed_replaces depot.old depot.new) (streams_of K.told K.faults E.told E.faults out.old out.new err.old err.new) result }
{
    match words {
        [program, name, others @ ..] => match without_name(alloc, program, others) {
            Ok(words) => perform_named(
                alloc,
                compiler,
                name.as_str(),
                words.as_slice(),
                depot,
                out,
                err,
                probes,
                timings,
            ),
            Err(_) => {
                let_go(probes, timings);
                tell(err, Status::NoMemory)
            }
        },
        _ => {
            let_go(probes, timings);
            tell(err, Status::Usage)
        }
    }
}
