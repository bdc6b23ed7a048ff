// The plain run of a program's graphs, which is counted: how it ends, what it prints, and how often its blocks and edges are
// passed.

ghost use Rattle.std.specs.Prelude.{◌≡◌, ◌↔◌, IfOk, true};
ghost use Rattle.vx_base.specs.Outcome.{IsOver};
ghost use Rattle.vx_flow.specs.Meaning.{graph_path, graph_run};
ghost use Rattle.vx_profile.specs.Counts.{CountsOf};
ghost use Rattle.vx_tally.specs.Machine.{ended, IsOutcome};
ghost use Rattle.vx_tally.specs.Tally.{TallyOf};

use crate::ends::{Ending, Ran};
use crate::machine::{Machine, begin, step};
use crate::tally::Tally;
use std::alloc::Global;
use std::mem::replace;
use vx_base::listed::Listed;
use vx_base::outcome::NoMemory;
use vx_flow::graph::Flow;
use vx_profile::counts::Counts;

/// The counts of a run within a bound.
#[derive(Drop)]
pub struct Counted {
    /// How often blocks and edges were passed.
    pub counts: Counts,
    /// Whether the run ended within the bound.
    pub complete: bool,
}

/// What a run came to within a bound.
#[derive(Drop)]
pub struct Run {
    machine: Machine,
    tally: Tally,
    ending: Option<Ending>,
}

/// Runs the graphs of a program with an input, at most so many blocks, and counts how often each block and each edge stands
/// in the path of the run. The edge behind a call is passed as the call returns. Any graphs are lawful.
pub fn count(alloc: Global, flow: &Flow, input: &[i32], blocks: u64) -> Result<Counted, NoMemory>
    ensures counts { IfOk result (λ counted. CountsOf counted.counts (graph_path flow.now input.now blocks)) }
    ensures complete { IfOk result (λ counted. (counted.complete ≡ true) ↔ IsOver (graph_run flow.now input.now blocks)) }
{
    let run = run_counted(alloc, flow, input, blocks)?;
    let complete = has_ended(run.ending);
    drop(run.machine);
    let counts = run.tally.into_counts()?;
    Ok(Counted { counts, complete })
}

/// Runs the graphs of a program with an input, at most so many blocks: how it ends within them, and its output. Any graphs
/// are lawful; those of a lowered program never come to what has no meaning.
pub fn run_plain(alloc: Global, flow: &Flow, input: &[i32], blocks: u64) -> Result<Ran, NoMemory>
    ensures { IfOk result (λ ran. IsOutcome ran.ending ran.out (graph_run flow.now input.now blocks)) }
{
    let mut run = run_counted(alloc, flow, input, blocks)?;
    let ending = run.ending;
    let bytes = replace(&mut run.machine.storage.out, Vec::new(alloc));
    drop(run);
    let out = Listed::from_vec(bytes)?;
    Ok(Ran { ending, out })
}

fn run_counted(alloc: Global, flow: &Flow, input: &[i32], blocks: u64) -> Result<Run, NoMemory>
    ensures outcome { IfOk result (λ run. IsOutcome run.ending run.machine.storage.out.items (graph_run flow.now input.now blocks)) }
    ensures tally { IfOk result (λ run. TallyOf run.tally (graph_path flow.now input.now blocks)) }
{
    let mut tally = Tally::new(alloc, flow)?;
    let mut machine = begin(alloc, flow, input)?;
    'each: for _ in 0..blocks {
        let ending = step(alloc, &mut machine, &mut tally, flow)?;
        match ending {
            Some(_) => {
                return Ok(Run {
                    machine,
                    tally,
                    ending,
                });
            }
            None => {}
        }
    }
    Ok(Run {
        machine,
        tally,
        ending: None,
    })
}

/// Whether a run returned or was ended by a trap.
fn has_ended(ending: Option<Ending>) -> bool
    ensures { result ≡ ended ending }
{
    match ending {
        Some(Ending::Ends(_)) => true,
        Some(Ending::Traps(_)) => true,
        Some(Ending::Wrong) => false,
        None => false,
    }
}
