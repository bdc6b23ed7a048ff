// Runs the rows of a file.

use crate::call::outcome_of;
use crate::compare::is_as_wanted;
use crate::files::{Stored, first_files, keep_output, left_files, put_files};
use crate::halt::Halt;
use crate::report::{Tally, tell_call};
use crate::rows::{Row, Rows, Step};
use crate::sheet::Statement;
use crate::why::Misread;
use std::alloc::Global;
use vx_io::sink::Sink;

/// The files that a call left, and whether it left what was wanted.
#[derive(Drop)]
struct Left {
    files: Vec<Stored>,
    is_wanted: bool,
}

/// Makes a call that finds these files, and prints it where it differs from what is wanted.
fn run_call<K: Sink>(
    alloc: Global,
    out: &mut K,
    file: &str,
    row: &Row<'_>,
    step: &Step<'_>,
    call: &Statement,
    found: &[Stored],
) -> Result<Left, Halt> {
    let outcome = outcome_of(alloc, step, call, found)?;
    let is_wanted = is_as_wanted(step, &outcome, found);
    if !is_wanted {
        tell_call(out, file, row, step, call, &outcome, found)?;
    }
    let mut files = left_files(alloc, found, call, &outcome.depot)?;
    keep_output(alloc, &mut files, step.kept(), outcome.out.bytes())?;
    Ok(Left { files, is_wanted })
}

/// Makes the calls of a step, each over the same files, and hands on what the last one left.
fn run_step<K: Sink>(
    alloc: Global,
    out: &mut K,
    file: &str,
    row: &Row<'_>,
    step: &Step<'_>,
    found: &[Stored],
) -> Result<Left, Halt> {
    let mut files = Vec::new(alloc);
    let mut is_wanted = true;
    for call in step.calls {
        let left = run_call(alloc, out, file, row, step, call, found)?;
        files = left.files;
        is_wanted = is_wanted && left.is_wanted;
    }
    put_files(alloc, &mut files, step.behind)?;
    Ok(Left { files, is_wanted })
}

/// Makes the calls of a row, and answers how many there were and whether all left what was wanted.
fn run_row<K: Sink>(alloc: Global, out: &mut K, file: &str, row: &Row<'_>) -> Result<Tally, Halt> {
    let mut files = first_files(alloc, row)?;
    let mut calls = 0u64;
    let mut differ = 0;
    let mut steps = row.steps();
    for _ in 0..steps.most() {
        if let Some(step) = steps.next_step() {
            let left = run_step(alloc, out, file, row, &step, files.as_slice())?;
            files = left.files;
            calls = calls.saturating_add(step.calls.len() as u64);
            if !left.is_wanted {
                differ = 1;
            }
        }
    }
    Ok(Tally {
        rows: 1,
        calls,
        differ,
    })
}

/// Whether each row of a file can be run.
pub(crate) fn check_rows(statements: &[Statement]) -> Result<(), Misread> {
    let mut rows = Rows::make(statements);
    for _ in 0..statements.len() {
        match rows.next_row() {
            Some(row) => row.check()?,
            None => return Ok(()),
        }
    }
    Ok(())
}

/// Runs the rows of a file.
pub(crate) fn run_rows<K: Sink>(
    alloc: Global,
    out: &mut K,
    file: &str,
    statements: &[Statement],
) -> Result<Tally, Halt> {
    let mut rows = Rows::make(statements);
    let mut tally = Tally::NONE;
    for _ in 0..statements.len() {
        match rows.next_row() {
            Some(row) => tally = tally.with(run_row(alloc, out, file, &row)?),
            None => return Ok(tally),
        }
    }
    Ok(tally)
}
