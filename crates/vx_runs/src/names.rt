// Which command the words of a command line name, and what becomes of the boxes that it does not use.

ghost use Rattle.std.specs.Prelude.{◌≡◌, ◌∷◌, map, string_bytes, IfOk};
ghost use Rattle.vx_runs.specs.Names.{IsNamed};

use std::alloc::{AllocError, Global};
use vx_probe::{Probe, Timing};

/// The words that clap is handed: all but the second.
pub fn without_name<'a>(
    alloc: Global,
    program: &'a String,
    others: &'a [String],
) -> Result<Vec<&'a str>, AllocError>
    ensures { IfOk result (λ words. map (λ w. w.now) words.items ≡ string_bytes program.now ∷ map string_bytes others.now) }
{
    let mut words = Vec::new(alloc);
    words.push(program.as_str())?;
    for other in others {
        words.push(other.as_str())?;
    }
    Ok(words)
}

/// The command that a word names, or that it names none.
#[derive(Clone, Copy)]
pub enum Named {
    /// `compile`.
    Compile,
    /// `sim`.
    Sim,
    /// `exec`.
    Exec,
    /// `profile`.
    Profile,
    /// `soak`.
    Soak,
    /// `check`.
    Check,
    /// No command.
    Nothing,
}

/// What a word names.
pub fn lookup(name: &str) -> Named
    ensures { IsNamed name.now result }
{
    if name == "compile" {
        Named::Compile
    } else if name == "sim" {
        Named::Sim
    } else if name == "exec" {
        Named::Exec
    } else if name == "profile" {
        Named::Profile
    } else if name == "soak" {
        Named::Soak
    } else if name == "check" {
        Named::Check
    } else {
        Named::Nothing
    }
}

/// Lets boxes go that a command does not use.
pub fn let_go(probes: Vec<Box<dyn Probe>>, timings: Vec<Box<dyn Timing>>) {
    drop(probes);
    drop(timings);
}
