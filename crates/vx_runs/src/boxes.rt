// The boxes that a command asks for by name, and the reports of probes.

ghost use Rattle.std.specs.Prelude.{◌≡◌, ◌⊎◌, ◌<◌, ◌≤◌, [], ◌∷◌, length, take, map, codes, option_map, Some, None, OnErr, IfOk, IfErr};
ghost use Rattle.std.specs.List.{flat_map};
ghost use Rattle.std.specs.Str.{bytes_eq};
ghost use Rattle.vx_probe.specs.Watch.{report_of};
ghost use Rattle.vx_runs.specs.Boxes.{probe_boxes, timing_boxes, timing_named, probe_named, probes_named, report_line};
ghost use Rattle.vx_status.specs.Status.{Puts};

use std::alloc::{AllocError, Global};
use vx_io::sink::{Sink, SinkFault};
use vx_probe::{Probe, Timing};
use vx_status::{Status, put};

/// Whether a timing has this name.
fn timing_is(timing: &Box<dyn Timing>, name: &str) -> bool
    ensures { result ≡ bytes_eq (named timing.now) name.now }
{
    timing.name() == name
}

/// The first timing with this name. The others are dropped, the last one first.
pub fn timing_of(mut timings: Vec<Box<dyn Timing>>, name: &str) -> Option<Box<dyn Timing>>
    ensures { option_map (λ b. times b) result ≡ timing_named name.now (timing_boxes named times timings.items) }
{
    let mut found = None;
    'boxes: loop {
        match timings.pop() {
            Some(timing) => {
                if timing_is(&timing, name) {
                    found = Some(timing);
                }
            }
            None => return found,
        }
    }
}

/// Whether a probe has this name.
fn probe_is(probe: &Box<dyn Probe>, name: &str) -> bool
    ensures { result ≡ bytes_eq (called probe.now) name.now }
{
    probe.name() == name
}

/// The first probe with this name. The others are dropped, the last one first.
fn probe_of(mut probes: Vec<Box<dyn Probe>>, name: &str) -> Option<Box<dyn Probe>>
    ensures { option_map (λ b. watch b) result ≡ probe_named name.now (probe_boxes called watch probes.items) }
{
    let mut found = None;
    'boxes: loop {
        match probes.pop() {
            Some(probe) => {
                if probe_is(&probe, name) {
                    found = Some(probe);
                }
            }
            None => return found,
        }
    }
}

/// A list of one probe.
fn one(alloc: Global, probe: Box<dyn Probe>) -> Result<Vec<Box<dyn Probe>>, AllocError>
    ensures { IfOk result (λ probes. map (λ b. watch b) probes.items ≡ watch probe ∷ []) }
{
    let mut probes = Vec::new(alloc);
    probes.push(probe)?;
    Ok(probes)
}

/// Whether every probe is asked for.
fn is_all(name: &str) -> bool
    ensures { result ≡ bytes_eq name.now (codes "all") }
{
    name == "all"
}

/// The probes that are asked for: by `all` every one, else the first one with the name. The others are dropped. Usage comes
/// where there is none of this name, NoMemory where a list of it has no room.
pub fn probes_of(
    alloc: Global,
    probes: Vec<Box<dyn Probe>>,
    name: Option<&str>,
) -> Result<Vec<Box<dyn Probe>>, Status>
    ensures picked { IfOk result (λ picked. probes_named (option_map (λ s. s.now) name.entry) (probe_boxes called watch probes.items) ≡ Some (map (λ b. watch b) picked.items)) }
    ensures missing { IfErr result (λ status. (status ≡ Status.NoMemory) ⊎ ((status ≡ Status.Usage) × (probes_named (option_map (λ s. s.now) name.entry) (probe_boxes called watch probes.items) ≡ None))) }
{
    let name = match name {
        Some(name) => name,
        None => return Ok(Vec::new(alloc)),
    };
    if is_all(name) {
        return Ok(probes);
    }
    match probe_of(probes, name) {
        Some(probe) => match one(alloc, probe) {
            Ok(probes) => Ok(probes),
            Err(_) => Err(Status::NoMemory),
        },
        None => Err(Status::Usage),
    }
}

/// Writes the text of a probe, and answers how many bytes it has.
fn report_in(probe: &Box<dyn Probe>, text: &mut [u8; 80]) -> usize
    ensures short { result ≤ 80 }
    ensures written { take result text.new ≡ report_of (watch probe.now) }
{
    probe.report(text)
}

/// Puts the report of a probe, a line.
fn put_report<E: Sink>(err: &mut E, probe: &Box<dyn Probe>) -> Result<(), SinkFault>
    ensures { Puts result (report_line (watch probe.now)) (E.told err.old) (E.told err.new) (E.faults err.old) (E.faults err.new) }
{
    let mut text = [0u8; 80];
    let length = report_in(probe, &mut text);
    put(err, &text[..length])?;
    put(err, b"\n")
}

/// Puts the reports of probes, each a line, in the order of the list.
pub(crate) fn put_reports<E: Sink>(err: &mut E, probes: &[Box<dyn Probe>]) -> Result<(), SinkFault>
    ensures some { OnErr result (0 < length probes.now) }
    ensures puts { Puts result (flat_map report_line (map (λ b. watch b) probes.now)) (E.told err.old) (E.told err.new) (E.faults err.old) (E.faults err.new) }
{
    for probe in probes {
        put_report(err, probe)?;
    }
    Ok(())
}
