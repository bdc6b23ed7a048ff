// The hulls of places at which values are busy: from the first place that is noted to the last. specs/Hulls.antt says what a
// note adds to them.

ghost use Rattle.std.specs.Prelude.{◌≡◌, ◌<◌, ℕ, OnOk, length};
ghost use Rattle.vx_regs.specs.Hulls.{At, Notes, greater, hull_at, lesser, widened};

use vx_base::outcome::NoMemory;
use vx_flow::graph::Value;

/// The first and the last of some places.
#[derive(Clone, Copy)]
pub struct Hull {
    pub from: u32,
    pub to: u32,
}

fn lesser(one: u32, other: u32) -> u32
    ensures { result ≡ lesser one other }
{
    if one < other { one } else { other }
}

fn greater(one: u32, other: u32) -> u32
    ensures { result ≡ greater one other }
{
    if other < one { one } else { other }
}

/// The hull with one place more.
fn widened(hull: Option<Hull>, place: u32) -> Hull
    ensures { result ≡ widened hull place }
{
    match hull {
        None => Hull {
            from: place,
            to: place,
        },
        Some(hull) => Hull {
            from: lesser(place, hull.from),
            to: greater(place, hull.to),
        },
    }
}

/// Makes room for the hull of a value.
#[tactic(auto, using(crate::proofs::HullNotes::same_longer))]
fn reach(hulls: &mut Vec<Option<Hull>>, place: usize) -> Result<(), NoMemory>
    ensures room { OnOk result (place < length hulls.new.items) }
    ensures kept { OnOk result ((v : ℕ) → hull_at hulls.new.items v ≡ hull_at hulls.old.items v) }
{
    'grow: while hulls.len() <= place {
        hulls.push(None)?;
    }
    Ok(())
}

/// Notes a place at which a value is busy.
#[tactic(auto, using(crate::proofs::HullNotes::noted_one))]
pub(crate) fn note(hulls: &mut Vec<Option<Hull>>, value: Value, place: u32) -> Result<(), NoMemory>
    ensures { OnOk result (Notes (At value place) hulls.old.items hulls.new.items) }
{
    let index = value as usize;
    reach(hulls, index)?;
    hulls[index] = Some(widened(hulls[index], place));
    Ok(())
}
