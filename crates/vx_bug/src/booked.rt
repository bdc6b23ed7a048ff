// The operations that have a cluster, in the order of their turns and by cycles, so that what is taken in a cycle is counted over
// those few that stand in it.

ghost use Rattle.std.specs.Prelude.{◌≡◌, ◌<◌, ◌++◌, ◌∷◌, [], ℕ, length, reverse, drop, IfOk, OnOk};
ghost use Rattle.vx_bug.specs.Booked.{row_at, estimate_at, AreRows, AreEstimates};
ghost use Rattle.vx_bug.specs.Clusters.{estimate_in};

use crate::bookings::Booking;
use std::alloc::Global;
use vx_base::listed::{Listed, with_item};
use vx_base::outcome::NoMemory;

/// The operations that have a cluster.
#[derive(Drop)]
pub struct Booked {
    /// All of them, the latest last.
    pub(crate) bookings: Vec<Booking>,
    /// Those of each cycle, from cycle 0 on; none stands behind the last row.
    pub(crate) rows: Vec<Listed<Booking>>,
    /// The estimate of each, by its place; 0 where the operation at a place has no cluster.
    pub(crate) estimates: Vec<u32>,
    ghost in_rows: { AreRows rows.items (reverse bookings.items) },
    ghost by_place: { AreEstimates estimates.items (reverse bookings.items) },
}

impl Booked {
    /// Where no operation has a cluster.
    #[tactic(auto, using(crate::proofs::ByCycle::no_rows, crate::proofs::ByPlace::no_estimates))]
    pub(crate) fn nothing(alloc: Global) -> Booked
        ensures { result.bookings.items ≡ [] }
    {
        Booked {
            bookings: Vec::new(alloc),
            rows: Vec::new(alloc),
            estimates: Vec::new(alloc),
        }
    }

    /// Books an operation.
    #[tactic(auto, using(crate::proofs::ByCycle::same_rows, crate::proofs::ByCycle::one_more_row, crate::proofs::ByPlace::same_estimates, crate::proofs::ByPlace::one_more_estimate, crate::proofs::ByPlace::latest_first))]
    pub(crate) fn add(&mut self, alloc: Global, booking: Booking) -> Result<(), NoMemory>
        ensures { OnOk result (reverse self.new.bookings.items ≡ booking ∷ reverse self.old.bookings.items) }
    {
        let cycle = booking.cycle as usize;
        let place = booking.place as usize;
        reach(alloc, &mut self.rows, cycle)?;
        reach_place(&mut self.estimates, place)?;
        let row = with_item(alloc, row_at(self.rows.as_slice(), cycle), booking)?;
        self.bookings.push(booking)?;
        self.rows[cycle] = row;
        self.estimates[place] = booking.estimate;
        Ok(())
    }

    /// The estimate of the operation at a place, 0 where it has no booking.
    pub(crate) fn estimate(&self, place: u32) -> u32
        ensures { result ≡ estimate_in (reverse self.now.bookings.items) place }
    {
        estimate_at(self.estimates.as_slice(), place as usize)
    }
}

/// The estimate at a place of a list by places.
fn estimate_at(estimates: &[u32], place: usize) -> u32
    ensures { result ≡ estimate_at estimates.now place }
{
    match estimates.get(place) {
        Some(estimate) => *estimate,
        None => 0,
    }
}

/// Makes the list of estimates have one for a place.
fn reach_place(estimates: &mut Vec<u32>, place: usize) -> Result<(), NoMemory>
    ensures there { OnOk result (place < length estimates.new.items) }
    ensures same { (other : ℕ) → estimate_at estimates.new.items other ≡ estimate_at estimates.old.items other }
{
    'reach: while estimates.len() <= place {
        estimates.push(0)?;
    }
    Ok(())
}

/// Adds empty rows up to that of a cycle.
#[tactic(auto, using(crate::proofs::ByCycle::empty_row))]
fn reach(alloc: Global, rows: &mut Vec<Listed<Booking>>, cycle: usize) -> Result<(), NoMemory>
    ensures there { OnOk result (cycle < length rows.new.items) }
    ensures same { (other : ℕ) → row_at rows.new.items other ≡ row_at rows.old.items other }
{
    'reach: while rows.len() <= cycle {
        rows.push(Listed::new(alloc))?;
    }
    Ok(())
}

/// The rows from a cycle on.
pub(crate) fn rows_from(rows: &[Listed<Booking>], from: u64) -> &[Listed<Booking>]
    ensures { result.now ≡ drop from rows.now }
{
    if from >= rows.len() as u64 {
        return &[];
    }
    &rows[from as usize..]
}

/// The bookings of a row; none behind the last.
pub(crate) fn row_at(rows: &[Listed<Booking>], cycle: usize) -> &[Booking]
    ensures { result.now ≡ row_at rows.now cycle }
{
    match rows.get(cycle) {
        Some(row) => row.as_slice(),
        None => &[],
    }
}
