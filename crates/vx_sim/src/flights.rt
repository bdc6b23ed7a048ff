// The writes in flight, and what cycles make of them.

ghost use Rattle.std.specs.Prelude.{◌≡◌, ◌≤◌, ◌<◌, ◌+◌, ◌++◌, ◌∷◌, ℕ, [], List, map, length, get_or, slice_set, vec_len};
ghost use Rattle.std.specs.Vec.{vec_capacity};
ghost use Rattle.vx_base.specs.Flight.{flying, landed, landed_in, flying_in, written};
ghost use Rattle.vx_isa.specs.Operations.{same};
ghost use Rattle.vx_sim.specs.Flying.{write_of, flights_in, flying_of, by_landing};
ghost use Rattle.vx_sim.specs.Held.{held_by};
ghost use Rattle.vx_sim.specs.Room.{HasRoom};
ghost use Rattle.vx_sim.specs.Passed.{counted};

use crate::flight::Flight;
use crate::registers::Registers;
use crate::ring::Ring;

/// Puts a write that lands in so many cycles behind those that land in the same cycle.
pub(crate) fn put(ring: &mut Ring, flight: Flight, left: u32)
    requires some { 1 ≤ left }
    requires in_time { left ≤ 16 }
    requires room { (widest : ℕ) × (here : ℕ) × (here < widest) × HasRoom widest here ring.old }
    ensures puts { flying_of ring.new ≡ by_landing (flying_of ring.old ++ record { to = flight.to; number = flight.number; left = left } ∷ []) }
    ensures has_room { (widest here : ℕ) → here < widest → HasRoom widest here ring.old → HasRoom widest (here + 1) ring.new }
{
    let place = (ring.next + left - 1) % 16;
    put_at(&mut ring.places, place as usize, flight);
}

fn put_at(places: &mut Vec<Vec<Flight>>, place: usize, flight: Flight)
    requires there { place < length places.old.items }
    requires room { length (get_or (flights_in places.old.items) place []) < get_or (map vec_capacity places.old.items) place 0 }
    ensures puts { flights_in places.new.items ≡ slice_set (flights_in places.old.items) place (get_or (flights_in places.old.items) place [] ++ flight ∷ []) }
    ensures capacity { map vec_capacity places.new.items ≡ map vec_capacity places.old.items }
    ensures len { length places.new.items ≡ length places.old.items }
{
    if let Some(flights) = places.get_mut(place) {
        append(flights, flight);
    }
}

fn append(flights: &mut Vec<Flight>, flight: Flight)
    requires { vec_len flights.old < vec_capacity flights.old }
    ensures last { flights.new.items ≡ flights.old.items ++ flight ∷ [] }
    ensures capacity { vec_capacity flights.new ≡ vec_capacity flights.old }
{
    flights.push_reserved(flight);
}

/// So many cycles pass, and the count of the cycles stays at the greatest `u64`.
pub(crate) fn pass_cycles(count: u32, cycle: u64, registers: &mut Registers, ring: &mut Ring) -> u64
    ensures counts { result ≡ counted (cycle + count) }
    ensures lands { held_by registers.new ≡ landed_in same count (held_by registers.old) (flying_of ring.old) }
    ensures flies { flying_of ring.new ≡ flying_in count (flying_of ring.old) }
    ensures has_room { (widest here : ℕ) → 1 ≤ count → here ≤ widest → HasRoom widest here ring.old → HasRoom widest 0 ring.new }
{
    let mut now = cycle;
    'cycles: for passed in 0..count {
        pass_cycle(registers, ring);
        now = now.saturating_add(1);
    }
    now
}

/// One cycle: the writes of its place land in the order of their issue, and the next place comes.
fn pass_cycle(registers: &mut Registers, ring: &mut Ring)
    ensures lands { held_by registers.new ≡ landed same (held_by registers.old) (flying_of ring.old) }
    ensures flies { flying_of ring.new ≡ flying (flying_of ring.old) }
    ensures has_room { (widest here : ℕ) → here ≤ widest → HasRoom widest here ring.old → HasRoom widest 0 ring.new }
{
    land_at(registers, &mut ring.places, ring.next as usize);
    ring.next = (ring.next + 1) % 16;
}

/// The writes of a place land, and leave it.
fn land_at(registers: &mut Registers, places: &mut Vec<Vec<Flight>>, place: usize)
    requires { place < length places.old.items }
    ensures lands { held_by registers.new ≡ landed same (held_by registers.old) (map (write_of 0) (get_or (flights_in places.old.items) place [])) }
    ensures leaves { flights_in places.new.items ≡ slice_set (flights_in places.old.items) place [] }
    ensures capacity { map vec_capacity places.new.items ≡ map vec_capacity places.old.items }
    ensures len { length places.new.items ≡ length places.old.items }
{
    if let Some(flights) = places.get_mut(place) {
        land(registers, flights.as_slice());
        flights.clear();
    }
}

/// Writes land, in the order of their issue.
fn land(registers: &mut Registers, flights: &[Flight])
    ensures { held_by registers.new ≡ landed same (held_by registers.old) (map (write_of 0) flights.now) }
{
    for flight in flights {
        make_write(registers, flight);
    }
}

fn make_write(registers: &mut Registers, flight: &Flight)
    ensures { held_by registers.new ≡ written same (held_by registers.old) flight.now.to flight.now.number }
{
    registers.write(&flight.to, flight.number);
}
