// Places of a trace by the values that their operations name and by their kinds. Of the many operations above another one few share
// a value with it, and these are found here without a look at the others. specs/Near.antt says the same.

ghost use Rattle.std.specs.Prelude.{◌≡◌, ◌%◌, true, IfOk, OnOk};
ghost use Rattle.vx_flow.specs.Effects.{IsIn};
ghost use Rattle.vx_dep.specs.Chains.{IsOn, ChainsKept};
ghost use Rattle.vx_dep.specs.Near.{IsNoted, NearKept, by_rows, is_near, AreCollected, WritersCollected, KindsCollected, AllCollected};

use crate::chains::Chains;
use crate::keys::{Key, are_apart};
use crate::mode::Mode;
use crate::rows::is_barred;
use crate::sights::Sight;
use std::alloc::Global;
use vx_base::outcome::NoMemory;

/// The number that stands for no value that is read.
const NONE_READ: u32 = 4294967295;

/// The places so far. A value has the chain of its number's last digits, in which other values may have places too.
#[derive(Drop)]
pub(crate) struct Near {
    /// Those that write a value.
    pub(crate) writers: Chains,
    /// Those that read a value.
    pub(crate) readers: Chains,
    /// The splits, the accesses, the stores, and what can be seen.
    pub(crate) kinds: Chains,
}

/// The chain of a value.
fn row_of(value: u32) -> usize
    ensures { result ≡ value % 128 }
{
    (value % 128) as usize
}

/// Notes a place for a value that its operation reads.
fn note_read(readers: &mut Chains, value: u32, place: u32) -> Result<(), NoMemory>
    ensures keeps { IfOk result (λ _. ChainsKept readers.old readers.new) }
    ensures has { IfOk result (λ _. (value ≡ 4294967295 → ⊥) → IsOn readers.new (value % 128) place) }
{
    if value == NONE_READ {
        return Ok(());
    }
    readers.put(row_of(value), place)
}

/// Notes a place for a kind, if its operation is of it.
fn note_kind(kinds: &mut Chains, row: usize, is: bool, place: u32) -> Result<(), NoMemory>
    ensures keeps { IfOk result (λ _. ChainsKept kinds.old kinds.new) }
    ensures has { IfOk result (λ _. is ≡ true → IsOn kinds.new row place) }
{
    if is { kinds.put(row, place) } else { Ok(()) }
}

/// Notes a place for all values that its operation reads.
fn note_reads(readers: &mut Chains, place: u32, key: &Key) -> Result<(), NoMemory>
    ensures keeps { IfOk result (λ _. ChainsKept readers.old readers.new) }
    ensures first { IfOk result (λ _. (key.now.first ≡ 4294967295 → ⊥) → IsOn readers.new (key.now.first % 128) place) }
    ensures second { IfOk result (λ _. (key.now.second ≡ 4294967295 → ⊥) → IsOn readers.new (key.now.second % 128) place) }
    ensures third { IfOk result (λ _. (key.now.third ≡ 4294967295 → ⊥) → IsOn readers.new (key.now.third % 128) place) }
{
    note_read(readers, key.first, place)?;
    note_read(readers, key.second, place)?;
    note_read(readers, key.third, place)
}

/// Notes a place for all kinds of its operation.
fn note_kinds(kinds: &mut Chains, place: u32, key: &Key) -> Result<(), NoMemory>
    ensures keeps { IfOk result (λ _. ChainsKept kinds.old kinds.new) }
    ensures split { IfOk result (λ _. key.now.leaves ≡ true → IsOn kinds.new 0 place) }
    ensures access { IfOk result (λ _. key.now.is_access ≡ true → IsOn kinds.new 1 place) }
    ensures store { IfOk result (λ _. key.now.is_store ≡ true → IsOn kinds.new 2 place) }
    ensures observable { IfOk result (λ _. key.now.is_observable ≡ true → IsOn kinds.new 3 place) }
{
    note_kind(kinds, 0, key.leaves, place)?;
    note_kind(kinds, 1, key.is_access, place)?;
    note_kind(kinds, 2, key.is_store, place)?;
    note_kind(kinds, 3, key.is_observable, place)
}

impl Near {
    /// No place is noted.
    pub(crate) fn new(alloc: Global) -> Near {
        Near {
            writers: Chains::new(alloc),
            readers: Chains::new(alloc),
            kinds: Chains::new(alloc),
        }
    }

    /// Notes the operation at a place, of which the entry is given.
    pub(crate) fn note(&mut self, place: u32, key: &Key) -> Result<(), NoMemory>
        ensures keeps { IfOk result (λ _. NearKept self.old self.new) }
        ensures noted { IfOk result (λ _. IsNoted self.new place key.now) }
    {
        self.writers.put(row_of(key.written), place)?;
        note_reads(&mut self.readers, place, key)?;
        note_kinds(&mut self.kinds, place, key)
    }

    /// Lists what is near to a lower operation among all that is noted.
    #[tactic(auto, using(crate::proofs::Nearby::all_collected))]
    pub(crate) fn collect(
        &self,
        sight: &Sight,
        b: &Key,
        places: &mut Vec<u32>,
    ) -> Result<(), NoMemory>
        requires { by_rows sight.now.mode b.now ≡ true }
        ensures { OnOk result (AllCollected sight.now.keys self.now b.now places.new.items) }
    {
        places.clear();
        self.collect_writers(sight, b, places)?;
        collect_on(sight, b, &self.readers, row_of(b.written), places)?;
        self.collect_kinds(sight, b, places)
    }

    /// What writes a value that the lower operation names.
    fn collect_writers(&self, sight: &Sight, b: &Key, places: &mut Vec<u32>) -> Result<(), NoMemory>
        ensures { OnOk result (WritersCollected sight.now.keys self.now b.now places.old.items places.new.items) }
    {
        collect_on(sight, b, &self.writers, row_of(b.written), places)?;
        collect_on(sight, b, &self.writers, row_of(b.first), places)?;
        collect_on(sight, b, &self.writers, row_of(b.second), places)?;
        collect_on(sight, b, &self.writers, row_of(b.third), places)
    }

    /// What the kind of the lower operation asks for.
    fn collect_kinds(&self, sight: &Sight, b: &Key, places: &mut Vec<u32>) -> Result<(), NoMemory>
        ensures { OnOk result (KindsCollected sight.now.keys self.now b.now places.old.items places.new.items) }
    {
        collect_on(sight, b, &self.kinds, 0, places)?;
        collect_if(b.is_store, sight, b, &self.kinds, 1, places)?;
        collect_if(b.is_access, sight, b, &self.kinds, 2, places)?;
        collect_on(sight, b, &self.kinds, 3, places)
    }
}

/// Lists those of a chain that are near to a lower operation, if it asks for them.
fn collect_if(
    asks: bool,
    sight: &Sight,
    b: &Key,
    chains: &Chains,
    row: usize,
    places: &mut Vec<u32>,
) -> Result<(), NoMemory>
    ensures { OnOk result (AreCollected sight.now.keys b.now (λ i. (asks ≡ true) × IsOn chains.now row i) places.old.items places.new.items) }
{
    if asks {
        collect_on(sight, b, chains, row, places)
    } else {
        Ok(())
    }
}

/// Lists those of a chain that are near to a lower operation.
#[tactic(auto, using(crate::proofs::Nearby::none_walked, crate::proofs::Nearby::one_walked, crate::proofs::Nearby::all_walked))]
fn collect_on(
    sight: &Sight,
    b: &Key,
    chains: &Chains,
    row: usize,
    places: &mut Vec<u32>,
) -> Result<(), NoMemory>
    ensures { OnOk result (AreCollected sight.now.keys b.now (IsOn chains.now row) places.old.items places.new.items) }
{
    let mut at = chains.head(row);
    'walk: while at > 0 {
        let link = chains.links[at - 1];
        collect_one(sight, b, link.place, places)?;
        at = link.before;
    }
    Ok(())
}

/// Lists a place, if it is near.
fn collect_one(sight: &Sight, b: &Key, place: u32, places: &mut Vec<u32>) -> Result<(), NoMemory>
    ensures { OnOk result (AreCollected sight.now.keys b.now (λ i. i ≡ place) places.old.items places.new.items) }
{
    match sight.key(place as usize) {
        None => Ok(()),
        Some(a) => {
            if is_near(a, b) {
                places.push(place)?;
            }
            Ok(())
        }
    }
}

/// Whether of two operations, the upper one first, more counts than the kinds, or what can be seen.
fn is_near(a: &Key, b: &Key) -> bool
    ensures { result ≡ is_near a.now b.now }
{
    !are_apart(a, b) || a.is_observable && (b.is_observable || b.leaves)
}

/// Whether a lower operation finds all of its delays among those that are near.
pub(crate) fn by_rows(mode: Mode, b: &Key) -> bool
    ensures { result ≡ by_rows mode b.now }
{
    !(b.written == NONE_READ
        || b.leaves && is_barred(mode)
        || 0 < b.joined && (b.is_observable || b.leaves || is_barred(mode)))
}
