// The operations above another one of a trace that it has to stand behind, found once for each operation.

ghost use Rattle.std.specs.Prelude.{◌≡◌, ◌++◌, ◌+◌, ◌^◌, ◌<◌, true, Some, slice_get, IfOk, OnOk};
ghost use Rattle.vx_dep.specs.Earlier.{AreEarlier, AreAllEarlier, list_at, noted};
ghost use Rattle.vx_dep.specs.Near.{AreNoted, AreBehind, by_rows};

use crate::keys::Key;
use crate::near::{Near, by_rows};
use crate::sights::Sight;
use std::alloc::Global;
use vx_base::listed::Listed;
use vx_base::outcome::NoMemory;

/// An operation of a trace that another one below it has to stand behind.
#[derive(Clone, Copy)]
pub struct Earlier {
    /// Its place.
    pub place: u32,
    /// How many words the other one has to stand behind it.
    pub delay: u32,
}

/// How many operations a trace has at least of which those are looked up that share a value with another one.
const MANY: usize = 48;

/// How many places are put in order at most. A look at all operations above costs less than more.
const MOST_SORTED: usize = 24;

/// One list for each operation of the trace.
pub(crate) fn all_earlier(alloc: Global, sight: &Sight) -> Result<Listed<Listed<Earlier>>, NoMemory>
    ensures { IfOk result (AreAllEarlier sight.now.machine sight.now.mode sight.now.trace.now) }
{
    if sight.trace.ops.len() < MANY {
        all_by_scan(alloc, sight)
    } else {
        all_by_rows(alloc, sight)
    }
}

/// The same by a look at all operations above each. Each list is found in one room for all, and takes no more than its length.
#[tactic(auto, using(crate::proofs::Noting::no_lists))]
fn all_by_scan(alloc: Global, sight: &Sight) -> Result<Listed<Listed<Earlier>>, NoMemory>
    ensures { IfOk result (AreAllEarlier sight.now.machine sight.now.mode sight.now.trace.now) }
{
    let mut lists = Listed::new(alloc);
    let mut found = Vec::new(alloc);
    let mut place: u32 = 0;
    'find: while (place as usize) < sight.trace.ops.len() {
        find_earlier(sight, place, &mut found)?;
        let list = copied(alloc, found.as_slice())?;
        lists.push(list)?;
        place += 1;
    }
    Ok(lists)
}

/// The same by what the operations above each name.
#[tactic(auto, using(crate::proofs::Sought::nothing_noted))]
fn all_by_rows(alloc: Global, sight: &Sight) -> Result<Listed<Listed<Earlier>>, NoMemory>
    ensures { IfOk result (AreAllEarlier sight.now.machine sight.now.mode sight.now.trace.now) }
{
    let mut near = Near::new(alloc);
    let mut places = Vec::new(alloc);
    let mut found = Vec::new(alloc);
    lists_by_rows(alloc, sight, &mut near, &mut places, &mut found)
}

/// The same, where nothing is noted yet.
#[tactic(auto, using(crate::proofs::Noting::no_lists))]
fn lists_by_rows(
    alloc: Global,
    sight: &Sight,
    near: &mut Near,
    places: &mut Vec<u32>,
    found: &mut Vec<Earlier>,
) -> Result<Listed<Listed<Earlier>>, NoMemory>
    requires { AreNoted sight.now.keys near.old 0 }
    ensures { IfOk result (AreAllEarlier sight.now.machine sight.now.mode sight.now.trace.now) }
{
    let mut lists = Listed::new(alloc);
    let mut place: u32 = 0;
    'find: while (place as usize) < sight.trace.ops.len() {
        let list = list_near(alloc, sight, place, near, places, found)?;
        lists.push(list)?;
        place += 1;
    }
    Ok(lists)
}

/// The list of the operation at a place, which is noted then.
fn list_near(
    alloc: Global,
    sight: &Sight,
    place: u32,
    near: &mut Near,
    places: &mut Vec<u32>,
    found: &mut Vec<Earlier>,
) -> Result<Listed<Earlier>, NoMemory>
    requires { AreNoted sight.now.keys near.old place }
    ensures list { IfOk result (AreEarlier sight.now.machine sight.now.mode sight.now.trace.now place place) }
    ensures noted { IfOk result (λ _. AreNoted sight.now.keys near.new (place + 1)) }
{
    find_near(sight, place, near, places, found)?;
    let list = copied(alloc, found.as_slice())?;
    Ok(list)
}

fn copied(alloc: Global, found: &[Earlier]) -> Result<Listed<Earlier>, NoMemory>
    ensures { IfOk result (λ list. list ≡ found.now) }
{
    let mut list = Vec::new(alloc);
    list.extend_from_slice(found)?;
    Ok(Listed::from_vec(list)?)
}

/// The list of the operation at a place; an empty one where no operation stands there.
pub(crate) fn list_at(lists: &[Listed<Earlier>], place: usize) -> &[Earlier]
    ensures { result.now ≡ list_at lists.now place }
{
    match lists.get(place) {
        Some(list) => list.as_slice(),
        None => &[],
    }
}

/// Those that the operation at a place has to stand behind.
fn find_earlier(sight: &Sight, place: u32, found: &mut Vec<Earlier>) -> Result<(), NoMemory>
    ensures { OnOk result (AreEarlier sight.now.machine sight.now.mode sight.now.trace.now place place found.new.items) }
{
    found.clear();
    let mut above = sight.next_near(0, place);
    'note: while above < place {
        let delay = sight.delay(above as usize, place as usize);
        note(found, above, delay)?;
        above = sight.next_near(above + 1, place);
    }
    Ok(())
}

/// The same by what is noted of the operations above; it is noted too.
fn find_near(
    sight: &Sight,
    place: u32,
    near: &mut Near,
    places: &mut Vec<u32>,
    found: &mut Vec<Earlier>,
) -> Result<(), NoMemory>
    requires { AreNoted sight.now.keys near.old place }
    ensures found { OnOk result (AreEarlier sight.now.machine sight.now.mode sight.now.trace.now place place found.new.items) }
    ensures noted { OnOk result (AreNoted sight.now.keys near.new (place + 1)) }
{
    match sight.key(place as usize) {
        None => find_earlier(sight, place, found),
        Some(b) => {
            find_behind(sight, place, near, b, places, found)?;
            near.note(place, b)
        }
    }
}

/// The same for an operation of which the entry is given.
fn find_behind(
    sight: &Sight,
    place: u32,
    near: &Near,
    b: &Key,
    places: &mut Vec<u32>,
    found: &mut Vec<Earlier>,
) -> Result<(), NoMemory>
    requires noted { AreNoted sight.now.keys near.now place }
    requires stands { slice_get sight.now.keys place ≡ Some b.now }
    ensures { OnOk result (AreEarlier sight.now.machine sight.now.mode sight.now.trace.now place place found.new.items) }
{
    if by_rows(sight.mode, b) {
        find_by_rows(sight, place, near, b, places, found)
    } else {
        find_earlier(sight, place, found)
    }
}

/// The same for one that finds all of its delays among those that are near.
fn find_by_rows(
    sight: &Sight,
    place: u32,
    near: &Near,
    b: &Key,
    places: &mut Vec<u32>,
    found: &mut Vec<Earlier>,
) -> Result<(), NoMemory>
    requires noted { AreNoted sight.now.keys near.now place }
    requires stands { slice_get sight.now.keys place ≡ Some b.now }
    requires rows { by_rows sight.now.mode b.now ≡ true }
    ensures { OnOk result (AreEarlier sight.now.machine sight.now.mode sight.now.trace.now place place found.new.items) }
{
    near.collect(sight, b, places)?;
    if places.len() > MOST_SORTED {
        return find_earlier(sight, place, found);
    }
    places.sort_unstable();
    note_all(sight, place, places.as_slice(), found)
}

/// Notes the delays behind some places; one that stands twice is noted once where the places ascend.
#[tactic(auto, using(crate::proofs::Sought::none_sought, crate::proofs::Sought::one_sought, crate::proofs::Sought::twice_sought, crate::proofs::Sought::all_sought))]
fn note_all(
    sight: &Sight,
    place: u32,
    places: &[u32],
    found: &mut Vec<Earlier>,
) -> Result<(), NoMemory>
    ensures { OnOk result (AreBehind sight.now.machine sight.now.mode sight.now.trace.now place places.now found.new.items) }
{
    found.clear();
    let mut next: u64 = 0;
    let mut rest = places;
    'note: loop {
        match rest.split_first() {
            None => return Ok(()),
            Some((above, others)) => {
                if u64::from(*above) + 1 != next {
                    let delay = sight.delay(*above as usize, place as usize);
                    note(found, *above, delay)?;
                    next = u64::from(*above) + 1;
                }
                rest = others;
            }
        }
    }
}

/// Notes an operation, where there is a delay.
fn note(found: &mut Vec<Earlier>, above: u32, delay: Option<u32>) -> Result<(), NoMemory>
    ensures { OnOk result (found.new.items ≡ found.old.items ++ noted above delay) }
{
    match delay {
        None => Ok(()),
        Some(delay) => {
            found.push(Earlier {
                place: above,
                delay,
            })?;
            Ok(())
        }
    }
}
