// How much of each unit the words of a trace use.

use crate::loads::{FREE, Load, both};
use vx_machine::Machine;
use vx_page::page::Page;

/// How many hundredths a part is of a whole.
pub(crate) fn percent(part: u64, whole: u64) -> u64 {
    if whole == 0 {
        0
    } else {
        part.saturating_mul(100) / whole
    }
}

/// What all words take together.
fn total_of(loads: &[Load]) -> Load {
    let mut total = FREE;
    for load in loads {
        total = both(total, *load);
    }
    total
}

fn put_part(page: &mut Page, name: &[u8], used: u32, each: u32, times: u64) {
    let whole = u64::from(each).saturating_mul(times);
    page.put(b" &middot; ");
    page.put(name);
    page.field(b" ", used);
    page.put(b" of ");
    page.long(whole);
    page.put(b" (");
    page.long(percent(u64::from(used), whole));
    page.put(b" %)");
}

/// Puts how much of each unit is used in the words of a trace, of which there are so many.
pub(crate) fn put_use(page: &mut Page, machine: &Machine, length: u32, loads: &[Load]) {
    let total = total_of(loads);
    let words = u64::from(length);
    let cells = words.saturating_mul(u64::from(machine.clusters()));
    put_part(page, b"slots", total.slots, machine.issue(), cells);
    put_part(page, b"alus", total.alus, machine.alus(), cells);
    put_part(
        page,
        b"multipliers",
        total.multipliers,
        machine.multipliers(),
        cells,
    );
    put_part(
        page,
        b"memory units",
        total.memory_units,
        machine.memory_units(),
        cells,
    );
    if machine.clusters() > 1 {
        put_part(
            page,
            b"copy paths",
            total.copies,
            machine.copy_paths(),
            words,
        );
    }
    if machine.branches() > 1 {
        put_part(page, b"branches", total.splits, machine.branches(), words);
    }
}
