// Where a run spends its cycles, trace by trace, and what it has the units do there, by the counts of a profile.

use crate::loads::need_of;
use crate::passes::passes_at;
use crate::units::percent;
use vx_base::listed::Bytes;
use vx_page::operations::bytes_at;
use vx_page::page::Page;
use vx_page::view::TraceView;

/// How many traces are shown.
const MOST_SHOWN: usize = 20;

/// Operations that a run does.
#[derive(Clone, Copy)]
pub struct Work {
    /// On ALUs.
    pub alus: u64,
    /// On multipliers.
    pub multipliers: u64,
    /// On memory units.
    pub memory_units: u64,
    /// Copies between clusters.
    pub copies: u64,
}

/// What a run spends in a trace.
#[derive(Clone, Copy)]
pub struct Spent {
    /// The number of the trace.
    pub trace: u32,
    /// The number of its function.
    pub function: u32,
    /// Its words.
    pub words: u32,
    /// The cycles in them and in the empty ones behind.
    pub cycles: u64,
    /// The operations done there.
    pub work: Work,
}

/// Nothing done.
const NO_WORK: Work = Work {
    alus: 0,
    multipliers: 0,
    memory_units: 0,
    copies: 0,
};

/// So many of one kind more, if there are any of it.
fn more_of(before: u64, kind: u32, times: u64) -> u64 {
    before.saturating_add(u64::from(kind).saturating_mul(times))
}

/// What is done in a trace whose words are issued so often.
fn work_of(trace: &TraceView, passes: &[u64]) -> Work {
    let words = trace.placed.words.as_slice();
    let mut work = NO_WORK;
    for (place, op) in trace
        .placed
        .clustered
        .trace
        .ops
        .as_slice()
        .iter()
        .enumerate()
    {
        if let Some(word) = words.get(place) {
            let times = passes_at(passes, *word);
            let need = need_of(op);
            work = Work {
                alus: more_of(work.alus, need.alus, times),
                multipliers: more_of(work.multipliers, need.multipliers, times),
                memory_units: more_of(work.memory_units, need.memory_units, times),
                copies: more_of(work.copies, need.copies, times),
            };
        }
    }
    work
}

/// What a run spends in a trace whose words are issued so often, and that takes so many cycles of it.
pub fn spent_in(trace: &TraceView, passes: &[u64], cycles: u64) -> Spent {
    Spent {
        trace: trace.number,
        function: trace.function,
        words: trace.placed.length,
        cycles,
        work: work_of(trace, passes),
    }
}

/// Both together.
fn and(one: Work, other: Work) -> Work {
    Work {
        alus: one.alus.saturating_add(other.alus),
        multipliers: one.multipliers.saturating_add(other.multipliers),
        memory_units: one.memory_units.saturating_add(other.memory_units),
        copies: one.copies.saturating_add(other.copies),
    }
}

fn all_cycles(spent: &[Spent]) -> u64 {
    let mut cycles: u64 = 0;
    for one in spent {
        cycles = cycles.saturating_add(one.cycles);
    }
    cycles
}

fn all_work(spent: &[Spent]) -> Work {
    let mut work = NO_WORK;
    for one in spent {
        work = and(work, one.work);
    }
    work
}

fn put_long(page: &mut Page, number: u64) {
    page.put(b"<td>");
    page.long(number);
}

fn put_work(page: &mut Page, work: &Work) {
    put_long(page, work.alus);
    put_long(page, work.multipliers);
    put_long(page, work.memory_units);
    put_long(page, work.copies);
}

fn put_spent(page: &mut Page, functions: &[Bytes], one: &Spent, all: u64) {
    page.field(b"<tr><th><a href=#t", one.trace);
    page.field(b">trace ", one.trace);
    page.put(b"</a><td>");
    page.source(bytes_at(functions, one.function));
    page.field(b"<td>", one.words);
    put_long(page, one.cycles);
    put_long(page, percent(one.cycles, all));
    put_work(page, &one.work);
}

fn put_most(page: &mut Page, functions: &[Bytes], spent: &[Spent], all: u64) {
    for (place, one) in spent.iter().enumerate() {
        if place < MOST_SHOWN && one.cycles > 0 {
            put_spent(page, functions, one, all);
        }
    }
}

/// The most cycles first.
fn spent_key(one: &Spent) -> u64 {
    18446744073709551615u64.saturating_sub(one.cycles)
}

/// Puts the traces in which a run spends most of its cycles, and what it does in all.
pub fn put_times(page: &mut Page, functions: &[Bytes], spent: &mut Vec<Spent>) {
    let all = all_cycles(spent.as_slice());
    if all == 0 {
        page.put(b"<p>No profile counts a block of this program.</p>\n");
        return;
    }
    spent.sort_unstable_by_key(spent_key);
    page.put(
        b"<div class=wide><table class=y><tr><th>trace<th>function<th>words<th>cycles<th>%<th>alu operations<th>multiplications<th>memory accesses<th>copies",
    );
    put_most(page, functions, spent.as_slice(), all);
    page.put(b"<tr><th>all traces<td><td>");
    put_long(page, all);
    put_long(page, 100);
    put_work(page, &all_work(spent.as_slice()));
    page.put(b"</table></div>\n");
}
