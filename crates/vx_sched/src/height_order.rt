// The places of a trace in the order in which their operations are placed: greater heights first, and of equal heights the lower
// place. specs/Ranking.antt says the same.

ghost use Rattle.std.specs.Prelude.{◌≡◌, ◌<◌, ◌^◌, IfOk, drop, length};
ghost use Rattle.vx_dep.specs.Deps.{height_in};
ghost use Rattle.vx_sched.specs.Filling.{IsNext};
ghost use Rattle.vx_sched.specs.Ranking.{IsRanked, AreRanked, AreSorted, AreLeft, first_of};
ghost use Rattle.std.specs.List.Sorted.{IsPermutation};

use std::alloc::Global;
use vx_base::outcome::NoMemory;
use vx_dep::Deps;

/// A place of a trace with the number by which it is sorted.
#[derive(Clone, Copy)]
pub(crate) struct Ranked {
    pub(crate) place: u32,
    pub(crate) rank: u64,
}

/// All places in order.
pub(crate) fn in_order(alloc: Global, deps: &Deps, count: usize) -> Result<Vec<Ranked>, NoMemory>
    requires few { count < 2 ^ 32 }
    ensures ranked { IfOk result (λ order. AreRanked (height_in deps.now) count order.items) }
    ensures sorted { IfOk result (λ order. AreSorted order.items) }
{
    let mut order = all_ranks(alloc, deps, count)?;
    sort_ranks(&mut order);
    Ok(order)
}

fn sort_ranks(order: &mut Vec<Ranked>)
    ensures sorted { AreSorted order.new.items }
    ensures same { IsPermutation order.old.items order.new.items }
{
    order.sort_unstable_by_key(|ranked| ranked.rank);
}

/// All places with their ranks, in the order of the trace.
#[tactic(auto, using(crate::proofs::Ranks::none_ranked, crate::proofs::Ranks::one_ranked))]
fn all_ranks(alloc: Global, deps: &Deps, count: usize) -> Result<Vec<Ranked>, NoMemory>
    requires few { count < 2 ^ 32 }
    ensures { IfOk result (λ all. AreRanked (height_in deps.now) count all.items) }
{
    let mut all = Vec::new(alloc);
    let mut place: u32 = 0;
    'rank: while (place as usize) < count {
        all.push(rank_at(deps, place))?;
        place += 1;
    }
    Ok(all)
}

fn rank_at(deps: &Deps, place: u32) -> Ranked
    ensures place { result.place ≡ place }
    ensures rank { IsRanked (height_in deps.now) result }
{
    let height = deps.height(place);
    Ranked {
        place,
        rank: u64::from(u32::MAX - height) * 4294967296 + u64::from(place),
    }
}

/// The place of the operation that comes before all others without a word.
pub(crate) fn next(left: &[Ranked]) -> Option<u32>
    ensures { result ≡ first_of left.now }
{
    match left.first() {
        None => None,
        Some(first) => Some(first.place),
    }
}

/// Those behind the first.
pub(crate) fn behind(left: &[Ranked]) -> &[Ranked]
    ensures { result.now ≡ drop 1 left.now }
{
    match left.split_first() {
        None => left,
        Some((_, behind)) => behind,
    }
}
