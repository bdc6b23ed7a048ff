// What is given of the parameters of functions: for each place where the parameter lies, by what every call passes there.

ghost use Rattle.std.specs.Prelude.{◌≡◌, IfOk};
ghost use Rattle.vx_narrow.specs.Checking.{are_passed, is_entry_checked, lie_in};
ghost use Rattle.vx_claims.specs.Claims.{listed_claims};
ghost use Rattle.vx_narrow.specs.Checking.{listed_given};

use std::alloc::Global;
use vx_base::listed::Listed;
use vx_base::outcome::NoMemory;
use vx_claims::access::tell;
use vx_claims::claim::{Claim, accesses_in, facts_in};
use vx_claims::effects::append_within;
use vx_claims::fact::Fact;
use vx_claims::intervals::Interval;
use vx_claims::known::{give, is_inside, range_of};
use vx_flow::graph::{Graph, Operand, Value};

/// What a table gives of the parameters of a function, nothing where it has no row.
pub fn given_of(table: &[Listed<Interval>], function: usize) -> &[Interval]
    ensures { result.now ≡ listed_given table.now function }
{
    match table.get(function) {
        Some(intervals) => intervals.as_slice(),
        None => &[],
    }
}

/// Whether by the facts each argument lies in the interval of its place.
pub fn are_passed(facts: &[Fact], arguments: &[Operand], intervals: &[Interval]) -> bool
    ensures { result ≡ are_passed facts.now arguments.now intervals.now }
{
    match arguments {
        [] => true,
        [argument, others @ ..] => match intervals {
            [] => true,
            [within, later @ ..] => {
                is_inside(range_of(facts, *argument), *within) && are_passed(facts, others, later)
            }
        },
    }
}

/// What holds at an entry: each parameter lies in the interval of its place.
pub fn lie_in(
    alloc: Global,
    parameters: &[Value],
    intervals: &[Interval],
) -> Result<Listed<Fact>, NoMemory>
    ensures { IfOk result (λ facts. facts ≡ lie_in parameters.now intervals.now) }
{
    match parameters {
        [] => Ok(Listed::new(alloc)),
        [parameter, others @ ..] => match intervals {
            [] => Ok(Listed::new(alloc)),
            [within, later @ ..] => {
                let behind = lie_in(alloc, others, later)?;
                let mut facts = Listed::new(alloc);
                append_within(&mut facts, behind.as_slice(), *parameter, *within)?;
                Ok(facts)
            }
        },
    }
}

/// Whether what is given of the parameters of a function gives what a table claims at its entry.
pub fn is_entry_checked(
    alloc: Global,
    given: &[Listed<Interval>],
    function: usize,
    graph: &Graph,
    table: &[Claim],
) -> Result<bool, NoMemory>
    ensures { IfOk result (λ passes. passes ≡ is_entry_checked (listed_given given.now function) graph.now.parameters (listed_claims table.now 0)) }
{
    let intervals = given_of(given, function);
    let facts = lie_in(alloc, graph.parameters.as_slice(), intervals)?;
    Ok(give(facts.as_slice(), facts_in(table, 0)) && tell(&[], accesses_in(table, 0)))
}
