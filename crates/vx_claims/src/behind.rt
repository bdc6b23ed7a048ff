// What is known behind the operations of a block.

ghost use Rattle.std.specs.Prelude.{◌≡◌, IfOk};
ghost use Rattle.vx_claims.specs.Forming.{accessed_from, after_from};

use crate::access::{Access, accessed, copied_accesses};
use crate::claim::Claim;
use crate::fact::Fact;
use crate::fact_list::FactList;
use crate::forms::form;
use crate::update::learn;
use std::alloc::Global;
use vx_base::listed::Listed;
use vx_base::outcome::NoMemory;
use vx_flow::graph::{Array, Op};

/// What is known behind operations of a function with these arrays, of values and of words, from what is claimed before them.
pub fn known_behind(
    alloc: Global,
    arrays: &[Array],
    claims: &[Fact],
    accesses: &[Access],
    ops: &[Op],
) -> Result<Claim, NoMemory>
    ensures facts { IfOk result (λ behind. behind.facts ≡ after_from arrays.now claims.now accesses.now ops.now) }
    ensures accesses { IfOk result (λ behind. behind.accesses ≡ accessed_from arrays.now claims.now accesses.now ops.now) }
{
    let mut facts = FactList::new(alloc, claims, ops.len())?;
    let mut known = copied_accesses(alloc, accesses)?;
    for op in ops {
        let form = form(&facts, known.as_slice(), op);
        learn(alloc, &mut facts, known.as_slice(), op, &form)?;
        known = accessed(alloc, arrays, known.as_slice(), &form)?;
    }
    Ok(Claim {
        facts: Listed::from_vec(facts.into_vec())?,
        accesses: known,
    })
}
