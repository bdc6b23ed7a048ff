// The homes of the copies that a clustered trace makes.

ghost use Rattle.std.specs.Prelude.{◌≡◌, OnOk};
ghost use Rattle.vx_bug.specs.Ledgers.{homes_in};
ghost use Rattle.vx_bug.specs.Laying.{with_copy, with_homes_of_copies};

use crate::cluster_copies::copy_of;
use crate::homes::set_home;
use vx_base::outcome::NoMemory;
use vx_flow::graph::Op;
use vx_flow::trace::TraceOp;

/// The home of a copy, where the operation makes one for another operation.
fn house_copy(
    homes: &mut Vec<Option<u32>>,
    values: u32,
    fixed: Option<u32>,
    op: &TraceOp,
    cluster: u32,
) -> Result<(), NoMemory>
    ensures { OnOk result (homes_in homes.new.items ≡ with_copy values (homes_in homes.old.items) fixed op.now cluster) }
{
    match fixed {
        Some(_) => Ok(()),
        None => match op {
            TraceOp::Plain(Op::Across { to, from }) => {
                let copy = copy_of(values, *from, cluster)?;
                if *to == copy {
                    set_home(homes, *to, cluster)
                } else {
                    Ok(())
                }
            }
            _ => Ok(()),
        },
    }
}

/// The homes of all copies that are made; each list has an entry for each operation.
pub(crate) fn house_copies(
    homes: &mut Vec<Option<u32>>,
    values: u32,
    ops: &[TraceOp],
    clusters: &[u32],
    fixed: &[Option<u32>],
) -> Result<(), NoMemory>
    ensures { OnOk result (homes_in homes.new.items ≡ with_homes_of_copies values (homes_in homes.old.items) ops.now clusters.now fixed.now) }
{
    let mut ops_left = ops;
    let mut clusters_left = clusters;
    let mut fixed_left = fixed;
    'house: loop {
        match ops_left.split_first() {
            None => return Ok(()),
            Some((op, more_ops)) => match clusters_left.split_first() {
                None => return Ok(()),
                Some((cluster, more_clusters)) => match fixed_left.split_first() {
                    None => return Ok(()),
                    Some((had, more_fixed)) => {
                        house_copy(homes, values, *had, op, *cluster)?;
                        ops_left = more_ops;
                        clusters_left = more_clusters;
                        fixed_left = more_fixed;
                    }
                },
            },
        }
    }
}
