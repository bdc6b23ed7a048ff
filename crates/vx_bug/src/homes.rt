// The homes of values while clusters are chosen: a table by value that grows as values get their homes.

ghost use Rattle.std.specs.Prelude.{◌≡◌, ◌≤◌, ℕ, OnOk, length};
ghost use Rattle.vx_bug.specs.Clusters.{some_of, with_home, with_homes};
ghost use Rattle.vx_bug.specs.Ledgers.{homes_in, placed};

use vx_base::outcome::NoMemory;
use vx_flow::graph::Value;

/// The home of a value, if it has one.
pub(crate) fn home_in(homes: &[Option<u32>], value: Value) -> Option<u32>
    ensures { result ≡ homes_in homes.now value }
{
    match homes.get(value as usize) {
        Some(home) => *home,
        None => None,
    }
}

/// Gives a value a home, whatever it had.
#[tactic(auto, using(crate::proofs::Giving::set_there))]
pub(crate) fn set_home(
    homes: &mut Vec<Option<u32>>,
    value: Value,
    cluster: u32,
) -> Result<(), NoMemory>
    ensures { OnOk result (homes_in homes.new.items ≡ placed cluster (homes_in homes.old.items) value) }
{
    let place = value as usize;
    lengthen(homes, place + 1)?;
    homes[place] = Some(cluster);
    Ok(())
}

/// Makes the table this long at least.
#[tactic(auto, using(crate::proofs::Giving::longer))]
fn lengthen(homes: &mut Vec<Option<u32>>, long: usize) -> Result<(), NoMemory>
    ensures same { OnOk result (homes_in homes.new.items ≡ homes_in homes.old.items) }
    ensures long { OnOk result (long ≤ length homes.new.items) }
{
    'grow: while homes.len() < long {
        homes.push(None)?;
    }
    Ok(())
}

/// Gives a value a home where it has none.
#[tactic(auto, using(crate::proofs::Giving::kept_home, crate::proofs::Giving::first_home))]
pub(crate) fn give_home(
    homes: &mut Vec<Option<u32>>,
    value: Option<Value>,
    cluster: u32,
) -> Result<(), NoMemory>
    ensures { OnOk result (homes_in homes.new.items ≡ with_homes cluster (homes_in homes.old.items) (some_of value)) }
{
    match value {
        None => Ok(()),
        Some(value) => match home_in(homes.as_slice(), value) {
            Some(_) => Ok(()),
            None => set_home(homes, value, cluster),
        },
    }
}
