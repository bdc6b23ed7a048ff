// The names of a graph by its webs and a row that has the name of each. Nothing is promised of them; they are tested.

use crate::names::{BlockNames, GraphNames, Name};
use crate::table::name_of;
use crate::value_sets::NONE;
use crate::web_names::WebNames;
use std::alloc::Global;
use vx_base::listed::Listed;
use vx_base::outcome::NoMemory;
use vx_flow::graph::{Bank, Value};

/// The names by a row that has the name of each web; the new graph has values of these banks. A web without a name, which nothing
/// reads, stands nowhere.
pub(crate) fn names_by(
    alloc: Global,
    webs: &WebNames,
    to: &[Value],
    banks: Listed<Bank>,
) -> Result<GraphNames, NoMemory> {
    let mut new = Listed::new(alloc);
    for web in webs.parameters.as_slice() {
        new.push(name_of(to, *web))?;
    }
    let blocks = blocks_by(alloc, webs.blocks.as_slice(), to)?;
    Ok(GraphNames {
        blocks,
        banks,
        parameters: new,
    })
}

fn blocks_by(
    alloc: Global,
    webs: &[BlockNames],
    to: &[Value],
) -> Result<Listed<BlockNames>, NoMemory> {
    let mut blocks = Listed::new(alloc);
    for names in webs {
        let start = start_by(alloc, names.start.as_slice(), to)?;
        let written = written_by(alloc, names.written.as_slice(), to)?;
        blocks.push(BlockNames {
            start,
            written,
            result: name_of(to, names.result),
        })?;
    }
    Ok(blocks)
}

fn start_by(alloc: Global, own: &[Name], to: &[Value]) -> Result<Listed<Name>, NoMemory> {
    let mut start = Listed::new(alloc);
    for name in own {
        let new = name_of(to, name.new);
        if new != NONE {
            start.push(Name { old: name.old, new })?;
        }
    }
    Ok(start)
}

fn written_by(
    alloc: Global,
    own: &[Option<Value>],
    to: &[Value],
) -> Result<Listed<Option<Value>>, NoMemory> {
    let mut written = Listed::new(alloc);
    for name in own {
        written.push(match name {
            Some(value) => Some(name_of(to, *value)),
            None => None,
        })?;
    }
    Ok(written)
}
