// Writes the text of a profile.

ghost use Rattle.std.specs.Prelude.{◌≡◌, ◌++◌, IfOk, OnOk, codes, map};
ghost use Rattle.std.specs.BTreeMap.{IsOrdered};
ghost use Rattle.std.specs.List.{AllByRecursion, filter, flat_map};
ghost use Rattle.vx_flow.specs.Meaning.{AlongEdge, AtBlock};
ghost use Rattle.vx_profile.specs.Counts.{pair_cmp, triple_cmp};
ghost use Rattle.vx_profile.specs.Text.{AreAscending, Spells, Fits, block_row, counts_text, edge_row, is_passed, number_text, row_text};

use crate::counts::Counts;
use itoa::Buffer;
use std::alloc::Global;
use std::collections::BTreeMap;
use vx_base::outcome::NoMemory;
use vx_flow::graph::BlockId;

#[tactic(auto, using(crate::proofs::Decimals::decimal_is_number))]
fn push_number(out: &mut Vec<u8>, number: u64) -> Result<(), NoMemory>
    ensures { OnOk result (out.new.items ≡ out.old.items ++ number_text number) }
{
    let mut buffer = Buffer::new();
    out.extend_from_slice(buffer.format(number).as_bytes())?;
    Ok(())
}

fn push_name(out: &mut Vec<u8>, name: u32) -> Result<(), NoMemory>
    ensures { OnOk result (out.new.items ≡ out.old.items ++ number_text name ++ codes " ") }
{
    push_number(out, u64::from(name))?;
    out.extend_from_slice(b" ")?;
    Ok(())
}

fn push_block(out: &mut Vec<u8>, function: u32, block: BlockId, count: u64) -> Result<(), NoMemory>
    ensures { OnOk result (out.new.items ≡ out.old.items ++ row_text (record { visit = AtBlock function block; count = count })) }
{
    out.extend_from_slice(b"block ")?;
    push_name(out, function)?;
    push_name(out, block)?;
    push_number(out, count)?;
    out.extend_from_slice(b"\n")?;
    Ok(())
}

fn push_edge(
    out: &mut Vec<u8>,
    function: u32,
    from: BlockId,
    to: BlockId,
    count: u64,
) -> Result<(), NoMemory>
    ensures { OnOk result (out.new.items ≡ out.old.items ++ row_text (record { visit = AlongEdge function from to; count = count })) }
{
    out.extend_from_slice(b"edge ")?;
    push_name(out, function)?;
    push_name(out, from)?;
    push_name(out, to)?;
    push_number(out, count)?;
    out.extend_from_slice(b"\n")?;
    Ok(())
}

fn push_blocks(out: &mut Vec<u8>, blocks: &BTreeMap<(u32, BlockId), u64>) -> Result<(), NoMemory>
    ensures text { OnOk result (out.new.items ≡ out.old.items ++ flat_map row_text (filter is_passed (map block_row blocks.now.entries))) }
    ensures fit { OnOk result (AllByRecursion Fits (filter is_passed (map block_row blocks.now.entries))) }
    ensures ordered { IsOrdered pair_cmp blocks.now }
{
    for (block, passed) in blocks {
        if *passed > 0 {
            push_block(out, block.0, block.1, *passed)?;
        }
    }
    Ok(())
}

fn push_edges(
    out: &mut Vec<u8>,
    edges: &BTreeMap<(u32, BlockId, BlockId), u64>,
) -> Result<(), NoMemory>
    ensures text { OnOk result (out.new.items ≡ out.old.items ++ flat_map row_text (filter is_passed (map edge_row edges.now.entries))) }
    ensures fit { OnOk result (AllByRecursion Fits (filter is_passed (map edge_row edges.now.entries))) }
    ensures ordered { IsOrdered triple_cmp edges.now }
{
    for (edge, taken) in edges {
        if *taken > 0 {
            push_edge(out, edge.0, edge.1, edge.2, *taken)?;
        }
    }
    Ok(())
}

/// The text of a profile: the blocks and edges with a count over 0, blocks before edges, each ascending by its numbers.
pub fn write_counts(alloc: Global, counts: &Counts) -> Result<Vec<u8>, NoMemory>
    ensures text { IfOk result (λ text. text.items ≡ counts_text counts.now) }

    // It is the text of these counts.
    ensures spelled { IfOk result (λ text. Spells text.items counts.now) }

    // Its lines ascend, and no block or edge has two.
    ensures ascending { IfOk result (λ _. AreAscending counts.now) }
{
    let mut out = Vec::new(alloc);
    out.extend_from_slice(b"profile 1\n")?;
    push_blocks(&mut out, counts.block_counts())?;
    push_edges(&mut out, counts.edge_counts())?;
    Ok(out)
}
