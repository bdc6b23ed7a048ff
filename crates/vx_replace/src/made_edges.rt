// Whether regions are left by edges on which blocks are made. Where none is, they stay as they are.

ghost use Rattle.std.specs.Prelude.{◌≡◌};
ghost use Rattle.std.specs.List.{list_any};
ghost use Rattle.vx_replace.specs.MadeEdges.{exit_leads, is_made_on, item_leads, region_leads};

use vx_base::listed::Listed;
use vx_flow::graph::{BlockId, Edge, Exit};
use vx_mixed::region::{Item, Made, Region};

/// Whether one of these regions is left by an edge on which a block is made.
pub(crate) fn any_leads(made: &[Made], regions: &[Region]) -> bool
    ensures { result ≡ list_any (region_leads made.now) regions.now }
{
    for region in regions {
        if region_leads(made, region) {
            return true;
        }
    }
    false
}

fn region_leads(made: &[Made], region: &Region) -> bool
    ensures { result ≡ region_leads made.now region.now }
{
    words_lead(made, region.words.as_slice()) || exit_leads(made, region.from, &region.last)
}

fn words_lead(made: &[Made], words: &[Listed<Item>]) -> bool
    ensures { result ≡ list_any (list_any (item_leads made.now)) words.now }
{
    for word in words {
        if word_leads(made, word.as_slice()) {
            return true;
        }
    }
    false
}

fn word_leads(made: &[Made], word: &[Item]) -> bool
    ensures { result ≡ list_any (item_leads made.now) word.now }
{
    for item in word {
        if item_leads(made, item) {
            return true;
        }
    }
    false
}

fn item_leads(made: &[Made], item: &Item) -> bool
    ensures { result ≡ item_leads made.now item.now }
{
    match item {
        Item::Plain { .. } => false,
        Item::Split { edge, .. } => is_made_on(made, *edge),
    }
}

fn exit_leads(made: &[Made], from: BlockId, exit: &Exit) -> bool
    ensures { result ≡ exit_leads made.now from exit.now }
{
    match exit {
        Exit::Goto(to) => is_made_on(made, Edge { from, to: *to }),
        Exit::Split { yes, no, .. } => {
            is_made_on(made, Edge { from, to: *yes }) || is_made_on(made, Edge { from, to: *no })
        }
        Exit::Call { next, .. } => is_made_on(made, Edge { from, to: *next }),
        Exit::Return(_) => false,
        Exit::Ends(_) => false,
    }
}

/// Whether a block is made on an edge.
fn is_made_on(made: &[Made], edge: Edge) -> bool
    ensures { result ≡ is_made_on made.now edge }
{
    for block in made {
        if block.edge == edge {
            return true;
        }
    }
    false
}
