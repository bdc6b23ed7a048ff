// A graph of which no block is left, laid out as words: first the places at which regions begin and blocks are entered, by
// sums over sizes, and then the words, region by region. What the layout of a graph is stands in specs/Layout.antt of
// vx_mixed. A layout of 2^32 words or more is want of memory, as every longer list is.

ghost use Rattle.std.specs.Prelude.{◌≡◌, ◌+◌, ◌<◌, ◌^◌, ◌∷◌, ◌++◌, [], ℕ, List, IfOk, Some, length};
ghost use Rattle.vx_mixed.specs.declared.region.Region.{Region};
ghost use Rattle.vx_mixed.specs.Layout.{IsDone, all_words, drain_words, exit_words, laid, laid_words, layout_of, leave_words, place_of, place_of_node, region_place, region_size, region_words, stub, stubs, word_stubs};
ghost use Rattle.vx_layout.specs.Laying.{place_in, places_of, starts_of};

use std::alloc::Global;
use vx_base::listed::{Listed, copied};
use vx_base::outcome::NoMemory;
use vx_base::sizes::sum;
use vx_flow::copies::copied_homes;
use vx_flow::graph::{BlockId, Exit};
use vx_mixed::layout::{Laid, VWords, VirtualWord};
use vx_mixed::mixed::MixedGraph;
use vx_mixed::region::{Item, Node, Region};

// sizes

/// How many words the way out of an item takes.
fn stub_length(item: &Item) -> u32
    ensures { result ≡ length (stub (λ b. 0) item.now) }
{
    match item {
        Item::Plain { .. } => 0,
        Item::Split { drain, .. } => { if *drain == 0 { 1 } else { 2 } }
    }
}

/// Where the ways out of a word end that stand from a place on.
fn word_stubs_end(first: u32, word: &[Item]) -> Result<u32, NoMemory>
    ensures { IfOk result (λ end. end ≡ first + length (word_stubs (λ b. 0) word.now)) }
{
    let mut place = first;
    for item in word {
        place = sum(place, stub_length(item))?;
    }
    Ok(place)
}

/// Where the ways out of the splits of a region end that stand from a place on.
fn stubs_end(first: u32, words: &[Listed<Item>]) -> Result<u32, NoMemory>
    ensures { IfOk result (λ end. end ≡ first + length (stubs (λ b. 0) words.now)) }
{
    let mut place = first;
    for word in words {
        place = word_stubs_end(place, word.as_slice())?;
    }
    Ok(place)
}

/// How many words an exit takes.
fn leave_length(exit: &Exit) -> u32
    ensures { result ≡ length (leave_words (λ b. 0) exit.now) }
{
    match exit {
        Exit::Goto(_) => 1,
        Exit::Split { .. } => 2,
        Exit::Call { .. } => 2,
        Exit::Return(_) => 1,
        Exit::Ends(_) => 1,
    }
}

/// How many words the exit of a region takes with its empty cycles.
fn exit_length(region: &Region) -> u32
    ensures { result ≡ length (exit_words (λ b. 0) region.now) }
{
    if region.drain == 0 {
        leave_length(&region.last)
    } else {
        leave_length(&region.last) + 1
    }
}

/// How many words a region takes.
fn region_length(region: &Region) -> Result<u32, NoMemory>
    ensures { IfOk result (λ count. count ≡ region_size region.now) }
{
    let words = region.words.len() as u32;
    let last = sum(words, exit_length(region))?;
    stubs_end(last, region.words.as_slice())
}

// places

/// Where each region begins, and where the last one ends, in a list that holds none yet.
fn push_starts(regions: &[Region], starts: &mut Vec<u32>) -> Result<(), NoMemory>
    requires { starts.old.items ≡ [] }
    ensures { IfOk result (λ _. starts.new.items ≡ starts_of regions.now) }
{
    let mut start = 0;
    starts.push(start)?;
    for region in regions {
        start = sum(start, region_length(region)?)?;
        starts.push(start)?;
    }
    Ok(())
}

/// Where a region begins.
fn start_of(starts: &[u32], region: u32) -> u32
    ensures { (regions : List Region) → starts.now ≡ starts_of regions → result ≡ region_place regions region }
{
    let index = region as usize;
    if index < starts.len() {
        return starts[index];
    }
    match starts.last() {
        Some(end) => *end,
        None => 0,
    }
}

/// Where a block is entered.
fn node_place(starts: &[u32], node: &Node) -> Result<u32, NoMemory>
    ensures { IfOk result (λ place. (regions : List Region) → starts.now ≡ starts_of regions → place ≡ place_of_node regions (Some node.now)) }
{
    match node {
        Node::Enters { region, word } => sum(start_of(starts, *region), *word),
        Node::Unused(_) => Ok(0),
        Node::Inner => Ok(0),
    }
}

/// Where each block is entered.
fn node_places(alloc: Global, starts: &[u32], nodes: &[Node]) -> Result<Vec<u32>, NoMemory>
    ensures { IfOk result (λ places. (regions : List Region) → starts.now ≡ starts_of regions → places.items ≡ places_of regions nodes.now) }
{
    let mut places = Vec::new(alloc);
    for node in nodes {
        places.push(node_place(starts, node)?)?;
    }
    Ok(places)
}

fn block_places(alloc: Global, graph: &MixedGraph) -> Result<Vec<u32>, NoMemory>
    ensures { IfOk result (λ places. places.items ≡ places_of graph.now.regions graph.now.nodes) }
{
    let mut starts = Vec::new(alloc);
    push_starts(graph.regions.as_slice(), &mut starts)?;
    node_places(alloc, &starts, graph.nodes.as_slice())
}

fn place_at(places: &[u32], block: BlockId) -> u32
    ensures { result ≡ place_in places.now block }
{
    match places.get(block as usize) {
        Some(place) => *place,
        None => 0,
    }
}

// words

fn push(words: &mut Listed<VirtualWord>, word: VirtualWord) -> Result<(), NoMemory>
    ensures { IfOk result (λ _. words.new ≡ words.old ++ word ∷ []) }
{
    words.push(word)?;
    Ok(())
}

fn push_drain(words: &mut Listed<VirtualWord>, cycles: u32) -> Result<(), NoMemory>
    ensures { IfOk result (λ _. words.new ≡ words.old ++ drain_words cycles) }
{
    if cycles == 0 {
        Ok(())
    } else {
        push(words, VirtualWord::Drain(cycles))
    }
}

/// An exit.
fn push_leave(
    alloc: Global,
    words: &mut Listed<VirtualWord>,
    places: &[u32],
    exit: &Exit,
) -> Result<(), NoMemory>
    ensures { IfOk result (λ _. words.new ≡ words.old ++ leave_words (place_in places.now) exit.now) }
{
    let last = match exit {
        Exit::Goto(to) => VirtualWord::Transfer(place_at(places, *to)),
        Exit::Split { test, yes, no } => {
            let place = place_at(places, *yes);
            push(words, VirtualWord::Choice { test: *test, place })?;
            VirtualWord::Transfer(place_at(places, *no))
        }
        Exit::Call {
            function,
            arguments,
            result,
            next,
        } => {
            let arguments = copied(alloc, arguments.as_slice())?;
            let call = VirtualWord::Call {
                function: *function,
                arguments,
                result: *result,
            };
            push(words, call)?;
            VirtualWord::Transfer(place_at(places, *next))
        }
        Exit::Return(operand) => VirtualWord::Return(*operand),
        Exit::Ends(trap) => VirtualWord::Ends(*trap),
    };
    push(words, last)
}

/// The exit of a region, after its empty cycles.
fn push_exit(
    alloc: Global,
    words: &mut Listed<VirtualWord>,
    places: &[u32],
    region: &Region,
) -> Result<(), NoMemory>
    ensures { IfOk result (λ _. words.new ≡ words.old ++ exit_words (place_in places.now) region.now) }
{
    push_drain(words, region.drain)?;
    push_leave(alloc, words, places, &region.last)
}

/// The way out of an item: nothing for an operation.
fn push_stub(words: &mut Listed<VirtualWord>, places: &[u32], item: &Item) -> Result<(), NoMemory>
    ensures { IfOk result (λ _. words.new ≡ words.old ++ stub (place_in places.now) item.now) }
{
    match item {
        Item::Plain { .. } => Ok(()),
        Item::Split { edge, drain, .. } => {
            push_drain(words, *drain)?;
            push(words, VirtualWord::Transfer(place_at(places, edge.to)))
        }
    }
}

/// The ways out of the splits of a word.
fn push_word_stubs(
    words: &mut Listed<VirtualWord>,
    places: &[u32],
    word: &[Item],
) -> Result<(), NoMemory>
    ensures { IfOk result (λ _. words.new ≡ words.old ++ word_stubs (place_in places.now) word.now) }
{
    for item in word {
        push_stub(words, places, item)?;
    }
    Ok(())
}

/// The ways out of the splits of a region.
fn push_stubs(
    words: &mut Listed<VirtualWord>,
    places: &[u32],
    list: &[Listed<Item>],
) -> Result<(), NoMemory>
    ensures { IfOk result (λ _. words.new ≡ words.old ++ stubs (place_in places.now) list.now) }
{
    for word in list {
        push_word_stubs(words, places, word.as_slice())?;
    }
    Ok(())
}

/// An item of which the way out, if it has one, stands at a place.
fn laid_item(item: &Item, place: u32) -> Laid
    ensures { laid place (item.now ∷ []) ≡ result ∷ [] }
{
    match item {
        Item::Plain { op, cluster } => Laid::Plain {
            op: *op,
            cluster: *cluster,
        },
        Item::Split {
            test,
            leaves_when,
            ..
        } => Laid::Split {
            test: *test,
            leaves_when: *leaves_when,
            place,
        },
    }
}

/// No items, with room for so many: a layout has many words of one or two.
fn with_room(alloc: Global, count: usize) -> Result<Listed<Laid>, NoMemory>
    ensures { IfOk result (λ items. items ≡ []) }
{
    let items = Vec::with_capacity(alloc, count)?;
    Ok(Listed::from_vec(items)?)
}

/// A word of which the ways out stand one after the other from a place on.
fn laid_word(alloc: Global, first: u32, word: &[Item]) -> Result<Listed<Laid>, NoMemory>
    ensures { IfOk result (λ items. items ≡ laid first word.now) }
{
    let mut items = with_room(alloc, word.len())?;
    let mut place = first;
    for item in word {
        items.push(laid_item(item, place))?;
        place = sum(place, stub_length(item))?;
    }
    Ok(items)
}

/// The words of a region of which the ways out stand from a place on.
fn push_planned(
    alloc: Global,
    words: &mut Listed<VirtualWord>,
    region: u32,
    first: u32,
    list: &[Listed<Item>],
) -> Result<(), NoMemory>
    requires { length list.now < 2 ^ 32 }
    ensures { IfOk result (λ _. words.new ≡ words.old ++ laid_words region 0 first list.now) }
{
    let mut place = first;
    for (number, word) in list.iter().enumerate() {
        let items = laid_word(alloc, place, word.as_slice())?;
        let planned = VirtualWord::Planned {
            region,
            word: number as u32,
            items,
        };
        push(words, planned)?;
        place = word_stubs_end(place, word.as_slice())?;
    }
    Ok(())
}

/// A region, behind the words that are there.
fn push_region(
    alloc: Global,
    words: &mut Listed<VirtualWord>,
    places: &[u32],
    number: u32,
    region: &Region,
) -> Result<(), NoMemory>
    ensures { IfOk result (λ _. words.new ≡ words.old ++ region_words (place_in places.now) number (length words.old) region.now) }
{
    let start = words.len() as u32;
    let exit = sum(start, region.words.len() as u32)?;
    let stubs = sum(exit, exit_length(region))?;
    push_planned(alloc, words, number, stubs, region.words.as_slice())?;
    push_exit(alloc, words, places, region)?;
    push_stubs(words, places, region.words.as_slice())
}

/// The words of a graph of which the blocks are entered at these places.
fn graph_words(
    alloc: Global,
    graph: &MixedGraph,
    places: &[u32],
) -> Result<Listed<VirtualWord>, NoMemory>
    requires { (b : ℕ) → place_in places.now b ≡ place_of graph.now b }
    ensures { IfOk result (λ words. words ≡ all_words graph.now 0 0 graph.now.regions) }
{
    let mut words = Listed::new(alloc);
    for number in 0..graph.regions.len() {
        let region = &graph.regions.as_slice()[number];
        push_region(alloc, &mut words, places, number as u32, region)?;
    }
    Ok(words)
}

fn region_count(graph: &MixedGraph) -> u32
    ensures { result ≡ length graph.now.regions }
{
    graph.regions.len() as u32
}

/// The layout of a graph of which no block is left: its regions as words, in the order in which they were made. One that
/// takes 2^32 words or more is want of memory.
pub fn lay_out(alloc: Global, graph: &MixedGraph) -> Result<VWords, NoMemory>
    requires { IsDone graph.now }
    ensures { IfOk result (λ words. words ≡ layout_of graph.now) }
{
    let places = block_places(alloc, graph)?;
    let words = graph_words(alloc, graph, &places)?;
    let banks = copied(alloc, graph.banks.as_slice())?;
    let homes = copied_homes(alloc, &graph.homes)?;
    Ok(VWords {
        banks,
        homes,
        words,
        entry: place_at(&places, 0),
        regions: region_count(graph),
    })
}
