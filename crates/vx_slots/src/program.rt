// A whole program while it is finished: the functions with their layouts and maps, what stands in their frames, and the
// places of their words. specs/Seen.antt has the target that it makes.

ghost use Rattle.std.specs.Prelude.{◌≡◌, slice_index_or};
ghost use Rattle.vx_slots.specs.Seen.{seen};

use vx_base::listed::Listed;
use vx_flow::graph::{Graph, Value};
use vx_machine::Machine;
use vx_mixed::layout::{VWords, VirtualWord};
use vx_regs::map::RegMap;

/// What stands in the frame of a function, and which of its values are brought to their registers from there.
#[derive(Drop)]
pub struct FunctionFrame {
    /// For each value the word of the frame that is its slot; 0 where it has none.
    pub slots: Listed<u32>,
    /// For each array where it begins, in words: a global one in memory, the function's own in the frame.
    pub arrays: Listed<u32>,
    /// For each place of the layout the values that are saved round a call there.
    pub saved: Listed<Listed<Value>>,
    /// The parameters that are brought to their registers at the entry.
    pub brought: Listed<Value>,
    /// The words of the frame.
    pub words: u32,
}

/// Where a taken split of a word lands.
#[derive(Clone, Copy)]
pub struct SplitLanding {
    /// The place of the layout to which the split leaves.
    pub to: u32,
    /// The place of the words at which it arrives.
    pub at: u32,
}

/// The places of the words of a function.
#[derive(Drop)]
pub struct FunctionPlaces {
    /// Where it is entered.
    pub entry: u32,
    /// For each place of the layout, and the one behind the last, where its words begin.
    pub starts: Listed<u32>,
    /// For each place of the layout where the splits of its word land, each of them.
    pub landings: Listed<Listed<SplitLanding>>,
    /// For each place of the layout where a call there returns, or where the operations of a planned word there stand.
    pub marks: Listed<u32>,
}

/// Numbers of the whole program.
#[derive(Clone, Copy)]
pub struct Sizes {
    /// The words of all globals.
    pub globals: u32,
    /// The words of a frame.
    pub frame: u32,
    /// The place of the trap by which a call that is one too many ends.
    pub depth_trap: u32,
}

/// The whole program.
#[derive(Clone, Copy)]
pub struct Whole<'a, 'p> {
    /// The machine.
    pub machine: &'a Machine,
    /// The graphs of the functions.
    pub graphs: &'a [Graph],
    /// Their layouts.
    pub layouts: &'a [VWords],
    /// Where their values are kept.
    pub maps: &'a [RegMap],
    /// What stands in their frames.
    pub frames: &'a [FunctionFrame],
    /// The places of their words; none before these are found.
    pub places: &'p [FunctionPlaces],
    /// The numbers of the whole program.
    pub sizes: Sizes,
}

/// The number at a place of a list, and 0 behind it.
pub fn number_at(numbers: &[u32], place: u32) -> u32
    ensures { result ≡ slice_index_or numbers.now place 0 }
{
    match numbers.get(place as usize) {
        Some(number) => *number,
        None => 0,
    }
}

/// The slot of a value, as a word of its function's frame.
pub fn slot(whole: &Whole, function: u32, value: Value) -> u32
    ensures { result ≡ (seen whole.now).slot function value }
{
    match whole.frames.get(function as usize) {
        Some(frame) => number_at(frame.slots.as_slice(), value),
        None => 0,
    }
}

/// Where the words of a place of a layout begin.
pub fn start(whole: &Whole, function: u32, place: u32) -> u32
    ensures { result ≡ (seen whole.now).starts function place }
{
    match whole.places.get(function as usize) {
        Some(places) => number_at(places.starts.as_slice(), place),
        None => 0,
    }
}

/// The words of a function's layout.
pub fn words_of<'a>(whole: &Whole<'a, '_>, function: u32) -> &'a [VirtualWord]
    ensures { result.now ≡ ((seen whole.now).layout function).words }
{
    match whole.layouts.get(function as usize) {
        Some(layout) => layout.words.as_slice(),
        None => &[],
    }
}
