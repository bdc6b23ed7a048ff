// From the layouts and maps of a program's functions to its words: what stands in frames and memory, and then the words,
// first to find their places and then for good. specs/Finish.antt of vx_target says what is asked and what is promised.

ghost use Rattle.std.specs.Prelude.{◌≡◌, ◌<◌, ◌≤◌, ℕ, true, [], IfOk, length};
ghost use Rattle.vx_flow.specs.Sound.{is_sound_flow};
ghost use Rattle.vx_target.specs.Finish.{AllCanFinish, Finishes};
ghost use Rattle.vx_calls.specs.Bounds.{FitsMemory, most_frame_words, most_global_words};
ghost use Rattle.vx_frame.specs.Found.{Found, Made};
ghost use Rattle.vx_target.specs.Placed.{IsPlaced};
ghost use Rattle.vx_frame.specs.Placing.{WaysDiffer, all_places, functions_begin, standing};
ghost use Rattle.vx_frame.specs.Regions.{all_traces};
ghost use Rattle.vx_slots.specs.Seen.{seen};

use crate::pieces::pieces_that_stand;
use crate::regions::region_places;
use std::alloc::Global;
use vx_base::listed::{Bytes, Listed, copied};
use vx_base::outcome::NoMemory;
use vx_calls::addresses::{addresses_of, first_words, memory_bytes};
use vx_calls::frames::{frame_size, frames};
use vx_flow::graph::Flow;
use vx_isa::program::{Word, WordProgram};
use vx_machine::Machine;
use vx_mixed::layout::VWords;
use vx_regs::map::RegMap;
use vx_slots::program::{Sizes, Whole};
use vx_target::finished::Finished;
use vx_tie::heat::words_are_sound;

/// A copy of the texts of a program.
fn copied_texts(alloc: Global, texts: &[Bytes]) -> Result<Listed<Bytes>, NoMemory>
    ensures { IfOk result (λ copy. copy ≡ texts.now) }
{
    let mut copies = Listed::new(alloc);
    for text in texts {
        copies.push(copied(alloc, text.as_slice())?)?;
    }
    Ok(copies)
}

/// The program of a whole of which all but the words and their places are found, and the places of its regions.
fn program_of(alloc: Global, whole: &Whole, flow: &Flow) -> Result<Finished, NoMemory>
    requires globals { whole.now.sizes.globals ≤ most_global_words }
    requires frame { whole.now.sizes.frame ≤ most_frame_words }
    requires differ { (f : ℕ) → f < length flow.now.functions → WaysDiffer ((seen whole.now).layout f).words }
    requires no_more { (f : ℕ) → length flow.now.functions ≤ f → ((seen whole.now).layout f).words ≡ [] }
    ensures made { IfOk result (λ x. Made whole.now flow.now x.program) }
    ensures places { IfOk result (λ x. x.places ≡ all_traces (all_places (seen whole.now) (functions_begin (seen whole.now) flow.now.main) 0 (length flow.now.functions)) 0 whole.now.layouts.now) }
{
    let functions = flow.functions.len() as u32;
    let pieces = pieces_that_stand(alloc, whole, flow.main, functions)?;
    let mut places = Listed::new(alloc);
    region_places(alloc, whole.layouts, pieces.places.as_slice(), &mut places)?;
    let program = program_with(alloc, whole, flow, pieces.words)?;
    Ok(Finished { program, places })
}

/// The program of such a whole with the words that were found, of the version that has as many branches as the machine.
fn program_with(
    alloc: Global,
    whole: &Whole,
    flow: &Flow,
    words: Listed<Word>,
) -> Result<WordProgram, NoMemory>
    requires globals { whole.now.sizes.globals ≤ most_global_words }
    requires frame { whole.now.sizes.frame ≤ most_frame_words }
    requires placed { IsPlaced (standing (seen whole.now) flow.now.main (length flow.now.functions)) flow.now.main (length flow.now.functions) words }
    ensures { IfOk result (λ program. Made whole.now flow.now program) }
{
    let memory = memory_bytes(&whole.sizes);
    let start = first_words(alloc, flow.globals.as_slice())?;
    let texts = copied_texts(alloc, flow.texts.as_slice())?;
    let version = whole.machine.branches();
    Ok(WordProgram {
        version,
        memory,
        start,
        texts,
        words,
    })
}

/// The same, where frames and sizes are as they should be.
fn finish_whole(alloc: Global, whole: &Whole, flow: &Flow) -> Result<Finished, NoMemory>
    requires sound { is_sound_flow flow.now ≡ true }
    requires found { Found whole.now flow.now }
    ensures { IfOk result (λ x. Finishes whole.now.machine.now flow.now whole.now.layouts.now whole.now.maps.now x) }
{
    words_are_sound();
    program_of(alloc, whole, flow)
}

/// The words of a program, where its functions are laid out like this, and their values are kept where these maps say: they
/// carry the layouts, a word text can spell them, and the program's version is the number of the machine's branches. With them
/// come the places of the words of all regions: each region of each function has its list, also one that has no words. Globals and
/// frames are within their bounds, so that the memory is; words that no list holds are want of memory.
pub fn finish(
    alloc: Global,
    code: &[VWords],
    maps: &[RegMap],
    flow: &Flow,
    machine: &Machine,
) -> Result<Finished, NoMemory>
    requires sound { is_sound_flow flow.now ≡ true }
    requires functions { AllCanFinish machine.now flow.now code.now maps.now }
    requires fits { FitsMemory flow.now code.now maps.now }
    ensures { IfOk result (λ x. Finishes machine.now flow.now code.now maps.now x) }
{
    machine.keeps_ranges();
    let graphs = flow.functions.as_slice();
    let variables = flow.globals.as_slice();
    let globals = addresses_of(alloc, variables)?;
    let begins = globals.begins.as_slice();
    let framed = frames(alloc, graphs, code, maps, begins)?;
    let frames = framed.as_slice();
    let sizes = Sizes {
        globals: globals.words,
        frame: frame_size(frames),
        depth_trap: 0,
    };
    let whole = Whole {
        machine,
        graphs,
        layouts: code,
        maps,
        frames,
        places: &[],
        sizes,
    };
    finish_whole(alloc, &whole, flow)
}
