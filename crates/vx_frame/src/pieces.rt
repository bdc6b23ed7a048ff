// The words of a whole program, one piece after the other, and where each piece begins. How many words a piece has does not
// depend on places, so a first pass finds the places and a second one makes the words. specs/Placing.antt has the places.

ghost use Rattle.std.specs.Prelude.{◌≡◌, ◌<◌, ◌≤◌, ◌++◌, ◌+◌, ◌-◌, ◌∷◌, ℕ, [], if◌then◌else◌, IfOk, length};
ghost use Rattle.vx_mixed.specs.declared.layout.VirtualWord.TheVariants.{Call};
ghost use Rattle.vx_mixed.specs.LaidSettled.{laid_reads};
ghost use Rattle.vx_target.specs.Target.{before, pause, plan_words, start_words, turns, waits, word_words};
ghost use Rattle.vx_target.specs.Placed.{laid_pieces, word_landings, landing_pieces, function_pieces, functions_pieces, all_pieces, words_of, IsPlaced};
ghost use Rattle.vx_frame.specs.Placing.{starts_from, word_spots, landings_from, mark_of, marks_from, places_at, all_places, functions_begin, functions_end, at_spots, spots_of, standing, WaysDiffer};
ghost use Rattle.vx_slots.specs.declared.program.FunctionPlaces.{FunctionPlaces as ThePlaces};
ghost use Rattle.vx_slots.specs.Seen.{seen};

use std::alloc::Global;
use vx_base::listed::Listed;
use vx_base::outcome::{NoMemory, Trap};
use vx_base::sizes::sum;
use vx_calls::call_words::{push_back, push_call, push_entry, push_return, push_start, push_way};
use vx_carry::carried_word::{plan_of, push_choice, push_item_landings, push_plan};
use vx_flow::graph::{Operand, Value};
use vx_isa::operation::Operation;
use vx_isa::program::Word;
use vx_mixed::layout::{Laid, VirtualWord};
use vx_slots::program::{FunctionPlaces, Sizes, SplitLanding, Whole, words_of};
use vx_slots::transfers::{push_idle, push_one, push_pause};
use vx_slots::ways::{past, turn};

/// The words of a program, and where they stand.
#[derive(Drop)]
pub(crate) struct Pieces {
    pub(crate) words: Listed<Word>,
    pub(crate) places: Listed<FunctionPlaces>,
    /// The place of the trap by which a call that is one too many ends.
    pub(crate) depth_trap: u32,
}

/// Empty cycles before a place of a layout; where a goto stands behind them, it is the last of them.
fn push_idles(
    alloc: Global,
    whole: &Whole,
    function: u32,
    next: u32,
    cycles: u32,
    words: &mut Listed<Word>,
) -> Result<(), NoMemory>
    ensures { IfOk result (λ _. words.new ≡ words.old ++ (if turns (seen whole.now) function next then pause (cycles - 1) else waits cycles ∷ [])) }
{
    match turn(whole, function, next)? {
        Some(_) => push_pause(alloc, cycles.saturating_sub(1), words),
        None => push_idle(alloc, cycles, words),
    }
}

/// The words that carry a planned one; gives the place of its operations.
fn push_planned(
    alloc: Global,
    whole: &Whole,
    function: u32,
    place: u32,
    items: &[Laid],
    words: &mut Listed<Word>,
) -> Result<u32, NoMemory>
    ensures words { IfOk result (λ _. words.new ≡ words.old ++ plan_words (seen whole.now) function place items.now) }
    ensures mark { IfOk result (λ mark. mark ≡ length words.old + length (before (seen whole.now) function (laid_reads items.now))) }
{
    let plan = plan_of(alloc, whole, function, place, items)?;
    push_plan(alloc, whole, &plan, words)
}

/// The words that carry a call and what stands behind it; gives the place to which it returns.
fn push_called(
    alloc: Global,
    whole: &Whole,
    function: u32,
    place: u32,
    called: u32,
    arguments: &[Operand],
    taken: Option<Value>,
    words: &mut Listed<Word>,
) -> Result<u32, NoMemory>
    ensures words { IfOk result (λ _. words.new ≡ words.old ++ word_words (seen whole.now) function place (Call called arguments.now taken)) }
    ensures mark { IfOk result (λ mark. mark ≡ mark_of (seen whole.now) function (length words.old) place (Call called arguments.now taken)) }
{
    push_call(alloc, whole, function, place, called, arguments, words)?;
    let back = words.len() as u32;
    push_back(alloc, whole, function, place, taken, words)?;
    Ok(back)
}

/// The words that carry one of a layout, where this place is next; gives the place of a planned word's operations, or of the return
/// of a call.
fn push_word(
    alloc: Global,
    whole: &Whole,
    function: u32,
    place: u32,
    next: u32,
    word: &VirtualWord,
    words: &mut Listed<Word>,
) -> Result<u32, NoMemory>
    requires { next ≡ place + 1 }
    ensures words { IfOk result (λ _. words.new ≡ words.old ++ word_words (seen whole.now) function place word.now) }
    ensures mark { IfOk result (λ mark. mark ≡ mark_of (seen whole.now) function (length words.old) place word.now) }
{
    let pushed = match word {
        VirtualWord::Planned { items, .. } => {
            return push_planned(alloc, whole, function, place, items.as_slice(), words);
        }
        VirtualWord::Call {
            function: called,
            arguments,
            result: taken,
        } => {
            return push_called(
                alloc,
                whole,
                function,
                place,
                *called,
                arguments.as_slice(),
                *taken,
                words,
            );
        }
        VirtualWord::Drain(cycles) => push_idles(alloc, whole, function, next, *cycles, words),
        VirtualWord::Transfer(to) => {
            push_way(
                alloc,
                whole,
                function,
                next,
                past(whole, function, *to),
                words,
            )
        }
        VirtualWord::Choice { test, place: to } => {
            push_choice(alloc, whole, function, *test, *to, words)
        }
        VirtualWord::Return(operand) => push_return(alloc, whole, function, *operand, words),
        VirtualWord::Ends(trap) => push_one(alloc, Operation::EndByTrap { trap: *trap }, words),
    };
    // none of the others has such a place
    pushed?;
    Ok(0)
}

/// The words of a layout, one after the other; the places are noted in lists that hold none yet.
#[tactic(auto, using(crate::proofs::Emitting::emits_words, crate::proofs::Emitting::emits_starts, crate::proofs::Emitting::emits_marks))]
fn note_laid(
    alloc: Global,
    whole: &Whole,
    function: u32,
    laid: &[VirtualWord],
    words: &mut Listed<Word>,
    starts: &mut Listed<u32>,
    marks: &mut Listed<u32>,
) -> Result<(), NoMemory>
    requires no_starts { starts.old ≡ [] }
    requires no_marks { marks.old ≡ [] }
    ensures words { IfOk result (λ _. words.new ≡ words.old ++ words_of (laid_pieces (seen whole.now) function 0 laid.now)) }
    ensures starts { IfOk result (λ _. starts.new ≡ starts_from (seen whole.now) function (length words.old) 0 laid.now) }
    ensures marks { IfOk result (λ _. marks.new ≡ marks_from (seen whole.now) function (length words.old) 0 laid.now) }
{
    let mut place = 0;
    let mut rest = laid;
    'laid: loop {
        let begin = words.len() as u32;
        starts.push(begin)?;
        match rest.split_first() {
            None => return Ok(()),
            Some((word, others)) => {
                let next = sum(place, 1)?;
                let mark = push_word(alloc, whole, function, place, next, word, words)?;
                marks.push(mark)?;
                place = next;
                rest = others;
            }
        }
    }
}

/// The landings of a word of a layout; where they stand is noted in a list that holds none yet.
fn push_word_landings(
    alloc: Global,
    whole: &Whole,
    function: u32,
    place: u32,
    word: &VirtualWord,
    words: &mut Listed<Word>,
    spots: &mut Listed<SplitLanding>,
) -> Result<(), NoMemory>
    requires { spots.old ≡ [] }
    ensures words { IfOk result (λ _. words.new ≡ words.old ++ words_of (word_landings (seen whole.now) function place word.now)) }
    ensures spots { IfOk result (λ _. spots.new ≡ word_spots (seen whole.now) function place (length words.old) word.now) }
{
    match word {
        VirtualWord::Planned { items, .. } => {
            let plan = plan_of(alloc, whole, function, place, items.as_slice())?;
            push_item_landings(alloc, whole, &plan, items.as_slice(), words, spots)
        }
        _ => Ok(()),
    }
}

/// The landings of a layout, one after the other; where those of each word stand is noted in a list that holds none yet.
#[tactic(auto, using(crate::proofs::Emitting::lands_first, crate::proofs::Emitting::lands_words, crate::proofs::Emitting::lands_landings))]
fn push_landings(
    alloc: Global,
    whole: &Whole,
    function: u32,
    laid: &[VirtualWord],
    words: &mut Listed<Word>,
    landings: &mut Listed<Listed<SplitLanding>>,
) -> Result<(), NoMemory>
    requires { landings.old ≡ [] }
    ensures words { IfOk result (λ _. words.new ≡ words.old ++ words_of (landing_pieces (seen whole.now) function 0 laid.now)) }
    ensures landings { IfOk result (λ _. landings.new ≡ landings_from (seen whole.now) function (length words.old) 0 laid.now) }
{
    let mut place = 0;
    let mut rest = laid;
    'landings: loop {
        match rest.split_first() {
            None => return Ok(()),
            Some((word, others)) => {
                let mut spots = Listed::new(alloc);
                push_word_landings(alloc, whole, function, place, word, words, &mut spots)?;
                landings.push(spots)?;
                place = sum(place, 1)?;
                rest = others;
            }
        }
    }
}

/// The words of a function: its entry, its layout and its landings; the places are noted in lists that hold none yet.
fn note_function(
    alloc: Global,
    whole: &Whole,
    function: u32,
    words: &mut Listed<Word>,
    starts: &mut Listed<u32>,
    landings: &mut Listed<Listed<SplitLanding>>,
    marks: &mut Listed<u32>,
) -> Result<(), NoMemory>
    requires no_starts { starts.old ≡ [] }
    requires no_landings { landings.old ≡ [] }
    requires no_marks { marks.old ≡ [] }
    ensures words { IfOk result (λ _. words.new ≡ words.old ++ words_of (function_pieces (seen whole.now) function)) }
    ensures places { IfOk result (λ _. (x : ThePlaces) → x.entry ≡ length words.old → x.starts ≡ starts.new → x.landings ≡ landings.new → x.marks ≡ marks.new → x ≡ places_at (seen whole.now) function (length words.old)) }
{
    push_entry(alloc, whole, function, words)?;
    let laid = words_of(whole, function);
    note_laid(alloc, whole, function, laid, words, starts, marks)?;
    push_landings(alloc, whole, function, laid, words, landings)
}

/// The words of a function, and their places.
fn push_function(
    alloc: Global,
    whole: &Whole,
    function: u32,
    words: &mut Listed<Word>,
) -> Result<FunctionPlaces, NoMemory>
    ensures words { IfOk result (λ _. words.new ≡ words.old ++ words_of (function_pieces (seen whole.now) function)) }
    ensures places { IfOk result (λ places. places ≡ places_at (seen whole.now) function (length words.old)) }
{
    let entry = words.len() as u32;
    let mut starts = Listed::new(alloc);
    let mut landings = Listed::new(alloc);
    let mut marks = Listed::new(alloc);
    note_function(
        alloc,
        whole,
        function,
        words,
        &mut starts,
        &mut landings,
        &mut marks,
    )?;
    Ok(FunctionPlaces {
        entry,
        starts,
        landings,
        marks,
    })
}

/// The words of so many functions, one after the other; their places are noted in a list that holds none yet.
#[tactic(auto, using(crate::proofs::Emitting::gives_first, crate::proofs::Emitting::gives_turn, crate::proofs::Emitting::gives_words, crate::proofs::Emitting::gives_places))]
fn push_functions(
    alloc: Global,
    whole: &Whole,
    count: u32,
    words: &mut Listed<Word>,
    places: &mut Listed<FunctionPlaces>,
) -> Result<(), NoMemory>
    requires { places.old ≡ [] }
    ensures words { IfOk result (λ _. words.new ≡ words.old ++ words_of (functions_pieces (seen whole.now) 0 count)) }
    ensures places { IfOk result (λ _. places.new ≡ all_places (seen whole.now) (length words.old) 0 count) }
{
    let mut function = 0;
    let mut left = count;
    'functions: while left > 0 {
        let found = push_function(alloc, whole, function, words)?;
        places.push(found)?;
        function = sum(function, 1)?;
        left -= 1;
    }
    Ok(())
}

/// The words of a program of so many functions.
pub(crate) fn pieces_of(
    alloc: Global,
    whole: &Whole,
    main: u32,
    functions: u32,
) -> Result<Pieces, NoMemory>
    ensures words { IfOk result (λ pieces. pieces.words ≡ words_of (all_pieces (seen whole.now) main functions)) }
    ensures places { IfOk result (λ pieces. pieces.places ≡ all_places (seen whole.now) (length (start_words (seen whole.now) main)) 0 functions) }
    ensures trap { IfOk result (λ pieces. pieces.depth_trap ≡ functions_end (seen whole.now) main functions) }
{
    let mut words = Listed::new(alloc);
    push_start(alloc, whole, main, &mut words)?;
    let mut places = Listed::new(alloc);
    push_functions(alloc, whole, functions, &mut words, &mut places)?;
    let depth_trap = words.len() as u32;
    push_one(
        alloc,
        Operation::EndByTrap { trap: Trap::Depth },
        &mut words,
    )?;
    Ok(Pieces {
        words,
        places,
        depth_trap,
    })
}

/// The same program with words that stand at these places.
pub(crate) fn with_places<'a, 'p>(
    whole: &Whole<'a, '_>,
    places: &'p [FunctionPlaces],
    depth_trap: u32,
) -> Whole<'a, 'p>
    ensures { seen result ≡ at_spots (seen whole.now) (spots_of places.now depth_trap) }
{
    Whole {
        machine: whole.machine,
        graphs: whole.graphs,
        layouts: whole.layouts,
        maps: whole.maps,
        frames: whole.frames,
        places,
        sizes: Sizes {
            globals: whole.sizes.globals,
            frame: whole.sizes.frame,
            depth_trap,
        },
    }
}

/// The words of a program, of which all but the places are found, where the splits of each word leave to places that differ; and
/// their places, which the first pass found too.
#[tactic(auto, using(crate::proofs::Standing::second_pass))]
pub(crate) fn pieces_that_stand(
    alloc: Global,
    whole: &Whole,
    main: u32,
    functions: u32,
) -> Result<Pieces, NoMemory>
    requires differ { (f : ℕ) → f < functions → WaysDiffer ((seen whole.now).layout f).words }
    requires no_more { (f : ℕ) → functions ≤ f → ((seen whole.now).layout f).words ≡ [] }
    ensures placed { IfOk result (λ pieces. IsPlaced (standing (seen whole.now) main functions) main functions pieces.words) }
    ensures places { IfOk result (λ pieces. pieces.places ≡ all_places (seen whole.now) (functions_begin (seen whole.now) main) 0 functions) }
{
    let draft = pieces_of(alloc, whole, main, functions)?;
    let standing = with_places(whole, draft.places.as_slice(), draft.depth_trap);
    pieces_of(alloc, &standing, main, functions)
}
