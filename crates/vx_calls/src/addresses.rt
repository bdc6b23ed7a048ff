// The memory of a program: the globals one after the other from address 0 on, and a frame for each function that may be
// active.

ghost use Rattle.std.specs.Prelude.{◌≡◌, ◌<◌, ◌≤◌, ◌+◌, ◌*◌, ◌++◌, ℕ, true, Some, length, slice_get, slice_index_or, IfOk};
ghost use Rattle.vx_flow.specs.declared.graph.Global.{Global as AGlobal};
ghost use Rattle.vx_flow.specs.Meaning.{deepest};
ghost use Rattle.vx_isa.specs.Machine.{memory_at_start};
ghost use Rattle.vx_isa.specs.Sound.{is_start};
ghost use Rattle.vx_target.specs.Frames.{first_or_zero};
ghost use Rattle.vx_target.specs.Tied.{words_before};
ghost use Rattle.vx_calls.specs.Bounds.{most_frame_words, most_global_words};
ghost use Rattle.vx_calls.specs.Globals.{begins_from, first_from, firsts_from, is_set, words_in};

use std::alloc::Global;
use vx_base::listed::Listed;
use vx_base::outcome::NoMemory;
use vx_base::sizes::sum;
use vx_flow::graph::Global as Variable;
use vx_slots::numbers::DEEPEST;
use vx_slots::program::Sizes;

/// Where globals begin, in words, and the words of all of them.
#[derive(Drop)]
pub struct Addresses {
    /// Where each global begins.
    pub begins: Listed<u32>,
    /// The words of all globals.
    pub words: u32,
}

/// The globals one after the other.
fn one_by_one(alloc: Global, globals: &[Variable]) -> Result<Addresses, NoMemory>
    ensures begins { IfOk result (λ addresses. addresses.begins ≡ begins_from 0 globals.now) }
    ensures words { IfOk result (λ addresses. addresses.words ≡ words_in globals.now) }
{
    let mut begins = Listed::new(alloc);
    let mut words = 0;
    for global in globals {
        begins.push(words)?;
        words = sum(words, global.words)?;
    }
    Ok(Addresses { begins, words })
}

/// Where each global begins.
pub fn addresses_of(alloc: Global, globals: &[Variable]) -> Result<Addresses, NoMemory>
    ensures each { IfOk result (λ addresses. length addresses.begins ≡ length globals.now) }
    ensures begins { IfOk result (λ addresses. (a : ℕ) → a < length globals.now → slice_index_or addresses.begins a 0 ≡ words_before globals.now a) }
    ensures words { IfOk result (λ addresses. addresses.words ≡ words_before globals.now (length globals.now)) }
{
    let addresses = one_by_one(alloc, globals)?;
    Ok(addresses)
}

/// The address of a word in bytes; one that no number holds is want of memory.
fn address(word: u32) -> Result<u32, NoMemory>
    ensures { IfOk result (λ address. address ≡ 4 * word) }
{
    match word.checked_mul(4) {
        Some(address) => Ok(address),
        None => Err(NoMemory),
    }
}

/// Whether a global has a first word that does not start as 0.
fn is_set(global: &Variable) -> bool
    ensures { result ≡ is_set global.now }
{
    global.words > 0 && global.first != 0
}

/// Adds that word of a global, with its address in bytes, where the global begins at a word.
fn push_first(start: &mut Listed<(u32, i32)>, begin: u32, global: &Variable) -> Result<(), NoMemory>
    ensures { IfOk result (λ _. start.new ≡ start.old ++ first_from begin global.now) }
{
    if is_set(global) {
        start.push((address(begin)?, global.first))?;
    }
    Ok(())
}

fn firsts(alloc: Global, globals: &[Variable]) -> Result<Listed<(u32, i32)>, NoMemory>
    ensures { IfOk result (λ start. start ≡ firsts_from 0 globals.now) }
{
    let mut start = Listed::new(alloc);
    let mut words = 0;
    for global in globals {
        push_first(&mut start, words, global)?;
        words = sum(words, global.words)?;
    }
    Ok(start)
}

/// The words of memory that do not start as 0, with their addresses in bytes.
pub fn first_words(alloc: Global, globals: &[Variable]) -> Result<Listed<(u32, i32)>, NoMemory>
    ensures start { IfOk result (λ start. (a i : ℕ) (x : AGlobal) → slice_get globals.now a ≡ Some x → i < x.words → memory_at_start start (4 * (words_before globals.now a + i)) ≡ first_or_zero x.first i) }
    ensures ascending { IfOk result (λ start. (memory : ℕ) → 4 * words_before globals.now (length globals.now) ≤ memory → is_start memory 0 start ≡ true) }
{
    let start = firsts(alloc, globals)?;
    Ok(start)
}

/// The bytes of the memory, where the globals and each frame are within their bounds (specs/Bounds.antt).
#[tactic(auto, unfolding(vx_flow::specs::Meaning::deepest))]
pub fn memory_bytes(sizes: &Sizes) -> u32
    requires globals { sizes.now.globals ≤ most_global_words }
    requires frame { sizes.now.frame ≤ most_frame_words }
    ensures is { result ≡ 4 * (sizes.now.globals + sizes.now.frame * deepest) }
    ensures few { result ≤ 132644864 }
{
    4 * (sizes.globals + sizes.frame * DEEPEST)
}
