// The memory of a simulator: what it takes at its start, and how a word of it is stored.

ghost use Rattle.std.specs.Prelude.{◌≡◌, ◌*◌, true, length, map, IfOk, [], pos, replicate};
ghost use Rattle.std.specs.Vec.{vec_capacity};
ghost use Rattle.vx_isa.specs.Machine.{memory_at_start, is_word_of, stored};
ghost use Rattle.vx_isa.specs.Sound.{is_sound};
ghost use Rattle.vx_sim.specs.Flying.{flights_in, flying_of};
ghost use Rattle.vx_sim.specs.Held.{word_of};
ghost use Rattle.vx_sim.specs.Room.{HasRoom, widest};

use crate::flight::Flight;
use crate::ring::Ring;
use crate::shape::Shape;
use std::alloc::{AllocError, Global};
use vx_isa::program::WordProgram;

/// The words of the memory as the program says, else 0.
pub(crate) fn memory_of(alloc: Global, program: &WordProgram) -> Result<Vec<i32>, AllocError>
    requires { is_sound program.now ≡ true }
    ensures words { IfOk result (λ memory. word_of memory.items ≡ memory_at_start program.now.start) }
    ensures size { IfOk result (λ memory. program.now.memory ≡ 4 * length memory.items) }
{
    let mut memory = zeros(alloc, (program.memory / 4) as usize)?;
    for word in program.start.as_slice() {
        store_word(&mut memory, word);
    }
    Ok(memory)
}

fn zeros(alloc: Global, count: usize) -> Result<Vec<i32>, AllocError>
    ensures { IfOk result (λ memory. memory.items ≡ replicate count (pos 0)) }
{
    vec![in alloc; 0; count]
}

/// Makes the word at an address hold its number.
fn store_word(memory: &mut Vec<i32>, word: &(u32, i32))
    requires { is_word_of (4 * length memory.old.items) word.now.0 ≡ true }
    ensures stores { word_of memory.new.items ≡ stored (word_of memory.old.items) word.now.0 word.now.1 }
    ensures len { length memory.new.items ≡ length memory.old.items }
{
    store(memory, word.0, word.1);
}

/// Makes a word of the memory hold a number.
pub(crate) fn store(memory: &mut Vec<i32>, address: u32, number: i32)
    requires { is_word_of (4 * length memory.old.items) address ≡ true }
    ensures stores { word_of memory.new.items ≡ stored (word_of memory.old.items) address number }
    ensures len { length memory.new.items ≡ length memory.old.items }
{
    if let Some(word) = memory.get_mut((address / 4) as usize) {
        *word = number;
    }
}

/// A ring without writes, each place with room for those of the words of 16 cycles.
pub(crate) fn ring_for(alloc: Global, shapes: &Vec<Shape>) -> Result<Ring, AllocError>
    ensures empty { IfOk result (λ ring. flying_of ring ≡ []) }
    ensures room { IfOk result (λ ring. HasRoom (widest shapes.now.items) 0 ring) }
{
    let places = places_for(alloc, 16 * widest(shapes.as_slice()) as usize)?;
    Ok(Ring { places, next: 0 })
}

/// The 16 places, each with room for so many writes.
fn places_for(alloc: Global, room: usize) -> Result<Vec<Vec<Flight>>, AllocError>
    ensures empty { IfOk result (λ places. flights_in places.items ≡ replicate 16 []) }
    ensures room { IfOk result (λ places. map vec_capacity places.items ≡ replicate 16 room) }
    ensures len { IfOk result (λ places. length places.items ≡ 16) }
{
    let mut places = Vec::with_capacity(alloc, 16)?;
    for _ in 0..16_usize {
        places.push(Vec::with_capacity(alloc, room)?)?;
    }
    Ok(places)
}

/// The most operations of a word that is not unfit.
fn widest(shapes: &[Shape]) -> u32
    ensures { result ≡ widest shapes.now }
{
    let mut most = 0;
    for shape in shapes {
        most = shape.width.max(most);
    }
    most
}
