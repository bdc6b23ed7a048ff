// A text of words, read and written again. It must be the same.

use crate::result::{Ended, ended_by};
use std::alloc::Global;
use vx_base::outcome::NoMemory;
use vx_io::real::RealDepot;
use vx_io::whole_file::{FileRead, read_file};
use vx_isa::program::WordProgram;
use vx_isa::sound;
use vx_reader::read;
use vx_words::write;

/// The most bytes of a text of words.
const MOST_BYTES: u64 = 536870912;

pub(crate) fn measure(rt: &HostRuntime, name: &str) -> Ended {
    let mut depot = RealDepot::make(rt);
    match read_file(rt.alloc(), &mut depot, name, MOST_BYTES) {
        Ok(FileRead::Whole(text)) => ended_by(is_written_again(rt.alloc(), text.as_slice())),
        _ => Ended::NoFile,
    }
}

/// Whether the text of the program that is read is the text again.
fn is_written_again(alloc: Global, text: &[u8]) -> Result<bool, NoMemory> {
    match read(alloc, text) {
        Ok(program) => is_text_of(alloc, &program, text),
        Err(_) => Ok(false),
    }
}

fn is_text_of(alloc: Global, program: &WordProgram, text: &[u8]) -> Result<bool, NoMemory> {
    if !sound(program) {
        return Ok(false);
    }
    let again = write(alloc, program)?;
    Ok(again.as_slice() == text)
}
