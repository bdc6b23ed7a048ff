// A source, from its file to its tree with each name at its declaration.

ghost use Rattle.std.specs.Prelude.{◌≤◌, length};

use crate::result::Ended;
use std::alloc::Global;
use vx_ast::fault::SourceFault;
use vx_ast::typed::Typed;
use vx_io::real::RealDepot;
use vx_io::whole_file::{FileRead, read_file};
use vx_lex::tokens;
use vx_parse::parse;
use vx_types::check;

/// The most bytes of a source.
const MOST_BYTES: usize = 1048576;

/// The program of the source that a file holds.
pub(crate) fn program_of(rt: &HostRuntime, name: &str) -> Result<Typed, Ended> {
    let mut depot = RealDepot::make(rt);
    match read_file(rt.alloc(), &mut depot, name, MOST_BYTES as u64) {
        Ok(FileRead::Whole(source)) => accepted(rt.alloc(), source.as_slice()),
        _ => Err(Ended::NoFile),
    }
}

fn accepted(alloc: Global, source: &[u8]) -> Result<Typed, Ended> {
    if source.len() > MOST_BYTES {
        return Err(Ended::NoFile);
    }
    match read(alloc, source) {
        Ok(program) => Ok(program),
        Err(SourceFault::NoMemory) => Err(Ended::NoMemory),
        Err(_) => Err(Ended::Refused),
    }
}

/// The program of a source.
fn read(alloc: Global, source: &[u8]) -> Result<Typed, SourceFault>
    requires { length source.now ≤ 1048576 }
{
    let all = tokens(alloc, source)?;
    let tree = parse(alloc, all.as_slice())?;
    check(alloc, tree)
}
