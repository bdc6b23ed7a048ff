// Sources as text: their programs, and their graphs.

ghost use Rattle.std.specs.Prelude.{◌≤◌, length};

use std::alloc::Global;
use vx_ast::fault::SourceFault;
use vx_ast::typed::Typed;
use vx_base::outcome::NoMemory;
use vx_flow::graph::Flow;
use vx_lex::tokens;
use vx_lower::lower;
use vx_parse::parse;
use vx_types::check;

/// The most bytes of a source.
const MOST_BYTES: usize = 1048576;

pub(crate) fn read(alloc: Global, source: &[u8]) -> Result<Typed, SourceFault>
    requires { length source.now ≤ 1048576 }
{
    let all = tokens(alloc, source)?;
    let tree = parse(alloc, all.as_slice())?;
    check(alloc, tree)
}

/// The program of a source; none where it is refused.
pub(crate) fn program_of(alloc: Global, source: &str) -> Result<Option<Typed>, NoMemory> {
    let bytes = source.as_bytes();
    if bytes.len() > MOST_BYTES {
        return Ok(None);
    }
    match read(alloc, bytes) {
        Ok(program) => Ok(Some(program)),
        Err(SourceFault::NoMemory) => Err(NoMemory),
        Err(_) => Ok(None),
    }
}

/// The graphs of a source; none where it is refused.
pub(crate) fn graphs_of(alloc: Global, source: &str) -> Result<Option<Flow>, NoMemory> {
    match program_of(alloc, source)? {
        Some(program) => Ok(Some(lower(alloc, &program)?)),
        None => Ok(None),
    }
}
