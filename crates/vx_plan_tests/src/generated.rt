// Generated sources are read.

use crate::sources::read;
use std::alloc::Global;
use std::test::Fail;
use vx_ast::fault::SourceFault;
use vx_base::outcome::NoMemory;
use vx_gen::program;

/// How many functions a generated source of 250 statements has; none where it is refused.
fn functions_of(alloc: Global, seed: u64) -> Result<Option<usize>, NoMemory> {
    let source = program(alloc, seed, 250)?;
    match read(alloc, source.as_slice()) {
        Ok(typed) => Ok(Some(typed.program.functions.len())),
        Err(SourceFault::NoMemory) => Err(NoMemory),
        Err(_) => Ok(None),
    }
}

// Two functions of a hundred statements, one of fifty, and `main`.
#[test]
fn generated_sources_are_read(rt: HostRuntime) -> Result<(), Fail> {
    assert_eq!(rt; functions_of(rt.alloc(), 7)?, Some(4));
    Ok(())
}
