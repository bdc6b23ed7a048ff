// A source that is read and lowered.

use crate::result::Ended;
use crate::source::program_of;
use std::alloc::Global;
use vx_ast::typed::Typed;
use vx_base::outcome::NoMemory;
use vx_lower::lower;

pub(crate) fn measure(rt: &HostRuntime, name: &str) -> Ended {
    match program_of(rt, name) {
        Ok(program) => lowered(rt.alloc(), &program),
        Err(ended) => ended,
    }
}

fn lowered(alloc: Global, program: &Typed) -> Ended {
    match lower(alloc, program) {
        Ok(_) => Ended::Done,
        Err(NoMemory) => Ended::NoMemory,
    }
}
