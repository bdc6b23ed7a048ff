// A program that a source without faults and within its limits reads as (specs/Accepted.antt).

ghost use Rattle.std.specs.Prelude.{◌≡◌, true};
ghost use Rattle.vx_ast.specs.Accepted.{is_accepted};
ghost use Rattle.vx_ast.specs.View.{program_of};

use crate::tree::Program;

/// A program in which each name stands with its declaration, without any of the faults S5 to S13 and within the
/// limits L3 to L8, which its type keeps.
#[derive(Drop)]
pub struct Typed {
    /// The program.
    pub program: Program,
    ghost accepted: { is_accepted (program_of program) ≡ true },
}

impl Typed {
    /// A program that is known to be accepted.
    pub fn make(program: Program) -> Typed
        requires { is_accepted (program_of program) ≡ true }
        ensures { result.program ≡ program }
    {
        Typed { program }
    }
}
