// The active function: what may still happen in it, and where the arrays stand that it sees.

ghost use Rattle.std.specs.Prelude.{◌≡◌, ◌<◌, ◌^◌};
ghost use Rattle.vx_ast.specs.Meaning.{spot_behind};
ghost use Rattle.vx_plain.specs.Interpreting.{spot_at};

use vx_ast::tree::Program;

/// The active function.
#[derive(Clone, Copy)]
pub(crate) struct Active<'a> {
    /// How many functions may become active in it.
    pub(crate) depth: u32,
    /// Where the arrays stand that were given to it, in the order of its array parameters.
    pub(crate) given: &'a [usize],
    /// How many arrays stand before its own.
    pub(crate) base: u32,
    /// How many turns each loop may take since it was entered.
    pub(crate) turns: u64,
}

/// Where an array of the active function stands.
pub(crate) fn spot(program: &Program, at: &Active, a: u32) -> usize
    ensures { result ≡ spot_at program.now at.now a }
{
    let a = a as usize;
    let globals = program.globals.len();
    if a < globals {
        a
    } else {
        behind(at.given, at.base, a - globals)
    }
}

/// Where an array behind the globals stands: those that were given at their places, the function's own behind them.
#[tactic(auto, using(crate::proofs::InterpreterSteps::is_given, crate::proofs::InterpreterSteps::is_own))]
fn behind(given: &[usize], base: u32, k: usize) -> usize
    requires { k < 2 ^ 32 }
    ensures { result ≡ spot_behind given.now base k }
{
    if k < given.len() {
        given[k]
    } else {
        base as usize + (k - given.len())
    }
}
