// What was read for a run.

ghost use Rattle.std.specs.Prelude.{◌≡◌, true, All};
ghost use Rattle.vx_base.specs.Arithmetic.{IsNumber};
ghost use Rattle.vx_isa.specs.Sound.{is_sound};

use vx_isa::program::WordProgram;
use vx_machine::Machine;

/// What a run needs.
#[derive(Drop)]
pub struct LoadedFiles {
    /// The words.
    pub program: WordProgram,
    /// The machine that runs them.
    pub machine: Machine,
    /// The numbers of the input, each of 32 bits.
    pub input: Vec<i32>,
    ghost sound: { is_sound program ≡ true },
    ghost numbers: { All IsNumber input.items },
}
