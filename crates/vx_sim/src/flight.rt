// A write in flight.

ghost use Rattle.std.specs.Prelude.{◌≡◌, true};
ghost use Rattle.vx_sim.specs.Named.{is_register};

use vx_isa::operation::Register;

/// A write in flight.
#[derive(Clone, Copy, Drop)]
pub(crate) struct Flight {
    /// The register that is written, one that a text can name.
    pub(crate) to: Register,
    /// The number that is written.
    pub(crate) number: i32,
    ghost names_a_register: { is_register to ≡ true },
}
