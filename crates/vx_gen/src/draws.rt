// Draws: a linear congruential generator whose state is the caller's.

ghost use Rattle.std.specs.Prelude.{◌≡◌, ◌<◌};
ghost use Rattle.vx_gen.specs.Program.{drawn, next_state};

/// The factor of the generator (Knuth's MMIX).
const FACTOR: u64 = 6_364_136_223_846_793_005;
/// What it adds.
const ADDED: u64 = 1_442_695_040_888_963_407;
/// Draws leave out the low 33 bits of a state, which repeat soonest.
const LEFT_OUT: u64 = 0x2_0000_0000;

/// The state behind one draw.
#[tactic(auto, using(crate::proofs::Wrapping::wrapped), unfolding(crate::specs::Program::next_state))]
pub(crate) fn next_state(state: u64) -> u64
    ensures { result ≡ next_state state }
{
    state.wrapping_mul(FACTOR).wrapping_add(ADDED)
}

/// What a draw gives: one of so many numbers, from 0 on.
#[tactic(auto, unfolding(crate::specs::Program::drawn))]
pub(crate) fn drawn(choices: u64, state: u64) -> u64
    requires some { 0 < choices }
    ensures number { result ≡ drawn choices state }
    ensures below { result < choices }
{
    next_state(state) / LEFT_OUT % choices
}
