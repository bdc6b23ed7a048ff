// The law of the words that carry layouts, from those of vx_tie.

ghost use Rattle.vx_target.specs.Carried.{FrameLaw};

use vx_tie::heat::{paths_are_never_early, words_fit};
use vx_tie::laws::programs_do_the_same;

/// A program that carries a flow keeps to its machine: every word fits, and on no path of its words, with every branch either way and
/// a return to everywhere, is a register read or written while an earlier write of it may be in flight. With every input with which
/// the laid-out words never fail, its words do the same.
pub fn frames_keep_to_the_machine()
    ensures { FrameLaw }
{
    words_fit();
    paths_are_never_early();
    programs_do_the_same();
}
