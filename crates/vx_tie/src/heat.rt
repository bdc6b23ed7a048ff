// Laws of what words that carry layouts keep to: they fit the machine, are sound, and touch no register that is hot. Each is the clause
// of a function that does nothing.

ghost use Rattle.vx_tie.specs.Fitted.{FitLaw, NeverEarlyLaw, SoundLaw};

use vx_room::fits_by_room_law;

/// Every word of a program that carries a flow is well formed and fits its machine: planned words, since their items have room, and
/// all others, since they hold one operation, or one on each cluster.
pub fn words_fit()
    ensures { FitLaw }
{
    fits_by_room_law();
}

/// Such a program can be spelled as a word text, where those of memory that do not start as 0 are as they should be: its operations
/// are of their form, its pauses are short, and the places, functions and texts that it names are there.
pub fn words_are_sound()
    ensures { SoundLaw }
{
    fits_by_room_law();
}

/// On no path of the words of a program that carries a flow, with every branch either way and a return to everywhere, is a register
/// read or written while an earlier write of it may be in flight.
pub fn paths_are_never_early()
    ensures { NeverEarlyLaw }
{}
