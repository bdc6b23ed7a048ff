// Laws of seats, each the clause of a function that does nothing.

ghost use Rattle.vx_target.specs.Given.{GivenSpotsLaw, OwnSpotsLaw, OwnedLaw, SpotsApartLaw};
ghost use Rattle.vx_seats.specs.SeatLaws.{ArraysLaw, EnteredLaw, ReturnedLaw, SlotLaw, StoreLaw, TableLaw};
ghost use Rattle.vx_seats.specs.Shown.{PassedLaw, ShownLaw};

/// Rows that are seated in a stack of activations have a table of seats: what is known of their words is in memory, within it and
/// apart from each other, and apart from every link and slot of the activations; each array of each activation has its seat there.
pub fn rows_have_seats()
    ensures { TableLaw }
{}

/// A store to one word of one row at that word of its seat keeps this, whatever activation the row belongs to.
pub fn stores_keep_seats()
    ensures { StoreLaw }
{}

/// A store to a link or a slot of an activation keeps it.
pub fn slots_keep_seats()
    ensures { SlotLaw }
{}

/// It is kept where a function is entered, with its rows behind those that were there and its frame below.
pub fn entered_functions_keep_seats()
    ensures { EnteredLaw }
{}

/// It is kept where a function returns, and its rows go.
pub fn returns_keep_seats()
    ensures { ReturnedLaw }
{}

/// So the arrays of each activation stand in memory.
pub fn arrays_are_seated()
    ensures { ArraysLaw }
{}

/// The own arrays of a function to which others are given stand one behind the other from its base on.
pub fn own_arrays_stand_behind_the_base()
    ensures { OwnSpotsLaw }
{}

/// Each array behind the globals that is not given is one of its own.
pub fn other_arrays_are_own()
    ensures { OwnedLaw }
{}

/// One that is given stands at the spot that is passed for it.
pub fn given_arrays_stand_where_they_are_passed()
    ensures { GivenSpotsLaw }
{}

/// Two arrays at one spot are one, or both are global or given, where only spots in front of the base are passed.
pub fn own_arrays_stand_apart()
    ensures { SpotsApartLaw }
{}

/// What registers and slots show to an activation by the seats of its rows, they show when a function is entered above it, and when
/// that returns.
pub fn shown_numbers_stay()
    ensures { ShownLaw }
{}

/// A base can be passed on: its row stands in front of those of the function that is entered, and is the one given to it.
pub fn bases_are_passed()
    ensures { PassedLaw }
{}
