// The laws of converting diamonds, each the clause of a function that does nothing.

ghost use Rattle.vx_select.specs.Example.{LesserIsChosen};
ghost use Rattle.vx_select.specs.Laws.{ConvertedShorter, ConvertedStays, FirstIsFirst, SelectedOnce, SelectedRuns, SelectedSound, SelectedStays};
ghost use Rattle.vx_select.specs.Padding.{PaddedStays};

/// With one diamond converted a sound graph stays sound, and the graph of its function.
pub fn converted_stays()
    ensures { ConvertedStays }
{}

/// With diamonds converted a sound flow stays sound.
pub fn selected_sound()
    ensures { SelectedSound }
{}

/// With diamonds converted a flow that never fails does the same, and never fails.
pub fn selected_runs()
    ensures { SelectedRuns }
{}

/// A flow of a program stays one.
pub fn selected_stays()
    ensures { SelectedStays }
{}

/// The lesser of two numbers becomes a choice, where two operations are few enough and two values are free.
pub fn lesser_is_chosen()
    ensures { LesserIsChosen }
{}

/// What comes out of converting diamonds is one flow.
pub fn selected_once()
    ensures { SelectedOnce }
{}

/// With a diamond converted a graph has fewer blocks, so that at some time none is left.
pub fn converted_shorter()
    ensures { ConvertedShorter }
{}

/// The first diamond that is found block by block is the one with the lowest block, and where none is found there is none.
pub fn first_is_first()
    ensures { FirstIsFirst }
{}

/// With more values that no operation names a flow of a program stays one, up to the bounds on its values.
pub fn padded_stays()
    ensures { PaddedStays }
{}
