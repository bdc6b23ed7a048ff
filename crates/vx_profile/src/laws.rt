// The laws of the profile text. Each function does nothing: its clause is the law.

ghost use Rattle.vx_profile.specs.Text.{SpelledInOneWay, SpelledIsFaultless, OneFault};
ghost use Rattle.vx_profile.specs.TextExample.{TextExample};

/// A text gives one count for each block and edge.
pub fn spelled_in_one_way()
    ensures { SpelledInOneWay }
{}

/// A text that gives counts has no fault.
pub fn spelled_is_faultless()
    ensures { SpelledIsFaultless }
{}

/// A text has one fault at most.
pub fn one_fault()
    ensures { OneFault }
{}

/// Texts worked by hand.
pub fn text_example()
    ensures { TextExample }
{}
