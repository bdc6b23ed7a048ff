// The laws of the word text. Each function does nothing: its clause is the law.

ghost use Rattle.vx_reader.specs.Laws.{SpellingIsInjective, SpelledIsFaultless, FaultlessIsSpelled};

/// No two sound programs have one text.
pub fn spelling_is_injective()
    ensures { SpellingIsInjective }
{}

/// No line of a sound program's text is faulty.
pub fn spelled_is_faultless()
    ensures { SpelledIsFaultless }
{}

/// A text without a faulty line is the text of a sound program.
pub fn faultless_is_spelled()
    ensures { FaultlessIsSpelled }
{}
