// The law of lines: the function does nothing, and its clause is the law.

ghost use Rattle.vx_test_files.specs.Lines.{LinesMakeTheText};

/// The lines of a text, as they stand in it, make up the text.
pub fn lines_make_the_text()
    ensures { LinesMakeTheText }
{}
