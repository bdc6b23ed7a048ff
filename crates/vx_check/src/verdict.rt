// What the check of a program of words answers.

/// What is found of a program of words.
#[derive(Clone, Copy)]
pub enum Verdict {
    /// Every word fits the machine, by the version of the program, and on no static path does a word read a register while a write to it may be in flight.
    Yes,
    /// The word at this place does not fit the machine, by the version of the program, and all before it do.
    Unfit(u32),
    /// Every word fits, and on some static path the word at this place reads a register while a write to it may be in flight. No
    /// word at a lower place does.
    Pending(u32),
}
