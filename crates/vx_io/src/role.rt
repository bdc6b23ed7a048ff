// What a file that a command names is there for.

/// What a file that a command names is there for.
#[derive(Clone, Copy)]
pub enum Role {
    /// The source of a program.
    Source,
    /// A word text.
    Words,
    /// A profile.
    Profile,
    /// The description of a machine.
    Machine,
    /// The input of a run.
    Input,
}
