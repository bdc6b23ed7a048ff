// What a probe is shown of a word that took effect.

/// A word that took effect.
#[derive(Clone, Copy)]
pub struct Event {
    /// The place of the word in its program.
    pub place: u32,
    /// The cycle of its issue, from 0, or the greatest `u64` where the cycle is larger.
    pub cycle: u64,
    /// How many of its operations take an ALU.
    pub alu: u32,
    /// How many of its operations take a multiplier.
    pub multiply: u32,
    /// How many of its operations take a memory unit.
    pub memory: u32,
    /// How many of its operations take a copy path.
    pub copy: u32,
    /// How many of its operations take the control place.
    pub control: u32,
    /// Whether the next place is not the following word. A word that ends the program leads nowhere else.
    pub taken: bool,
}
