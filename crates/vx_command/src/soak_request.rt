// What the words of `soak` ask for.

ghost use Rattle.std.specs.Prelude.{◌≤◌};

/// The words of `soak`.
#[derive(Drop)]
pub struct SoakWords {
    /// Where the draws begin.
    pub seed: u64,
    /// How many statements are made.
    pub size: u32,
    pub ghost some: { 1 ≤ size },
    pub ghost small: { size ≤ 10000 },
}
