// How much a program may grow by copied operations.

ghost use Rattle.std.specs.Prelude.{◌≡◌};

/// How many operations may be copied onto the edges of splits and joins, and how many were so far. Copies are counted for each
/// edge.
#[derive(Clone, Copy)]
pub struct Budget {
    /// How many may be copied.
    pub cap: u32,
    /// How many were.
    pub used: u32,
}

impl Budget {
    /// So many may be copied, and none was.
    pub fn make(cap: u32) -> Budget
        ensures cap { result.cap ≡ cap }
        ensures used { result.used ≡ 0 }
    {
        Budget { cap, used: 0 }
    }
}
