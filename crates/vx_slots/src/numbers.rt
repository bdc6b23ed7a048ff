// How many values and active functions there may be, and how many bytes words take.

ghost use Rattle.std.specs.Prelude.{◌≡◌, IfOk};
ghost use Rattle.vx_target.specs.Target.{bytes};

use vx_base::outcome::NoMemory;

/// The most values that a word may name.
pub const MOST_NAMES: usize = 2147483647;

/// How many functions may be active at a time.
pub const DEEPEST: u32 = 512;

/// The bytes of so many words; more than a number holds is want of memory.
pub fn bytes(words: u32) -> Result<i32, NoMemory>
    ensures { IfOk result (λ count. count ≡ bytes words) }
{
    if words < 536870912 {
        Ok((4 * words) as i32)
    } else {
        Err(NoMemory)
    }
}
