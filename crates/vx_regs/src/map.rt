// Where the values of a function are kept. When a map keeps them apart is defined in specs/Mapped.antt.

use vx_base::listed::Listed;

/// Where a value is kept.
#[derive(Clone, Copy)]
pub enum Kept {
    /// In the register of this number, of the value's bank and of the cluster on which it stands.
    InRegister(u32),
    /// In the slot of this number, a word of the function's frame.
    InSlot(u32),
    /// Nowhere: no word names the value.
    Nowhere,
}

/// Where each value of a function is kept, and each copy of one, by its number. A value beyond the list is kept nowhere.
#[derive(Drop)]
pub struct RegMap {
    pub values: Listed<Kept>,
}
