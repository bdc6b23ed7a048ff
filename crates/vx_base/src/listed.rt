// A list that contracts see as a list. Public types hold their lists in it, so that a clause compares
// what a list holds and not the memory that holds it.

ghost use Rattle.std.specs.Prelude.{◌≡◌, ◌==◌, ◌<◌, ◌^◌, [], ◌∷◌, ◌++◌, length, IfOk, OnErr};

use std::alloc::{AllocError, Global};
use std::marker::Model;

/// The most items of a list: places in it are `u32` numbers.
pub const MOST_ITEMS: usize = 4294967295;

/// A list of bytes.
pub type Bytes = Listed<u8>;

/// A growable list of at most 2^32 - 1 items. Its value in a contract is the list of its items, first item first.
/// A growth past its room is want of memory.
#[derive(Drop)]
pub struct Listed<T: Drop> {
    items: Vec<T>,
}

impl<T: Drop> Model for Listed<T> {
    ghost use Rattle.std.specs.Prelude.{List, length, ◌<◌, ◌^◌};

    ghost Value = { List T };

    ghost view = { λ a. a.items.items };

    ghost invariant = { λ a. length a.items.items < 2 ^ 32 };
}

impl<T: Drop> Listed<T> {
    /// The empty list, which takes no memory.
    pub fn new(alloc: Global) -> Listed<T>
        ensures { result ≡ [] }
    {
        Listed {
            items: Vec::new(alloc),
        }
    }

    /// The list of a vector.
    pub fn from_vec(items: Vec<T>) -> Result<Listed<T>, AllocError>
        ensures { IfOk result (λ list. list ≡ items.items) }
    {
        if items.len() > MOST_ITEMS {
            return Err(AllocError);
        }
        Ok(Listed { items })
    }

    /// The vector that holds the list.
    pub fn into_vec(self) -> Vec<T>
        ensures { result.items ≡ self }
    {
        self.items
    }

    /// The items.
    pub fn as_slice(&self) -> &[T]
        ensures { result.now ≡ self.now }
    {
        self.items.as_slice()
    }

    /// How many items there are.
    pub fn len(&self) -> usize
        ensures len { result ≡ length self.now }
        ensures few { result < 2 ^ 32 }
    {
        self.items.len()
    }

    /// Whether there is no item.
    pub fn is_empty(&self) -> bool
        ensures { result ≡ (length self.now == 0) }
    {
        self.items.len() == 0
    }

    /// Puts an item at the end. Without memory the list stays as it was.
    pub fn push(&mut self, item: T) -> Result<(), AllocError>
        ensures ok { IfOk result (λ _. self.new ≡ self.old ++ item ∷ []) }
        ensures err { OnErr result (self.new ≡ self.old) }
    {
        if self.items.len() >= MOST_ITEMS {
            return Err(AllocError);
        }
        match self.items.push(item) {
            Ok(()) => Ok(()),
            Err(_) => Err(AllocError),
        }
    }
}

/// A list of copies of the items of a slice.
pub fn copied<T: Copy>(alloc: Global, items: &[T]) -> Result<Listed<T>, AllocError>
    ensures { IfOk result (λ copy. copy ≡ items.now) }
{
    let mut copy = Vec::new(alloc);
    copy.extend_from_slice(items)?;
    Listed::from_vec(copy)
}

/// A list of copies of the items of a slice, and an item behind them.
pub fn with_item<T: Copy>(alloc: Global, items: &[T], item: T) -> Result<Listed<T>, AllocError>
    ensures { IfOk result (λ longer. longer ≡ items.now ++ item ∷ []) }
{
    let mut longer = copied(alloc, items)?;
    longer.push(item)?;
    Ok(longer)
}
