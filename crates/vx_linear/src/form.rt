// Index forms. A form is a constant and a sum of symbols with factors, all modulo 2^32, with its symbols in ascending
// order, each once and with a factor other than 0.

ghost use Rattle.std.specs.Prelude.{◌≡◌};
ghost use Rattle.vx_linear.specs.Forms.{kind_of, number_of, is_before, is_same};

use vx_base::listed::Listed;
use vx_flow::graph::{Array, Value};

/// What stands for a number that a form does not follow further. Symbols ascend as they stand here, and then by their
/// numbers.
#[derive(Clone, Copy, PartialEq, Eq)]
pub enum Symbol {
    /// What a value holds at the start of the trace.
    Entry(Value),
    /// What the operation at this place of the trace makes.
    Made(u32),
    /// What a value, used as a place in bytes, holds at the start of the trace, divided by 4.
    EntryPlace(Value),
    /// What the operation at this place of the trace makes, used as a place in bytes, divided by 4.
    MadePlace(u32),
}

impl Symbol {
    fn kind(&self) -> u32
        ensures { result ≡ kind_of self.now }
    {
        match self {
            Symbol::Entry(_) => 0,
            Symbol::Made(_) => 1,
            Symbol::EntryPlace(_) => 2,
            Symbol::MadePlace(_) => 3,
        }
    }

    fn number(&self) -> u32
        ensures { result ≡ number_of self.now }
    {
        match self {
            Symbol::Entry(number)
            | Symbol::Made(number)
            | Symbol::EntryPlace(number)
            | Symbol::MadePlace(number) => *number,
        }
    }

    /// Whether it stands before another one in the order of symbols.
    pub fn is_before(&self, other: &Symbol) -> bool
        ensures { result ≡ is_before self.now other.now }
    {
        self.kind() < other.kind()
            || (self.kind() == other.kind() && self.number() < other.number())
    }

    /// Whether it is the same.
    pub fn is_same(&self, other: &Symbol) -> bool
        ensures { result ≡ is_same self.now other.now }
    {
        self.kind() == other.kind() && self.number() == other.number()
    }
}

/// A symbol with its factor.
#[derive(Clone, Copy)]
pub struct Term {
    /// The symbol.
    pub symbol: Symbol,
    /// Its factor, not 0.
    pub factor: i32,
}

/// The index form of an access.
#[derive(Drop)]
pub struct Form {
    /// The array of the access.
    pub array: Array,
    /// The constant.
    pub constant: i32,
    /// The symbols with their factors.
    pub terms: Listed<Term>,
}
