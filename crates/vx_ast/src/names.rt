// What the names of a source stand for (specs/Scopes.antt), and the faults that a parsed source may have
// (specs/Faults.antt).

use crate::syntax::Place;
use crate::tree::Gives;
use vx_base::listed::Bytes;

/// What a name stands for.
#[derive(Clone, Copy)]
pub enum Named {
    /// A scalar of the function, by its number.
    Scalar(u32),
    /// A global scalar, by the number of its array of one word.
    Global(u32),
    /// An array, by its number.
    Array(u32),
    /// A function, by its number, with what it gives back and how many parameters it has.
    Function(u32, Gives, u32),
    /// The predeclared `read_int`.
    ReadInt,
    /// The predeclared `more_input`.
    MoreInput,
    /// The predeclared `printf`.
    Print,
}

/// What a name stands for, and in which scope it is declared.
#[derive(Clone, Copy)]
pub struct Meant {
    /// How many scopes stand round that scope: 0 for the file.
    pub depth: u32,
    /// What it stands for.
    pub named: Named,
}

/// A fault S`code` of a parsed source, from S5 to S13, and where it stands.
#[derive(Clone, Copy)]
pub struct Fault {
    /// The number of its code.
    pub code: u32,
    /// Where it stands.
    pub place: Place,
}

/// A name of the file.
#[derive(Drop)]
pub struct FileName {
    /// Its bytes.
    pub name: Bytes,
    /// Whether it is known in the whole file, as functions are, and not only below its declaration.
    pub everywhere: bool,
    /// What it stands for.
    pub named: Named,
}
