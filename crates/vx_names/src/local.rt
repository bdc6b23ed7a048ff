// A name of a function that is known.

use vx_ast::names::Meant;
use vx_base::listed::Bytes;

/// A name of a function, and what it stood for before its declaration.
#[derive(Drop)]
pub struct Local {
    /// Its bytes.
    pub name: Bytes,
    /// What it stands for.
    pub meant: Meant,
    /// What it stood for before, where it stood for anything.
    pub before: Option<Meant>,
}
