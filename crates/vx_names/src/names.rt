// The names that are known at a place. Each name is looked up in a table, and each declaration notes what the name
// stood for before, so that a scope is left in the time of its own declarations.

ghost use Rattle.std.specs.Prelude.{◌≡◌, ◌+◌, ◌-◌, ◌<◌, ℕ, List, [], ◌∷◌, ◌++◌, None, length, drop, take, slice_index_or, IfOk, OnOk};
ghost use Rattle.vx_ast.specs.Scopes.{declared, find, inside, is_at, is_predeclared, is_taken, known_of, look, named, predeclared, wanted_by, with_array, with_handed, with_parameter, with_scalar};
ghost use Rattle.vx_ast.specs.Faults.{is_repeated};
ghost use Rattle.vx_names.specs.Agrees.{Sees};
ghost use Rattle.vx_names.specs.Entries.{entry_of, started};

use crate::local::Local;
use crate::table::Table;
use std::alloc::Global;
use std::marker::Model;
use std::mem;
use vx_ast::names::{FileName, Meant, Named};
use vx_ast::tree::Takes;
use vx_base::listed::{Bytes, Listed, copied};
use vx_base::outcome::NoMemory;

/// The names that are known at a place of a function.
#[derive(Drop)]
pub struct Names {
    table: Table,
    seen: Table,
    locals: Vec<Local>,
    names: Listed<FileName>,
    above: usize,
    depth: u32,
    scalars: u32,
    arrays: u32,
    sizes: Listed<u32>,
    takes: Listed<Listed<Takes>>,
}

impl Model for Names {
    ghost use Rattle.std.specs.Prelude.{reverse, take, ◌++◌};
    ghost use Rattle.vx_ast.specs.Scopes.{Environment, known_of, predeclared};
    ghost use Rattle.vx_names.specs.Entries.{entry_of};
    ghost use Rattle.vx_names.specs.Agrees.{Agrees, Sees, known_in};

    ghost Value = { Environment };

    ghost view = { λ s. record { depth = s.depth; locals = known_in (reverse s.locals.items); names = s.names; above = s.above; scalars = s.scalars; arrays = s.arrays; sizes = s.sizes; takes = s.takes } };

    ghost invariant = { λ s. Agrees (λ x. entry_of x s.table.entries.entries) (reverse s.locals.items) (predeclared ++ known_of s.above s.names) × Sees (λ x. entry_of x s.seen.entries.entries) (take s.above s.names) };
}

/// A copy of the bytes of a name.
pub fn bytes_of(alloc: Global, bytes: &[u8]) -> Result<Bytes, NoMemory>
    ensures { IfOk result (λ copy. copy ≡ bytes.now) }
{
    Ok(copied(alloc, bytes)?)
}

// Puts the predeclared names into a table without names.
#[tactic(auto, unfolding(vx_ast::specs::Scopes::predeclared))]
fn put_predeclared(alloc: Global, table: &mut Table) -> Result<(), NoMemory>
    requires { (x : List ℕ) → entry_of x table.old.entries.entries ≡ None }
    ensures { OnOk result ((x : List ℕ) → entry_of x table.new.entries.entries ≡ find x predeclared) }
{
    let printf = Meant {
        depth: 0,
        named: Named::Print,
    };
    table.put(alloc, b"printf", Some(printf))?;
    let more_input = Meant {
        depth: 0,
        named: Named::MoreInput,
    };
    table.put(alloc, b"more_input", Some(more_input))?;
    let read_int = Meant {
        depth: 0,
        named: Named::ReadInt,
    };
    table.put(alloc, b"read_int", Some(read_int))
}

// The table of the predeclared names.
fn predeclared_table(alloc: Global) -> Result<Table, NoMemory>
    ensures { IfOk result (λ table. (x : List ℕ) → entry_of x table.entries.entries ≡ find x predeclared) }
{
    let mut table = Table::new(alloc);
    put_predeclared(alloc, &mut table)?;
    Ok(table)
}

// Lets a name of the file stand for what it is, where it is known everywhere and nothing stands there before.
fn start_name(alloc: Global, table: &mut Table, name: &FileName) -> Result<(), NoMemory>
    ensures { OnOk result ((x : List ℕ) → entry_of x table.new.entries.entries ≡ started name.now (λ y. entry_of y table.old.entries.entries) x) }
{
    if !name.everywhere {
        return Ok(());
    }
    match table.look(name.name.as_slice()) {
        Some(_) => Ok(()),
        None => table.put(
            alloc,
            name.name.as_slice(),
            Some(Meant {
                depth: 0,
                named: name.named,
            }),
        ),
    }
}

// The table of what is known before the first definition: the predeclared names and the functions.
fn first_table(alloc: Global, names: &[FileName]) -> Result<Table, NoMemory>
    ensures { IfOk result (λ table. (x : List ℕ) → entry_of x table.entries.entries ≡ find x (predeclared ++ known_of 0 names.now)) }
{
    let mut table = predeclared_table(alloc)?;
    for name in names {
        start_name(alloc, &mut table, name)?;
    }
    Ok(table)
}

// How many definitions stand above with one more, whose name is known from now on, unless it stood already above.
fn pass_name(
    alloc: Global,
    table: &mut Table,
    seen: &mut Table,
    names: &[FileName],
    above: usize,
) -> Result<usize, NoMemory>
    requires there { above < length names.now }
    requires known { (x : List ℕ) → entry_of x table.old.entries.entries ≡ find x (predeclared ++ known_of above names.now) }
    requires sees { Sees (λ x. entry_of x seen.old.entries.entries) (take above names.now) }
    ensures more { IfOk result (λ more. more ≡ above + 1) }
    ensures known { OnOk result ((x : List ℕ) → entry_of x table.new.entries.entries ≡ find x (predeclared ++ known_of (above + 1) names.now)) }
    ensures sees { OnOk result (Sees (λ x. entry_of x seen.new.entries.entries) (take (above + 1) names.now)) }
{
    let name = &names[above];
    match seen.look(name.name.as_slice()) {
        Some(_) => Ok(above + 1),
        None => {
            let meant = Meant {
                depth: 0,
                named: name.named,
            };
            seen.put(alloc, name.name.as_slice(), Some(meant))?;
            table.put(alloc, name.name.as_slice(), Some(meant))?;
            Ok(above + 1)
        }
    }
}

/// Whether a name is predeclared.
#[tactic(auto, unfolding(vx_ast::specs::Scopes::predeclared))]
pub fn is_predeclared(name: &[u8]) -> bool
    ensures { result ≡ is_predeclared name.now }
{
    name == b"read_int".as_slice()
        || name == b"more_input".as_slice()
        || name == b"printf".as_slice()
}

fn is_at(depth: u32, meant: Option<Meant>) -> bool
    ensures { result ≡ is_at depth meant }
{
    match meant {
        Some(meant) => meant.depth == depth,
        None => false,
    }
}

// What a function takes, by its number in a table of what all functions take.
fn taken(takes: &[Listed<Takes>], function: u32) -> &[Takes]
    ensures { result.now ≡ slice_index_or takes.now function [] }
{
    match takes.get(function as usize) {
        Some(taken) => taken.as_slice(),
        None => &[],
    }
}

impl Names {
    /// What is known before the first definition of a file with these names, whose functions take this by their numbers.
    pub fn new(
        alloc: Global,
        names: Listed<FileName>,
        takes: Listed<Listed<Takes>>,
    ) -> Result<Names, NoMemory>
        ensures { IfOk result (λ made. made ≡ record { depth = 0; locals = []; names = names; above = 0; scalars = 0; arrays = 0; sizes = []; takes = takes }) }
    {
        let table = first_table(alloc, names.as_slice())?;
        let seen = predeclared_table(alloc)?;
        Ok(Names {
            table,
            seen,
            locals: Vec::new(alloc),
            names,
            above: 0,
            depth: 0,
            scalars: 0,
            arrays: 0,
            sizes: Listed::new(alloc),
            takes,
        })
    }

    /// One more definition stands above.
    pub fn pass(self, alloc: Global) -> Result<Names, NoMemory>
        requires empty { self.locals ≡ [] }
        requires there { self.above < length self.names }
        ensures { IfOk result (λ made. made ≡ record self { above = self.above + 1 }) }
    {
        let Names {
            table,
            seen,
            locals,
            names,
            above,
            depth,
            scalars,
            arrays,
            sizes,
            takes,
        } = self;
        let mut table = table;
        let mut seen = seen;
        let more = pass_name(alloc, &mut table, &mut seen, names.as_slice(), above)?;
        Ok(Names {
            table,
            seen,
            locals,
            names,
            above: more,
            depth,
            scalars,
            arrays,
            sizes,
            takes,
        })
    }

    /// Whether a name is predeclared or stands already above.
    pub fn is_repeated(&self, name: &[u8]) -> bool
        ensures { result ≡ is_repeated (take self.now.above self.now.names) name.now }
    {
        match self.seen.look(name) {
            Some(_) => true,
            None => false,
        }
    }

    /// Begins a function whose first array has this number.
    pub fn start(&mut self, alloc: Global, arrays: u32)
        ensures { self.new ≡ record self.old { depth = 1; scalars = 0; arrays = arrays; sizes = [] } }
    {
        self.depth = 1;
        self.scalars = 0;
        self.arrays = arrays;
        self.sizes = Listed::new(alloc);
    }

    /// Hands out the words of the arrays of the function.
    pub fn take_sizes(&mut self, alloc: Global) -> Listed<u32>
        ensures sizes { result ≡ self.old.sizes }
        ensures left { self.new ≡ record self.old { sizes = [] } }
    {
        mem::replace(&mut self.sizes, Listed::new(alloc))
    }

    fn look(&self, name: &[u8]) -> Option<Meant>
        ensures { result ≡ look name.now self.now }
    {
        self.table.look(name)
    }

    /// What a name stands for.
    pub fn named(&self, name: &[u8]) -> Option<Named>
        ensures { result ≡ named name.now self.now }
    {
        match self.look(name) {
            Some(meant) => Some(meant.named),
            None => None,
        }
    }

    /// What the parameters of a called function take, where its name stands for a function of the file.
    pub fn wanted_by(&self, named: Option<Named>) -> &[Takes]
        ensures { result.now ≡ wanted_by self.now named }
    {
        match named {
            None => &[],
            Some(named) => match named {
                Named::Function(function, _, _) => taken(self.takes.as_slice(), function),
                _ => &[],
            },
        }
    }

    fn depth(&self) -> u32
        ensures { result ≡ self.now.depth }
    {
        self.depth
    }

    /// How many names of the function are known.
    pub fn count(&self) -> usize
        ensures { result ≡ length self.now.locals }
    {
        self.locals.as_slice().len()
    }

    /// Whether a name may not be declared here: it is predeclared, or its scope has it already.
    pub fn is_taken(&self, name: &[u8]) -> bool
        ensures { result ≡ is_taken name.now self.now }
    {
        is_predeclared(name) || is_at(self.depth(), self.look(name))
    }

    // Declares a name: one more local, which takes the name over.
    fn declare(&mut self, alloc: Global, name: &[u8], named: Named) -> Result<(), NoMemory>
        ensures { OnOk result (self.new ≡ declared name.now named self.old) }
    {
        let before = self.table.look(name);
        let depth = self.depth;
        if is_at(depth, before) {
            return Ok(());
        }
        let meant = Meant { depth, named };
        let bytes = bytes_of(alloc, name)?;
        self.locals.push(Local {
            name: bytes,
            meant,
            before,
        })?;
        match self.table.put(alloc, name, Some(meant)) {
            Ok(()) => Ok(()),
            Err(fault) => {
                self.locals.pop();
                Err(fault)
            }
        }
    }

    // The latest local is known no more.
    fn forget(&mut self, alloc: Global) -> Result<(), NoMemory>
        requires { 0 < length self.old.locals }
        ensures { OnOk result (self.new ≡ record self.old { locals = drop 1 self.old.locals }) }
    {
        let last = &self.locals[self.locals.len() - 1];
        self.table.put(alloc, last.name.as_slice(), last.before)?;
        self.locals.pop();
        Ok(())
    }

    /// How many scalars the function has so far.
    pub fn scalars(&self) -> u32
        ensures { result ≡ self.now.scalars }
    {
        self.scalars
    }

    fn count_scalar(&mut self) -> Result<(), NoMemory>
        ensures { OnOk result (self.new ≡ record self.old { scalars = self.old.scalars + 1 }) }
    {
        if self.scalars == u32::MAX {
            return Err(NoMemory);
        }
        self.scalars += 1;
        Ok(())
    }

    /// Declares a scalar, and gives its number.
    pub fn scalar(&mut self, alloc: Global, name: &vx_ast::syntax::Name) -> Result<u32, NoMemory>
        ensures number { IfOk result (λ n. n ≡ self.old.scalars) }
        ensures declared { OnOk result (self.new ≡ with_scalar name.now self.old) }
    {
        let number = self.scalars();
        self.declare(alloc, name.bytes.as_slice(), Named::Scalar(number))?;
        self.count_scalar()?;
        Ok(number)
    }

    fn arrays(&self) -> u32
        ensures { result ≡ self.now.arrays }
    {
        self.arrays
    }

    fn count_array(&mut self) -> Result<(), NoMemory>
        ensures { OnOk result (self.new ≡ record self.old { arrays = self.old.arrays + 1 }) }
    {
        if self.arrays == u32::MAX {
            return Err(NoMemory);
        }
        self.arrays += 1;
        Ok(())
    }

    fn add_size(&mut self, words: u32) -> Result<(), NoMemory>
        ensures { OnOk result (self.new ≡ record self.old { sizes = self.old.sizes ++ words ∷ [] }) }
    {
        self.sizes.push(words)?;
        Ok(())
    }

    // Declares an array that a function is handed, which has no words of its own.
    fn handed(&mut self, alloc: Global, name: &vx_ast::syntax::Name) -> Result<(), NoMemory>
        ensures { OnOk result (self.new ≡ with_handed name.now self.old) }
    {
        let number = self.arrays();
        self.declare(alloc, name.bytes.as_slice(), Named::Array(number))?;
        self.count_array()?;
        Ok(())
    }

    /// Declares a parameter.
    pub fn parameter(
        &mut self,
        alloc: Global,
        parameter: &vx_ast::syntax::Parameter,
    ) -> Result<(), NoMemory>
        ensures { OnOk result (self.new ≡ with_parameter parameter.now self.old) }
    {
        match parameter.takes {
            Takes::Number => {
                self.scalar(alloc, &parameter.name)?;
                Ok(())
            }
            Takes::Array => {
                self.handed(alloc, &parameter.name)?;
                Ok(())
            }
        }
    }

    /// Declares an array, and gives its number.
    pub fn array(
        &mut self,
        alloc: Global,
        name: &vx_ast::syntax::Name,
        size: vx_ast::syntax::Size,
    ) -> Result<u32, NoMemory>
        ensures number { IfOk result (λ n. n ≡ self.old.arrays) }
        ensures declared { OnOk result (self.new ≡ with_array name.now size self.old) }
    {
        let number = self.arrays();
        self.declare(alloc, name.bytes.as_slice(), Named::Array(number))?;
        self.count_array()?;
        self.add_size(size.words)?;
        Ok(number)
    }

    /// Enters a scope.
    pub fn enter(&mut self) -> Result<(), NoMemory>
        ensures { OnOk result (self.new ≡ inside self.old) }
    {
        if self.depth == u32::MAX {
            return Err(NoMemory);
        }
        self.depth += 1;
        Ok(())
    }

    fn rise(&mut self)
        ensures { self.new ≡ record self.old { depth = self.old.depth - 1 } }
    {
        self.depth = self.depth.saturating_sub(1);
    }

    /// Leaves a scope at whose start so many names of the function were known.
    pub fn leave(&mut self, alloc: Global, count: usize) -> Result<(), NoMemory>
        ensures { OnOk result (self.new ≡ record self.old { depth = self.old.depth - 1; locals = drop (length self.old.locals - count) self.old.locals }) }
    {
        while self.count() > count {
            self.forget(alloc)?;
        }
        self.rise();
        Ok(())
    }
}
