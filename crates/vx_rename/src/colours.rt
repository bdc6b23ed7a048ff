// The choice of names: web after web, in the order in which a walk over the blocks comes to them, each gets a name of its kind that no
// neighbour has. While there is room each gets one of its own; then the one that was used longest ago, so that what shares a name
// stands far apart. Only where none is free one more is made.

use crate::kinds::BRANCH;
use crate::made_block::result_of;
use crate::names::{BlockNames, Name};
use crate::neighbours::Neighbours;
use crate::value_sets::{NONE, at, put};
use crate::visits::{Visit, visit_exit, visit_reads};
use crate::web_names::WebNames;
use std::alloc::Global;
use vx_base::listed::Listed;
use vx_base::outcome::NoMemory;
use vx_flow::graph::{Bank, Block, Graph, Op, Value};
use vx_flow::operands::written_by;
use vx_loops::order_of;

/// A name that was made.
#[derive(Clone, Copy)]
struct Made {
    kind: u32,
    /// When it was used.
    used: u32,
    /// The choice at which a neighbour had it.
    taken: u32,
}

/// The names of webs.
#[derive(Drop)]
pub struct Colours<'a> {
    /// The kinds of values.
    kinds: &'a [u32],
    neighbours: &'a Neighbours,
    /// The web with which each became one.
    roots: Vec<u32>,
    /// The web in which each value is where the walk is.
    webs: Vec<u32>,
    /// The name of each web; none where it has none yet.
    to: Vec<Value>,
    names: Vec<Made>,
    /// How many names of each kind may still be made.
    room: Vec<u32>,
    time: u32,
    choices: u32,
    /// How many more were made.
    more: u32,
}

impl<'a> Colours<'a> {
    /// No names, with so much room for each kind.
    fn new(
        alloc: Global,
        kinds: &'a [u32],
        neighbours: &'a Neighbours,
        roots: Vec<u32>,
        room: Vec<u32>,
    ) -> Result<Colours<'a>, NoMemory> {
        let to = vec![in alloc; NONE; roots.len()]?;
        let webs = vec![in alloc; NONE; kinds.len()]?;
        Ok(Colours {
            kinds,
            neighbours,
            roots,
            webs,
            to,
            names: Vec::new(alloc),
            room,
            time: 0,
            choices: 0,
            more: 0,
        })
    }

    /// The name of each web.
    pub(crate) fn to(&self) -> &[Value] {
        self.to.as_slice()
    }

    /// Whether over a fifth of the names are more than there was room for.
    pub(crate) fn is_crowded(&self) -> bool {
        self.more as usize > self.names.len() / 5
    }

    /// The banks of the names.
    pub(crate) fn banks(&self, alloc: Global) -> Result<Listed<Bank>, NoMemory> {
        let mut banks = Listed::new(alloc);
        for name in self.names.as_slice() {
            banks.push(if name.kind == BRANCH {
                Bank::Branch
            } else {
                Bank::General
            })?;
        }
        Ok(banks)
    }

    fn make(&mut self, kind: u32) -> Result<Value, NoMemory> {
        let name = self.names.len().min(NONE as usize) as u32;
        self.names.push(Made {
            kind,
            used: 0,
            taken: 0,
        })?;
        let room = at(self.room.as_slice(), kind).saturating_sub(1);
        put(&mut self.room, kind, room);
        Ok(name)
    }

    fn choose(&mut self, web: u32, kind: u32) -> Result<Value, NoMemory> {
        if at(self.room.as_slice(), kind) > 0 {
            return self.make(kind);
        }
        self.choices = self.choices.saturating_add(1);
        self.take_all(web);
        match free_of(self.names.as_slice(), kind, self.choices) {
            Some(name) => Ok(name),
            None => {
                self.more = self.more.saturating_add(1);
                self.make(kind)
            }
        }
    }

    /// The names of the neighbours of a web are taken.
    fn take_all(&mut self, web: u32) {
        let mut place = self.neighbours.first(web);
        for _ in 0..self.neighbours.len() {
            match self.neighbours.link_at(place) {
                Some(link) => {
                    let name = at(self.to.as_slice(), self.root_of(link.with)) as usize;
                    if name < self.names.len() {
                        self.names[name].taken = self.choices;
                    }
                    place = link.next;
                }
                None => return,
            }
        }
    }

    fn root_of(&self, web: u32) -> u32 {
        at(self.roots.as_slice(), web)
    }

    /// Each web gets the name of the one with which it became one.
    fn spread(&mut self) {
        for web in 0..self.roots.len().min(NONE as usize) as u32 {
            let name = at(self.to.as_slice(), self.root_of(web));
            put(&mut self.to, web, name);
        }
    }

    fn named(&mut self, web: u32, kind: u32) -> Result<Value, NoMemory> {
        let name = at(self.to.as_slice(), web);
        if name != NONE {
            return Ok(name);
        }
        let name = self.choose(web, kind)?;
        put(&mut self.to, web, name);
        Ok(name)
    }

    /// A value is written in a web.
    fn write(&mut self, value: Option<Value>, web: u32) -> Result<(), NoMemory> {
        match value {
            Some(value) => {
                let root = self.root_of(web);
                put(&mut self.webs, value, root);
                self.visit(value)
            }
            None => Ok(()),
        }
    }

    /// The parameters are in these webs at the entry.
    fn walk_parameters(&mut self, values: &[Value], webs: &[u32]) -> Result<(), NoMemory> {
        for (place, value) in values.iter().enumerate() {
            match webs.get(place) {
                Some(web) => self.write(Some(*value), *web)?,
                None => {}
            }
        }
        Ok(())
    }

    /// At the start of a block values are in these webs.
    fn enter(&mut self, start: &[Name]) {
        for name in start {
            let root = self.root_of(name.new);
            put(&mut self.webs, name.old, root);
        }
    }

    fn walk_block(&mut self, block: &Block, names: &BlockNames) -> Result<(), NoMemory> {
        self.enter(names.start.as_slice());
        let written = names.written.as_slice();
        for (place, op) in block.ops.as_slice().iter().enumerate() {
            match written.get(place) {
                Some(Some(web)) => self.walk_op(op, *web)?,
                _ => {}
            }
        }
        self.time = self.time.saturating_add(1);
        visit_exit(self, &block.exit)?;
        self.write(result_of(&block.exit), names.result)
    }

    fn walk_op(&mut self, op: &Op, web: u32) -> Result<(), NoMemory> {
        self.time = self.time.saturating_add(1);
        visit_reads(self, op)?;
        self.write(written_by(op), web)
    }
}

impl<'a> Visit for Colours<'a> {
    /// A value is read or written: its web gets a name if it has none, and its name was used now.
    fn visit(&mut self, value: Value) -> Result<(), NoMemory> {
        let web = at(self.webs.as_slice(), value);
        let kind = at(self.kinds, value);
        if web != NONE && kind != NONE {
            let name = self.named(web, kind)? as usize;
            if name < self.names.len() {
                self.names[name].used = self.time;
            }
        }
        Ok(())
    }
}

/// The name of a kind that was used longest ago of those that were not taken at a choice.
fn free_of(names: &[Made], kind: u32, choice: u32) -> Option<Value> {
    let mut free = None;
    let mut oldest = u32::MAX;
    for (name, made) in names.iter().enumerate() {
        if made.kind == kind && made.taken != choice && made.used < oldest && name < NONE as usize {
            free = Some(name as u32);
            oldest = made.used;
        }
    }
    free
}

/// The names of the webs of a graph, where this is the order of its blocks, with so much room for each kind.
pub(crate) fn colours_of<'a>(
    alloc: Global,
    graph: &Graph,
    names: &WebNames,
    kinds: &'a [u32],
    neighbours: &'a Neighbours,
    roots: Vec<u32>,
    room: Vec<u32>,
) -> Result<Colours<'a>, NoMemory> {
    let order = order_of(alloc, graph.blocks.as_slice())?;
    let mut colours = Colours::new(alloc, kinds, neighbours, roots, room)?;
    colours.walk_parameters(graph.parameters.as_slice(), names.parameters.as_slice())?;
    for block in order.as_slice() {
        match (
            graph.blocks.as_slice().get(*block as usize),
            names.blocks.as_slice().get(*block as usize),
        ) {
            (Some(block), Some(names)) => colours.walk_block(block, names)?,
            _ => {}
        }
    }
    colours.spread();
    Ok(colours)
}
