// The names of a graph by webs, found by walks backward over each block with what is live: without the operations that do nothing but
// write a value that is not live behind them. One walk unites webs, and a second one notes which are neighbours and makes the names.

use crate::made_block::result_of;
use crate::made_ops::{source_of, writes_alone};
use crate::names::{BlockNames, Name};
use crate::neighbours::Neighbours;
use crate::value_sets::{NONE, ValueSet, at};
use crate::visits::{Visit, visit_exit, visit_reads};
use crate::webs::Webs;
use std::alloc::Global;
use vx_base::listed::Listed;
use vx_base::outcome::NoMemory;
use vx_flow::graph::{Block, BlockId, Exit, Graph, Op, Value};
use vx_flow::live_rows::Live;
use vx_flow::operands::written_by;

/// Where a walk is.
#[derive(Drop)]
pub struct Walk {
    /// The values that are live there, and their webs.
    set: ValueSet,
    /// The web of the first value that is live at the start of each block; those of the others follow.
    firsts: Vec<u32>,
    pub webs: Webs,
    /// How many webs are of values at the starts of blocks.
    at_starts: u32,
    /// The next web of another value.
    next: u32,
    pub neighbours: Neighbours,
    /// The webs that the operations of a block write, the last one first; none where one is left out.
    written: Vec<Option<u32>>,
}

impl Walk {
    /// Before all blocks, with a web for each value that is live at the start of each.
    pub(crate) fn new(alloc: Global, graph: &Graph, live: &Live) -> Result<Walk, NoMemory> {
        let set = ValueSet::new(alloc, graph.banks.len())?;
        let neighbours = Neighbours::new(alloc, 0, 0)?;
        let mut walk = Walk {
            set,
            firsts: Vec::new(alloc),
            webs: Webs::new(alloc),
            at_starts: 0,
            next: 0,
            neighbours,
            written: Vec::new(alloc),
        };
        let blocks = graph.blocks.len().min(NONE as usize) as u32;
        for block in 0..blocks {
            walk.make_firsts(live.values_at(block))?;
        }
        Ok(walk)
    }

    /// A web for each value that is live at the start of one more block.
    fn make_firsts(&mut self, values: &[Value]) -> Result<(), NoMemory> {
        let first = self.next;
        self.firsts.push(first)?;
        for value in values {
            self.webs.make(*value)?;
            self.next = self.next.saturating_add(1);
        }
        Ok(())
    }

    /// A web that is no value at the start of a block; the same ones in each walk.
    fn take_web(&mut self, value: Value) -> Result<u32, NoMemory> {
        let web = self.next;
        self.next = web.saturating_add(1);
        if web as usize >= self.webs.len() {
            self.webs.make(value)?;
        }
        Ok(web)
    }

    /// What is live at the start of a block is live where it is entered, in the same webs.
    fn enter(&mut self, block: BlockId, live: &Live) -> Result<(), NoMemory> {
        let mut web = at(self.firsts.as_slice(), block);
        for value in live.values_at(block) {
            let now = self.set.number_of(*value);
            if now == NONE {
                self.set.put(*value, web)?;
            } else {
                self.webs.unite(now, web);
            }
            web = web.saturating_add(1);
        }
        Ok(())
    }

    /// A value is written: the web that is live behind it is not before, and those of the others are its neighbours, but for that of
    /// a value that was moved to it.
    fn write(&mut self, value: Value, source: Option<Value>) -> Result<u32, NoMemory> {
        self.visit(value)?;
        let web = self.set.number_of(value);
        self.set.take(value);
        self.link(web, source)?;
        Ok(self.webs.find(web))
    }

    /// What is live, but for one value, is a neighbour of a web.
    fn link(&mut self, web: u32, but: Option<Value>) -> Result<(), NoMemory> {
        if self.neighbours.is_full() {
            return Ok(());
        }
        let from = self.webs.find(web);
        let count = self.set.items().len().min(NONE as usize) as u32;
        for place in 0..count {
            let value = at(self.set.items(), place);
            if Some(value) != but {
                let other = self.webs.find(self.set.number_of(value));
                self.neighbours.link(from, other)?;
            }
        }
        Ok(())
    }

    fn walk_exit(&mut self, exit: &Exit, live: &Live) -> Result<u32, NoMemory> {
        match exit {
            Exit::Goto(next) | Exit::Call { next, .. } => self.enter(*next, live)?,
            Exit::Split { yes, no, .. } => {
                self.enter(*yes, live)?;
                self.enter(*no, live)?;
            }
            Exit::Return(_) | Exit::Ends(_) => {}
        }
        let result = match result_of(exit) {
            Some(value) => self.write(value, None)?,
            None => 0,
        };
        visit_exit(self, exit)?;
        Ok(result)
    }

    /// The web that an operation writes; none where it is left out, and 0 where it writes nothing.
    fn walk_op(&mut self, op: &Op) -> Result<Option<u32>, NoMemory> {
        let web = match written_by(op) {
            Some(value) => {
                if writes_alone(op) && self.set.number_of(value) == NONE {
                    return Ok(None);
                }
                self.write(value, source_of(op))?
            }
            None => 0,
        };
        visit_reads(self, op)?;
        Ok(Some(web))
    }

    /// Goes over a block, and gives the web of the result of its call.
    fn walk_block(&mut self, block: &Block, number: BlockId, live: &Live) -> Result<u32, NoMemory> {
        self.set.clear();
        let result = self.walk_exit(&block.exit, live)?;
        self.written.clear();
        let ops = block.ops.as_slice();
        for behind in 0..ops.len() {
            let web = self.walk_op(&ops[ops.len() - 1 - behind])?;
            self.written.push(web)?;
        }
        self.enter(number, live)?;
        Ok(result)
    }

    /// What the parameters are before the first block; each two of them and of what is live there are neighbours.
    fn walk_entry(&mut self, parameters: &[Value], live: &Live) -> Result<(), NoMemory> {
        self.set.clear();
        let mut web = at(self.firsts.as_slice(), 0);
        for value in live.values_at(0) {
            self.link(web, None)?;
            self.set.put(*value, web)?;
            web = web.saturating_add(1);
        }
        for value in parameters {
            if self.set.number_of(*value) == NONE {
                let web = self.take_web(*value)?;
                self.link(web, None)?;
                self.set.put(*value, web)?;
            }
        }
        Ok(())
    }
}

impl Visit for Walk {
    /// A value is read: it is live, in a web of its own where it was not live behind.
    fn visit(&mut self, value: Value) -> Result<(), NoMemory> {
        if self.set.number_of(value) == NONE {
            let web = self.take_web(value)?;
            self.set.put(value, web)?;
        }
        Ok(())
    }
}

/// The webs of a graph.
pub(crate) fn webs_of(alloc: Global, graph: &Graph, live: &Live) -> Result<Walk, NoMemory> {
    let mut walk = Walk::new(alloc, graph, live)?;
    walk.at_starts = walk.next;
    walk.walk_entry(graph.parameters.as_slice(), live)?;
    let mut number: BlockId = 0;
    for block in graph.blocks.as_slice() {
        walk.walk_block(block, number, live)?;
        number = number.saturating_add(1);
    }
    Ok(walk)
}

/// The names of a graph by its webs.
#[derive(Drop)]
pub struct WebNames {
    pub blocks: Listed<BlockNames>,
    pub parameters: Listed<Value>,
}

/// The names of a graph by its webs, of which so many links between neighbours are noted.
pub(crate) fn web_names(
    alloc: Global,
    graph: &Graph,
    live: &Live,
    walk: &mut Walk,
    most_links: usize,
) -> Result<WebNames, NoMemory> {
    walk.neighbours = Neighbours::new(alloc, walk.webs.len(), most_links)?;
    walk.next = walk.at_starts;
    walk.walk_entry(graph.parameters.as_slice(), live)?;
    let parameters = parameters_of(alloc, graph.parameters.as_slice(), walk)?;
    let mut blocks = Listed::new(alloc);
    let mut number: BlockId = 0;
    for block in graph.blocks.as_slice() {
        blocks.push(names_of_block(alloc, block, number, live, walk)?)?;
        number = number.saturating_add(1);
    }
    Ok(WebNames { blocks, parameters })
}

fn parameters_of(
    alloc: Global,
    parameters: &[Value],
    walk: &mut Walk,
) -> Result<Listed<Value>, NoMemory> {
    let mut names = Listed::new(alloc);
    for value in parameters {
        let web = walk.set.number_of(*value);
        names.push(walk.webs.find(web))?;
    }
    Ok(names)
}

fn names_of_block(
    alloc: Global,
    block: &Block,
    number: BlockId,
    live: &Live,
    walk: &mut Walk,
) -> Result<BlockNames, NoMemory> {
    let result = walk.walk_block(block, number, live)?;
    let written = turned_round(alloc, walk.written.as_slice())?;
    let start = names_at_start(alloc, number, live, walk)?;
    Ok(BlockNames {
        start,
        written,
        result,
    })
}

fn turned_round(alloc: Global, row: &[Option<u32>]) -> Result<Listed<Option<u32>>, NoMemory> {
    let mut turned = Listed::new(alloc);
    for behind in 0..row.len() {
        turned.push(row[row.len() - 1 - behind])?;
    }
    Ok(turned)
}

fn names_at_start(
    alloc: Global,
    number: BlockId,
    live: &Live,
    walk: &mut Walk,
) -> Result<Listed<Name>, NoMemory> {
    let mut start = Listed::new(alloc);
    let mut web = at(walk.firsts.as_slice(), number);
    for value in live.values_at(number) {
        start.push(Name {
            old: *value,
            new: walk.webs.find(web),
        })?;
        web = web.saturating_add(1);
    }
    Ok(start)
}
