// What is noted of the blocks of a graph, and of the loop that is looked at: its blocks, and what these do. In specs/Noted.antt
// stands what the notes say.

ghost use Rattle.std.specs.Prelude.{◌≡◌, ◌<◌, ◌≤◌, ◌+◌, ◌-◌, ◌^◌, ℕ, length};
ghost use Rattle.vx_loops.specs.Past.{NamesPast, counted_again};

use crate::stores::stored_by;
use vx_base::listed::Listed;
use vx_flow::graph::{ArrayId, Block, BlockId, Exit, Op, Operand, Value};
use vx_flow::operands::written_by;

/// What is noted of the blocks of a graph, and of the loop that is looked at: none at first. Loops are told apart by their
/// numbers, so that nothing is taken back for the next one; the greatest number is that of no loop.
#[derive(Drop)]
pub struct Loops {
    /// The place of each block in an order in which each stands behind those that lead to it, but for the edges that close loops.
    pub(crate) ranks: Vec<usize>,
    /// From which blocks edges lead to each block.
    pub(crate) sources: Vec<Listed<BlockId>>,
    /// The loop in which a block was found last.
    pub(crate) members: Vec<usize>,
    /// The loop in which a value was found to be written last, and how often it is.
    pub(crate) writers: Vec<usize>,
    pub(crate) times: Vec<u32>,
    /// The loop in which an array was found to be stored to last, and the one in which a call was.
    pub(crate) stores: Vec<usize>,
    pub(crate) calls: usize,
    /// The loop that is looked at.
    pub(crate) number: usize,
    ghost timed: { length times.items ≡ length writers.items },
    ghost members_past: { NamesPast number members.items },
    ghost writers_past: { NamesPast number writers.items },
    ghost stores_past: { NamesPast number stores.items },
    ghost calls_past: { number < calls → calls ≡ 2 ^ 64 - 1 },
}

impl Loops {
    ghost use Rattle.std.specs.Prelude.{◌==◌, ◌++◌, ◌∷◌, ◌||◌, Bool, List, [], true, false, Some, if◌then◌else◌, slice_get, slice_index_or};
    ghost use Rattle.std.specs.List.{flat_map};
    ghost use Rattle.vx_flow.specs.declared.graph.Graph.{Graph};
    ghost use Rattle.vx_flow.specs.Effects.{writes};
    ghost use Rattle.vx_flow.specs.Operands.{value_list};
    ghost use Rattle.vx_flow.specs.Sound.{results_of_exit};
    ghost use Rattle.vx_flow.specs.Rows.{row_at};
    ghost use Rattle.vx_loops.specs.Noted.{has_call, is_call, is_inside, is_stored, is_written, is_written_once, keeps, stores_of, writes_at, stores_at, calls_at, Notes, NotesOf, TablesOf};

    /// Whether the loop that is looked at writes a value.
    pub fn is_written(&self, value: Value) -> bool
        ensures { result ≡ is_written self.now value }
    {
        match self.writers.get(value as usize) {
            Some(number) => *number == self.number,
            None => true,
        }
    }

    /// Whether it does so at one place.
    pub fn is_written_once(&self, value: Value) -> bool
        ensures { result ≡ is_written_once self.now value }
    {
        match self.times.get(value as usize) {
            Some(times) => *times == 1 && self.is_written(value),
            None => false,
        }
    }

    /// Whether each turn leaves what an operand holds.
    pub fn keeps(&self, operand: Operand) -> bool
        ensures { result ≡ keeps self.now operand }
    {
        match operand {
            Operand::Held(value) => !self.is_written(value),
            _ => true,
        }
    }

    /// Whether a store of the loop that is looked at goes to an array.
    pub fn is_stored(&self, array: ArrayId) -> bool
        ensures { result ≡ is_stored self.now array }
    {
        match self.stores.get(array as usize) {
            Some(number) => *number == self.number,
            None => true,
        }
    }

    /// Whether a block of the loop that is looked at ends by a call.
    pub fn has_call(&self) -> bool
        ensures { result ≡ has_call self.now }
    {
        self.calls == self.number
    }

    /// Whether one edge leads to a block.
    pub fn is_single(&self, block: BlockId) -> bool
        ensures { result ≡ (length (row_at self.now.sources.items block) == 1) }
    {
        self.leading_to(block as usize).len() == 1
    }

    /// The blocks from which edges lead to a block, one for each edge.
    pub fn leading_to(&self, block: usize) -> &[BlockId]
        ensures { result.now ≡ row_at self.now.sources.items block }
    {
        match self.sources.get(block) {
            Some(sources) => sources.as_slice(),
            None => &[],
        }
    }

    /// Whether a block belongs to the loop that is looked at.
    pub fn is_inside(&self, block: usize) -> bool
        ensures { result ≡ is_inside self.now block }
    {
        match self.members.get(block) {
            Some(number) => *number == self.number,
            None => false,
        }
    }

    pub fn rank(&self, block: usize) -> usize
        ensures { result ≡ slice_index_or self.now.ranks.items block (2 ^ 64 - 1) }
    {
        match self.ranks.get(block) {
            Some(rank) => *rank,
            None => usize::MAX,
        }
    }

    /// Goes on to a loop of which nothing is noted.
    pub(crate) fn begin(&mut self)
        ensures number { self.new.number ≤ self.old.number + 1 }
        ensures notes { self.new.number < 2 ^ 64 - 1 → Notes [] [] [] false self.new }
        ensures tables { (g : Graph) → TablesOf g self.old → TablesOf g self.new }
    {
        self.number = self.number.saturating_add(1);
    }

    /// Notes a block that is there and does not belong to the loop yet, with all that it does. Answers whether it is one.
    pub(crate) fn mark(&mut self, blocks: &[Block], block: usize) -> bool
        ensures number { self.new.number ≡ self.old.number }
        ensures tables { (g : Graph) → TablesOf g self.old → TablesOf g self.new }
        ensures notes { (members : List ℕ) → NotesOf blocks.now members self.old → NotesOf blocks.now (members ++ (if result then block ∷ [] else [])) self.new }
    {
        if block < self.members.len() && !self.is_inside(block) {
            self.put_member(block);
            self.mark_found(blocks, block);
            true
        } else {
            false
        }
    }

    fn put_member(&mut self, block: usize)
        requires inside { block < length self.old.members.items }
        requires new { is_inside self.old block ≡ false }
        ensures number { self.new.number ≡ self.old.number }
        ensures tables { (g : Graph) → TablesOf g self.old → TablesOf g self.new }
        ensures notes { (m w s : List ℕ) (c : Bool) → Notes m w s c self.old → Notes (m ++ block ∷ []) w s c self.new }
    {
        self.members[block] = self.number;
    }

    fn mark_found(&mut self, blocks: &[Block], block: usize)
        ensures number { self.new.number ≡ self.old.number }
        ensures tables { (g : Graph) → TablesOf g self.old → TablesOf g self.new }
        ensures notes { (m w s : List ℕ) (c : Bool) → Notes m w s c self.old → Notes m (w ++ writes_at (slice_get blocks.now block)) (s ++ stores_at (slice_get blocks.now block)) (c || calls_at (slice_get blocks.now block)) self.new }
    {
        match blocks.get(block) {
            Some(found) => self.mark_block(found),
            None => {}
        }
    }

    fn mark_block(&mut self, block: &Block)
        ensures number { self.new.number ≡ self.old.number }
        ensures tables { (g : Graph) → TablesOf g self.old → TablesOf g self.new }
        ensures notes { (m w s : List ℕ) (c : Bool) → Notes m w s c self.old → Notes m (w ++ writes_at (Some block.now)) (s ++ stores_at (Some block.now)) (c || calls_at (Some block.now)) self.new }
    {
        self.mark_ops(block.ops.as_slice());
        self.mark_exit(&block.exit);
    }

    fn mark_ops(&mut self, ops: &[Op])
        ensures number { self.new.number ≡ self.old.number }
        ensures tables { (g : Graph) → TablesOf g self.old → TablesOf g self.new }
        ensures notes { (m w s : List ℕ) (c : Bool) → Notes m w s c self.old → Notes m (w ++ flat_map writes ops.now) (s ++ flat_map stores_of ops.now) c self.new }
    {
        for op in ops {
            self.mark_op(*op);
        }
    }

    fn mark_op(&mut self, op: Op)
        ensures number { self.new.number ≡ self.old.number }
        ensures tables { (g : Graph) → TablesOf g self.old → TablesOf g self.new }
        ensures notes { (m w s : List ℕ) (c : Bool) → Notes m w s c self.old → Notes m (w ++ writes op) (s ++ stores_of op) c self.new }
    {
        self.write_some(written_by(&op));
        self.store_some(stored_by(&op));
    }

    fn mark_exit(&mut self, exit: &Exit)
        ensures number { self.new.number ≡ self.old.number }
        ensures tables { (g : Graph) → TablesOf g self.old → TablesOf g self.new }
        ensures notes { (m w s : List ℕ) (c : Bool) → Notes m w s c self.old → Notes m (w ++ results_of_exit exit.now) s (c || is_call exit.now) self.new }
    {
        match exit {
            Exit::Call { result: held, .. } => {
                self.call();
                self.write_some(*held);
            }
            Exit::Goto(_) => {}
            Exit::Split { .. } => {}
            Exit::Return(_) => {}
            Exit::Ends(_) => {}
        }
    }

    fn call(&mut self)
        ensures number { self.new.number ≡ self.old.number }
        ensures tables { (g : Graph) → TablesOf g self.old → TablesOf g self.new }
        ensures notes { (m w s : List ℕ) (c : Bool) → Notes m w s c self.old → Notes m w s true self.new }
    {
        self.calls = self.number;
    }

    fn store_some(&mut self, array: Option<ArrayId>)
        ensures number { self.new.number ≡ self.old.number }
        ensures tables { (g : Graph) → TablesOf g self.old → TablesOf g self.new }
        ensures notes { (m w s : List ℕ) (c : Bool) → Notes m w s c self.old → Notes m w (s ++ value_list array) c self.new }
    {
        match array {
            Some(array) => self.store(array),
            None => {}
        }
    }

    fn write_some(&mut self, value: Option<Value>)
        ensures number { self.new.number ≡ self.old.number }
        ensures tables { (g : Graph) → TablesOf g self.old → TablesOf g self.new }
        ensures notes { (m w s : List ℕ) (c : Bool) → Notes m w s c self.old → Notes m (w ++ value_list value) s c self.new }
    {
        match value {
            Some(value) => self.write(value),
            None => {}
        }
    }

    fn store(&mut self, array: ArrayId)
        ensures number { self.new.number ≡ self.old.number }
        ensures tables { (g : Graph) → TablesOf g self.old → TablesOf g self.new }
        ensures notes { (m w s : List ℕ) (c : Bool) → Notes m w s c self.old → Notes m w (s ++ array ∷ []) c self.new }
    {
        let place = array as usize;
        if place < self.stores.len() {
            self.stores[place] = self.number;
        }
    }

    fn write(&mut self, value: Value)
        ensures number { self.new.number ≡ self.old.number }
        ensures tables { (g : Graph) → TablesOf g self.old → TablesOf g self.new }
        ensures notes { (m w s : List ℕ) (c : Bool) → Notes m w s c self.old → Notes m (w ++ value ∷ []) s c self.new }
    {
        let place = value as usize;
        if place < self.writers.len() {
            let again = self.writers[place] == self.number;
            self.times[place] = once_more(self.times[place], again);
            self.writers[place] = self.number;
        }
    }
}

/// One more than before, or the first.
fn once_more(times: u32, again: bool) -> u32
    ensures { result ≡ counted_again times again }
{
    if again { times.saturating_add(1) } else { 1 }
}
