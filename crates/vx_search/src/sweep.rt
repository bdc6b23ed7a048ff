// One sweep over the blocks of a graph: where values lie at the start of each block and what their low bits are, by what its
// predecessors give. What no run comes to is not gone over: where a test is decided, only one side is led to.

use crate::search::block_number;
use vx_base::arithmetic::{Code, Compare};
use vx_claims::intervals::{
    Interval, bit, compare_decided, full, left_within, meet, opposite, result_residue,
    result_within, right_within, times_if,
};
use vx_claims::known::{Sight, together};
use vx_claims::residues::{exactly, joined, unknown};
use vx_flow::graph::{Block, BlockId, Exit, Op, Operand, Value};
use vx_flow::live_rows::Live;
use vx_flow::operands::{is_value, written_by};

/// What is noted of a block.
#[derive(Clone, Copy)]
pub struct Mark {
    /// Where its row begins.
    pub start: usize,
    /// Its place in the order.
    pub rank: usize,
    /// The last sweep in which a block before it led to it; 0 where none did.
    pub forward: u32,
    /// The last sweep in which another block did; 0 where none did.
    pub back: u32,
    /// The last sweep in which it was gone over; 0 where there is none.
    pub seen: u32,
}

/// What is known of a value that is live at the start of a block. What has no number has the ends of its interval exchanged.
#[derive(Clone, Copy)]
pub struct Cell {
    /// By the blocks before it.
    pub forward: Sight,
    /// By the other blocks that lead to it.
    pub back: Sight,
    /// What those are taken to give.
    pub taken: Sight,
    /// By all of them.
    pub start: Sight,
}

/// What is known of a value in the block that has this stamp.
#[derive(Clone, Copy)]
pub struct Seen {
    pub sight: Sight,
    pub stamp: u32,
}

/// Where values lie.
#[derive(Drop)]
pub struct Tables {
    /// The blocks.
    pub marks: Vec<Mark>,
    /// Their rows, one behind the other, with a cell for each value that is live at the start of the block.
    pub cells: Vec<Cell>,
    /// The values, as they are seen in the block that is looked at.
    pub values: Vec<Seen>,
    /// The stamp of that block.
    pub stamp: u32,
    /// The number of the sweep.
    pub number: u32,
}

/// What a side of a split says of the operands of its test.
#[derive(Clone, Copy)]
struct Side {
    left: Operand,
    left_within: Interval,
    right: Operand,
    right_within: Interval,
}

/// A compare whose answer a test holds.
#[derive(Clone, Copy)]
struct Tested {
    compare: Compare,
    left: Operand,
    right: Operand,
}

/// No number.
pub(crate) fn none() -> Interval {
    Interval {
        low: i32::MAX,
        high: i32::MIN,
    }
}

/// What is known of no number.
pub(crate) fn nowhere() -> Sight {
    Sight {
        within: none(),
        residue: unknown(),
    }
}

/// Nothing but that a number lies in an interval.
pub(crate) fn lying(within: Interval) -> Sight {
    together(Sight {
        within,
        residue: unknown(),
    })
}

/// A cell of which nothing is known.
pub(crate) fn unknown_cell() -> Cell {
    Cell {
        forward: nowhere(),
        back: nowhere(),
        taken: nowhere(),
        start: anything(),
    }
}

/// What is known where nothing is.
pub(crate) fn anything() -> Sight {
    Sight {
        within: full(),
        residue: unknown(),
    }
}

/// A value that no block has seen.
pub(crate) fn unseen() -> Seen {
    Seen {
        sight: anything(),
        stamp: 0,
    }
}

/// The cell at a place.
pub(crate) fn cell_at(cells: &[Cell], place: usize) -> Cell {
    match cells.get(place) {
        Some(cell) => *cell,
        None => unknown_cell(),
    }
}

/// Puts a cell at a place, if there is such a place.
pub(crate) fn put_cell(cells: &mut Vec<Cell>, place: usize, cell: Cell) {
    if place < cells.len() {
        cells[place] = cell;
    }
}

fn sight(tables: &Tables, value: Value) -> Sight {
    match tables.values.get(value as usize) {
        Some(seen) => {
            if seen.stamp == tables.stamp {
                seen.sight
            } else {
                anything()
            }
        }
        None => anything(),
    }
}

fn sight_of(tables: &Tables, operand: Operand) -> Sight {
    match operand {
        Operand::Held(value) => sight(tables, value),
        Operand::Number(number) => Sight {
            within: Interval {
                low: number,
                high: number,
            },
            residue: exactly(number),
        },
        Operand::Stack => anything(),
    }
}

fn put_sight(tables: &mut Tables, value: Value, sight: Sight) {
    let place = value as usize;
    if place < tables.values.len() {
        tables.values[place] = Seen {
            sight,
            stamp: tables.stamp,
        };
    }
}

/// Goes over all blocks in an order. Sweeps have ascending numbers from 1 on.
pub(crate) fn sweep(
    tables: &mut Tables,
    order: &[BlockId],
    blocks: &[Block],
    live: &Live,
    number: u32,
) {
    let last = tables.number;
    tables.number = number;
    for place in order {
        match blocks.get(*place as usize) {
            Some(block) => {
                if is_led_to(tables, *place as usize, last) {
                    visit(tables, *place as usize, block, live, number);
                }
            }
            None => {}
        }
    }
}

/// Whether a block that was gone over leads to a block: in this sweep, or back to it from the last one on. The entry counts as one.
fn is_led_to(tables: &Tables, place: usize, last: u32) -> bool {
    match tables.marks.get(place) {
        Some(mark) => {
            place == 0 || mark.forward == tables.number || (mark.back > 0 && mark.back >= last)
        }
        None => false,
    }
}

/// Whether the blocks that were gone over in the last sweep are those to which blocks before them led, so that they are gone over again
/// in the next one.
pub(crate) fn is_steady(tables: &Tables) -> bool {
    for (place, mark) in tables.marks.iter().enumerate() {
        let is_seen = mark.seen == tables.number;
        let is_led_to = place == 0 || mark.forward == tables.number;
        if is_seen && !is_led_to || mark.back == tables.number && !is_seen {
            return false;
        }
    }
    true
}

fn visit(tables: &mut Tables, place: usize, block: &Block, live: &Live, number: u32) {
    tables.stamp = tables.stamp.wrapping_add(1);
    if place < tables.marks.len() {
        tables.marks[place].seen = number;
    }
    begin(tables, place, live, number);
    for_ops(tables, block.ops.as_slice());
    leave(tables, place, block, live, number);
}

/// What holds at the start of a block: at the entry what is given.
fn begin(tables: &mut Tables, block: usize, live: &Live, number: u32) {
    if block >= tables.marks.len() {
        return;
    }
    let mark = tables.marks[block];
    for (index, value) in live.values_at(block_number(block)).iter().enumerate() {
        let place = mark.start.saturating_add(index);
        if block != 0 {
            put_start(&mut tables.cells, place, mark.forward == number);
        }
        let start = start_at(tables.cells.as_slice(), place);
        put_sight(tables, *value, start);
    }
}

/// Puts what is known at the start of a block by all that lead to it, where a block before it does.
fn put_start(cells: &mut Vec<Cell>, place: usize, is_led_to: bool) {
    if place < cells.len() {
        cells[place].start = if is_led_to {
            together(either(cells[place].forward, cells[place].taken))
        } else {
            anything()
        };
    }
}

/// What is known at the start of a block.
pub(crate) fn start_at(cells: &[Cell], place: usize) -> Sight {
    match cells.get(place) {
        Some(cell) => cell.start,
        None => anything(),
    }
}

fn for_ops(tables: &mut Tables, ops: &[Op]) {
    for op in ops {
        step(tables, *op);
    }
}

fn step(tables: &mut Tables, op: Op) {
    match op {
        Op::Compute {
            code,
            to,
            left,
            right,
        } => {
            let given = result_of(code, sight_of(tables, left), sight_of(tables, right));
            put_sight(tables, to, given);
        }
        Op::Place { to, index, .. } => {
            let within = times_if(true, sight_of(tables, index).within, 4);
            put_sight(tables, to, lying(within));
        }
        Op::More { to } => put_sight(tables, to, lying(bit())),
        _ => match written_by(&op) {
            Some(to) => put_sight(tables, to, anything()),
            None => {}
        },
    }
}

fn result_of(code: Code, first: Sight, second: Sight) -> Sight {
    together(Sight {
        within: result_within(code, first.within, second.within),
        residue: result_residue(
            code,
            first.within,
            second.within,
            first.residue,
            second.residue,
        ),
    })
}

/// Leads from the end of a block to the blocks behind it.
fn leave(tables: &mut Tables, from: usize, block: &Block, live: &Live, number: u32) {
    match &block.exit {
        Exit::Goto(next) => lead(tables, live, from, *next, nothing(), number),
        Exit::Split { test, yes, no } => {
            let tested = compare_of(block.ops.as_slice(), *test);
            let answer = answer_of(tables, tested);
            let first = side_of(tables, tested, true);
            let second = side_of(tables, tested, false);
            if may_be(answer, true) {
                lead(tables, live, from, *yes, first, number);
            }
            if may_be(answer, false) {
                lead(tables, live, from, *no, second, number);
            }
        }
        Exit::Call {
            result: held,
            next,
            ..
        } => {
            match held {
                Some(value) => put_sight(tables, *value, anything()),
                None => {}
            }
            lead(tables, live, from, *next, nothing(), number);
        }
        _ => {}
    }
}

/// The compare whose answer a test holds behind operations, where its operands hold the same still.
fn compare_of(ops: &[Op], test: Value) -> Option<Tested> {
    let mut found = None;
    for op in ops {
        found = tested_after(found, test, *op);
    }
    found
}

fn tested_after(before: Option<Tested>, test: Value, op: Op) -> Option<Tested> {
    match op {
        Op::Compute {
            code: Code::ToBranch(compare),
            to,
            left,
            right,
        } => {
            if to == test {
                Some(Tested {
                    compare,
                    left,
                    right,
                })
            } else {
                before
            }
        }
        _ => match written_by(&op) {
            Some(to) => kept(before, to),
            None => before,
        },
    }
}

/// The compare, where it does not read the value.
fn kept(before: Option<Tested>, value: Value) -> Option<Tested> {
    match before {
        Some(tested) => {
            if is_value(value, &tested.left) || is_value(value, &tested.right) {
                None
            } else {
                before
            }
        }
        None => None,
    }
}

/// How a test comes out, where it always comes out so.
fn answer_of(tables: &Tables, tested: Option<Tested>) -> Option<bool> {
    match tested {
        Some(found) => compare_decided(
            found.compare,
            sight_of(tables, found.left).within,
            sight_of(tables, found.right).within,
        ),
        None => None,
    }
}

/// Whether a test may come out so.
fn may_be(answer: Option<bool>, side: bool) -> bool {
    match answer {
        Some(always) => always == side,
        None => true,
    }
}

fn nothing() -> Side {
    Side {
        left: Operand::Stack,
        left_within: full(),
        right: Operand::Stack,
        right_within: full(),
    }
}

fn side_of(tables: &Tables, tested: Option<Tested>, answer: bool) -> Side {
    match tested {
        Some(found) => {
            let compare = if answer {
                found.compare
            } else {
                opposite(found.compare)
            };
            let left_range = sight_of(tables, found.left).within;
            let right_range = sight_of(tables, found.right).within;
            Side {
                left: found.left,
                left_within: left_within(compare, left_range, right_range),
                right: found.right,
                right_within: right_within(compare, left_range, right_range),
            }
        }
        None => nothing(),
    }
}

/// What is known of a value on a side.
fn sight_on(tables: &Tables, side: Side, value: Value) -> Sight {
    let mut seen = sight(tables, value);
    if is_value(value, &side.right) {
        seen = narrower(side.right_within, seen);
    }
    if is_value(value, &side.left) {
        seen = narrower(side.left_within, seen);
    }
    seen
}

/// What is known besides where a number lies in an interval too.
fn narrower(within: Interval, seen: Sight) -> Sight {
    together(Sight {
        within: meet(within, seen.within),
        residue: seen.residue,
    })
}

/// Leads to a block, with what a side says.
fn lead(tables: &mut Tables, live: &Live, from: usize, to: BlockId, side: Side, number: u32) {
    let block = to as usize;
    if block >= tables.marks.len() {
        return;
    }
    let mark = tables.marks[block];
    let values = live.values_at(to);
    if mark.rank <= rank_of(tables, from) {
        tables.marks[block].back = number;
        lead_back(tables, mark.start, values, side, mark.back == number);
    } else {
        tables.marks[block].forward = number;
        lead_forward(tables, mark.start, values, side, mark.forward == number);
    }
}

fn rank_of(tables: &Tables, block: usize) -> usize {
    match tables.marks.get(block) {
        Some(mark) => mark.rank,
        None => 0,
    }
}

fn lead_back(tables: &mut Tables, start: usize, values: &[Value], side: Side, joins: bool) {
    for (index, value) in values.iter().enumerate() {
        let place = start.saturating_add(index);
        let sight = sight_on(tables, side, *value);
        if place < tables.cells.len() {
            tables.cells[place].back = if joins {
                either(tables.cells[place].back, sight)
            } else {
                sight
            };
        }
    }
}

fn lead_forward(tables: &mut Tables, start: usize, values: &[Value], side: Side, joins: bool) {
    for (index, value) in values.iter().enumerate() {
        let place = start.saturating_add(index);
        let sight = sight_on(tables, side, *value);
        if place < tables.cells.len() {
            tables.cells[place].forward = if joins {
                either(tables.cells[place].forward, sight)
            } else {
                sight
            };
        }
    }
}

/// The least interval that has both.
pub(crate) fn hull(i: Interval, j: Interval) -> Interval {
    Interval {
        low: i.low.min(j.low),
        high: i.high.max(j.high),
    }
}

/// What is known of a number of which one of two is.
pub(crate) fn either(first: Sight, second: Sight) -> Sight {
    if is_none(first) {
        second
    } else if is_none(second) {
        first
    } else {
        Sight {
            within: hull(first.within, second.within),
            residue: joined(first.residue, second.residue),
        }
    }
}

/// Whether there is no such number.
pub(crate) fn is_none(sight: Sight) -> bool {
    sight.within.low > sight.within.high
}
