// The values that operations and exits name, one after the other, for whoever does the same with each of them.

use vx_base::outcome::NoMemory;
use vx_flow::graph::{Exit, Op, Operand, Value};
use vx_flow::operands::{held_by, read_by};

/// What is done with a value.
pub trait Visit {
    /// Does it.
    fn visit(&mut self, value: Value) -> Result<(), NoMemory>;
}

/// Does it with a value, if there is one.
fn visit_if<V: Visit>(visitor: &mut V, value: Option<Value>) -> Result<(), NoMemory> {
    match value {
        Some(value) => visitor.visit(value),
        None => Ok(()),
    }
}

/// Does it with each value that an operation reads.
pub(crate) fn visit_reads<V: Visit>(visitor: &mut V, op: &Op) -> Result<(), NoMemory> {
    let reads = read_by(op);
    visit_if(visitor, reads.first)?;
    visit_if(visitor, reads.second)?;
    visit_if(visitor, reads.third)
}

/// Does it with each value that an exit reads.
pub(crate) fn visit_exit<V: Visit>(visitor: &mut V, exit: &Exit) -> Result<(), NoMemory> {
    match exit {
        Exit::Split { test, .. } => visitor.visit(*test),
        Exit::Call { arguments, .. } => visit_operands(visitor, arguments.as_slice()),
        Exit::Return(operand) => visit_if(visitor, held_by(operand)),
        Exit::Goto(_) | Exit::Ends(_) => Ok(()),
    }
}

fn visit_operands<V: Visit>(visitor: &mut V, operands: &[Operand]) -> Result<(), NoMemory> {
    for operand in operands {
        visit_if(visitor, held_by(operand))?;
    }
    Ok(())
}
