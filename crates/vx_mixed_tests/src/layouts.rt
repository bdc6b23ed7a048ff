// Small layouts.

use std::alloc::Global;
use vx_base::arithmetic::Code;
use vx_base::listed::Listed;
use vx_base::outcome::NoMemory;
use vx_flow::graph::{Bank, Op, Operand};
use vx_flow::trace::Homes;
use vx_mixed::layout::{Laid, VWords, VirtualWord};

fn push_word(
    alloc: Global,
    words: &mut Listed<VirtualWord>,
    number: u32,
    op: Op,
) -> Result<(), NoMemory> {
    let mut items = Listed::new(alloc);
    items.push(Laid::Plain { op, cluster: 0 })?;
    words.push(VirtualWord::Planned {
        region: 0,
        word: number,
        items,
    })?;
    Ok(())
}

/// A call of function 0 with v4 that gives v0.
fn push_call(alloc: Global, words: &mut Listed<VirtualWord>) -> Result<(), NoMemory> {
    let mut arguments = Listed::new(alloc);
    arguments.push(Operand::Held(4))?;
    words.push(VirtualWord::Call {
        function: 0,
        arguments,
        result: Some(0),
    })?;
    Ok(())
}

fn fill_few(alloc: Global, layout: &mut VWords) -> Result<(), NoMemory> {
    let sum = Op::Compute {
        code: Code::Add,
        to: 3,
        left: Operand::Held(1),
        right: Operand::Held(2),
    };
    push_word(alloc, &mut layout.words, 0, sum)?;
    push_call(alloc, &mut layout.words)?;
    layout.words.push(VirtualWord::Return(Operand::Held(3)))?;
    push_banks(&mut layout.banks, 8)
}

fn fill_many(alloc: Global, layout: &mut VWords) -> Result<(), NoMemory> {
    for value in 0..40 {
        push_word(alloc, &mut layout.words, value, Op::Input { to: value })?;
    }
    for value in 0..40 {
        let from = Operand::Held(39 - value);
        push_word(alloc, &mut layout.words, 40 + value, Op::Decimal { from })?;
    }
    layout.words.push(VirtualWord::Return(Operand::Number(0)))?;
    push_banks(&mut layout.banks, 40)
}

fn push_banks(banks: &mut Listed<Bank>, values: u32) -> Result<(), NoMemory> {
    for _ in 0..values {
        banks.push(Bank::General)?;
    }
    Ok(())
}

fn no_words(alloc: Global) -> VWords {
    VWords {
        banks: Listed::new(alloc),
        homes: Homes {
            clusters: Listed::new(alloc),
        },
        words: Listed::new(alloc),
        entry: 0,
        regions: 1,
    }
}

/// v3 = v1 + v2, a call with v4 that gives v0, and a return of v3.
pub(crate) fn few(alloc: Global) -> Result<VWords, NoMemory> {
    let mut layout = no_words(alloc);
    fill_few(alloc, &mut layout)?;
    Ok(layout)
}

/// Forty words that write the values 0 to 39, forty that print them from the last to the first, and a return.
pub(crate) fn many(alloc: Global) -> Result<VWords, NoMemory> {
    let mut layout = no_words(alloc);
    fill_many(alloc, &mut layout)?;
    Ok(layout)
}
