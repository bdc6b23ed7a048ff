// Whole functions and whole programs. The clause `flow` of `lower` is the promise of this crate: the graphs do what the
// program does, and are sound and well shaped (specs/FlowOf.antt).

ghost use Rattle.std.specs.Prelude.{◌≡◌, ℕ, ◌+◌, ◌*◌, ◌^◌, ◌<◌, ◌≤◌, ◌++◌, length, map, slice_get, true, Some, pos, IfOk, OnOk};
ghost use Rattle.vx_ast.specs.Accepted.{arrays_among, arrays_taken, global_words, is_accepted};
ghost use Rattle.vx_ast.specs.Tree.{Function as AFunction};
ghost use Rattle.vx_ast.specs.View.{function_of, program_of};
ghost use Rattle.vx_flow.specs.declared.graph.Graph.{Graph as AGraph};
ghost use Rattle.vx_flow.specs.Effects.{IsIn};
ghost use Rattle.vx_flow.specs.Sound.{SoundFlow};
ghost use Rattle.vx_lower.specs.Seen.{are_small, array_for, arrays_from};
ghost use Rattle.vx_lower.specs.declared.seen.Seen.TheVariants.{OwnArray};
ghost use Rattle.vx_lower.specs.FlowOf.{FlowOf, RunsAs};
ghost use Rattle.vx_lower.specs.FunctionShape.{BodyWell, GraphWell, GraphsWell};
ghost use Rattle.vx_lower.specs.Graphs.{AllGraphed, Built, Graphed, ShapeOf, beginning};
ghost use Rattle.vx_lower.specs.LoweredGraphs.{NamedByNumber, NoneDismissible};
ghost use Rattle.vx_lower.specs.Lowered.{AllLowered, arrays_seen as all_seen, first_value, global_of as global_in, global_seen, handed_from, values_for};

use crate::builder::Builder;
use crate::seen::Seen;
use crate::sizes::Sizes;
use crate::slots::Slots;
use crate::statements::emit_all;
use crate::trap_blocks::finish;
use std::alloc::Global as Heap;
use vx_ast::tree::{Function, GlobalVariable, Program, Takes};
use vx_ast::typed::Typed;
use vx_base::listed::{Bytes, Listed};
use vx_base::outcome::NoMemory;
use vx_flow::graph::{Array, Bank, Exit, Flow, Global, Graph, Operand, Value};

fn words_of(global: GlobalVariable) -> u32
    ensures { result ≡ global_words global }
{
    match global {
        GlobalVariable::Scalar(_) => 1,
        GlobalVariable::Array(n) => n,
    }
}

fn global_of(global: GlobalVariable) -> Global
    ensures { result ≡ global_in global }
{
    match global {
        GlobalVariable::Scalar(first) => Global { words: 1, first },
        GlobalVariable::Array(words) => Global { words, first: 0 },
    }
}

/// The values of a function are told by 32 bits: whether there is room for those of its scalars and of what it takes.
fn has_room(scalars: u32, takes: usize) -> bool
    ensures room { result ≡ true → scalars + 2 * takes < 2 ^ 32 }
    ensures few { result ≡ true → takes < 2 ^ 30 }
{
    scalars < 0x8000_0000 && takes < 0x4000_0000
}

/// How many arrays a function takes.
fn count_arrays(takes: &[Takes]) -> u32
    requires room { length takes.now < 2 ^ 30 }
    ensures count { result ≡ arrays_among takes.now }
    ensures few { result ≤ length takes.now }
{
    let mut count = 0;
    for take in takes {
        match *take {
            Takes::Number => {}
            Takes::Array => count += 1,
        }
    }
    count
}

/// The arrays that are handed over: where each stands, and how many words it has, is in two values from a first one on.
fn add_handed(arrays: &mut Vec<Seen>, first: u32, count: u32) -> Result<(), NoMemory>
    requires room { first + 2 * count < 2 ^ 32 }
    ensures { OnOk result (arrays.new.items ≡ arrays.old.items ++ handed_from first count) }
{
    for place in 0..count {
        let base = first + 2 * place;
        arrays.push(Seen::Handed {
            base,
            size: base + 1,
        })?;
    }
    Ok(())
}

/// The arrays that a function sees: the globals, those that are handed over to it, and then its own.
fn arrays_seen(
    alloc: Heap,
    globals: &[GlobalVariable],
    first: u32,
    count: u32,
    own: &[u32],
) -> Result<Vec<Seen>, NoMemory>
    requires room { first + 2 * count < 2 ^ 32 }
    ensures { IfOk result (λ arrays. arrays.items ≡ map global_seen globals.now ++ handed_from first count ++ map OwnArray own.now) }
{
    let mut arrays = Vec::new(alloc);
    for global in globals {
        arrays.push(Seen::GlobalArray(words_of(*global)))?;
    }
    add_handed(&mut arrays, first, count)?;
    for words in own {
        arrays.push(Seen::OwnArray(*words))?;
    }
    Ok(arrays)
}

/// The array of a graph that a function sees, named by its place.
fn array_of(seen: Seen, place: u32) -> Array
    ensures { result ≡ array_for place seen }
{
    match seen {
        Seen::GlobalArray(words) => Array {
            words,
            global: true,
            named: place,
            base: None,
        },
        Seen::OwnArray(words) => Array {
            words,
            global: false,
            named: place,
            base: None,
        },
        Seen::Handed { base, size } => Array {
            words: 0,
            global: false,
            named: place,
            base: Some(base),
        },
    }
}

/// The arrays of a graph.
fn arrays_of(alloc: Heap, seen: &[Seen]) -> Result<Listed<Array>, NoMemory>
    ensures { IfOk result (λ arrays. arrays ≡ arrays_from 0 seen.now) }
{
    let mut arrays = Listed::new(alloc);
    for one in seen {
        let place = arrays.len();
        arrays.push(array_of(*one, place as u32))?;
    }
    Ok(arrays)
}

/// The values that hold what is passed to a function.
fn passed_values(alloc: Heap, first: u32, takes: &[Takes]) -> Result<Listed<Value>, NoMemory>
    requires room { first + 2 * length takes.now < 2 ^ 32 }
    ensures { IfOk result (λ values. values ≡ values_for 0 first takes.now) }
{
    let mut values = Listed::new(alloc);
    let mut scalar = 0;
    let mut handed = first;
    for take in takes {
        match *take {
            Takes::Number => {
                values.push(scalar)?;
                scalar += 1;
            }
            Takes::Array => {
                values.push(handed)?;
                values.push(handed + 1)?;
                handed += 2;
            }
        }
    }
    Ok(values)
}

/// A graph of which nothing is made but so many values: its entry is open.
fn begin(alloc: Heap, values: u32) -> Result<Builder, NoMemory>
    ensures { IfOk result (λ b. b ≡ beginning values) }
{
    let mut blocks = Slots::new(alloc);
    blocks.push(None)?;
    let banks = vec![in alloc; Bank::General; values as usize]?;
    Ok(Builder {
        blocks,
        current: 0,
        ops: Listed::new(alloc),
        banks: Listed::from_vec(banks)?,
    })
}

/// The blocks of a function, which begins with so many values. The last that is open returns 0, and none is open then.
fn build(
    alloc: Heap,
    words: &Sizes,
    texts: &mut Listed<Bytes>,
    f: &Function,
    values: u32,
) -> Result<Builder, NoMemory>
    ensures code { IfOk result (λ b. values ≡ first_value (function_of f.now) → Built words.now (function_of f.now) b texts.old texts.new) }
    ensures fits { IfOk result (λ b. values ≡ first_value (function_of f.now) → BodyWell words.now (function_of f.now) b texts.new) }
{
    let mut b = begin(alloc, values)?;
    emit_all(&mut b, alloc, words, texts, f.body.as_slice(), None, None)?;
    let place = b.current;
    b.close(alloc, Exit::Return(Operand::Number(0)), place);
    Ok(b)
}

/// The graph of a function, of which so many parameters are arrays.
fn lower_sized(
    alloc: Heap,
    source: &Program,
    texts: &mut Listed<Bytes>,
    f: &Function,
    count: u32,
) -> Result<Graph, NoMemory>
    requires small { are_small (all_seen (program_of source.now) (function_of f.now)) ≡ true }
    requires count { count ≡ arrays_taken (function_of f.now) }
    requires room { f.now.scalars + 2 * length f.now.takes < 2 ^ 32 }
    requires pairs { f.now.scalars + 2 * count < 2 ^ 32 }
    ensures code { IfOk result (λ g. Graphed (program_of source.now) (function_of f.now) g texts.old texts.new) }
    ensures fits { IfOk result (λ g. GraphWell (program_of source.now) (function_of f.now) g texts.new) }
{
    let seen = arrays_seen(
        alloc,
        source.globals.as_slice(),
        f.scalars,
        count,
        f.arrays.as_slice(),
    )?;
    let arrays = arrays_of(alloc, seen.as_slice())?;
    let parameters = passed_values(alloc, f.scalars, f.takes.as_slice())?;
    let sizes = Sizes::make(f.scalars, seen);
    let built = build(alloc, &sizes, texts, f, f.scalars + 2 * count)?;
    let banks = built.banks;
    let blocks = finish(alloc, built.blocks)?;
    Ok(Graph {
        blocks,
        banks,
        parameters,
        arrays,
    })
}

/// The graph of a function.
fn lower_function(
    alloc: Heap,
    source: &Program,
    texts: &mut Listed<Bytes>,
    f: &Function,
) -> Result<Graph, NoMemory>
    requires small { are_small (all_seen (program_of source.now) (function_of f.now)) ≡ true }
    ensures code { IfOk result (λ g. Graphed (program_of source.now) (function_of f.now) g texts.old texts.new) }
    ensures fits { IfOk result (λ g. GraphWell (program_of source.now) (function_of f.now) g texts.new) }
{
    let takes = f.takes.as_slice();
    if !has_room(f.scalars, takes.len()) {
        return Err(NoMemory);
    }
    let count = count_arrays(takes);
    lower_sized(alloc, source, texts, f, count)
}

fn lower_globals(alloc: Heap, globals: &[GlobalVariable]) -> Result<Listed<Global>, NoMemory>
    ensures { IfOk result (λ all. all ≡ map global_in globals.now) }
{
    let mut all = Listed::new(alloc);
    for global in globals {
        all.push(global_of(*global))?;
    }
    Ok(all)
}

fn lower_functions(
    alloc: Heap,
    source: &Program,
    texts: &mut Listed<Bytes>,
) -> Result<Listed<Graph>, NoMemory>
    requires accepted { is_accepted (program_of source.now) ≡ true }
    ensures code { IfOk result (λ graphs. AllGraphed (program_of source.now) (program_of source.now).functions graphs texts.old texts.new) }
    ensures fits { IfOk result (λ graphs. GraphsWell (program_of source.now) (program_of source.now).functions graphs texts.new) }
{
    let mut graphs = Listed::new(alloc);
    for f in source.functions.as_slice() {
        let graph = lower_function(alloc, source, texts, f)?;
        graphs.push(graph)?;
    }
    Ok(graphs)
}

/// The graphs of a program that is accepted.
fn lower_program(alloc: Heap, source: &Program) -> Result<Flow, NoMemory>
    requires accepted { is_accepted (program_of source.now) ≡ true }
    ensures lowered { IfOk result (λ flow. AllLowered (program_of source.now) flow) }
    ensures shapes { IfOk result (λ flow. (i : ℕ) (f : AFunction) (g : AGraph) → slice_get (program_of source.now).functions i ≡ Some f → slice_get flow.functions i ≡ Some g → ShapeOf (program_of source.now) f g) }
    ensures fits { IfOk result (λ flow. GraphsWell (program_of source.now) (program_of source.now).functions flow.functions flow.texts) }
{
    let globals = lower_globals(alloc, source.globals.as_slice())?;
    let mut texts = Listed::new(alloc);
    let functions = lower_functions(alloc, source, &mut texts)?;
    Ok(Flow {
        functions,
        globals,
        texts,
        main: source.main,
    })
}

/// The graphs of an accepted program: one for each function, in their order.
pub fn lower(alloc: Heap, program: &Typed) -> Result<Flow, NoMemory>
    ensures runs { IfOk result (λ flow. RunsAs (program_of program.now.program) flow) }
    ensures globals { IfOk result (λ flow. map (λ global. global.words) flow.globals ≡ map global_words program.now.program.globals) }
    ensures count { IfOk result (λ flow. length flow.functions ≡ length (program_of program.now.program).functions) }
    ensures graphs { IfOk result (λ flow. (i : ℕ) (f : AFunction) (g : AGraph) → slice_get (program_of program.now.program).functions i ≡ Some f → slice_get flow.functions i ≡ Some g → ShapeOf (program_of program.now.program) f g) }
    ensures flow { IfOk result (λ flow. FlowOf (program_of program.now.program) flow) }
    ensures sound { IfOk result SoundFlow }
    ensures named { IfOk result (λ flow. (g : AGraph) → IsIn g flow.functions → NamedByNumber g) }
    ensures loads { IfOk result (λ flow. (g : AGraph) → IsIn g flow.functions → NoneDismissible g) }
{
    let flow = lower_program(alloc, &program.program)?;
    Ok(flow)
}
