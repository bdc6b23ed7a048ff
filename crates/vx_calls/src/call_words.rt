// The words of calls, returns, entries and of a program's start.

ghost use Rattle.std.specs.Prelude.{◌≡◌, ◌≤◌, ◌++◌, ◌∷◌, ◌+◌, ◌==◌, ◌&&◌, [], neg_ℤ, pos, true, false, drop, length, Some, IfOk};
ghost use Rattle.vx_base.specs.declared.arithmetic.Code.TheVariants.{Add, ToBranch};
ghost use Rattle.vx_base.specs.declared.arithmetic.Compare.TheVariants.{Ltu};
ghost use Rattle.vx_isa.specs.Fits.{fits};
ghost use Rattle.vx_isa.specs.declared.operation.Operation.TheVariants.{BranchOn, Call, Compute, Load, Move, ToLink};
ghost use Rattle.vx_isa.specs.declared.operation.Register.TheVariants.{Branch as InBranch, General as InGeneral};
ghost use Rattle.vx_isa.specs.declared.operation.Source.TheVariants.{Held, Number};
ghost use Rattle.vx_target.specs.Target.{bytes, general, one, pause, together, settled, stack_on, on_clusters, parameters_of, first_frame, fetch_words, fetched, cluster_of_operand, passes, is_none, argument_words, result_words, save_words, reload_words, stack_steps, move_stack, leave_or_lower, call_words, back_words, leave_words, return_words, way, link_words, begin_words, entry_words, wanted, set_stack, start_words, load_slots};
ghost use Rattle.vx_slots.specs.Seen.{seen};

use crate::lookups::{brought, entered_at, entry, is_caller, parameters, saved};
use crate::pauses::wanted;
use std::alloc::Global;
use vx_base::arithmetic::{Code, Compare};
use vx_base::listed::{Listed, copied};
use vx_base::outcome::NoMemory;
use vx_base::sizes::sum;
use vx_flow::graph::{Operand, Value};
use vx_isa::operation::{BranchRegister, GeneralRegister, Operation, Register, Source};
use vx_isa::program::Word;
use vx_machine::{Machine, fits};
use vx_slots::numbers::{DEEPEST, bytes};
use vx_slots::program::{Whole, slot, start};
use vx_slots::registers::{general, general_of, home, is_slotted, stack_on};
use vx_slots::transfers::{
    answer, load_slot, load_slots, named_by, push_last, push_one, push_pause, push_settled,
    push_settled_two, push_settled_word, push_wait, store_slots, words_from,
};
use vx_slots::ways::{follows, past};

/// The register by which the link goes to and from its frame.
fn link_scratch() -> GeneralRegister
    ensures { result ≡ general 0 3 }
{
    general(0, 3)
}

/// The stack pointer of a cluster, so many bytes on.
fn stack_step(cluster: u32, step: i32) -> Operation
    ensures { result ≡ Compute cluster Add (InGeneral (stack_on cluster)) (Held (stack_on cluster)) (Number step) }
{
    Operation::Compute {
        cluster,
        code: Code::Add,
        to: Register::General(stack_on(cluster)),
        left: Source::Held(stack_on(cluster)),
        right: Source::Number(step),
    }
}

/// The operations that move the stack pointer of every cluster by so many bytes, behind others.
fn stack_steps(
    alloc: Global,
    first: &[Operation],
    clusters: u32,
    step: i32,
) -> Result<Listed<Operation>, NoMemory>
    ensures { IfOk result (λ ops. ops ≡ first.now ++ on_clusters clusters (λ k. Compute k Add (InGeneral (stack_on k)) (Held (stack_on k)) (Number step))) }
{
    let mut ops = copied(alloc, first)?;
    for cluster in 0..clusters {
        ops.push(stack_step(cluster, step))?;
    }
    Ok(ops)
}

/// Moves the stack pointer of every cluster by so many bytes.
fn move_stack(
    alloc: Global,
    whole: &Whole,
    step: i32,
    words: &mut Listed<Word>,
) -> Result<(), NoMemory>
    ensures { IfOk result (λ _. words.new ≡ words.old ++ move_stack (seen whole.now) step) }
{
    let ops = stack_steps(alloc, &[], whole.machine.clusters(), step)?;
    push_settled_word(alloc, whole, Word { ops, idle: 0 }, words)
}

/// Saves values in their slots, from their own registers.
fn save(
    alloc: Global,
    whole: &Whole,
    function: u32,
    values: &[Value],
    words: &mut Listed<Word>,
) -> Result<(), NoMemory>
    ensures { IfOk result (λ _. words.new ≡ words.old ++ save_words (seen whole.now) function values.now) }
{
    store_slots(alloc, whole, function, values, values, words)
}

/// Adds the pause that words from a place on ask for, which bring values to their registers, where the way from one place of the
/// layout leads to another.
fn push_wanted(
    alloc: Global,
    whole: &Whole,
    function: u32,
    next: Option<u32>,
    to: u32,
    values: &[Value],
    begin: usize,
    words: &mut Listed<Word>,
) -> Result<(), NoMemory>
    requires { begin ≤ length words.old }
    ensures { IfOk result (λ _. words.new ≡ words.old ++ pause (wanted (seen whole.now) function next to values.now (drop begin words.old))) }
{
    let cycles = wanted(
        whole,
        function,
        next,
        to,
        values,
        words_from(words.as_slice(), begin),
    )?;
    push_pause(alloc, cycles, words)
}

/// Brings values back from their slots to their own registers, in front of a place.
fn reload(
    alloc: Global,
    whole: &Whole,
    function: u32,
    to: u32,
    values: &[Value],
    words: &mut Listed<Word>,
) -> Result<(), NoMemory>
    ensures { IfOk result (λ _. words.new ≡ words.old ++ reload_words (seen whole.now) function to values.now) }
{
    let begin = words.len();
    load_slots(alloc, whole, function, values, values, words)?;
    push_wanted(alloc, whole, function, None, to, values, begin, words)
}

/// Brings a value that is in a slot to a scratch register, from a frame so many words above the stack pointer.
fn fetch(
    alloc: Global,
    whole: &Whole,
    function: u32,
    up: u32,
    operand: Operand,
    words: &mut Listed<Word>,
) -> Result<(), NoMemory>
    ensures { IfOk result (λ _. words.new ≡ words.old ++ fetch_words (seen whole.now) function up operand) }
{
    match operand {
        Operand::Held(value) => {
            if is_slotted(whole, function, value) {
                let names = [value];
                let to = named_by(whole, function, &names, value)?;
                let begin = words.len();
                load_slot(alloc, whole, function, up, value, to, words)?;
                push_wait(alloc, whole, begin, words)
            } else {
                Ok(())
            }
        }
        Operand::Number(_) => Ok(()),
        Operand::Stack => Ok(()),
    }
}

/// What was fetched, as a source.
fn fetched(whole: &Whole, function: u32, operand: Operand) -> Source
    ensures { result ≡ fetched (seen whole.now) function operand }
{
    match operand {
        Operand::Held(value) => {
            let names = [value];
            Source::Held(general_of(whole, function, &names, value))
        }
        Operand::Number(number) => Source::Number(number),
        Operand::Stack => Source::Number(0),
    }
}

/// The cluster on which an operand is read.
fn cluster_of(whole: &Whole, function: u32, operand: Operand) -> u32
    ensures { result ≡ cluster_of_operand (seen whole.now) function operand }
{
    match operand {
        Operand::Held(value) => home(whole, function, value),
        Operand::Number(_) => 0,
        Operand::Stack => 0,
    }
}

/// The store of an argument into the slot of its parameter.
fn pass(
    whole: &Whole,
    function: u32,
    called: u32,
    parameter: Value,
    argument: Operand,
) -> Result<Operation, NoMemory>
    ensures { IfOk result (λ store. store ≡ passes (seen whole.now) function called parameter argument) }
{
    let cluster = cluster_of(whole, function, argument);
    let offset = bytes(slot(whole, called, parameter))?;
    Ok(Operation::Store {
        cluster,
        offset,
        base: stack_on(cluster),
        from: fetched(whole, function, argument),
    })
}

/// The call of a function.
fn call_of(whole: &Whole, called: u32) -> Operation
    ensures { result ≡ Call ((seen whole.now).entry called) }
{
    Operation::Call {
        target: entry(whole, called),
    }
}

/// A word of a store and a call.
fn store_and_call(alloc: Global, store: Operation, call: Operation) -> Result<Word, NoMemory>
    ensures { IfOk result (λ word. word ≡ record { ops = store ∷ call ∷ []; idle = 0 }) }
{
    let ops = copied(alloc, &[store, call])?;
    Ok(Word { ops, idle: 0 })
}

/// Whether no argument is left, and a machine has room for a word of a store and a call.
#[tactic(auto, using(crate::proofs::CallSteps::none_is))]
fn is_last(machine: &Machine, more: &[Value], word: &Word) -> bool
    ensures { result ≡ is_none more.now && fits machine.now word.now.ops }
{
    more.is_empty() && fits(machine, word)
}

/// Each argument into the slot of its parameter, in the frame of the function that is called, and the call; the last argument is stored
/// in the word of the call, if the machine has room for both.
fn pass_all(
    alloc: Global,
    whole: &Whole,
    function: u32,
    called: u32,
    parameters: &[Value],
    arguments: &[Operand],
    words: &mut Listed<Word>,
) -> Result<(), NoMemory>
    ensures { IfOk result (λ _. words.new ≡ words.old ++ argument_words (seen whole.now) function called parameters.now arguments.now) }
{
    match parameters.split_first() {
        None => push_one(alloc, call_of(whole, called), words),
        Some((parameter, parameters)) => match arguments.split_first() {
            None => push_one(alloc, call_of(whole, called), words),
            Some((argument, arguments)) => {
                fetch(alloc, whole, function, whole.sizes.frame, *argument, words)?;
                let store = pass(whole, function, called, *parameter, *argument)?;
                let word = store_and_call(alloc, store, call_of(whole, called))?;
                if is_last(whole.machine, parameters, &word) {
                    words.push(word)?;
                    return Ok(());
                }
                push_one(alloc, store, words)?;
                pass_all(alloc, whole, function, called, parameters, arguments, words)
            }
        },
    }
}

/// The result of a call to where it is kept; one on another cluster goes across first.
fn take_result(
    alloc: Global,
    whole: &Whole,
    function: u32,
    taken: Option<Value>,
    words: &mut Listed<Word>,
) -> Result<(), NoMemory>
    ensures { IfOk result (λ _. words.new ≡ words.old ++ result_words (seen whole.now) function taken) }
{
    let Some(value) = taken else {
        return Ok(());
    };
    if is_slotted(whole, function, value) {
        let store = Operation::Store {
            cluster: 0,
            offset: bytes(slot(whole, function, value))?,
            base: stack_on(0),
            from: Source::Held(answer()),
        };
        return push_one(alloc, store, words);
    }
    let names = [value];
    let copy = Operation::Move {
        cluster: home(whole, function, value),
        to: general_of(whole, function, &names, value),
        from: Source::Held(answer()),
    };
    push_settled(alloc, whole, copy, words)
}

/// The test by which a stack pointer that is one frame too low is told.
fn depth_test(least: i32) -> Operation
    ensures { result ≡ Compute 0 (ToBranch Ltu) (InBranch (record { cluster = 0; number = 0 })) (Held (stack_on 0)) (Number least) }
{
    Operation::Compute {
        cluster: 0,
        code: Code::ToBranch(Compare::Ltu),
        to: Register::Branch(BranchRegister {
            cluster: 0,
            number: 0,
        }),
        left: Source::Held(stack_on(0)),
        right: Source::Number(least),
    }
}

/// Tests that the frame of a function that is called does not begin below the end of the globals, while values are saved.
fn test_and_save(
    alloc: Global,
    whole: &Whole,
    function: u32,
    values: &[Value],
    words: &mut Listed<Word>,
) -> Result<(), NoMemory>
    ensures { IfOk result (λ _. words.new ≡ words.old ++ settled (seen whole.now) (one (Compute 0 (ToBranch Ltu) (InBranch (record { cluster = 0; number = 0 })) (Held (stack_on 0)) (Number (bytes ((seen whole.now).globals + (seen whole.now).frame)))) ∷ save_words (seen whole.now) function values.now)) }
{
    let least = bytes(sum(whole.sizes.globals, whole.sizes.frame)?)?;
    let begin = words.len();
    push_one(alloc, depth_test(least), words)?;
    save(alloc, whole, function, values, words)?;
    push_wait(alloc, whole, begin, words)
}

/// The branch that leaves for the trap where the test says so.
fn depth_branch(whole: &Whole) -> Operation
    ensures { result ≡ BranchOn 0 true (seen whole.now).depth_trap }
{
    Operation::BranchOn {
        test: 0,
        taken_at_one: true,
        target: whole.sizes.depth_trap,
    }
}

/// The branch and the steps of the stack pointers, as one word.
fn leave_and_step(alloc: Global, whole: &Whole, step: i32) -> Result<Word, NoMemory>
    ensures { IfOk result (λ word. word ≡ record { ops = BranchOn 0 true (seen whole.now).depth_trap ∷ stack_steps (seen whole.now) step; idle = 0 }) }
{
    let first = [depth_branch(whole)];
    let ops = stack_steps(alloc, &first, whole.machine.clusters(), step)?;
    Ok(Word { ops, idle: 0 })
}

/// Whether a machine has room for a word of steps, and these are done by the next word.
fn is_at_once(machine: &Machine, word: &Word) -> bool
    ensures { result ≡ (machine.now.latency_alu == 1) && fits machine.now word.now.ops }
{
    machine.latency_alu() == 1 && fits(machine, word)
}

/// The branch, and the steps of the stack pointers behind it.
fn leave_then_step(
    alloc: Global,
    whole: &Whole,
    step: i32,
    words: &mut Listed<Word>,
) -> Result<(), NoMemory>
    ensures { IfOk result (λ _. words.new ≡ words.old ++ one (BranchOn 0 true (seen whole.now).depth_trap) ∷ move_stack (seen whole.now) step) }
{
    push_one(alloc, depth_branch(whole), words)?;
    move_stack(alloc, whole, step, words)
}

/// The step of a stack pointer down by a frame, in bytes.
fn frame_down(whole: &Whole) -> Result<i32, NoMemory>
    ensures { IfOk result (λ step. step ≡ neg_ℤ (bytes (seen whole.now).frame)) }
{
    let up = bytes(whole.sizes.frame)?;
    Ok(-up)
}

/// Leaves for the trap where the test says so, or moves the stack pointer of every cluster down by a frame: in one word where the machine
/// has room for both and the stack pointers are there by the next word, since nothing reads them at the trap.
#[tactic(auto, using(crate::proofs::CallSteps::lowers_beside, crate::proofs::CallSteps::lowers_behind))]
fn leave_or_lower(alloc: Global, whole: &Whole, words: &mut Listed<Word>) -> Result<(), NoMemory>
    ensures { IfOk result (λ _. words.new ≡ words.old ++ leave_or_lower (seen whole.now)) }
{
    let step = frame_down(whole)?;
    let word = leave_and_step(alloc, whole, step)?;
    if is_at_once(whole.machine, &word) {
        words.push(word)?;
        return Ok(());
    }
    leave_then_step(alloc, whole, step, words)
}

/// The words up to a call: the depth is tested and values are saved, the stack pointers go down, and arguments are passed.
pub fn push_call(
    alloc: Global,
    whole: &Whole,
    function: u32,
    place: u32,
    called: u32,
    arguments: &[Operand],
    words: &mut Listed<Word>,
) -> Result<(), NoMemory>
    ensures { IfOk result (λ _. words.new ≡ words.old ++ call_words (seen whole.now) function place called arguments.now) }
{
    test_and_save(alloc, whole, function, saved(whole, function, place), words)?;
    leave_or_lower(alloc, whole, words)?;
    let passed = parameters(whole, called);
    pass_all(alloc, whole, function, called, passed, arguments, words)
}

/// The words behind a call: the stack pointers go up, the result is taken, and saved values come back.
pub fn push_back(
    alloc: Global,
    whole: &Whole,
    function: u32,
    place: u32,
    taken: Option<Value>,
    words: &mut Listed<Word>,
) -> Result<(), NoMemory>
    ensures { IfOk result (λ _. words.new ≡ words.old ++ back_words (seen whole.now) function place taken) }
{
    let step = bytes(whole.sizes.frame)?;
    move_stack(alloc, whole, step, words)?;
    take_result(alloc, whole, function, taken, words)?;
    let next = sum(place, 1)?;
    reload(
        alloc,
        whole,
        function,
        next,
        saved(whole, function, place),
        words,
    )
}

/// The load of the link from its frame.
fn link_load() -> Operation
    ensures { result ≡ Load 0 (general 0 3) (pos 0) (stack_on 0) false }
{
    Operation::Load {
        cluster: 0,
        to: link_scratch(),
        offset: 0,
        base: stack_on(0),
        dismissible: false,
    }
}

/// An operation that gives the result, and the link from the frame to its register.
#[tactic(auto, using(crate::proofs::CallSteps::behind_both))]
fn answer_by_frame(
    alloc: Global,
    whole: &Whole,
    give: Operation,
    words: &mut Listed<Word>,
) -> Result<(), NoMemory>
    ensures { IfOk result (λ _. words.new ≡ words.old ++ (settled (seen whole.now) (together (seen whole.now).machine give (Load 0 (general 0 3) (pos 0) (stack_on 0) false)) ++ settled (seen whole.now) (one (ToLink (Held (general 0 3))) ∷ []))) }
{
    push_settled_two(alloc, whole, give, link_load(), words)?;
    let link = Operation::ToLink {
        from: Source::Held(link_scratch()),
    };
    push_settled(alloc, whole, link, words)
}

/// The result to its register, the link from the frame of a function that calls, and the return; in one word, where the link is in its
/// register, if the machine has room and the move is done by the next word.
fn push_leave(
    alloc: Global,
    whole: &Whole,
    function: u32,
    operand: Operand,
    words: &mut Listed<Word>,
) -> Result<(), NoMemory>
    ensures { IfOk result (λ _. words.new ≡ words.old ++ leave_words (seen whole.now) function operand) }
{
    let give = Operation::Move {
        cluster: 0,
        to: answer(),
        from: fetched(whole, function, operand),
    };
    if is_caller(whole, function) {
        answer_by_frame(alloc, whole, give, words)?;
        return push_one(alloc, Operation::Return, words);
    }
    push_last(alloc, whole, give, Operation::Return, words)
}

/// The words of a return: the result goes to its register, and the link to its own.
pub fn push_return(
    alloc: Global,
    whole: &Whole,
    function: u32,
    operand: Operand,
    words: &mut Listed<Word>,
) -> Result<(), NoMemory>
    ensures { IfOk result (λ _. words.new ≡ words.old ++ return_words (seen whole.now) function operand) }
{
    fetch(alloc, whole, function, 0, operand, words)?;
    push_leave(alloc, whole, function, operand, words)
}

/// The way to a place of a layout, where another one is next: no word where it is that one, but for empty cycles, which are not to
/// stand behind a pause.
pub fn push_way(
    alloc: Global,
    whole: &Whole,
    function: u32,
    next: u32,
    to: u32,
    words: &mut Listed<Word>,
) -> Result<(), NoMemory>
    ensures { IfOk result (λ _. words.new ≡ words.old ++ way (seen whole.now) function next to) }
{
    if follows(whole, function, next, to) {
        return Ok(());
    }
    let target = start(whole, function, to);
    push_one(alloc, Operation::Goto { target }, words)
}

/// Stores the link in the frame of a function that calls.
fn keep_link(
    alloc: Global,
    whole: &Whole,
    function: u32,
    words: &mut Listed<Word>,
) -> Result<(), NoMemory>
    ensures { IfOk result (λ _. words.new ≡ words.old ++ link_words (seen whole.now) function) }
{
    if !is_caller(whole, function) {
        return Ok(());
    }
    push_settled(
        alloc,
        whole,
        Operation::FromLink { to: link_scratch() },
        words,
    )?;
    let store = Operation::Store {
        cluster: 0,
        offset: 0,
        base: stack_on(0),
        from: Source::Held(link_scratch()),
    };
    push_one(alloc, store, words)
}

/// Brings parameters to their registers at the entry of a function, and stores the link in its frame meanwhile where it calls.
fn begin_function(
    alloc: Global,
    whole: &Whole,
    function: u32,
    values: &[Value],
    words: &mut Listed<Word>,
) -> Result<(), NoMemory>
    ensures { IfOk result (λ _. words.new ≡ words.old ++ (load_slots (seen whole.now) function values.now values.now ++ link_words (seen whole.now) function)) }
{
    load_slots(alloc, whole, function, values, values, words)?;
    keep_link(alloc, whole, function, words)
}

/// The same, with the pause that the words behind it ask for, which begin at a place of the layout.
fn begin_and_wait(
    alloc: Global,
    whole: &Whole,
    function: u32,
    to: u32,
    values: &[Value],
    words: &mut Listed<Word>,
) -> Result<(), NoMemory>
    ensures { IfOk result (λ _. words.new ≡ words.old ++ ((load_slots (seen whole.now) function values.now values.now ++ link_words (seen whole.now) function) ++ pause (wanted (seen whole.now) function (Some 0) to values.now (load_slots (seen whole.now) function values.now values.now ++ link_words (seen whole.now) function)))) }
{
    let begin = words.len();
    begin_function(alloc, whole, function, values, words)?;
    push_wanted(alloc, whole, function, Some(0), to, values, begin, words)
}

/// The words at the entry of a function: parameters come to their registers, and meanwhile the link is stored in its frame where it
/// calls.
pub fn push_entry(
    alloc: Global,
    whole: &Whole,
    function: u32,
    words: &mut Listed<Word>,
) -> Result<(), NoMemory>
    ensures { IfOk result (λ _. words.new ≡ words.old ++ entry_words (seen whole.now) function) }
{
    let to = past(whole, function, entered_at(whole, function));
    begin_and_wait(alloc, whole, function, to, brought(whole, function), words)?;
    push_way(alloc, whole, function, 0, to, words)
}

/// Where the frame of the function that is active first begins, in words.
#[tactic(auto, unfolding(vx_flow::specs::Meaning::deepest))]
fn first_frame(whole: &Whole) -> Result<u32, NoMemory>
    ensures { IfOk result (λ begin. begin ≡ first_frame (seen whole.now)) }
{
    match whole.sizes.frame.checked_mul(DEEPEST - 1) {
        Some(words) => sum(whole.sizes.globals, words),
        None => Err(NoMemory),
    }
}

/// The stack pointer of a cluster at an address.
fn stack_at(cluster: u32, address: i32) -> Operation
    ensures { result ≡ Move cluster (stack_on cluster) (Number address) }
{
    Operation::Move {
        cluster,
        to: stack_on(cluster),
        from: Source::Number(address),
    }
}

/// The operations that set the stack pointer of every cluster.
#[tactic(auto, using(crate::proofs::CallSteps::clusters_none, crate::proofs::CallSteps::clusters_more))]
fn stacks_at(alloc: Global, clusters: u32, address: i32) -> Result<Listed<Operation>, NoMemory>
    ensures { IfOk result (λ ops. ops ≡ on_clusters clusters (λ k. Move k (stack_on k) (Number address))) }
{
    let mut ops = Listed::new(alloc);
    for cluster in 0..clusters {
        ops.push(stack_at(cluster, address))?;
    }
    Ok(ops)
}

/// Sets the stack pointer of every cluster to where the first frame begins.
fn push_set_stack(alloc: Global, whole: &Whole, words: &mut Listed<Word>) -> Result<(), NoMemory>
    ensures { IfOk result (λ _. words.new ≡ words.old ++ set_stack (seen whole.now)) }
{
    let begin = bytes(first_frame(whole)?)?;
    let ops = stacks_at(alloc, whole.machine.clusters(), begin)?;
    push_settled_word(alloc, whole, Word { ops, idle: 0 }, words)
}

/// The first words of a program: the stack pointers, the call of the first function, and the end behind it.
pub fn push_start(
    alloc: Global,
    whole: &Whole,
    main: u32,
    words: &mut Listed<Word>,
) -> Result<(), NoMemory>
    ensures { IfOk result (λ _. words.new ≡ words.old ++ start_words (seen whole.now) main) }
{
    push_set_stack(alloc, whole, words)?;
    let target = entry(whole, main);
    push_one(alloc, Operation::Call { target }, words)?;
    let end = Operation::Halt {
        from: Source::Held(answer()),
    };
    push_one(alloc, end, words)
}
