// Functions and whole programs: all their faults, and what they are with each name declared.

ghost use Rattle.std.specs.Prelude.{◌≡◌, ◌++◌, ◌+◌, ◌<◌, [], ◌∷◌, List, length, map, take, false, IfOk, OnOk};
ghost use Rattle.std.specs.List.{list_any};
ghost use Rattle.vx_ast.specs.declared.tree.Gives.TheVariants.{Int};
ghost use Rattle.vx_ast.specs.Faults.{definitions_faults, fault_if, function_faults, is_main, least, parameter_faults, first_fault};
ghost use Rattle.vx_ast.specs.Resolved.{function_in, main_from, resolved};
ghost use Rattle.vx_ast.specs.Scopes.{global_of, globals_of, names_from, takes_from, takes_of, with_parameters};
ghost use Rattle.vx_ast.specs.Syntax as spec;
ghost use Rattle.vx_ast.specs.SyntaxView.{definition_of, function_of, program_of};
ghost use Rattle.vx_ast.specs.View as view;
ghost use Rattle.vx_types.specs.Whole.{at_start, own_faults, own_functions};

use crate::items::{note_name, note_size};
use crate::kinds::{gives_int, note};
use crate::statements::statements;
use std::alloc::Global;
use vx_ast::names::{Fault, FileName, Named};
use vx_ast::syntax;
use vx_ast::syntax::{Definition, Name, Parameter};
use vx_ast::tree::{Function, GlobalVariable, Program, Takes};
use vx_base::listed::{Bytes, Listed};
use vx_base::outcome::NoMemory;
use vx_names::names::{Names, bytes_of};

// The parameters of a function, in their order.
fn parameters(
    alloc: Global,
    names: &mut Names,
    first: &mut Option<Fault>,
    all: &[Parameter],
) -> Result<(), NoMemory>
    ensures known { OnOk result (names.new ≡ with_parameters all.now names.old) }
    ensures faults { OnOk result (first.new ≡ least first.old (parameter_faults names.old all.now)) }
{
    for one in all {
        let noted = note_name(names, &one.name, *first);
        *first = noted;
        names.parameter(alloc, one)?;
    }
    Ok(())
}

// What parameters take.
fn takes_of(alloc: Global, all: &[Parameter]) -> Result<Listed<Takes>, NoMemory>
    ensures { IfOk result (λ made. made ≡ takes_of all.now) }
{
    let mut made = Listed::new(alloc);
    for one in all {
        made.push(one.takes)?;
    }
    Ok(made)
}

/// The name of a function, and what its parameters take.
#[derive(Drop)]
struct Heading {
    name: Bytes,
    takes: Listed<Takes>,
}

// The name of a function, and what its parameters take.
fn heading_of(alloc: Global, function: &syntax::Function) -> Result<Heading, NoMemory>
    ensures name { IfOk result (λ made. made.name ≡ function.now.name.bytes) }
    ensures takes { IfOk result (λ made. made.takes ≡ takes_of function.now.parameters) }
{
    let takes = takes_of(alloc, function.parameters.as_slice())?;
    let name = bytes_of(alloc, function.name.bytes.as_slice())?;
    Ok(Heading { name, takes })
}

// A function whose first array has this number.
#[tactic(auto, using(crate::proofs::Leasts::least_append))]
fn function(
    alloc: Global,
    arrays: u32,
    names: &mut Names,
    first: &mut Option<Fault>,
    function: &syntax::Function,
) -> Result<Function, NoMemory>
    requires empty { names.old.locals ≡ [] }
    ensures made { IfOk result (λ made. view.function_of made ≡ function_in (at_start names.old arrays) (function_of function.now)) }
    ensures faults { OnOk result (first.new ≡ least first.old (function_faults (at_start names.old arrays) (function_of function.now))) }
    ensures locals { OnOk result (names.new.locals ≡ []) }
    ensures names { OnOk result (names.new.names ≡ names.old.names) }
    ensures takes { OnOk result (names.new.takes ≡ names.old.takes) }
    ensures above { OnOk result (names.new.above ≡ names.old.above) }
{
    names.start(alloc, arrays);
    parameters(alloc, names, first, function.parameters.as_slice())?;
    let numbers = names.scalars();
    let body = statements(
        alloc,
        function.gives,
        false,
        names,
        first,
        function.body.as_slice(),
    )?;
    names.leave(alloc, 0)?;
    let heading = heading_of(alloc, function)?;
    let scalars = names.scalars();
    let arrays = names.take_sizes(alloc);
    Ok(Function {
        name: heading.name,
        gives: function.gives,
        parameters: numbers,
        takes: heading.takes,
        scalars,
        arrays,
        body,
    })
}

// The number behind another.
fn next(number: u32) -> Result<u32, NoMemory>
    ensures { IfOk result (λ n. n ≡ number + 1) }
{
    match number.checked_add(1) {
        Some(next) => Ok(next),
        None => Err(NoMemory),
    }
}

// One more name of the file.
fn push_name(
    alloc: Global,
    made: &mut Listed<FileName>,
    name: &Name,
    everywhere: bool,
    named: Named,
) -> Result<(), NoMemory>
    ensures { OnOk result (made.new ≡ made.old ++ (record { name = name.now.bytes; everywhere = everywhere; named = named }) ∷ []) }
{
    let name = bytes_of(alloc, name.bytes.as_slice())?;
    made.push(FileName {
        name,
        everywhere,
        named,
    })?;
    Ok(())
}

// The name of one more definition, with the numbers of the next array and of the next function.
fn add_name(
    alloc: Global,
    made: &mut Listed<FileName>,
    arrays: &mut u32,
    functions: &mut u32,
    definition: &Definition,
) -> Result<(), NoMemory>
    ensures { OnOk result ((ds : List spec.Definition) → made.new ++ names_from arrays.new functions.new ds ≡ made.old ++ names_from arrays.old functions.old (definition_of definition.now ∷ ds)) }
{
    match definition {
        Definition::Scalar(name, _) => {
            push_name(alloc, made, name, false, Named::Global(*arrays))?;
            *arrays = next(*arrays)?;
            Ok(())
        }
        Definition::Array(name, _) => {
            push_name(alloc, made, name, false, Named::Array(*arrays))?;
            *arrays = next(*arrays)?;
            Ok(())
        }
        Definition::Function(function) => {
            let count = function.parameters.len() as u32;
            push_name(
                alloc,
                made,
                &function.name,
                true,
                Named::Function(*functions, function.gives, count),
            )?;
            *functions = next(*functions)?;
            Ok(())
        }
    }
}

// All names of the file.
fn file_names(alloc: Global, definitions: &[Definition]) -> Result<Listed<FileName>, NoMemory>
    ensures { IfOk result (λ made. made ≡ names_from 0 0 (map definition_of definitions.now)) }
{
    let mut made = Listed::new(alloc);
    let mut arrays: u32 = 0;
    let mut functions: u32 = 0;
    for definition in definitions {
        add_name(alloc, &mut made, &mut arrays, &mut functions, definition)?;
    }
    Ok(made)
}

// What the function takes that a definition is, if it is one.
fn add_takes(
    alloc: Global,
    made: &mut Listed<Listed<Takes>>,
    definition: &Definition,
) -> Result<(), NoMemory>
    ensures { OnOk result ((ds : List spec.Definition) → made.new ++ takes_from ds ≡ made.old ++ takes_from (definition_of definition.now ∷ ds)) }
{
    match definition {
        Definition::Scalar(_, _) => Ok(()),
        Definition::Array(_, _) => Ok(()),
        Definition::Function(function) => {
            let takes = takes_of(alloc, function.parameters.as_slice())?;
            made.push(takes)?;
            Ok(())
        }
    }
}

// What all functions of the file take.
fn file_takes(alloc: Global, definitions: &[Definition]) -> Result<Listed<Listed<Takes>>, NoMemory>
    ensures { IfOk result (λ made. made ≡ takes_from (map definition_of definitions.now)) }
{
    let mut made = Listed::new(alloc);
    for definition in definitions {
        add_takes(alloc, &mut made, definition)?;
    }
    Ok(made)
}

// What is known before the first definition.
fn known_first(alloc: Global, definitions: &[Definition]) -> Result<Names, NoMemory>
    ensures { IfOk result (λ made. made ≡ record { depth = 0; locals = []; names = names_from 0 0 (map definition_of definitions.now); above = 0; takes = takes_from (map definition_of definitions.now); scalars = 0; arrays = 0; sizes = [] }) }
{
    let names = file_names(alloc, definitions)?;
    let takes = file_takes(alloc, definitions)?;
    let known = Names::new(alloc, names, takes)?;
    Ok(known)
}

// The global variable that a definition is, if it is one.
fn add_global(made: &mut Listed<GlobalVariable>, definition: &Definition) -> Result<(), NoMemory>
    ensures { OnOk result (made.new ≡ made.old ++ global_of (definition_of definition.now)) }
{
    match definition {
        Definition::Scalar(_, first) => {
            made.push(GlobalVariable::Scalar(*first))?;
            Ok(())
        }
        Definition::Array(_, size) => {
            made.push(GlobalVariable::Array(size.words))?;
            Ok(())
        }
        Definition::Function(_) => Ok(()),
    }
}

// All global variables.
fn globals(alloc: Global, definitions: &[Definition]) -> Result<Listed<GlobalVariable>, NoMemory>
    ensures { IfOk result (λ made. made ≡ globals_of (map definition_of definitions.now)) }
{
    let mut made = Listed::new(alloc);
    for definition in definitions {
        add_global(&mut made, definition)?;
    }
    Ok(made)
}

// Whether a definition is an `int` function `main` without parameters.
fn is_main(definition: &Definition) -> bool
    ensures { result ≡ is_main (definition_of definition.now) }
{
    match definition {
        Definition::Scalar(_, _) => false,
        Definition::Array(_, _) => false,
        Definition::Function(function) => b"main".as_slice() == function.name.bytes.as_slice()
            && gives_int(function.gives)
            && function.parameters.len() == 0,
    }
}

// Whether there is such a function.
fn has_main(definitions: &[Definition]) -> bool
    ensures { result ≡ list_any is_main (map definition_of definitions.now) }
{
    for definition in definitions {
        if is_main(definition) {
            return true;
        }
    }
    false
}

// The number of the function behind a definition, where its own number or the next one is this.
fn number_behind(number: u32, definition: &Definition) -> Result<u32, NoMemory>
    ensures { IfOk result (λ n. is_main (definition_of definition.now) ≡ false → (ds : List spec.Definition) → main_from n ds ≡ main_from number (definition_of definition.now ∷ ds)) }
{
    match definition {
        Definition::Scalar(_, _) => Ok(number),
        Definition::Array(_, _) => Ok(number),
        Definition::Function(_) => next(number),
    }
}

// The number of the first such function.
fn main_number(definitions: &[Definition]) -> Result<u32, NoMemory>
    ensures { IfOk result (λ n. n ≡ main_from 0 (map definition_of definitions.now)) }
{
    let mut number: u32 = 0;
    for definition in definitions {
        if is_main(definition) {
            return Ok(number);
        }
        number = number_behind(number, definition)?;
    }
    Ok(0)
}

// A definition: its faults, and the function that it is, if it is one.
#[tactic(auto, using(crate::proofs::Leasts::least_append))]
fn definition(
    alloc: Global,
    arrays: u32,
    names: &mut Names,
    first: &mut Option<Fault>,
    functions: &mut Vec<Function>,
    definition: &Definition,
) -> Result<(), NoMemory>
    requires empty { names.old.locals ≡ [] }
    ensures made { OnOk result (map view.function_of functions.new.items ≡ map view.function_of functions.old.items ++ own_functions names.old arrays (definition_of definition.now)) }
    ensures faults { OnOk result (first.new ≡ least first.old (own_faults names.old arrays (definition_of definition.now))) }
    ensures locals { OnOk result (names.new.locals ≡ []) }
    ensures names { OnOk result (names.new.names ≡ names.old.names) }
    ensures takes { OnOk result (names.new.takes ≡ names.old.takes) }
    ensures above { OnOk result (names.new.above ≡ names.old.above) }
{
    match definition {
        Definition::Scalar(name, _) => {
            *first = note(
                *first,
                names.is_repeated(name.bytes.as_slice()),
                6,
                name.place,
            );
            Ok(())
        }
        Definition::Array(name, size) => {
            let before = note(
                *first,
                names.is_repeated(name.bytes.as_slice()),
                6,
                name.place,
            );
            *first = note_size(*size, before);
            Ok(())
        }
        Definition::Function(written) => {
            *first = note(
                *first,
                names.is_repeated(written.name.bytes.as_slice()),
                6,
                written.name.place,
            );
            let made = function(alloc, arrays, names, first, written)?;
            functions.push(made)?;
            Ok(())
        }
    }
}

// The functions of a program, and its first fault so far.
#[derive(Drop)]
struct Functions {
    all: Vec<Function>,
    first: Option<Fault>,
}

/// One more definition: its faults, the function that it is, if it is one, and what is known behind it.
fn pass_definition(
    alloc: Global,
    arrays: u32,
    names: Names,
    made: &mut Functions,
    one: &Definition,
) -> Result<Names, NoMemory>
    requires empty { names.locals ≡ [] }
    requires there { names.above < length names.names }
    ensures made { OnOk result (map view.function_of made.new.all.items ≡ map view.function_of made.old.all.items ++ own_functions names arrays (definition_of one.now)) }
    ensures faults { OnOk result (made.new.first ≡ least made.old.first (own_faults names arrays (definition_of one.now))) }
    ensures locals { IfOk result (λ behind. behind.locals ≡ []) }
    ensures names { IfOk result (λ behind. behind.names ≡ names.names) }
    ensures takes { IfOk result (λ behind. behind.takes ≡ names.takes) }
    ensures above { IfOk result (λ behind. behind.above ≡ names.above + 1) }
{
    let mut names = names;
    match definition(
        alloc,
        arrays,
        &mut names,
        &mut made.first,
        &mut made.all,
        one,
    ) {
        Ok(()) => names.pass(alloc),
        Err(fault) => {
            drop(names);
            Err(fault)
        }
    }
}

// All functions of a program, with the first of the faults of all its definitions.
fn make_functions(
    alloc: Global,
    names: Names,
    arrays: u32,
    program: &syntax::Program,
) -> Result<Functions, NoMemory>
    requires start { names ≡ record { depth = 0; locals = []; names = names_from 0 0 (program_of program.now).definitions; above = 0; takes = takes_from (program_of program.now).definitions; scalars = 0; arrays = 0; sizes = [] } }
    requires arrays { arrays ≡ length (globals_of (program_of program.now).definitions) }
    ensures made { IfOk result (λ made. map view.function_of made.all.items ≡ (resolved (program_of program.now)).functions) }
    ensures faults { IfOk result (λ made. made.first ≡ least None (definitions_faults (program_of program.now) 0 (program_of program.now).definitions)) }
{
    let mut names = names;
    let mut made = Functions {
        all: Vec::new(alloc),
        first: None,
    };
    for one in program.definitions.as_slice() {
        let behind = pass_definition(alloc, arrays, names, &mut made, one)?;
        names = behind;
    }
    drop(names);
    Ok(made)
}

/// A program with each name declared, and the first of its faults.
#[derive(Drop)]
pub struct Resolved {
    /// The program; where there is a fault, what stands for a name may be anything.
    pub program: Program,
    /// The first fault, by its place and then by its code.
    pub first: Option<Fault>,
}

/// What a parsed source is with each name declared, and the first of the faults S5 to S13.
#[tactic(auto, using(crate::proofs::Leasts::least_append))]
pub fn resolve_program(alloc: Global, program: &syntax::Program) -> Result<Resolved, NoMemory>
    ensures program { IfOk result (λ made. view.program_of made.program ≡ resolved (program_of program.now)) }
    ensures fault { IfOk result (λ made. made.first ≡ first_fault (program_of program.now)) }
{
    let definitions = program.definitions.as_slice();
    let main = main_number(definitions)?;
    let globals = globals(alloc, definitions)?;
    let names = known_first(alloc, definitions)?;
    let made = make_functions(alloc, names, globals.len() as u32, program)?;
    let first = note(made.first, !has_main(definitions), 10, program.end);
    Ok(Resolved {
        program: Program {
            globals,
            functions: made.all,
            main,
        },
        first,
    })
}
