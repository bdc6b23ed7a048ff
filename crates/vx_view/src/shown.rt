// What is shown: files are read in the order in which `vexc compile` reads them, and only when all is made a page is written.

use crate::beside::put_beside;
use crate::given::{Given, arrays_of, given_of, names_of};
use crate::options::{Answer, Request, Stage};
use crate::planned::{Planned, Read, planned_of};
use crate::stages::text_of;
use crate::whole_page::{put_body, put_head};
use std::alloc::Global;
use vx_ast::typed::Typed;
use vx_base::listed::Bytes;
use vx_base::outcome::NoMemory;
use vx_files::{counts_for, machine_for};
use vx_html::head::Asked;
use vx_io::depot::{Depot, DepotFault};
use vx_io::role::Role;
use vx_io::sink::Sink;
use vx_io::whole_file::{FileRead, read_file};
use vx_machine::Machine;
use vx_page::declarations::ArrayNames;
use vx_page::page::Page;
use vx_profile::counts::Counts;
use vx_rewrite::FlowOptions;
use vx_runs::rewritten::read_rewritten;
use vx_status::{Status, put};
use vx_types::discard;

/// The most bytes of a source.
const MOST_SOURCE_BYTES: u64 = 1048576;

/// What stands on a page besides: what was asked, and a machine beside the first one.
#[derive(Clone, Copy)]
struct Wanted<'a> {
    asked: Asked<'a>,
    beside: Option<&'a Machine>,
}

/// The bytes of the source once more, which stand on the page and name its arrays.
fn source_of<D: Depot>(alloc: Global, depot: &mut D, name: &str) -> Result<Vec<u8>, Status> {
    match read_file(alloc, depot, name, MOST_SOURCE_BYTES) {
        Ok(FileRead::Whole(bytes)) => Ok(bytes),
        Ok(FileRead::TooLong) => Err(Status::ReadFault(Role::Source)),
        Err(DepotFault::NoMemory) => Err(Status::NoMemory),
        Err(_) => Err(Status::ReadFault(Role::Source)),
    }
}

/// The name of a file, or what stands for none.
fn name_or<'a>(name: Option<&'a str>, other: &'a [u8]) -> &'a [u8] {
    match name {
        Some(name) => name.as_bytes(),
        None => other,
    }
}

fn asked_by<'a>(request: &Request<'a>) -> Asked<'a> {
    Asked {
        source: request.source.as_bytes(),
        machine: name_or(request.machine, b"default, one cluster"),
        against: name_or(request.against, b""),
        profile: name_or(request.profile, b""),
        growth: request.growth,
        turns: match request.rewriting.unroll {
            Some(turns) => turns,
            None => 1,
        },
    }
}

/// Puts what this machine makes of the program beside the first one.
fn put_machine_beside(
    alloc: Global,
    page: &mut Page,
    read: &Read,
    given: &Given,
    machine: &Machine,
) -> Result<(), NoMemory> {
    let read = Read { machine, ..*read };
    let asked = Asked {
        machine: given.asked.against,
        ..given.asked
    };
    let planned = planned_of(alloc, &read)?;
    let put = put_beside(alloc, page, given, &given_of(&read, &planned, asked));
    drop(planned);
    put
}

fn put_parts(
    alloc: Global,
    page: &mut Page,
    read: &Read,
    given: &Given,
    wanted: &Wanted,
) -> Result<(), NoMemory> {
    put_head(page, given, read.source);
    put_body(alloc, page, given)?;
    match wanted.beside {
        Some(machine) => put_machine_beside(alloc, page, read, given, machine),
        None => Ok(()),
    }
}

fn page_with(
    alloc: Global,
    read: &Read,
    wanted: &Wanted,
    planned: &Planned,
) -> Result<Vec<u8>, NoMemory> {
    let given = given_of(read, planned, wanted.asked);
    let mut page = Page::new(alloc);
    match put_parts(alloc, &mut page, read, &given, wanted) {
        Ok(()) => page.done(),
        Err(error) => Err(error),
    }
}

fn page_of(alloc: Global, read: &Read, wanted: &Wanted) -> Result<Vec<u8>, NoMemory> {
    let planned = planned_of(alloc, read)?;
    let page = page_with(alloc, read, wanted, &planned);
    drop(planned);
    page
}

fn write_page<D: Depot>(depot: &mut D, name: &str, page: &[u8]) -> Status {
    match depot.replace(name, page) {
        Ok(()) => Status::Done,
        Err(DepotFault::NoMemory) => Status::NoMemory,
        Err(_) => Status::WriteFault,
    }
}

fn show_wanted<D: Depot>(
    alloc: Global,
    depot: &mut D,
    read: &Read,
    request: &Request,
    name: &str,
    beside: Option<&Machine>,
) -> Status {
    let wanted = Wanted {
        asked: asked_by(request),
        beside,
    };
    match page_of(alloc, read, &wanted) {
        Ok(page) => write_page(depot, name, page.as_slice()),
        Err(_) => Status::NoMemory,
    }
}

fn show_page<D: Depot>(
    alloc: Global,
    depot: &mut D,
    read: &Read,
    request: &Request,
    name: &str,
) -> Status {
    if request.against.is_none() {
        return show_wanted(alloc, depot, read, request, name, None);
    }
    match machine_for(alloc, depot, request.against) {
        Ok(machine) => show_wanted(alloc, depot, read, request, name, Some(&machine)),
        Err(status) => status,
    }
}

fn show_text<K: Sink>(alloc: Global, out: &mut K, read: &Read, stage: Stage) -> Status {
    match text_of(alloc, read, stage) {
        Ok(text) => match put(out, text.as_slice()) {
            Ok(()) => Status::Done,
            Err(_) => Status::WriteFault,
        },
        Err(_) => Status::NoMemory,
    }
}

fn show_read<D: Depot, K: Sink>(
    alloc: Global,
    depot: &mut D,
    out: &mut K,
    read: &Read,
    request: &Request,
) -> Status {
    match request.answer {
        Answer::Page(name) => show_page(alloc, depot, read, request, name),
        Answer::Text(stage) => show_text(alloc, out, read, stage),
    }
}

fn show_named<D: Depot, K: Sink>(
    alloc: Global,
    depot: &mut D,
    out: &mut K,
    program: &Typed,
    functions: &[Bytes],
    arrays: &ArrayNames,
    source: &[u8],
    counts: &Counts,
    machine: &Machine,
    request: &Request,
) -> Status {
    let options = FlowOptions {
        inline: request.rewriting.inline,
        select: request.rewriting.select,
    };
    let read = Read {
        program,
        functions,
        arrays,
        source,
        counts,
        machine,
        growth: request.growth,
        options,
    };
    show_read(alloc, depot, out, &read, request)
}

fn show_by_functions<D: Depot, K: Sink>(
    alloc: Global,
    depot: &mut D,
    out: &mut K,
    program: &Typed,
    functions: &[Bytes],
    source: &[u8],
    counts: &Counts,
    machine: &Machine,
    request: &Request,
) -> Status {
    match arrays_of(alloc, source) {
        Ok(arrays) => show_named(
            alloc, depot, out, program, functions, &arrays, source, counts, machine, request,
        ),
        Err(_) => Status::NoMemory,
    }
}

fn show_source<D: Depot, K: Sink>(
    alloc: Global,
    depot: &mut D,
    out: &mut K,
    program: &Typed,
    source: &[u8],
    counts: &Counts,
    machine: &Machine,
    request: &Request,
) -> Status {
    match names_of(alloc, program) {
        Ok(functions) => show_by_functions(
            alloc,
            depot,
            out,
            program,
            functions.as_slice(),
            source,
            counts,
            machine,
            request,
        ),
        Err(_) => Status::NoMemory,
    }
}

fn show_for<D: Depot, K: Sink>(
    alloc: Global,
    depot: &mut D,
    out: &mut K,
    program: &Typed,
    counts: &Counts,
    machine: &Machine,
    request: &Request,
) -> Status {
    match source_of(alloc, depot, request.source) {
        Ok(source) => show_source(
            alloc,
            depot,
            out,
            program,
            source.as_slice(),
            counts,
            machine,
            request,
        ),
        Err(status) => status,
    }
}

fn show_by<D: Depot, K: Sink>(
    alloc: Global,
    depot: &mut D,
    out: &mut K,
    program: &Typed,
    counts: &Counts,
    request: &Request,
) -> Status {
    match machine_for(alloc, depot, request.machine) {
        Ok(machine) => show_for(alloc, depot, out, program, counts, &machine, request),
        Err(status) => status,
    }
}

fn show_program<D: Depot, K: Sink>(
    alloc: Global,
    depot: &mut D,
    out: &mut K,
    program: &Typed,
    request: &Request,
) -> Status {
    match counts_for(alloc, depot, request.profile) {
        Ok(counts) => show_by(alloc, depot, out, program, &counts, request),
        Err(status) => status,
    }
}

/// Shows what is asked for, and answers how that ended.
pub(crate) fn show<D: Depot, K: Sink>(
    alloc: Global,
    depot: &mut D,
    out: &mut K,
    request: &Request,
) -> Status {
    match read_rewritten(alloc, depot, request.source, request.rewriting) {
        Ok(program) => {
            let status = show_program(alloc, depot, out, &program, request);
            discard(program);
            status
        }
        Err(status) => status,
    }
}
