// The source of a command: a file that is read whole and through.

ghost use Rattle.std.specs.Prelude.{◌≡◌, ◌≤◌, IfOk, IfErr, IfSome};
ghost use Rattle.vx_ast.specs.View as view;
ghost use Rattle.vx_files.specs.Held.{HoldsProgram};
ghost use Rattle.vx_files.specs.Effects.{effect_of, SourceAnswers};

use crate::front_end::typed_of;
use crate::whole::read_whole;
use std::alloc::Global;
use vx_ast::typed::Typed;
use vx_io::depot::Depot;
use vx_io::role::Role;
use vx_status::Status;

/// The most bytes of a source.
pub const MOST_SOURCE_BYTES: u64 = 1048576;

/// What a source that is too long is answered.
const LONG_SOURCE: Status = Status::Limit {
    number: 1,
    count: MOST_SOURCE_BYTES + 1,
};

/// Reads the file of the source through.
pub fn read_through<D: Depot>(alloc: Global, depot: &mut D, source: &str) -> Result<Typed, Status>
    ensures same_files { D.files depot.new ≡ D.files depot.old }
    ensures program { IfOk result (λ typed. IfSome (D.files depot.old) (λ held. HoldsProgram held source.now (view.program_of typed.program))) }
    ensures answers { IfErr result (SourceAnswers source.now (effect_of D.files D.failed_reads D.failed_replaces depot.old depot.new)) }
    ensures reads_never_fall { D.failed_reads depot.old ≤ D.failed_reads depot.new }
    ensures replaces_never_fall { D.failed_replaces depot.old ≤ D.failed_replaces depot.new }
{
    match read_whole(
        alloc,
        depot,
        source,
        Role::Source,
        MOST_SOURCE_BYTES,
        LONG_SOURCE,
    ) {
        Ok(bytes) => typed_of(alloc, bytes.as_slice()),
        Err(status) => Err(status),
    }
}
