// The input of a run: the numbers of a text that is read whole and through.

ghost use Rattle.std.specs.Prelude.{◌≡◌, ◌⊎◌, ◌≤◌, true, length, option_map, is_some, All, Some, None, Ok, Err, IfOk, IfErr, IfSome};
ghost use Rattle.vx_base.specs.Arithmetic.{IsNumber};
ghost use Rattle.vx_files.specs.Effects.{effect_of, InputAnswers};
ghost use Rattle.vx_files.specs.InputText.{input_reading};
ghost use Rattle.vx_files.specs.Held.{EmptyUnless, input_as, input_found};

use crate::input::{InputFault, read_input};
use crate::whole::read_whole;
use std::alloc::Global;
use vx_io::depot::Depot;
use vx_io::role::Role;
use vx_status::Status;

/// The most bytes of an input's text.
pub const MOST_INPUT_BYTES: u64 = 16777216;

/// What an input's text that is too long is answered.
const LONG_INPUT: Status = Status::Limit {
    number: 12,
    count: MOST_INPUT_BYTES + 1,
};

/// The numbers of an input's text, or the status of its first bad word.
fn numbers_of(alloc: Global, bytes: &[u8]) -> Result<Vec<i32>, Status>
    requires { length bytes.now ≤ 16777216 }
    ensures numbers { IfOk result (λ numbers. input_reading bytes.now ≡ Ok numbers.items) }
    ensures in_range { IfOk result (λ numbers. All IsNumber numbers.items) }
    ensures refused { IfErr result (λ status. (status ≡ Status.NoMemory) ⊎ (input_as (input_reading bytes.now) ≡ Err status)) }
{
    match read_input(alloc, bytes) {
        Ok(numbers) => Ok(numbers),
        Err(InputFault::Bad(place)) => Err(Status::Input(place)),
        Err(InputFault::NoMemory) => Err(Status::NoMemory),
    }
}

/// Reads the file of the input, whole and through.
fn read_numbers<D: Depot>(alloc: Global, depot: &mut D, name: &str) -> Result<Vec<i32>, Status>
    ensures same_files { D.files depot.new ≡ D.files depot.old }
    ensures numbers { IfOk result (λ numbers. IfSome (D.files depot.old) (λ held. input_found held (Some name.now) ≡ Ok numbers.items)) }
    ensures in_range { IfOk result (λ numbers. All IsNumber numbers.items) }
    ensures answers { IfErr result (InputAnswers (Some name.now) (effect_of D.files D.failed_reads D.failed_replaces depot.old depot.new)) }
    ensures reads_never_fall { D.failed_reads depot.old ≤ D.failed_reads depot.new }
    ensures replaces_never_fall { D.failed_replaces depot.old ≤ D.failed_replaces depot.new }
{
    match read_whole(
        alloc,
        depot,
        name,
        Role::Input,
        MOST_INPUT_BYTES,
        LONG_INPUT,
    ) {
        Ok(bytes) => numbers_of(alloc, bytes.as_slice()),
        Err(status) => Err(status),
    }
}

/// The input that the command names, or the empty one.
pub fn input_for<D: Depot>(
    alloc: Global,
    depot: &mut D,
    name: Option<&str>,
) -> Result<Vec<i32>, Status>
    ensures same_files { D.files depot.new ≡ D.files depot.old }
    ensures numbers { IfOk result (λ numbers. IfSome (D.files depot.old) (λ held. input_found held (option_map (λ s. s.now) name.entry) ≡ Ok numbers.items)) }
    ensures unnamed { IfOk result (λ numbers. EmptyUnless (option_map (λ s. s.now) name.entry) numbers.items) }
    ensures in_range { IfOk result (λ numbers. All IsNumber numbers.items) }
    ensures named { IfErr result (λ _. is_some name.entry ≡ true) }
    ensures answers { IfErr result (InputAnswers (option_map (λ s. s.now) name.entry) (effect_of D.files D.failed_reads D.failed_replaces depot.old depot.new)) }
    ensures reads_never_fall { D.failed_reads depot.old ≤ D.failed_reads depot.new }
    ensures replaces_never_fall { D.failed_replaces depot.old ≤ D.failed_replaces depot.new }
{
    match name {
        Some(name) => read_numbers(alloc, depot, name),
        None => Ok(Vec::new(alloc)),
    }
}
