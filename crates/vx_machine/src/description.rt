// How a description of a machine is read: a TOML table with every field as an integer at its top level, of which the last
// may be absent. The clause is `reading` of specs/Descriptions.antt; docs/MACHINE.md has the table of the fields.

ghost use Rattle.std.specs.Prelude.{true, ◌≡◌, ◌≢◌, ◌⊎◌, ◌<◌, ◌≤◌, ◌^◌, option_map, not, string_bytes, Ok, Err, Some, None, IfOk, IfErr};
ghost use Rattle.std.specs.List.{list_any};
ghost use Rattle.std.specs.Str.{bytes_eq};
ghost use Rattle.std.specs.Map.{keys_of};
ghost use Rattle.toml.specs.View.{view, table_view};
ghost use Rattle.vx_machine.specs.Descriptions.{names, name_of, field, is_field, fields, table_of, number_at, whole_or_one, branches_at, fault_if_there, has_unknown, whole, is_within, fault_of, first_fault, machine_fault, numbers_of, reading, ReadsInWords};
ghost use Rattle.toml.specs.Data.{get_member};
ghost use Rattle.toml.specs.Errors.{IsMemory};

use crate::Machine;
use std::alloc::Global;
use thiserror::Error;
use toml::{Table, Value};

/// Why a description gives no machine.
#[derive(Clone, Copy, PartialEq, Eq, Debug, Error)]
pub enum MachineFault {
    /// Code 1: it is no TOML. Code 2: the field is missing. Code 3: no integer of its range stands at the field.
    /// Code 4: a key is no field. The field is its number in the table, from 1, and 0 with codes 1 and 4.
    #[error("M{code} at field {field}")]
    Bad { code: u32, field: u32 },
    /// There is not enough memory.
    #[error("no memory")]
    NoMemory,
}

/// The machine that a description gives: a TOML table with every field as an integer of its range, and no other
/// key, at its top level; `branches` may be absent and then is 1. A byte order mark in front says nothing. `Bad` comes with
/// code 1 where the bytes are no TOML in UTF-8, else with code 4 where a key is no field, else for the first field that is
/// missing (2) or out of its range (3), `branches` last. A range that names `issue` is tested with the description's own.
/// `NoMemory` may come at any call.
pub fn from_toml(alloc: Global, bytes: &[u8]) -> Result<Machine, MachineFault>
    ensures { result ≢ Err MachineFault.NoMemory → result ≡ reading bytes.now }
{
    let table = match read_table(alloc, bytes) {
        Ok(table) => table,
        Err(fault) => return Err(fault),
    };
    match machine_fault(&table) {
        Some(fault) => Err(fault),
        None => Ok(machine_of(&table)),
    }
}

/// Bytes are read as a machine exactly where they are a table that has the machine's number at each field and no
/// other key; where nothing is said of the branches, the machine has one.
pub fn description_law()
    ensures { ReadsInWords }
{}

/// The table that a description is.
fn read_table(alloc: Global, bytes: &[u8]) -> Result<Table, MachineFault>
    ensures ok { IfOk result (λ t. table_of bytes.now ≡ Some (table_view t)) }
    ensures err { IfErr result (λ why. (why ≡ MachineFault.NoMemory) ⊎ ((why ≡ MachineFault.Bad 1 0) × (table_of bytes.now ≡ None))) }
{
    match toml::table_from_slice(alloc, bytes) {
        Ok(table) => Ok(table),
        Err(why) => Err(fault_of_reader(&why)),
    }
}

fn fault_of_reader(why: &toml::de::Error) -> MachineFault
    ensures { (result ≡ MachineFault.NoMemory) ⊎ ((result ≡ MachineFault.Bad 1 0) × (¬ IsMemory why.now)) }
{
    if why.is_memory() {
        MachineFault::NoMemory
    } else {
        MachineFault::Bad { code: 1, field: 0 }
    }
}

/// What is wrong with a description, if anything is.
fn machine_fault(table: &Table) -> Option<MachineFault>
    ensures { result ≡ machine_fault (table_view table.now) }
{
    if has_unknown(table) {
        return Some(MachineFault::Bad { code: 4, field: 0 });
    }
    match first_fault(table, &fields(number_at(table, ISSUE))) {
        Some(fault) => Some(fault),
        None => fault_if_there(table, &Field::new(BRANCHES, 1, 2)),
    }
}

/// The fault of a field that may be absent.
fn fault_if_there(table: &Table, field: &Field) -> Option<MachineFault>
    ensures { result ≡ fault_if_there field.now (get_member (name_of field.now.number) (table_view table.now)) }
{
    match value_at(table, field.number) {
        None => None,
        Some(_) => fault_at(table, field),
    }
}

/// Whether a key is no field.
#[tactic(auto, using(crate::proofs::Views::has_unknown_view))]
fn has_unknown(table: &Table) -> bool
    ensures { result ≡ has_unknown (table_view table.now) }
{
    has_other_key(table)
}

fn has_other_key(table: &Table) -> bool
    ensures { result ≡ list_any (λ key. not (list_any (bytes_eq (string_bytes key)) names)) (keys_of table.now.entries) }
{
    for key in table.keys() {
        if !is_name(key.as_str()) {
            return true;
        }
    }
    false
}

#[tactic(auto, using(crate::proofs::Views::is_name_more, crate::proofs::Views::is_name_end))]
fn is_name(key: &str) -> bool
    ensures { result ≡ list_any (bytes_eq key.now) names }
{
    for index in 0..17 {
        if key == field_name(index + 1) {
            return true;
        }
    }
    false
}

/// The fault of the first field that has one.
fn first_fault(table: &Table, fields: &[Field]) -> Option<MachineFault>
    ensures { result ≡ first_fault (table_view table.now) fields.now }
{
    for field in fields {
        if let Some(fault) = fault_at(table, field) {
            return Some(fault);
        }
    }
    None
}

/// The value at a field.
fn value_at(table: &Table, field: u32) -> Option<&Value>
    ensures { option_map (λ v. view v.now) result ≡ get_member (name_of field) (table_view table.now) }
{
    table.get(field_name(field))
}

fn fault_at(table: &Table, field: &Field) -> Option<MachineFault>
    ensures { result ≡ fault_of field.now (get_member (name_of field.now.number) (table_view table.now)) }
{
    let number = field.number;
    match value_at(table, number) {
        None => Some(MachineFault::Bad {
            code: 2,
            field: number,
        }),
        Some(value) => {
            if is_within(field, value.as_integer()) {
                None
            } else {
                Some(MachineFault::Bad {
                    code: 3,
                    field: number,
                })
            }
        }
    }
}

/// Whether an integer of the field's range stands there.
fn is_within(field: &Field, number: Option<i64>) -> bool
    ensures { result ≡ is_within field.now number }
{
    match number {
        Some(number) => {
            number >= 0 && field.least <= number as u64 && number as u64 <= field.greatest
        }
        None => false,
    }
}

/// The number at a field, where a whole number of at least 0 stands there, else 0.
fn number_at(table: &Table, field: u32) -> u64
    ensures exact { result ≡ number_at (table_view table.now) field }
    ensures small { result < 2 ^ 63 }
{
    match value_at(table, field) {
        Some(value) => whole(value.as_integer()),
        None => whole(None),
    }
}

fn whole(number: Option<i64>) -> u64
    ensures exact { result ≡ whole number }
    ensures small { result < 2 ^ 63 }
{
    match number {
        Some(number) => { if number >= 0 { number as u64 } else { 0 } }
        None => 0,
    }
}

/// The machine of a description without a fault.
fn machine_of(table: &Table) -> Machine
    requires { machine_fault (table_view table.now) ≡ None }
    ensures { result ≡ numbers_of (table_view table.now) }
{
    Machine {
        clusters: number_of(table, 1),
        issue: number_of(table, 2),
        alus: number_of(table, 3),
        multipliers: number_of(table, 4),
        memory_units: number_of(table, 5),
        registers: number_of(table, 6),
        branch_registers: number_of(table, 7),
        read_ports: number_of(table, 8),
        write_ports: number_of(table, 9),
        copy_paths: number_of(table, 10),
        latency_alu: number_of(table, 11),
        latency_compare: number_of(table, 12),
        latency_multiply: number_of(table, 13),
        latency_load: number_of(table, 14),
        latency_divide: number_of(table, 15),
        latency_copy: number_of(table, 16),
        branches: branches_of(table),
    }
}

/// The branches of a word: 1 where nothing is said of them.
fn branches_at(table: &Table) -> u64
    ensures { result ≡ branches_at (table_view table.now) }
{
    match value_at(table, BRANCHES) {
        Some(value) => whole(value.as_integer()),
        None => 1,
    }
}

fn branches_of(table: &Table) -> u32
    requires { machine_fault (table_view table.now) ≡ None }
    ensures { result ≡ branches_at (table_view table.now) }
{
    branches_at(table) as u32
}

#[tactic(auto, using(crate::proofs::Ranges::small_at))]
fn number_of(table: &Table, field: u32) -> u32
    requires is_field { is_field field ≡ true }
    requires no_fault { machine_fault (table_view table.now) ≡ None }
    ensures { result ≡ number_at (table_view table.now) field }
{
    number_at(table, field) as u32
}

/// A field of a description: its number in the table, from 1, and its range.
#[derive(Clone, Copy)]
pub struct Field {
    /// Its number, from 1.
    pub number: u32,
    /// The least number that may stand there.
    pub least: u64,
    /// The greatest number that may stand there.
    pub greatest: u64,
}

impl Field {
    fn new(number: u32, least: u64, greatest: u64) -> Field
        ensures { result ≡ field number least greatest }
    {
        Field {
            number,
            least,
            greatest,
        }
    }
}

/// The number of the field `issue`, from which the ranges of others are counted.
const ISSUE: u32 = 2;

/// The number of the field `branches`, which may be absent.
const BRANCHES: u32 = 17;

/// The name of a field; the empty text where there is no field of this number.
#[tactic(auto, unfolding(crate::specs::Descriptions::names))]
pub fn field_name(field: u32) -> &'static str
    ensures { result.now ≡ name_of field }
{
    match field {
        1 => "clusters",
        2 => "issue",
        3 => "alus",
        4 => "multipliers",
        5 => "memory_units",
        6 => "registers",
        7 => "branch_registers",
        8 => "read_ports",
        9 => "write_ports",
        10 => "copy_paths",
        11 => "latency_alu",
        12 => "latency_compare",
        13 => "latency_multiply",
        14 => "latency_load",
        15 => "latency_divide",
        16 => "latency_copy",
        17 => "branches",
        _ => "",
    }
}

/// The fields that must be there, with their ranges, at this many issue slots.
fn fields(issue: u64) -> [Field; 16]
    requires { issue < 2 ^ 63 }
    ensures { result ≡ fields issue }
{
    [
        Field::new(1, 1, 4),
        Field::new(2, 1, 4),
        Field::new(3, 1, 4),
        Field::new(4, 1, 4),
        Field::new(5, 1, 2),
        Field::new(6, 16, 64),
        Field::new(7, issue + 1, 8),
        Field::new(8, 2, 2 * issue),
        Field::new(9, 1, issue),
        Field::new(10, 1, 8),
        Field::new(11, 1, 16),
        Field::new(12, 1, 16),
        Field::new(13, 1, 16),
        Field::new(14, 1, 16),
        Field::new(15, 1, 16),
        Field::new(16, 1, 16),
    ]
}
