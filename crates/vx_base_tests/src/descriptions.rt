// The numbers of descriptions of machines.

use crate::fields::fields_of;
use std::alloc::Global;
use std::test::Fail;
use vx_base::outcome::NoMemory;
use vx_machine::{Machine, MachineFault, field_name, from_toml};
use vx_test_machines::{Kind, machine};

/// The default machine with four clusters, but that nothing is said of its last latency.
const FRONT: &[u8] = b"clusters = 4
issue = 4
alus = 4
multipliers = 2
memory_units = 1
registers = 64
branch_registers = 8
read_ports = 8
write_ports = 4
copy_paths = 2
latency_alu = 1
latency_compare = 2
latency_multiply = 2
latency_load = 3
latency_divide = 8
";

fn has_numbers(alloc: Global, kind: Kind, wanted: &[u32; 17]) -> bool {
    match machine(alloc, kind) {
        Ok(machine) => fields_of(&machine) == *wanted,
        Err(NoMemory) => false,
    }
}

/// What a description with these lines behind those of the default machine gives.
fn read_with(alloc: Global, lines: &[u8]) -> Result<Result<Machine, MachineFault>, NoMemory> {
    let mut text = FRONT.to_vec(alloc)?;
    text.extend_from_slice(lines)?;
    Ok(from_toml(alloc, text.as_slice()))
}

/// Whether they give the default machine with four clusters and so many branches a word.
fn has_branches(alloc: Global, lines: &[u8], branches: u32) -> Result<bool, NoMemory> {
    let mut wanted = fields_of(&Machine::vex(4));
    wanted[16] = branches;
    match read_with(alloc, lines)? {
        Ok(machine) => Ok(fields_of(&machine) == wanted),
        Err(_) => Ok(false),
    }
}

/// Whether they are refused by this fault at this field.
fn is_bad(alloc: Global, lines: &[u8], code: u32, field: u32) -> Result<bool, NoMemory> {
    match read_with(alloc, lines)? {
        Ok(_) => Ok(false),
        Err(fault) => Ok(fault == MachineFault::Bad { code, field }),
    }
}

#[test]
fn descriptions_of_machines(rt: HostRuntime) -> Result<(), Fail> {
    let alloc = rt.alloc();
    let narrow = [1, 1, 1, 1, 1, 16, 2, 2, 1, 1, 1, 2, 2, 3, 8, 1, 1];
    let two_branches = [1, 4, 4, 2, 1, 64, 8, 8, 4, 2, 1, 2, 2, 3, 8, 1, 2];
    assert!(rt; has_numbers(alloc, Kind::Narrow, &narrow));
    assert!(rt; has_numbers(alloc, Kind::TwoBranches, &two_branches));
    Ok(())
}

// Where nothing is said of the branches, a word has one.
#[test]
fn branches_of_a_word(rt: HostRuntime) -> Result<(), Fail> {
    let alloc = rt.alloc();
    assert!(rt; has_branches(alloc, b"latency_copy = 1\n", 1)?);
    assert!(rt; has_branches(alloc, b"latency_copy = 1\nbranches = 1\n", 1)?);
    assert!(rt; has_branches(alloc, b"branches = 2\nlatency_copy = 1\n", 2)?);
    assert!(rt; is_bad(alloc, b"latency_copy = 1\nbranches = 0\n", 3, 17)?);
    assert!(rt; is_bad(alloc, b"latency_copy = 1\nbranches = 3\n", 3, 17)?);
    assert!(rt; is_bad(alloc, b"latency_copy = 1\nbranches = \"2\"\n", 3, 17)?);
    Ok(())
}

// The branches are tested last.
#[test]
fn faults_of_fields(rt: HostRuntime) -> Result<(), Fail> {
    let alloc = rt.alloc();
    assert!(rt; is_bad(alloc, b"", 2, 16)?);
    assert!(rt; is_bad(alloc, b"branches = 3\n", 2, 16)?);
    assert!(rt; is_bad(alloc, b"branches = 3\nlatency_copy = 17\n", 3, 16)?);
    assert!(rt; is_bad(alloc, b"branches = 3\nbranch = 1\n", 4, 0)?);
    assert!(rt; field_name(2) == "issue" && field_name(16) == "latency_copy");
    assert!(rt; field_name(17) == "branches" && field_name(18) == "");
    Ok(())
}
