// Depots in memory and of the system, and the reading of a whole file.

use std::alloc::{AllocError, Global};
use std::test::Fail;
use vx_base::outcome::NoMemory;
use vx_io::depot::{Depot, DepotFault};
use vx_io::real::RealDepot;
use vx_io::whole_file::{FileRead, read_file};
use vx_test_files::depot::MemDepot;

/// A file under a name.
fn file(alloc: Global, name: &str, content: &[u8]) -> Result<(String, Vec<u8>), AllocError> {
    let content = content.to_vec(alloc)?;
    let name = String::from_str(alloc, name)?;
    Ok((name, content))
}

/// One file, and the second call fails.
fn one_file(alloc: Global) -> Result<MemDepot, NoMemory> {
    let mut files = Vec::new(alloc);
    files.push(file(alloc, "a", b"hello")?)?;
    MemDepot::make(alloc, files, vec![in alloc; 2]?)
}

fn is_read(depot: &mut MemDepot) -> bool {
    let mut buffer = [0u8; 3];
    depot.read_at("a", 3, &mut buffer) == Ok(2) && buffer == *b"lo\0"
}

fn is_replaced(depot: &mut MemDepot) -> bool {
    let mut buffer = [0u8; 3];
    depot.replace("a", b"x") == Err(DepotFault::Failed)
        && depot.read_at("c", 0, &mut buffer) == Err(DepotFault::NoFile)
        && depot.replace("c", b"new") == Ok(())
        && depot.replace("c", b"again") == Ok(())
}

#[test]
fn a_depot_in_memory(rt: HostRuntime) -> Result<(), Fail> {
    let mut depot = one_file(rt.alloc())?;
    assert!(rt; is_read(&mut depot) && is_replaced(&mut depot));
    assert_eq!(rt; depot.file("a"), Some(b"hello".as_slice()));
    assert_eq!(rt; depot.file("b"), None);
    assert_eq!(rt; depot.file("c"), Some(b"again".as_slice()));
    Ok(())
}

#[test]
fn a_depot_of_the_system(rt: HostRuntime) -> Result<(), Fail> {
    let mut depot = RealDepot::make(rt.clone()?);
    let mut buffer = [0u8; 4];
    let missing = depot.read_at("no_such_file", 0, &mut buffer);
    assert_eq!(rt; missing, Err(DepotFault::NoFile));
    assert_eq!(rt; depot.replace("vx_base_test", b"hello"), Ok(()));
    assert_eq!(rt; depot.read_at("vx_base_test", 3, &mut buffer), Ok(2));
    assert_eq!(rt; buffer, *b"lo\0\0");
    Ok(())
}

/// A file of 5,000 bytes, which are two pieces; the sixth call fails.
fn long_file(alloc: Global) -> Result<MemDepot, NoMemory> {
    let mut bytes = vec![in alloc; 7u8; 4999]?;
    bytes.push(8)?;
    let mut files = Vec::new(alloc);
    files.push(file(alloc, "a", bytes.as_slice())?)?;
    MemDepot::make(alloc, files, vec![in alloc; 6]?)
}

fn is_long(content: &[u8]) -> bool {
    match content.split_last() {
        Some((last, others)) => {
            others.len() == 4999 && others.iter().all(|byte| *byte == 7) && *last == 8
        }
        None => false,
    }
}

fn is_whole(alloc: Global, depot: &mut MemDepot) -> bool {
    match read_file(alloc, depot, "a", 5000) {
        Ok(FileRead::Whole(content)) => is_long(content.as_slice()),
        _ => false,
    }
}

fn is_too_long(alloc: Global, depot: &mut MemDepot) -> bool {
    matches!(read_file(alloc, depot, "a", 4999), Ok(FileRead::TooLong))
}

fn fails(alloc: Global, depot: &mut MemDepot, name: &str, fault: DepotFault) -> bool {
    match read_file(alloc, depot, name, 5000) {
        Ok(_) => false,
        Err(found) => found == fault,
    }
}

// A file within a bound that it meets and one that it passes; then the sixth read, which fails.
#[test]
fn a_whole_file(rt: HostRuntime) -> Result<(), Fail> {
    let alloc = rt.alloc();
    let mut depot = long_file(alloc)?;
    assert!(rt; is_whole(alloc, &mut depot) && is_too_long(alloc, &mut depot));
    assert!(rt; fails(alloc, &mut depot, "a", DepotFault::Failed));
    assert!(rt; fails(alloc, &mut depot, "b", DepotFault::NoFile));
    Ok(())
}
