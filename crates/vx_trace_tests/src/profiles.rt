// Texts of profiles, read and written, against values worked out by hand.

use std::alloc::Global as Heap;
use std::test::Fail;
use vx_base::outcome::NoMemory;
use vx_profile::counts::Counts;
use vx_profile::{ProfileFault, read_counts, write_counts};

fn fault_of(alloc: Heap, bytes: &[u8]) -> Option<ProfileFault> {
    match read_counts(alloc, bytes) {
        Ok(_) => None,
        Err(fault) => Some(fault),
    }
}

fn some_counts(alloc: Heap) -> Result<Counts, NoMemory> {
    let mut counts = Counts::new(alloc);
    counts.set_edge(0, 2, 1, 10)?;
    counts.set_block(1, 0, 18446744073709551615)?;
    counts.set_block(0, 10, 4)?;
    counts.set_block(0, 2, 3)?;
    counts.set_block(0, 3, 0)?;
    Ok(counts)
}

#[test]
fn counts_are_written(rt: HostRuntime) -> Result<(), NoMemory> {
    let alloc = rt.alloc();
    let text = write_counts(alloc, &some_counts(alloc)?)?;
    let by_hand =
        b"profile 1\nblock 0 2 3\nblock 0 10 4\nblock 1 0 18446744073709551615\nedge 0 2 1 10\n";
    assert_eq!(rt; text.as_slice(), by_hand.as_slice());
    let none = write_counts(alloc, &Counts::new(alloc))?;
    assert_eq!(rt; none.as_slice(), b"profile 1\n".as_slice());
    Ok(())
}

#[test]
fn counts_are_read(rt: HostRuntime) {
    let text =
        b"profile 1\nedge 0 2 1 10\nblock 4294967295 0 7\nblock 0 2 18446744073709551615\nedge 0 2 1 0\nblock 0 2 3\n";
    match read_counts(rt.alloc(), text) {
        Ok(counts) => {
            assert_eq!(rt; counts.of_block(0, 2), 3);
            assert_eq!(rt; counts.of_block(4294967295, 0), 7);
            assert_eq!(rt; counts.of_block(0, 0), 0);
            assert_eq!(rt; counts.of_edge(0, 2, 1), 0);
        }
        Err(_) => assert!(rt; false),
    }
    assert!(rt; fault_of(rt.alloc(), b"profile 1\n").is_none());
}

#[test]
fn first_bad_line_is_named(rt: HostRuntime) {
    let alloc = rt.alloc();
    let rows: [(&[u8], usize); 16] = [
        (b"", 1),
        (b"profile 1", 1),
        (b"profile 2\n", 1),
        (b"\nprofile 1\n", 1),
        (b"profile 1\nblock 0 0 1", 2),
        (b"profile 1\nblock 00 0 1\n", 2),
        (b"profile 1\nblock 0 0 01\n", 2),
        (b"profile 1\nblock 0 4294967296 1\n", 2),
        (b"profile 1\nblock 0 4294967296 18446744073709551616\n", 2),
        (b"profile 1\nblock 0 0 -1\n", 2),
        (b"profile 1\nblock 0  0 1\n", 2),
        (b"profile 1\nblock 0 0 1 \n", 2),
        (b"profile 1\nblock 0 0 1\n\n", 3),
        (b"profile 1\nblock 0 0 1\nedge 0 0 1\n", 3),
        (b"profile 1\nblock 0 0 1\nblock 0 0 1\r\n", 3),
        (
            b"profile 1\nblok 0 0 1\nblock 0 0 18446744073709551616\n",
            2,
        ),
    ];
    for (bytes, line) in rows {
        assert!(rt; fault_of(alloc, bytes) == Some(ProfileFault::BadLine(line)));
    }
}

#[test]
fn large_count_is_named(rt: HostRuntime) -> Result<(), Fail> {
    let alloc = rt.alloc();
    let rows: [(&[u8], usize); 3] = [
        (b"profile 1\nblock 0 0 18446744073709551616\n", 2),
        (
            b"profile 1\nblock 0 0 1\nedge 0 0 1 99999999999999999999999999999999\nblok\n",
            3,
        ),
        (
            b"profile 1\nblock 0 0 10000000000000000000000000000000000000000000000000000000000000000000\n",
            2,
        ),
    ];
    for (bytes, line) in rows {
        assert!(rt; fault_of(alloc, bytes) == Some(ProfileFault::CountTooLarge(line)));
    }
    let large = format!(in alloc; "{}", ProfileFault::CountTooLarge(2))?;
    assert!(rt; large.as_str() == "P2 at line 2");
    let bad = format!(in alloc; "{}", ProfileFault::BadLine(1))?;
    assert!(rt; bad.as_str() == "P1 at line 1");
    Ok(())
}
