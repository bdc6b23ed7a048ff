// The files and streams of the system, as a depot and as a sink. They tell no content, since no contract can say
// what a file or a stream holds; each failure is counted. In a contract each is its counts.
ghost use Rattle.std.specs.Prelude.{None, ◌≡◌, IfOk, length, ◌≤◌};

use crate::depot::{Depot, DepotFault};
use crate::sink::{Sink, SinkFault};
use std::io::{ErrorKind, Read, Seek, SeekFrom, Write};
use std::marker::Model;
use std::rt::Files;
use std::{fs, io};

/// The files of the system.
#[derive(Drop)]
pub struct RealDepot<R> {
    rt: R,
    failed_reads: u64,
    failed_replaces: u64,
}

impl<R> Model for RealDepot<R> {
    ghost use Rattle.vx_io.specs.Outside.{DepotCounts};

    ghost Value = { DepotCounts };

    ghost view = { λ a. record { failed_reads = a.failed_reads; failed_replaces = a.failed_replaces } };
}

impl<R: Files> RealDepot<R> {
    /// The files that a runtime reaches, with no failure counted.
    pub fn make(rt: R) -> RealDepot<R>
        ensures { result ≡ record { failed_reads = 0; failed_replaces = 0 } }
    {
        RealDepot {
            rt,
            failed_reads: 0,
            failed_replaces: 0,
        }
    }

    /// One read of a file, from a place on.
    fn read_once(&self, name: &str, place: u64, into: &mut [u8]) -> io::Result<usize>
        ensures { IfOk result (λ count. count ≤ length into.old) }
    {
        let mut file = fs::open(&self.rt, name)?;
        file.seek(SeekFrom::Start(place))?;
        file.read(into)
    }
}

impl<R: Files> Depot for RealDepot<R> {
    ghost files = { λ _. None };

    ghost failed_reads = { λ depot. depot.failed_reads };

    ghost failed_replaces = { λ depot. depot.failed_replaces };

    fn read_at(&mut self, name: &str, place: u64, into: &mut [u8]) -> Result<usize, DepotFault> {
        match self.read_once(name, place, into) {
            Ok(count) => Ok(count),
            Err(error) => {
                self.failed_reads = self.failed_reads.saturating_add(1);
                if error.kind() == ErrorKind::NotFound {
                    Err(DepotFault::NoFile)
                } else {
                    Err(DepotFault::Failed)
                }
            }
        }
    }

    fn replace(&mut self, name: &str, bytes: &[u8]) -> Result<(), DepotFault> {
        match fs::write(&self.rt, name, bytes) {
            Ok(()) => Ok(()),
            Err(_) => {
                self.failed_replaces = self.failed_replaces.saturating_add(1);
                Err(DepotFault::Failed)
            }
        }
    }
}

/// A stream of the system, or any other writer.
#[derive(Drop)]
pub struct RealSink<W> {
    to: W,
    faults: u64,
}

impl<W> Model for RealSink<W> {
    ghost use Rattle.std.specs.Prelude.{ℕ};

    ghost Value = { ℕ };

    ghost view = { λ a. a.faults };
}

impl<W: Write> RealSink<W> {
    /// A sink that writes to this writer, with no fault counted.
    pub fn make(to: W) -> RealSink<W>
        ensures { result ≡ 0 }
    {
        RealSink { to, faults: 0 }
    }
}

impl<W: Write> Sink for RealSink<W> {
    ghost told = { λ _. None };

    ghost faults = { λ sink. sink };

    fn put(&mut self, bytes: &[u8]) -> Result<usize, SinkFault> {
        match self.to.write(bytes) {
            Ok(count) if count > 0 || bytes.is_empty() => Ok(count),
            _ => {
                self.faults = self.faults.saturating_add(1);
                Err(SinkFault::Failed)
            }
        }
    }
}
