// Where bytes are put: the trait of every output of the compiler, a sink in memory, and the call that puts all
// bytes of a text. A sink may take fewer bytes than it is given and may fail; it counts its faults.
ghost use Rattle.std.specs.Prelude.{◌≡◌, ◌<◌, ◌≤◌, ℕ, List, [], Option, Some, length, take, if◌then◌else◌, is_ok, IfOk, OnErr, OnOk, not};
ghost use Rattle.vx_io.specs.Outside.{Rose, one_more, with_bytes, PutsFront, bytes_that_fit, put_fails};

use std::alloc::Global;
use std::marker::Model;
use thiserror::Error;
use vx_base::outcome::NoMemory;

/// The one way in which a put fails.
#[derive(Clone, Copy, PartialEq, Eq, Debug, Error)]
pub enum SinkFault {
    /// The sink failed, and took nothing.
    #[error("the output cannot be written")]
    Failed,
}

/// A place for bytes, one piece after another.
pub trait Sink {
    /// The bytes put so far, where the sink tells them.
    ghost told: { Self → Option (List ℕ) };

    /// How many puts failed. It stays at the greatest `u64`.
    ghost faults: { Self → ℕ };

    /// Takes the first bytes of a piece and answers how many: of a piece that is not empty at least one.
    fn put(&mut self, bytes: &[u8]) -> Result<usize, SinkFault>
        ensures at_most_all { IfOk result (λ count. count ≤ length bytes.now) }
        ensures at_least_one { IfOk result (λ count. 0 < length bytes.now → 0 < count) }
        ensures first_bytes { IfOk result (λ count. told self.new ≡ with_bytes (told self.old) (take count bytes.now)) }

        // One that fails takes nothing, and fails only by a fault that is counted.
        ensures nothing { OnErr result (told self.new ≡ told self.old) }
        ensures failed { OnErr result (Rose (faults self.old) (faults self.new)) }
        ensures faults_never_fall { faults self.old ≤ faults self.new };
}

/// Puts all bytes, in as many puts as the sink needs. It takes no memory.
pub fn put_all<K: Sink>(out: &mut K, bytes: &[u8]) -> Result<(), SinkFault>
    ensures all { OnOk result (K.told out.new ≡ with_bytes (K.told out.old) bytes.now) }

    // On a fault a front of the bytes was put.
    ensures front { OnErr result (PutsFront (K.told out.old) (K.told out.new) bytes.now) }
    ensures failed { OnErr result (Rose (K.faults out.old) (K.faults out.new)) }
    ensures faults_never_fall { K.faults out.old ≤ K.faults out.new }
{
    let mut rest = bytes;
    'pieces: loop {
        if rest.is_empty() {
            return Ok(());
        }
        let taken = out.put(rest)?;
        rest = &rest[taken..];
    }
}

/// A sink in memory. It takes its room when it is made, and no memory afterwards.
#[derive(Drop)]
pub struct MemSink {
    held: Vec<u8>,
    room: usize,
    failing: Vec<u64>,
    puts: u64,
    faults: u64,
}

impl Model for MemSink {
    ghost use Rattle.std.specs.Prelude.{◌≤◌, vec_len};
    ghost use Rattle.std.specs.Vec.{vec_capacity};
    ghost use Rattle.vx_io.specs.Outside.{SinkMemory};

    ghost Value = { SinkMemory };

    ghost view = { λ a. record { bytes = a.held.items; room = a.room; failing = a.failing.items; puts = a.puts; faults = a.faults } };

    ghost invariant = { λ a. (vec_len a.held ≤ a.room) × (a.room ≤ vec_capacity a.held) };
}

impl MemSink {
    /// An empty sink with room for so many bytes. The puts are numbered from 1, and those listed fail.
    pub fn make(alloc: Global, room: usize, failing: Vec<u64>) -> Result<MemSink, NoMemory>
        ensures empty { IfOk result (λ sink. sink.bytes ≡ []) }
        ensures room { IfOk result (λ sink. sink.room ≡ room) }
        ensures failing { IfOk result (λ sink. sink.failing ≡ failing.items) }
        ensures unused { IfOk result (λ sink. (sink.puts ≡ 0) × (sink.faults ≡ 0)) }
    {
        let held = Vec::with_capacity(alloc, room)?;
        Ok(MemSink {
            held,
            room,
            failing,
            puts: 0,
            faults: 0,
        })
    }

    /// The bytes put so far.
    pub fn bytes(&self) -> &[u8]
        ensures { result.now ≡ self.now.bytes }
    {
        self.held.as_slice()
    }
}

impl Sink for MemSink {
    ghost told = { λ sink. Some sink.bytes };

    ghost faults = { λ sink. sink.faults };

    fn put(&mut self, bytes: &[u8]) -> Result<usize, SinkFault>
        ensures at_most_all { IfOk result (λ count. count ≤ length bytes.now) }
        ensures at_least_one { IfOk result (λ count. 0 < length bytes.now → 0 < count) }
        ensures first_bytes { IfOk result (λ count. Some self.new.bytes ≡ with_bytes (Some self.old.bytes) (take count bytes.now)) }
        ensures nothing { OnErr result (Some self.new.bytes ≡ Some self.old.bytes) }
        ensures failed { OnErr result (Rose self.old.faults self.new.faults) }
        ensures faults_never_fall { self.old.faults ≤ self.new.faults }

        // Exactly the puts that are listed fail, and those of bytes of which none fits.
        ensures fails { is_ok result ≡ not (put_fails self.old bytes.now) }
        ensures what_fits { IfOk result (λ count. count ≡ bytes_that_fit self.old bytes.now) }
        ensures counted { self.new.puts ≡ one_more self.old.puts }
        ensures fault_counted { self.new.faults ≡ (if is_ok result then self.old.faults else one_more self.old.faults) }
        ensures same_room { self.new.room ≡ self.old.room }
        ensures same_list { self.new.failing ≡ self.old.failing }
    {
        self.puts = self.puts.saturating_add(1);
        let fits = (self.room - self.held.len()).min(bytes.len());
        let is_full = fits == 0 && !bytes.is_empty();
        if self.failing.contains(&self.puts) || is_full {
            self.faults = self.faults.saturating_add(1);
            return Err(SinkFault::Failed);
        }
        let appended = self.held.extend_from_slice(&bytes[..fits]);
        let is_appended = appended.is_ok();
        prove!(is_appended);
        Ok(fits)
    }
}
