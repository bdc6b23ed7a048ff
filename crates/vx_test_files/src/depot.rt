// A depot in memory. It may fail; it counts the reads and the replacings that failed.
ghost use Rattle.std.specs.Prelude.{◌≡◌, ◌≢◌, ◌<◌, ◌≤◌, ◌-◌, Option, Some, None, length, take, drop, min, IsTrue, ◌↔◌, IfOk, OnOk, OnErr, IsErrOf, IsOk, IsOkUnless, IfSome, not, string_bytes};
ghost use Rattle.std.specs.List.{prefix_len};
ghost use Rattle.std.specs.Str.{bytes_eq};
ghost use Rattle.std.specs.Result.{result_unwrap_or};
ghost use Rattle.std.specs.Option.{option_copied};
ghost use Rattle.vx_io.specs.Outside.{Rose, held_with, with_file, ReadsAt, ReplacesPartly};
ghost use Rattle.vx_test_files.specs.Memory.{content_in, named_files, NamesDiffer, next_fails, after_read, after_replace};

use std::alloc::Global;
use std::marker::Model;
use vx_base::outcome::NoMemory;
use vx_io::depot::{Depot, DepotFault};

/// A depot in memory, which tells its files.
#[derive(Drop)]
pub struct MemDepot {
    alloc: Global,
    files: Vec<(String, Vec<u8>)>,
    failing: Vec<u64>,
    calls: u64,
    failed_reads: u64,
    failed_replaces: u64,
}

impl Model for MemDepot {
    ghost use Rattle.vx_test_files.specs.Memory.{DepotMemory, named_files};

    ghost Value = { DepotMemory };

    ghost view = { λ a. record { files = named_files a.files.items; failing = a.failing.items; calls = a.calls; failed_reads = a.failed_reads; failed_replaces = a.failed_replaces } };
}

/// The place in the list of the first file with this name, or the list's length.
fn place_of(files: &[(String, Vec<u8>)], name: &str) -> usize
    ensures { result ≡ prefix_len (λ file. not (bytes_eq name.now (string_bytes file.0))) files.now }
{
    files
        .iter()
        .take_while(|file| name != file.0.as_str())
        .count()
}

/// The content of the first file with this name.
fn content_of<'a>(files: &'a [(String, Vec<u8>)], name: &str) -> Option<&'a [u8]>
    ensures { option_copied result ≡ content_in (named_files files.now) name.now }
{
    let at = place_of(files, name);
    if at < files.len() {
        Some(files[at].1.as_slice())
    } else {
        None
    }
}

/// Gives the first file with this name a content, or puts a new file behind the others.
fn set_content(
    alloc: Global,
    files: &mut Vec<(String, Vec<u8>)>,
    name: &str,
    content: Vec<u8>,
) -> Result<(), DepotFault>
    ensures set { OnOk result (content_in (named_files files.new.items) ≡ held_with name.now content.items (content_in (named_files files.old.items))) }
    ensures unchanged { OnErr result (files.new.items ≡ files.old.items) }
    ensures only_memory { IsOkUnless result DepotFault.NoMemory }
{
    let at = place_of(files, name);
    if at < files.len() {
        let file = &mut files[at];
        file.1 = content;
        return Ok(());
    }
    let name = String::from_str(alloc, name)?;
    files.push((name, content))?;
    Ok(())
}

/// Copies bytes from a place on to the front of a buffer, and answers how many: as many as there are and have room.
fn copy_at(content: &[u8], place: u64, into: &mut [u8]) -> usize
    ensures count { result ≡ min (length into.old) (length content.now - place) }
    ensures front { take result into.new ≡ take result (drop place content.now) }
    ensures rest { drop result into.new ≡ drop result into.old }
{
    let start = content.len().min(place as usize);
    let rest = &content[start..];
    let count = into.len().min(rest.len());
    into[..count].copy_from_slice(&rest[..count]);
    count
}

/// Reads bytes of the first file with this name.
fn read_named(
    files: &[(String, Vec<u8>)],
    name: &str,
    place: u64,
    into: &mut [u8],
) -> Result<usize, DepotFault>
    ensures at_most_room { IfOk result (λ count. count ≤ length into.old) }
    ensures bytes { IfOk result (λ count. ReadsAt (content_in (named_files files.now)) name.now place count into.new) }
    ensures as_many { IfOk result (λ count. IfSome (content_in (named_files files.now) name.now) (λ content. count ≡ min (length into.old) (length content - place))) }
    ensures rest { drop (result_unwrap_or result 0) into.new ≡ drop (result_unwrap_or result 0) into.old }
    ensures no_file { OnErr result (content_in (named_files files.now) name.now ≡ None) }
    ensures only_missing { IsOkUnless result DepotFault.NoFile }
{
    match content_of(files, name) {
        Some(content) => Ok(copy_at(content, place, into)),
        None => Err(DepotFault::NoFile),
    }
}

impl MemDepot {
    /// A depot of these files, whose names differ. Its calls are numbered from 1, and those listed fail.
    pub fn make(
        alloc: Global,
        files: Vec<(String, Vec<u8>)>,
        failing: Vec<u64>,
    ) -> Result<MemDepot, NoMemory>
        requires { NamesDiffer (named_files files.items) }
        ensures made { IsOk result }
        ensures files { IfOk result (λ depot. depot.files ≡ named_files files.items) }
        ensures failing { IfOk result (λ depot. depot.failing ≡ failing.items) }
        ensures unused { IfOk result (λ depot. (depot.calls ≡ 0) × (depot.failed_reads ≡ 0) × (depot.failed_replaces ≡ 0)) }
    {
        Ok(MemDepot {
            alloc,
            files,
            failing,
            calls: 0,
            failed_reads: 0,
            failed_replaces: 0,
        })
    }

    /// What the file of this name holds.
    pub fn file(&self, name: &str) -> Option<&[u8]>
        ensures { option_copied result ≡ content_in self.now.files name.now }
    {
        content_of(&self.files, name)
    }
}

impl Depot for MemDepot {
    ghost files = { λ depot. Some (content_in depot.files) };

    ghost failed_reads = { λ depot. depot.failed_reads };

    ghost failed_replaces = { λ depot. depot.failed_replaces };

    fn read_at(&mut self, name: &str, place: u64, into: &mut [u8]) -> Result<usize, DepotFault>
        ensures same_files { Some (content_in self.new.files) ≡ Some (content_in self.old.files) }
        ensures at_most_room { IfOk result (λ count. count ≤ length into.old) }
        ensures bytes { IfOk result (λ count. ReadsAt (content_in self.old.files) name.now place count into.new) }
        ensures rest_of_buffer { drop (result_unwrap_or result 0) into.new ≡ drop (result_unwrap_or result 0) into.old }
        ensures failed { IsErrOf result DepotFault.Failed → Rose self.old.failed_reads self.new.failed_reads }
        ensures no_file { IsErrOf result DepotFault.NoFile → content_in self.old.files name.now ≡ None }
        ensures reads_never_fall { self.old.failed_reads ≤ self.new.failed_reads }
        ensures replaces_never_fall { self.old.failed_replaces ≤ self.new.failed_replaces }

        // Exactly the calls that are listed fail. The others give as many bytes as there are and have room.
        ensures fails_as_listed { IsErrOf result DepotFault.Failed ↔ IsTrue (next_fails self.old) }
        ensures as_many { IfOk result (λ count. IfSome (content_in self.old.files name.now) (λ content. count ≡ min (length into.old) (length content - place))) }
        ensures no_memory_taken { result ≢ Err DepotFault.NoMemory }
        ensures after { self.new ≡ after_read self.old }
    {
        self.calls = self.calls.saturating_add(1);
        if self.failing.contains(&self.calls) {
            self.failed_reads = self.failed_reads.saturating_add(1);
            return Err(DepotFault::Failed);
        }
        read_named(&self.files, name, place, into)
    }

    fn replace(&mut self, name: &str, bytes: &[u8]) -> Result<(), DepotFault>
        ensures replaced { OnOk result (Some (content_in self.new.files) ≡ with_file (Some (content_in self.old.files)) name.now bytes.now) }
        ensures partly { IsErrOf result DepotFault.Failed → ReplacesPartly (Some (content_in self.old.files)) (Some (content_in self.new.files)) name.now bytes.now }
        ensures failed { IsErrOf result DepotFault.Failed → Rose self.old.failed_replaces self.new.failed_replaces }
        ensures no_memory { IsErrOf result DepotFault.NoMemory → Some (content_in self.new.files) ≡ Some (content_in self.old.files) }
        ensures no_missing_file { result ≢ Err DepotFault.NoFile }
        ensures reads_never_fall { self.old.failed_reads ≤ self.new.failed_reads }
        ensures replaces_never_fall { self.old.failed_replaces ≤ self.new.failed_replaces }

        // Exactly the calls that are listed fail, and one that does or has no memory leaves the files.
        ensures fails_as_listed { IsErrOf result DepotFault.Failed ↔ IsTrue (next_fails self.old) }
        ensures unchanged { OnErr result (self.new.files ≡ self.old.files) }
        ensures after { self.new ≡ after_replace self.old self.new.files }
    {
        self.calls = self.calls.saturating_add(1);
        if self.failing.contains(&self.calls) {
            self.failed_replaces = self.failed_replaces.saturating_add(1);
            return Err(DepotFault::Failed);
        }
        let content = Vec::from_slice(self.alloc, bytes)?;
        set_content(self.alloc, &mut self.files, name, content)
    }
}
