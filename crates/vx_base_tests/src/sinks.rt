// Sinks in memory and over a writer, and the lines of a text.

use std::alloc::Global;
use std::test::Fail;
use vx_base::outcome::NoMemory;
use vx_io::real::RealSink;
use vx_io::sink::{MemSink, Sink, SinkFault, put_all};
use vx_test_files::lines::Lines;

/// A sink with room for five bytes, of which the second put fails.
fn sink(alloc: Global) -> Result<MemSink, NoMemory> {
    MemSink::make(alloc, 5, vec![in alloc; 2]?)
}

fn takes_what_fits(sink: &mut MemSink) -> bool {
    put_all(sink, b"abc") == Ok(())
        && sink.put(b"d") == Err(SinkFault::Failed)
        && put_all(sink, b"defg") == Err(SinkFault::Failed)
        && sink.bytes() == b"abcde".as_slice()
}

#[test]
fn a_sink_in_memory(rt: HostRuntime) -> Result<(), Fail> {
    let mut sink = sink(rt.alloc())?;
    assert!(rt; takes_what_fits(&mut sink));
    Ok(())
}

#[test]
fn a_sink_over_a_writer(rt: HostRuntime) {
    let mut written = Vec::new(rt.alloc());
    let mut sink = RealSink::make(&mut written);
    assert_eq!(rt; put_all(&mut sink, b"abc"), Ok(()));
    assert_eq!(rt; written.as_slice(), b"abc".as_slice());
}

/// Whether the next line is this one, with a line feed behind it or not.
fn comes(lines: &mut Lines<'_>, bytes: &[u8], ended: bool) -> bool {
    match lines.next_line() {
        Some(line) => line.bytes == bytes && line.ended == ended,
        None => false,
    }
}

#[test]
fn lines_of_a_text(rt: HostRuntime) {
    let mut lines = Lines::make(b"ab\n\ncd");
    assert!(rt; comes(&mut lines, b"ab", true) && comes(&mut lines, b"", true));
    assert!(rt; comes(&mut lines, b"cd", false) && lines.next_line().is_none());
}
