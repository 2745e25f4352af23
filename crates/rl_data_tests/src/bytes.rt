//! Sources and sinks, and what is read and written where a call fails.

ghost use Rattle.std.specs.Prelude.{◌≤◌, IfOk};

use rl_base::list::{Bytes, Fails};
use rl_io::memory_sink::MemSink;
use rl_io::memory_source::MemSource;
use rl_io::sink::{Sink, write_whole};
use rl_io::source::{ReadError, read_all};
use rl_io::standard_sink::StdSink;
use rl_io::standard_source::StdSource;
use std::alloc::{AllocError, Global};
use std::io;
use std::io::{Cursor, ErrorKind, Read, Write};
use std::test::Fail;

/// How many bytes a reader gives at a call and which of its calls fails, or none; the last reads more than a source asks
/// for at a time.
const READS: [(usize, u32); 4] = [(20_000, 0), (20_000, 2), (4_096, 3), (5, 2)];

/// Which call of a writer that takes 3 bytes at a time fails, or none, and what it has taken at the end.
const WRITES: [(u32, &str); 4] = [(0, "some bytes"), (1, ""), (2, "som"), (4, "some byte")];

/// Takes or gives at most `step` bytes at a call, and fails at one of its calls, which are counted
/// from 1.
#[derive(Drop)]
struct Halting<T> {
    inner: T,
    step: usize,
    failing: u32,
    calls: u32,
}

impl<T> Halting<T> {
    fn turn(&mut self, len: usize) -> io::Result<usize>
        ensures { IfOk result (λ n. n ≤ len) }
    {
        self.calls = self.calls.saturating_add(1);
        if self.calls == self.failing {
            return Err(io::Error::from(ErrorKind::Interrupted));
        }
        Ok(len.min(self.step))
    }
}

impl<T: Read> Read for Halting<T> {
    fn read(&mut self, buf: &mut [u8]) -> io::Result<usize> {
        let count = self.turn(buf.len())?;
        self.inner.read(&mut buf[..count])
    }
}

impl<T: Write> Write for Halting<T> {
    fn write(&mut self, buf: &[u8]) -> io::Result<usize> {
        let count = self.turn(buf.len())?;
        self.inner.write(&buf[..count])
    }

    fn flush(&mut self) -> io::Result<()> {
        Ok(())
    }
}

/// 10,000 bytes, of which no 251 that follow one another are as others.
fn many_bytes(alloc: Global) -> Result<Vec<u8>, AllocError> {
    (0..10_000u32).map(|i| (i % 251) as u8).collect(alloc)
}

#[test]
fn all_bytes_are_read(rt: HostRuntime) -> Result<(), Fail> {
    let bytes = Bytes::from_slice(rt.alloc(), b"seven b")?;
    let mut source = MemSource::new(bytes, 3, Fails::new(rt.alloc()));
    let read = read_all(rt.alloc(), &mut source, 7)?;
    assert_eq!(rt; read.as_slice(), b"seven b".as_slice());
    Ok(())
}

#[test]
fn each_write_is_handed_all_that_are_to_go(rt: HostRuntime) -> Result<(), Fail> {
    let bytes = many_bytes(rt.alloc())?;
    let mut fails = Fails::new(rt.alloc());
    fails.push(2)?;
    let mut sink = MemSink::new(rt.alloc(), 20_000, 20_000, fails)?;
    assert!(rt; write_whole(&mut sink, bytes.as_slice()).is_ok());
    assert_eq!(rt; sink.bytes(), bytes.as_slice());
    Ok(())
}

#[test]
fn errors_of_readers_of_std_end_the_reading(rt: HostRuntime) -> Result<(), Fail> {
    let bytes = many_bytes(rt.alloc())?;
    for (step, failing) in READS {
        let mut source = StdSource::new(Halting {
            inner: Cursor::new(bytes.as_slice()),
            step,
            failing,
            calls: 0,
        });
        match read_all(rt.alloc(), &mut source, 10_000) {
            Ok(read) => assert_eq!(rt; (failing, read.as_slice()), (0, bytes.as_slice())),
            Err(e) => assert_eq!(rt; (failing > 0, e), (true, ReadError::ReadFault)),
        }
    }
    Ok(())
}

#[test]
fn errors_of_writers_of_std_end_the_writing(rt: HostRuntime) -> Result<(), Fail> {
    for (failing, held) in WRITES {
        let mut taken = Vec::new(rt.alloc());
        let outcome = {
            let mut sink = StdSink::new(Halting {
                inner: &mut taken,
                step: 3,
                failing,
                calls: 0,
            });
            write_whole(&mut sink, b"some bytes")
        };
        assert_eq!(rt; outcome.is_ok(), failing == 0);
        assert_eq!(rt; taken.as_slice(), held.as_bytes());
    }
    Ok(())
}

#[test]
fn a_writer_that_takes_nothing_is_a_fault(rt: HostRuntime) {
    let mut sink = StdSink::new(Halting {
        inner: Vec::new(rt.alloc()),
        step: 0,
        failing: 0,
        calls: 0,
    });
    assert!(rt; write_whole(&mut sink, b"some bytes").is_err());
    assert_eq!(rt; sink.write(b""), Ok(0));
}
