//! Standard input as a source, and standard output as a sink.
ghost use Rattle.std.specs.Prelude.{◌≡◌, ◌<◌, ◌≤◌, length, IfOk, None};
ghost use Rattle.page_ids.specs.Faults.{IsCounted};
ghost use Rattle.page_disk.specs.Streams.{TakesPiece, PutsPiece};
ghost use Rattle.page_disk.specs.Calls.{CountsOnce};

use page_disk::{FaultCount, Sink, Source};
use page_ids::Failed;
use std::io::{self, ErrorKind, Read, Write};

/// Bytes that one call moves at most: many times a short script, and within a count of 32 bits.
const PIECE: usize = 0x1_0000;

/// The system's number for the error of a descriptor that isn't open (`EBADF`).
const NOT_OPEN: i32 = 9;

/// A call that signals interrupt so often has failed.
const TRIES: u32 = 1000;

/// Reads to the front of `out`, and tries again where a signal came in between.
fn read_some<R: Read>(reader: &mut R, out: &mut [u8]) -> io::Result<usize>
    ensures { IfOk result (λ n. n ≤ length out.new) }
{
    for _ in 0..TRIES {
        match reader.read(out) {
            Err(error) if error.kind() == ErrorKind::Interrupted => (),
            answer => return answer,
        }
    }
    Err(io::Error::from(ErrorKind::Interrupted))
}

/// Writes from the front of a piece, and tries again where a signal came in between.
fn write_some<W: Write>(writer: &mut W, piece: &[u8]) -> io::Result<usize>
    ensures { IfOk result (λ n. n ≤ length piece.now) }
{
    for _ in 0..TRIES {
        match writer.write(piece) {
            Err(error) if error.kind() == ErrorKind::Interrupted => (),
            answer => return answer,
        }
    }
    Err(io::Error::from(ErrorKind::Interrupted))
}

/// Hands on what was written, and tries again where a signal came in between.
fn flush_all<W: Write>(writer: &mut W) -> io::Result<()> {
    for _ in 0..TRIES {
        match writer.flush() {
            Err(error) if error.kind() == ErrorKind::Interrupted => (),
            answer => return answer,
        }
    }
    Err(io::Error::from(ErrorKind::Interrupted))
}

/// A reader as a source. Tells no content.
#[derive(Drop)]
pub struct InputStream<R: Read + Drop> {
    reader: R,
    faults: FaultCount,
}

impl<R: Read + Drop> InputStream<R> {
    pub fn new(reader: R) -> InputStream<R>
        ensures { result.faults ≡ 0 }
    {
        InputStream {
            reader,
            faults: FaultCount::new(),
        }
    }
}

impl<R: Read + Drop> Source for InputStream<R> {
    ghost left = { λ _. None };

    ghost fault_count = { λ s. s.faults };

    /// A reader whose descriptor is closed reads as empty.
    fn take(&mut self, out: &mut [u8]) -> Result<u32, Failed>
        requires { 0 < length out.old }
        ensures bytes { TakesPiece None None result out.new }
        ensures cause { IsCounted self.old.faults self.new.faults result }
        ensures once { CountsOnce self.old.faults self.new.faults result }
    {
        let most = out.len().min(PIECE);
        match read_some(&mut self.reader, &mut out[..most]) {
            Ok(n) => Ok(n as u32),
            Err(error) if error.raw_os_error() == Some(NOT_OPEN) => Ok(0),
            Err(_) => Err(self.faults.fail()),
        }
    }
}

/// A writer as a sink. Tells no content.
#[derive(Drop)]
pub struct OutputStream<W: Write + Drop> {
    writer: W,
    faults: FaultCount,
}

impl<W: Write + Drop> OutputStream<W> {
    pub fn new(writer: W) -> OutputStream<W>
        ensures { result.faults ≡ 0 }
    {
        OutputStream {
            writer,
            faults: FaultCount::new(),
        }
    }

    /// Writes from the front of a piece and flushes, so that no later call has to tell of a fault of this one.
    fn write(&mut self, piece: &[u8]) -> io::Result<usize>
        ensures most { IfOk result (λ n. (n ≤ length piece.now) × (n ≤ 65536)) }
        ensures same { self.new.faults ≡ self.old.faults }
    {
        let most = piece.len().min(PIECE);
        let n = write_some(&mut self.writer, &piece[..most])?;
        flush_all(&mut self.writer)?;
        Ok(n)
    }
}

impl<W: Write + Drop> Sink for OutputStream<W> {
    ghost held = { λ _. None };

    ghost fault_count = { λ s. s.faults };

    /// A writer that takes nothing of a piece has failed.
    fn put(&mut self, piece: &[u8]) -> Result<u32, Failed>
        requires { 0 < length piece.now }
        ensures bytes { PutsPiece None None result piece.now }
        ensures cause { IsCounted self.old.faults self.new.faults result }
        ensures once { CountsOnce self.old.faults self.new.faults result }
    {
        match self.write(piece) {
            Ok(n) if n > 0 => Ok(n as u32),
            _ => Err(self.faults.fail()),
        }
    }
}
