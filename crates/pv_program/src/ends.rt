ghost use Rattle.std.specs.Prelude.{◌≡◌, ◌<◌, ◌≤◌, None, true, length};
ghost use Rattle.std.specs.Io.{ReadsAtMost, WritesAtMost};
ghost use Rattle.io_ends.specs.Causes.{Counts};

use io_ends::{Sink, SinkFault, Source, SourceFailed};
use std::io::{self, ErrorKind, Read, Write};

/// A reader of the outside as a source. It tells nothing of what the reader holds. A read that a
/// signal interrupts is made again.
#[derive(Drop)]
pub struct Input<R> {
    reader: R,
    faults: u64,
}

impl<R> Input<R> {
    pub fn new(reader: R) -> Input<R> {
        Input { reader, faults: 0 }
    }
}

impl<R: Read> Source for Input<R> {
    ghost left = { λ _. None };

    ghost faults = { λ s. s.faults };

    fn read(&mut self, piece: &mut [u8]) -> Result<usize, SourceFailed> {
        match read_through(&mut self.reader, piece) {
            Ok(count) => Ok(count),
            Err(_) => {
                self.faults = self.faults.saturating_add(1);
                Err(SourceFailed)
            }
        }
    }
}

/// A writer to the outside as a sink. It tells nothing of what the writer took. A write or a flush
/// that a signal interrupts is made again; a writer that takes nothing of a piece that isn't empty
/// has failed.
#[derive(Drop)]
pub struct Output<W> {
    writer: W,
    faults: u64,
}

impl<W> Output<W> {
    pub fn new(writer: W) -> Output<W> {
        Output { writer, faults: 0 }
    }

    fn failed(&mut self) -> SinkFault
        ensures fault { result ≡ SinkFault.Failed }
        ensures counted { Counts true self.old.faults self.new.faults }
    {
        self.faults = self.faults.saturating_add(1);
        SinkFault::Failed
    }
}

impl<W: Write> Sink for Output<W> {
    ghost written = { λ _. None };

    ghost faults = { λ s. s.faults };

    fn write(&mut self, piece: &[u8]) -> Result<usize, SinkFault> {
        match write_through(&mut self.writer, piece) {
            Ok(0) if !piece.is_empty() => Err(self.failed()),
            Ok(count) => Ok(count),
            Err(_) => Err(self.failed()),
        }
    }

    fn flush(&mut self) -> Result<(), SinkFault> {
        match flush_through(&mut self.writer) {
            Ok(()) => Ok(()),
            Err(_) => Err(self.failed()),
        }
    }
}

/// One read, made again where a signal interrupts it.
fn read_through<R: Read>(reader: &mut R, piece: &mut [u8]) -> io::Result<usize>
    ensures { ReadsAtMost result piece.new }
{
    for _ in 0..u64::MAX {
        match reader.read(piece) {
            Ok(count) => return Ok(count),
            Err(why) if why.kind() == ErrorKind::Interrupted => {}
            Err(why) => return Err(why),
        }
    }
    Err(ErrorKind::Interrupted.into())
}

/// One write, made again where a signal interrupts it.
fn write_through<W: Write>(writer: &mut W, piece: &[u8]) -> io::Result<usize>
    ensures { WritesAtMost result piece.now }
{
    for _ in 0..u64::MAX {
        match writer.write(piece) {
            Ok(count) => return Ok(count),
            Err(why) if why.kind() == ErrorKind::Interrupted => {}
            Err(why) => return Err(why),
        }
    }
    Err(ErrorKind::Interrupted.into())
}

/// One flush, made again where a signal interrupts it.
fn flush_through<W: Write>(writer: &mut W) -> io::Result<()> {
    for _ in 0..u64::MAX {
        match writer.flush() {
            Ok(()) => return Ok(()),
            Err(why) if why.kind() == ErrorKind::Interrupted => {}
            Err(why) => return Err(why),
        }
    }
    Err(ErrorKind::Interrupted.into())
}
