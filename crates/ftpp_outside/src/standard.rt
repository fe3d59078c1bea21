//! Readers of the system as sources, and standard output as a sink. They do not tell what they hold.
ghost use Rattle.std.specs.Prelude.{◌≡◌, ◌<◌, ◌≤◌, ◌^◌, None};
ghost use Rattle.ftpp_outside.specs.Told.{Rose};

use crate::sink::{Sink, WriteFault};
use crate::source::{ReadFault, Source};
use std::io::{Read, Stdin, Stdout, Write};

/// A reader of the system as a source, for example standard input or a file.
#[derive(Drop)]
pub struct ReaderSource<T: Read + Drop> {
    reader: T,
    faults: u64,
    taken: u64,
    ghost faults_fit: { faults < 2 ^ 64 },
    ghost taken_fits: { taken < 2 ^ 64 },
}

/// Standard input as a source.
pub type StdSource = ReaderSource<Stdin>;

impl<T: Read + Drop> ReaderSource<T> {
    /// The source of a reader.
    pub fn new(reader: T) -> Self
        ensures counts { (result.faults ≡ 0) × (result.taken ≡ 0) }
    {
        ReaderSource {
            reader,
            faults: 0,
            taken: 0,
        }
    }
}

impl<T: Read + Drop> Source for ReaderSource<T> {
    ghost left = { λ _. None };

    ghost taken = { λ s. s.taken };

    ghost faults = { λ s. s.faults };

    fn read(&mut self, into: &mut [u8]) -> Result<usize, ReadFault> {
        match self.reader.read(into) {
            Ok(n) => {
                self.taken = self.taken.saturating_add(n as u64);
                Ok(n)
            }
            Err(_) => {
                self.faults = self.faults.saturating_add(1);
                Err(ReadFault)
            }
        }
    }
}

/// Standard output as a sink. Each write is flushed. A write that takes no byte of a piece is a
/// fault.
#[derive(Drop)]
pub struct StdSink {
    stream: Stdout,
    faults: u64,
    ghost faults_fit: { faults < 2 ^ 64 },
}

impl StdSink {
    /// The sink of a stream.
    pub fn new(stream: Stdout) -> Self
        ensures { result.faults ≡ 0 }
    {
        StdSink { stream, faults: 0 }
    }

    /// Counts a fault.
    fn count(&mut self)
        ensures rose { Rose self.old.faults self.new.faults }
        ensures faults { self.old.faults ≤ self.new.faults }
    {
        self.faults = self.faults.saturating_add(1);
    }
}

impl Sink for StdSink {
    ghost written = { λ _. None };

    ghost faults = { λ s. s.faults };

    fn write(&mut self, piece: &[u8]) -> Result<usize, WriteFault> {
        let Ok(n) = self.stream.write(piece) else {
            self.count();
            return Err(WriteFault);
        };
        if n == 0 && !piece.is_empty() {
            self.count();
            return Err(WriteFault);
        }
        if self.stream.flush().is_err() {
            self.count();
            return Err(WriteFault);
        }
        Ok(n)
    }
}
