use crate::disk_files::write_whole;
use cf_base::{Failed, Sink, Source};
use std::io::{Read, Write};

/// A source over a reader. Nothing is told of its bytes.
#[derive(Drop)]
pub struct StreamSource<R> {
    reader: R,
    faults: u64,
}

/// A sink over a writer. Nothing is told of its bytes.
#[derive(Drop)]
pub struct StreamSink<W> {
    writer: W,
    faults: u64,
}

impl<R> StreamSource<R> {
    pub fn new(reader: R) -> StreamSource<R> {
        StreamSource { reader, faults: 0 }
    }
}

impl<W> StreamSink<W> {
    pub fn new(writer: W) -> StreamSink<W> {
        StreamSink { writer, faults: 0 }
    }
}

impl<R: Read> Source for StreamSource<R> {
    ghost use Rattle.std.specs.Prelude.{false, []};

    ghost stream = { λ s. record { told = false; bytes = []; handed_on = 0; faults = s.faults } };

    fn next(&mut self) -> Result<Option<u8>, Failed> {
        let mut byte = [0u8; 1];
        match self.reader.read(&mut byte) {
            Ok(0) => Ok(None),
            Ok(_) => Ok(Some(byte[0])),
            Err(_) => {
                self.faults = self.faults.saturating_add(1);
                Err(Failed)
            }
        }
    }
}

impl<W: Write> Sink for StreamSink<W> {
    ghost use Rattle.std.specs.Prelude.{false, []};

    ghost stream = { λ s. record { told = false; bytes = []; handed_on = 0; faults = s.faults } };

    fn put(&mut self, piece: &[u8]) -> Result<(), Failed> {
        if write_whole(&mut self.writer, piece) {
            Ok(())
        } else {
            self.faults = self.faults.saturating_add(1);
            Err(Failed)
        }
    }

    fn flush(&mut self) -> Result<(), Failed> {
        match self.writer.flush() {
            Ok(()) => Ok(()),
            Err(_) => {
                self.faults = self.faults.saturating_add(1);
                Err(Failed)
            }
        }
    }
}
