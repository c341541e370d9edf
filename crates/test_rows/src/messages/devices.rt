//! A reader and a writer of few octets at a time, which fail or are interrupted.

use std::io;
use std::io::{ErrorKind, Read, Write};

/// `Interrupted` for every second call of a device: a signal interrupts it.
fn interrupt(calls: usize) -> io::Result<()> {
    if calls % 2 == 0 {
        return Err(io::Error::from(ErrorKind::Interrupted));
    }
    Ok(())
}

/// A reader of few octets at a time. A signal interrupts every second read.
#[derive(Drop)]
pub struct Source<'a> {
    pub left: &'a [u8],
    /// The most octets that a read gives.
    pub at_once: usize,
    /// How many reads come before the one that fails, if one does.
    pub failing: Option<usize>,
    pub reads: usize,
}

impl<'a> Read for Source<'a> {
    fn read(&mut self, buf: &mut [u8]) -> io::Result<usize> {
        let before = self.reads;
        self.reads = before.saturating_add(1);
        if self.failing == Some(before) {
            return Err(io::Error::from(ErrorKind::BrokenPipe));
        }
        interrupt(before)?;
        let count = buf.len().min(self.at_once).min(self.left.len());
        let (prefix, rest) = self.left.split_at(count);
        buf[..count].copy_from_slice(prefix);
        self.left = rest;
        Ok(count)
    }
}

/// A writer that takes at most three octets at a time, and fails where it has no room. A signal interrupts every second write.
#[derive(Drop)]
pub struct Sink {
    pub taken: Vec<u8>,
    /// How many octets it has room for.
    pub room: usize,
    pub writes: usize,
}

impl Write for Sink {
    fn write(&mut self, buf: &[u8]) -> io::Result<usize> {
        let before = self.writes;
        self.writes = before.saturating_add(1);
        interrupt(before)?;
        let left = self.room.saturating_sub(self.taken.len());
        if left == 0 {
            return Err(io::Error::from(ErrorKind::BrokenPipe));
        }
        let count = buf.len().min(left).min(3);
        self.taken.extend_from_slice(&buf[..count])?;
        Ok(count)
    }

    fn flush(&mut self) -> io::Result<()> {
        Ok(())
    }
}
