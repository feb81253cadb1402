//! Devices that fail after a number of calls, and give or take a number of bytes at a time.
use std::alloc::Global;
use std::io::{self, Read, Write};

/// Reads at most `most` bytes at a time, and fails after `reads` reads.
#[derive(Drop)]
pub struct Reader<'a> {
    pub rest: &'a [u8],
    pub most: usize,
    pub reads: u64,
}

impl<'a> Read for Reader<'a> {
    fn read(&mut self, buf: &mut [u8]) -> io::Result<usize> {
        if self.reads == 0 {
            return Err(io::Error::from(io::ErrorKind::BrokenPipe));
        }
        self.reads -= 1;
        let count = self.rest.len().min(buf.len()).min(self.most);
        let (front, rest) = self.rest.split_at(count);
        buf[..count].copy_from_slice(front);
        self.rest = rest;
        Ok(count)
    }
}

/// Writes at most `most` bytes at a time, and fails after `writes` writes: by a write of 0 or an
/// error.
#[derive(Drop)]
pub struct Writer {
    pub bytes: Vec<u8>,
    most: usize,
    writes: u64,
    by_zero: bool,
}

impl Writer {
    pub fn new(alloc: Global, most: usize, writes: u64, by_zero: bool) -> Writer {
        Writer {
            bytes: Vec::new(alloc),
            most,
            writes,
            by_zero,
        }
    }
}

impl Write for Writer {
    fn write(&mut self, buf: &[u8]) -> io::Result<usize> {
        if self.writes == 0 {
            if self.by_zero {
                return Ok(0);
            }
            return Err(io::Error::from(io::ErrorKind::BrokenPipe));
        }
        self.writes -= 1;
        let count = buf.len().min(self.most);
        self.bytes.extend_from_slice(&buf[..count])?;
        Ok(count)
    }

    fn flush(&mut self) -> io::Result<()> {
        Ok(())
    }
}
