//! Lines that are read and written: each is written in one piece, and an interrupted read fails.

use saa_run_text::reply::put_bad_line;
use saa_run_text::transfer::{Cut, LineBytes, read_line};
use std::io::{self, ErrorKind, Read, Write};
use test_asserts::same;

// A writer that counts the pieces that it is handed, and those that are one line.
#[derive(Default, Drop)]
struct CountingWriter {
    pieces: usize,
    lines: usize,
}

impl Write for CountingWriter {
    fn write(&mut self, buf: &[u8]) -> io::Result<usize> {
        self.pieces = self.pieces.saturating_add(1);
        if let Some(line) = buf.strip_suffix(b"\n")
            && !line.contains(&b'\n')
        {
            self.lines = self.lines.saturating_add(1);
        }
        Ok(buf.len())
    }

    fn flush(&mut self) -> io::Result<()> {
        Ok(())
    }
}

// The greatest number of a bad line.
#[test]
fn a_line_is_written_in_one_piece(rt: HostRuntime) {
    let mut writer = CountingWriter::default();
    let is_put = put_bad_line(&mut writer, u64::MAX).is_ok();
    same!(rt; (is_put, writer.pieces, writer.lines), (true, 1, 1));
}

// A reader that a signal interrupts.
#[derive(Drop)]
struct Interrupted;

impl Read for Interrupted {
    fn read(&mut self, _buf: &mut [u8]) -> io::Result<usize> {
        Err(io::Error::from(ErrorKind::Interrupted))
    }
}

#[test]
fn an_interrupted_read_fails(rt: HostRuntime) {
    let mut line = LineBytes::new();
    let is_failed = matches!(read_line(&mut Interrupted, &mut line), Cut::Failed);
    same!(rt; is_failed, true);
}
