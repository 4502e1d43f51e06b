//! A text that is read line by line, from a file or from standard input.

use crate::line::Line;
use crate::trouble::{Fault, Trouble};
use std::alloc::{AllocError, Global};
use std::io::BufRead;

/// What is read, and how many lines of it were.
#[derive(Drop)]
pub struct Source<R: BufRead + Drop> {
    reader: R,
    number: u64,
    // Lines that were read and are to be read anew, the next one last.
    ahead: Vec<Line>,
}

impl<R: BufRead + Drop> Source<R> {
    /// A text that is read from its first line on.
    pub fn new(alloc: Global, reader: R) -> Source<R> {
        Source {
            reader,
            number: 0,
            ahead: Vec::new(alloc),
        }
    }

    /// Reads a line anew the next time.
    pub fn put_back(&mut self, line: Line) -> Result<(), AllocError> {
        self.ahead.push(line)?;
        Ok(())
    }

    /// The next line that has a field; `None` at the end.
    pub fn next_line(&mut self, alloc: Global) -> Result<Option<Line>, Trouble> {
        if let Some(line) = self.ahead.pop() {
            return Ok(Some(line));
        }
        for _line in 0..u64::MAX {
            let mut bytes = Vec::new(alloc);
            if self.reader.read_until(b'\n', &mut bytes)? == 0 {
                return Ok(None);
            }
            self.number = self.number.saturating_add(1);
            let text = text_of(alloc, self.number, bytes)?;
            if let Some(line) = Line::read(alloc, self.number, text.as_str())? {
                return Ok(Some(line));
            }
        }
        Ok(None)
    }
}

/// The text of a line's bytes, without the line's end.
fn text_of(alloc: Global, number: u64, mut bytes: Vec<u8>) -> Result<String, Trouble> {
    if bytes.last() == Some(&b'\n') {
        let _end = bytes.pop();
    }
    match String::from_utf8(bytes) {
        Ok(text) => Ok(text),
        Err(_) => Err(Trouble::Bad(Fault {
            line: number,
            column: 1,
            what: String::from_str(alloc, "the line isn't UTF-8 text")?,
            text: String::new(alloc),
        })),
    }
}
