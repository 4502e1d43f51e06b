//! A line of a text as its reader sees it: fields with any spacing between them, and a comment from `#` on.

use std::alloc::{AllocError, Global};
use std::mem;

/// A field: its text, and the column at which it begins, counted in characters from 1.
#[derive(Debug, Drop)]
pub struct Field {
    /// Its characters, none of them white space.
    pub text: String,
    /// Where it begins.
    pub column: usize,
}

/// A line that has a field: its number in the text, counted from 1, its fields, and the text as it was read.
#[derive(Debug, Drop)]
pub struct Line {
    /// Which line it is.
    pub number: u64,
    /// At least one.
    pub fields: Vec<Field>,
    /// As it was read, without its end.
    pub text: String,
}

impl Line {
    /// The line of this number and this text; `None` where it has no field.
    pub fn read(alloc: Global, number: u64, text: &str) -> Result<Option<Line>, AllocError> {
        let fields = fields_of(alloc, text)?;
        if fields.is_empty() {
            return Ok(None);
        }
        let text = String::from_str(alloc, text)?;
        Ok(Some(Line {
            number,
            fields,
            text,
        }))
    }

    /// The column after the last field.
    pub fn end(&self) -> usize {
        match self.fields.last() {
            None => 1,
            Some(field) => field.column.saturating_add(field.text.chars().count()),
        }
    }

    /// Its fields with one space between them, as `saa-run` reads a line.
    pub fn spelled(&self, alloc: Global) -> Result<String, AllocError> {
        let mut spelled = String::new(alloc);
        for field in self.fields.iter() {
            if !spelled.is_empty() {
                spelled.push_str(" ")?;
            }
            spelled.push_str(field.text.as_str())?;
        }
        Ok(spelled)
    }
}

/// The fields of a line, up to a `#`.
fn fields_of(alloc: Global, text: &str) -> Result<Vec<Field>, AllocError> {
    let mut fields = Vec::new(alloc);
    let mut word = String::new(alloc);
    let mut start = 1usize;
    let mut column = 0usize;
    for c in text.chars() {
        column = column.saturating_add(1);
        if c == '#' {
            break;
        }
        if c.is_whitespace() {
            close(alloc, &mut fields, &mut word, start)?;
        } else {
            if word.is_empty() {
                start = column;
            }
            word.push(c)?;
        }
    }
    close(alloc, &mut fields, &mut word, start)?;
    Ok(fields)
}

/// Ends the word that is being read, where there is one.
fn close(
    alloc: Global,
    fields: &mut Vec<Field>,
    word: &mut String,
    column: usize,
) -> Result<(), AllocError> {
    if word.is_empty() {
        return Ok(());
    }
    let text = mem::replace(word, String::new(alloc));
    fields.push(Field { text, column })?;
    Ok(())
}
