//! A picture as text for Mermaid, which many sites draw where a page has it: a sequence diagram with a lane for each place or pager, a note for
//! each step, with the state after it, and grants as arrows.

use crate::picture::{Picture, Row};
use crate::trouble::Trouble;
use std::alloc::{AllocError, Global};
use std::io::Write;

/// Writes a picture as a sequence diagram.
pub fn write_mermaid<W: Write>(
    alloc: Global,
    picture: &Picture,
    writer: &mut W,
) -> Result<(), Trouble> {
    writeln!(writer, "sequenceDiagram")?;
    writeln!(writer, "    title {}", picture.title)?;
    write_lanes(picture, writer)?;
    for row in picture.rows.iter() {
        write_row(alloc, writer, row)?;
    }
    Ok(())
}

fn write_lanes<W: Write>(picture: &Picture, writer: &mut W) -> Result<(), Trouble> {
    for (lane, name) in picture.lanes.iter().enumerate() {
        writeln!(writer, "    participant L{lane} as {name}")?;
    }
    Ok(())
}

/// Writes a step, and an arrow for each wait that it ended.
fn write_row<W: Write>(alloc: Global, writer: &mut W, row: &Row) -> Result<(), Trouble> {
    let lane = row.lane;
    let start = if row.begins { "start " } else { "" };
    let space = if row.reply.is_empty() { "" } else { " " };
    let side = escaped(alloc, row.side.as_str())?;
    writeln!(
        writer,
        "    Note over L{lane}: {start}{}{space}{}<br/>{side}",
        row.text, row.reply
    )?;
    for grant in row.grants.iter() {
        writeln!(writer, "    L{lane}->>L{grant}: granted")?;
    }
    Ok(())
}

/// A text whose semicolons end no statement.
fn escaped(alloc: Global, text: &str) -> Result<String, AllocError> {
    let mut escaped = String::new(alloc);
    for c in text.chars() {
        if c == ';' {
            escaped.push_str("#59;")?;
        } else {
            escaped.push(c)?;
        }
    }
    Ok(escaped)
}
