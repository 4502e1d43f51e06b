//! A picture of what places or pagers did, as SVG: a lane for each, steps from top to bottom, the state beside them, and grants as arrows.
//!
//! It names no colour of its ground: it follows whether its reader's ground is light or dark.

use std::alloc::{AllocError, Global};
use std::io::{self, Write};

/// What one line or step is in the picture.
#[derive(Drop)]
pub struct Row {
    /// In which lane it happened.
    pub lane: usize,
    /// What happened.
    pub text: String,
    /// What it was answered.
    pub reply: String,
    /// The state after it.
    pub side: String,
    /// The lanes whose waits it ended.
    pub grants: Vec<usize>,
    /// Whether a call begins here.
    pub begins: bool,
}

/// A picture.
#[derive(Drop)]
pub struct Picture {
    /// What it shows.
    pub title: String,
    /// The names of the lanes.
    pub lanes: Vec<String>,
    /// What is beside the lanes.
    pub side: String,
    /// What happened, in order.
    pub rows: Vec<Row>,
}

/// How wide a character is, at most.
const CHARACTER: usize = 8;
/// How high a row is.
const ROW: usize = 24;
/// Where the middle of the first row is.
const TOP: usize = 64;
/// Where the middle of the first lane is.
const LEFT: usize = 50;

/// The colours on a light ground, and how lines are drawn.
const STYLE: &str =
    ".ground{fill:#ffffff} .ink{fill:#1f2328} .faint{fill:#59636e} .lane{stroke:#d9dee3;stroke-width:2} .row{stroke:#d9dee3;stroke-dasharray:1 5} .dot{fill:#0b5cad} .box{fill:none;stroke:#0b5cad;stroke-width:1.5} .reply{fill:#0b5cad;font-weight:bold} .grant{stroke:#1a7f4b;stroke-width:2;fill:none} .tip{fill:#1a7f4b}";

/// The colours on a dark one.
const DARK: &str =
    ".ground{fill:#0d1117} .ink{fill:#e6edf3} .faint{fill:#9198a1} .lane,.row{stroke:#30363d} .dot{fill:#6cb6ff} .box{stroke:#6cb6ff} .reply{fill:#6cb6ff} .grant{stroke:#57c99a} .tip{fill:#57c99a}";

/// Where things stand: how far lanes are apart, and where they end.
#[derive(Clone, Copy)]
struct Layout {
    lane: usize,
    end: usize,
}

impl Layout {
    /// The middle of a lane.
    fn x(self, lane: usize) -> usize {
        lane.saturating_mul(self.lane).saturating_add(LEFT)
    }

    /// The middle of a row.
    fn y(self, row: usize) -> usize {
        row.saturating_mul(ROW).saturating_add(TOP)
    }
}

impl Picture {
    /// Writes the picture.
    pub fn write<W: Write>(&self, writer: &mut W) -> io::Result<()> {
        let layout = self.layout();
        let width = layout.end.saturating_add(self.side_width());
        let bottom = layout.y(self.rows.len());
        let height = bottom.saturating_add(12);
        let title = self.title.as_str();
        writeln!(
            writer,
            "<svg xmlns=\"http://www.w3.org/2000/svg\" viewBox=\"0 0 {width} {height}\" width=\"{width}\" height=\"{height}\" role=\"img\" font-family=\"DejaVu Sans Mono, Menlo, Consolas, monospace\" font-size=\"12\">"
        )?;
        writeln!(writer, "<title>{title}</title>")?;
        writeln!(writer, "<style>{STYLE}")?;
        writeln!(
            writer,
            "@media (prefers-color-scheme: dark) {{{DARK}}}</style>"
        )?;
        writeln!(
            writer,
            "<rect class=\"ground\" width=\"100%\" height=\"100%\"/>"
        )?;
        writeln!(
            writer,
            "<text class=\"ink\" x=\"12\" y=\"20\" font-weight=\"bold\">{title}</text>"
        )?;
        self.write_lanes(writer, layout, bottom)?;
        for (at, row) in self.rows.iter().enumerate() {
            write_row(writer, row, layout, layout.y(at))?;
        }
        writeln!(writer, "</svg>")
    }

    /// Lanes are as far apart as what the longest row says, but no farther than 180; and end where that ends in the last one.
    fn layout(&self) -> Layout {
        let mut most = 12usize;
        for row in self.rows.iter() {
            most = most.max(row.text.len().saturating_add(row.reply.len()));
        }
        let longest = most.saturating_mul(CHARACTER).saturating_add(32);
        let lane = longest.min(180);
        let others = self.lanes.len().saturating_sub(1);
        let end = others
            .saturating_mul(lane)
            .saturating_add(LEFT)
            .saturating_add(longest);
        Layout { lane, end }
    }

    /// How wide the state beside the lanes is.
    fn side_width(&self) -> usize {
        let mut most = self.side.len();
        for row in self.rows.iter() {
            most = most.max(row.side.len());
        }
        most.saturating_mul(CHARACTER).saturating_add(12)
    }

    /// Writes the lanes and the names above them.
    fn write_lanes<W: Write>(
        &self,
        writer: &mut W,
        layout: Layout,
        bottom: usize,
    ) -> io::Result<()> {
        let end = layout.end;
        writeln!(
            writer,
            "<text class=\"faint\" x=\"{end}\" y=\"44\">{}</text>",
            self.side
        )?;
        for (lane, name) in self.lanes.iter().enumerate() {
            let x = layout.x(lane);
            writeln!(
                writer,
                "<text class=\"ink\" x=\"{x}\" y=\"44\" text-anchor=\"middle\" font-weight=\"bold\">{name}</text>"
            )?;
            writeln!(
                writer,
                "<line class=\"lane\" x1=\"{x}\" y1=\"52\" x2=\"{x}\" y2=\"{bottom}\"/>"
            )?;
        }
        Ok(())
    }
}

/// Writes one row, whose middle is at `y`.
fn write_row<W: Write>(writer: &mut W, row: &Row, layout: Layout, y: usize) -> io::Result<()> {
    let x = layout.x(row.lane);
    let end = layout.end;
    let text = x.saturating_add(10);
    let base = y.saturating_add(4);
    let before = end.saturating_sub(8);
    writeln!(
        writer,
        "<line class=\"row\" x1=\"{x}\" y1=\"{y}\" x2=\"{before}\" y2=\"{y}\"/>"
    )?;
    for grant in row.grants.iter() {
        write_grant(writer, x, layout.x(*grant), y)?;
    }
    if row.begins {
        let left = x.saturating_sub(5);
        let top = y.saturating_sub(5);
        writeln!(
            writer,
            "<rect class=\"box\" x=\"{left}\" y=\"{top}\" width=\"10\" height=\"10\" rx=\"2\"/>"
        )?;
    } else {
        writeln!(
            writer,
            "<circle class=\"dot\" cx=\"{x}\" cy=\"{y}\" r=\"4\"/>"
        )?;
    }
    writeln!(
        writer,
        "<text class=\"ink\" x=\"{text}\" y=\"{base}\">{} <tspan class=\"reply\">{}</tspan></text>",
        row.text, row.reply
    )?;
    writeln!(
        writer,
        "<text class=\"faint\" x=\"{end}\" y=\"{base}\">{}</text>",
        row.side
    )
}

/// Writes an arrow from one lane to another, above the middle of a row.
fn write_grant<W: Write>(writer: &mut W, from: usize, to: usize, y: usize) -> io::Result<()> {
    let line = y.saturating_sub(9);
    let top = line.saturating_sub(4);
    let bottom = line.saturating_add(4);
    let back = if from < to {
        to.saturating_sub(8)
    } else {
        to.saturating_add(8)
    };
    writeln!(
        writer,
        "<path class=\"grant\" d=\"M{from} {y} L{from} {line} L{back} {line}\"/>"
    )?;
    writeln!(
        writer,
        "<path class=\"tip\" d=\"M{back} {top} L{to} {line} L{back} {bottom} Z\"/>"
    )
}
