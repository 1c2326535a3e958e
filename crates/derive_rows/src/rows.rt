//! The rows of a file.

use crate::case::{Case, Part};
use anyhow::{Context, Result, bail};
use std::alloc::{AllocError, Global};

/// A row with its name and its line in the file.
#[derive(Drop)]
pub struct Row {
    pub name: String,
    pub line: usize,
    pub case: Case,
}

/// A case with places for columns.
#[derive(Drop)]
struct Shape {
    name: String,
    case: Case,
}

/// A line of the file, and its number.
type Line<'a> = (usize, &'a str);

/// A line that begins a row, a shape or a table, and what belongs to it.
#[derive(Drop)]
struct Block<'a> {
    line: usize,
    head: &'a str,
    lines: Vec<Line<'a>>,
}

/// What the text of a file has read so far.
#[derive(Drop)]
struct Reading {
    alloc: Global,
    rows: Vec<Row>,
    shapes: Vec<Shape>,
}

fn begins_block(line: &str) -> bool {
    line.starts_with("row ") || line.starts_with("rows ") || line.starts_with("shape ")
}

/// The blocks of a file. Empty lines and comments belong to none.
fn blocks<'a>(alloc: Global, text: &'a str) -> Result<Vec<Block<'a>>> {
    let mut blocks: Vec<Block<'a>> = Vec::new(alloc);
    for (place, line) in text.lines().enumerate() {
        let number = place.saturating_add(1);
        if line.is_empty() || line.starts_with('#') {
            continue;
        }
        if begins_block(line) {
            blocks.push(Block {
                line: number,
                head: line,
                lines: Vec::new(alloc),
            })?;
        } else if let Some(block) = blocks.last_mut() {
            block.lines.push((number, line))?;
        } else {
            bail!("line {number} belongs to no row");
        }
    }
    Ok(blocks)
}

/// The rows of a file with this text, in order.
pub fn read(alloc: Global, text: &str) -> Result<Vec<Row>> {
    let mut reading = Reading {
        alloc,
        rows: Vec::new(alloc),
        shapes: Vec::new(alloc),
    };
    let blocks = blocks(alloc, text)?;
    for block in blocks.iter() {
        let line = block.line;
        reading.take(block).context(format_args!("line {line}"))?;
    }
    Ok(reading.rows)
}

impl Reading {
    /// No two rows of a file have one name.
    fn add_row(&mut self, name: String, line: usize, case: Case) -> Result<()> {
        for row in self.rows.iter() {
            if row.name.as_str() == name.as_str() {
                bail!("the row {name} stands there twice");
            }
        }
        self.rows.push(Row { name, line, case })?;
        Ok(())
    }

    fn take_row(&mut self, name: &str, block: &Block<'_>) -> Result<()> {
        let name = String::from_str(self.alloc, name)?;
        let case = case_of(self.alloc, block)?;
        self.add_row(name, block.line, case)
    }

    fn add_shape(&mut self, name: &str, case: Case) -> Result<(), AllocError> {
        let name = String::from_str(self.alloc, name)?;
        self.shapes.push(Shape { name, case })?;
        Ok(())
    }

    fn take_shape(&mut self, name: &str, block: &Block<'_>) -> Result<()> {
        let case = case_of(self.alloc, block)?;
        self.add_shape(name, case)?;
        Ok(())
    }

    /// The shape of this name with these columns.
    fn shaped(&self, name: &str, columns: &[&str]) -> Result<Case> {
        for shape in self.shapes.iter() {
            if shape.name.as_str() == name {
                return shape.case.filled(self.alloc, columns);
            }
        }
        bail!("there is no shape {name}")
    }

    /// A shape that gives another one these columns.
    fn derive_shape(&mut self, name: &str, base: &str, block: &Block<'_>) -> Result<()> {
        let [(_, line)] = block.lines.as_slice() else {
            bail!("the shape {name} has not one line");
        };
        let columns = columns_of(self.alloc, line, None)?;
        let case = self.shaped(base, columns.as_slice())?;
        self.add_shape(name, case)?;
        Ok(())
    }

    /// Rows in a shape, a line each. What stands behind the shape's name are the last columns of each.
    fn take_table(&mut self, name: &str, shape: &str, block: &Block<'_>) -> Result<()> {
        let (shape, last) = match shape.split_once(" ==> ") {
            Some((shape, last)) => (shape, Some(last)),
            None => (shape, None),
        };
        for (place, (number, line)) in block.lines.iter().enumerate() {
            let columns = columns_of(self.alloc, line, last)?;
            let case = self
                .shaped(shape, columns.as_slice())
                .context(format_args!("line {number}"))?;
            let count = place.saturating_add(1);
            let name = format!(in self.alloc; "{name} {count}")?;
            self.add_row(name, *number, case)?;
        }
        Ok(())
    }

    fn take(&mut self, block: &Block<'_>) -> Result<()> {
        let Some((word, name)) = block.head.split_once(' ') else {
            bail!("a name is missing");
        };
        match (word, name.split_once(": ")) {
            ("row", None) => self.take_row(name, block),
            ("shape", None) => self.take_shape(name, block),
            ("shape", Some((name, base))) => self.derive_shape(name, base, block),
            ("rows", Some((name, shape))) => self.take_table(name, shape, block),
            ("rows", None) => bail!("the rows {name} have no shape"),
            _ => bail!("a row has no shape"),
        }
    }
}

/// The columns of an indented line, and those that stand at the head of its table.
fn columns_of<'a>(alloc: Global, line: &'a str, last: Option<&'a str>) -> Result<Vec<&'a str>> {
    let Some(line) = line.strip_prefix("  ") else {
        bail!("{line} is not indented by two blanks");
    };
    let mut columns = Vec::new(alloc);
    for column in line.split(" ==> ") {
        columns.push(column)?;
    }
    if let Some(last) = last {
        for column in last.split(" ==> ") {
            columns.push(column)?;
        }
    }
    Ok(columns)
}

/// The parts of a row or of a shape: each begins with its name, and goes on in the indented lines below.
fn case_of(alloc: Global, block: &Block<'_>) -> Result<Case> {
    let mut case = Case::new(alloc)?;
    let mut part: Option<Part> = None;
    for (number, line) in block.lines.iter() {
        match (line.strip_prefix("  "), part) {
            (Some(more), Some(part)) => case.add_line(part, more)?,
            (Some(_), None) => bail!("line {number} belongs to no part"),
            (None, _) => {
                let (name, text) = line.split_once(' ').unwrap_or((line, ""));
                let Some(next) = Part::named(name) else {
                    bail!("line {number} begins no part");
                };
                case.begin(alloc, next, text)?;
                part = Some(next);
            }
        }
    }
    Ok(case)
}
