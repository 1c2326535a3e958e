//! The texts of a row or of a shape, as they are written.

use anyhow::{Result, bail};
use std::alloc::{AllocError, Global};

/// A part of a row or of a shape.
#[derive(Clone, Copy)]
pub enum Part {
    Words,
    Book,
    Report,
    Status,
}

impl Part {
    /// The part of this name.
    pub fn named(name: &str) -> Option<Part> {
        match name {
            "words" => Some(Part::Words),
            "book" => Some(Part::Book),
            "report" => Some(Part::Report),
            "status" => Some(Part::Status),
            _ => None,
        }
    }
}

/// What is run and what it is to give. The texts stand as in the file, with all that is in braces.
#[derive(Drop)]
pub struct Case {
    pub words: String,
    pub book: String,
    pub report: String,
    pub status: String,
}

impl Case {
    /// A check of an empty book, which is to report nothing and to end with 0.
    pub fn new(alloc: Global) -> Result<Case, AllocError> {
        Ok(Case {
            words: String::from_str(alloc, "check")?,
            book: String::new(alloc),
            report: String::new(alloc),
            status: String::from_str(alloc, "0")?,
        })
    }

    /// The part begins with this text.
    pub fn begin(&mut self, alloc: Global, part: Part, text: &str) -> Result<(), AllocError> {
        let text = String::from_str(alloc, text)?;
        match part {
            Part::Words => self.words = text,
            Part::Book => self.book = text,
            Part::Report => self.report = text,
            Part::Status => self.status = text,
        }
        Ok(())
    }

    /// The part goes on with this line.
    pub fn add_line(&mut self, part: Part, line: &str) -> Result<(), AllocError> {
        match part {
            Part::Words => add_line(&mut self.words, line),
            Part::Book => add_line(&mut self.book, line),
            Part::Report => add_line(&mut self.report, line),
            Part::Status => add_line(&mut self.status, line),
        }
    }

    /// Whether the column of this number stands in some part.
    fn has_column(&self, alloc: Global, number: usize) -> Result<bool, AllocError> {
        let column = format!(in alloc; "{{{number}}}")?;
        let column = column.as_str();
        Ok(
            self.words.contains(column)
                || self.book.contains(column)
                || self.report.contains(column)
                || self.status.contains(column),
        )
    }

    /// The case in which these columns stand in their places. Each has one.
    pub fn filled(&self, alloc: Global, columns: &[&str]) -> Result<Case> {
        for place in 0..columns.len() {
            let number = place.saturating_add(1);
            if !self.has_column(alloc, number)? {
                bail!("column {number} has no place");
            }
        }
        Ok(Case {
            words: filled(alloc, self.words.as_str(), columns)?,
            book: filled(alloc, self.book.as_str(), columns)?,
            report: filled(alloc, self.report.as_str(), columns)?,
            status: filled(alloc, self.status.as_str(), columns)?,
        })
    }
}

fn add_line(text: &mut String, line: &str) -> Result<(), AllocError> {
    if !text.is_empty() {
        text.push_str("\n")?;
    }
    text.push_str(line)?;
    Ok(())
}

/// The text with a column for each number in braces.
fn filled(alloc: Global, text: &str, columns: &[&str]) -> Result<String> {
    let mut whole = String::new(alloc);
    for (place, piece) in text.split('{').enumerate() {
        let number = piece.split_once('}').and_then(|(word, rest)| {
            let number = word.parse::<usize>().ok()?;
            Some((number, rest))
        });
        match number {
            Some((number, rest)) if place > 0 => {
                let Some(column) = columns.get(number.wrapping_sub(1)) else {
                    bail!("there is no column {number}");
                };
                whole.push_str(column)?;
                whole.push_str(rest)?;
            }
            _ => {
                if place > 0 {
                    whole.push_str("{")?;
                }
                whole.push_str(piece)?;
            }
        }
    }
    Ok(whole)
}
