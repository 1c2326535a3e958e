//! What stands in braces in a rows file: bytes that are hard to write, and pieces that are repeated.

use anyhow::{Result, bail};
use std::alloc::Global;

/// The most bytes of a text.
const MOST_BYTES: usize = 4_194_304;

/// A piece that is being repeated: where it begins, how often it is still to come, and how often it came.
#[derive(Clone, Copy)]
struct Repetition {
    start: usize,
    left: u64,
    done: u64,
}

/// A text that is being written out, from its place on.
#[derive(Drop)]
struct Expansion<'a> {
    text: &'a [u8],
    place: usize,
    open: Vec<Repetition>,
    out: Vec<u8>,
}

/// The bytes that a text of a rows file stands for.
pub fn expand(alloc: Global, text: &str) -> Result<Vec<u8>> {
    let mut expansion = Expansion {
        text: text.as_bytes(),
        place: 0,
        open: Vec::new(alloc),
        out: Vec::new(alloc),
    };
    for _ in 0..u64::MAX {
        let Some(byte) = expansion.text.get(expansion.place) else {
            break;
        };
        expansion.step(*byte)?;
    }
    if expansion.open.len() > 0 {
        bail!("a piece has no end in {text}");
    }
    Ok(expansion.out)
}

impl<'a> Expansion<'a> {
    /// A piece begins that comes so often.
    fn repeat(&mut self, count: &str) -> Result<()> {
        let Ok(count) = count.parse::<u64>() else {
            bail!("{count} is no number of repetitions");
        };
        if count == 0 {
            bail!("a piece comes once at least");
        }
        self.open.push(Repetition {
            start: self.place,
            left: count,
            done: 0,
        })?;
        Ok(())
    }

    fn put(&mut self, bytes: &[u8]) -> Result<()> {
        self.out.extend_from_slice(bytes)?;
        Ok(())
    }

    fn put_number(&mut self, number: u64) -> Result<()> {
        let text = format!(in *self.out.allocator(); "{number}")?;
        self.put(text.as_bytes())
    }

    /// The bytes that a word in braces stands for.
    fn write(&mut self, word: &str) -> Result<()> {
        let done = self.open.last().map_or(0, |piece| piece.done);
        match word {
            "" => Ok(()),
            "nl" => self.put(b"\n"),
            "tab" => self.put(b"\t"),
            "sp" => self.put(b" "),
            "i" => self.put_number(done),
            "i+1" => self.put_number(done.saturating_add(1)),
            _ => self.put(&[hexadecimal(word)?]),
        }
    }

    /// What stands behind an opening brace, up to its star or its closing brace.
    fn enter(&mut self) -> Result<()> {
        let start = self.place.saturating_add(1);
        let rest = self.text.get(start..).unwrap_or(&[]);
        let Some(length) = rest.iter().position(|&byte| byte == b'*' || byte == b'}') else {
            bail!("a brace is not closed");
        };
        let word = str::from_utf8(rest.get(..length).unwrap_or(&[])).unwrap_or("?");
        self.place = start.saturating_add(length).saturating_add(1);
        if rest.get(length) == Some(&b'*') {
            self.repeat(word)
        } else {
            self.write(word)
        }
    }

    /// The piece that was begun last ends here, or comes again.
    fn leave(&mut self) -> Result<()> {
        let Some(piece) = self.open.pop() else {
            bail!("a closing brace stands alone");
        };
        if piece.left > 1 {
            self.place = piece.start;
            self.open.push(Repetition {
                start: piece.start,
                left: piece.left.saturating_sub(1),
                done: piece.done.saturating_add(1),
            })?;
        } else {
            self.place = self.place.saturating_add(1);
        }
        Ok(())
    }

    fn step(&mut self, byte: u8) -> Result<()> {
        if self.out.len() > MOST_BYTES {
            bail!("a text is longer than {MOST_BYTES} bytes");
        }
        match byte {
            b'{' => self.enter(),
            b'}' => self.leave(),
            _ => {
                self.out.push(byte)?;
                self.place = self.place.saturating_add(1);
                Ok(())
            }
        }
    }
}

/// The byte that `x` and two hexadecimal digits name.
fn hexadecimal(word: &str) -> Result<u8> {
    match word.strip_prefix("x") {
        Some(digits) if digits.len() == 2 => match u8::from_str_radix(digits, 16) {
            Ok(byte) => Ok(byte),
            Err(_) => bail!("{word} is no byte"),
        },
        _ => bail!("{word} stands in braces"),
    }
}
