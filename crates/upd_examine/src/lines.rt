//! Findings: lines of text, at most a hundred.
ghost use Rattle.std.specs.Prelude.{◌<◌, length, IfOk};

use std::alloc::{AllocError, Global};

/// How many findings are listed at most.
const MAX_LINES: usize = 100;

/// Lines of text.
#[derive(Drop)]
pub struct Findings {
    text: Vec<u8>,
    lines: usize,
}

impl Findings {
    pub fn new(alloc: Global) -> Findings {
        Findings {
            text: Vec::new(alloc),
            lines: 0,
        }
    }

    /// Adds a line, while there are fewer than a hundred. What is not printable ASCII becomes `?`.
    pub fn add(&mut self, line: &[u8]) -> Result<(), AllocError> {
        if self.lines < MAX_LINES {
            push_printed(&mut self.text, line)?;
            self.text.push(b'\n')?;
            self.lines += 1;
        }
        Ok(())
    }

    /// Adds a line of what a row is and what is wrong with it.
    pub fn add_of(&mut self, row: &str, wrong: &str) -> Result<(), AllocError> {
        let mut line = Vec::from_slice(*self.text.allocator(), row.as_bytes())?;
        line.extend_from_slice(wrong.as_bytes())?;
        self.add(&line)
    }

    /// The lines, of which there is at least one: one that says no more than that rows are not sound, where there is no other.
    pub fn into_text(self, alloc: Global) -> Result<Vec<u8>, AllocError>
        ensures { IfOk result (λ text. 0 < length text.items) }
    {
        let text = self.text;
        if text.len() > 0 {
            return Ok(text);
        }
        Vec::from_slice(alloc, b"rows are not those of a sound library\n")
    }
}

fn push_printed(text: &mut Vec<u8>, line: &[u8]) -> Result<(), AllocError> {
    for byte in line {
        match byte {
            b' '..=b'~' => text.push(*byte)?,
            _ => text.push(b'?')?,
        }
    }
    Ok(())
}
