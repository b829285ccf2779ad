//! Texts that files make up, one after the other.

ghost use Rattle.std.specs.Prelude.{◌≡◌, ◌++◌, take, IfSome, OnOk};
ghost use Rattle.celtisdarts.specs.Texts.{read_limit, with_end};

use coherence::{RunFault, read_text};
use explain_texts::explain_diagnostics::Part;
use std::alloc::{AllocError, Global};
use std::io::Read;

/// A text that files make up, and where each of them begins.
#[derive(Drop)]
pub struct Whole<'n> {
    pub text: Vec<u8>,
    pub parts: Vec<Part<'n>>,
}

/// The name of a file in explanations.
fn part_name(name: &str) -> &str {
    if name == "-" { "<stdin>" } else { name }
}

impl<'n> Whole<'n> {
    /// A text of no file.
    pub fn new(alloc: Global) -> Whole<'n> {
        Whole {
            text: Vec::new(alloc),
            parts: Vec::new(alloc),
        }
    }

    /// The same text once more.
    pub fn copied(&self, alloc: Global) -> Result<Whole<'n>, AllocError> {
        let text = Vec::from_slice(alloc, &self.text)?;
        let parts = Vec::from_slice(alloc, &self.parts)?;
        Ok(Whole { text, parts })
    }

    /// Ends the last line.
    pub fn end_line(&mut self) -> Result<(), AllocError>
        ensures { OnOk result (self.new.text.items ≡ with_end self.old.text.items) }
    {
        if let Some(last) = self.text.last() {
            if *last != b'\n' {
                self.text.push(b'\n')?;
            }
        }
        Ok(())
    }

    /// Appends a file of this name, in lines of its own. Of a longer file only what decides that the text is too long is read.
    pub fn push<R: Read>(
        &mut self,
        alloc: Global,
        name: &'n str,
        reader: &mut R,
    ) -> Result<(), RunFault>
        ensures { OnOk result (IfSome (R.remaining reader.old) (λ bytes. self.new.text.items ≡ with_end self.old.text.items ++ take read_limit bytes)) }
    {
        let text = read_text(alloc, reader)?;
        self.end_line()?;
        let ends = self.text.iter().filter(|byte| **byte == b'\n').count();
        let part = Part {
            line: u32::try_from(ends).unwrap_or(u32::MAX).saturating_add(1),
            start: self.text.len(),
            name: part_name(name),
        };
        self.parts.push(part).map_err(AllocError::from)?;
        self.text.extend_from_slice(&text)?;
        Ok(())
    }
}
