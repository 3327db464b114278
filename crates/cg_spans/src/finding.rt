//! Findings in texts, with their places.

use std::alloc::{AllocError, Global};
use std::fmt;

/// The maximum number of bytes of a text that is parsed again for a note: parsing takes as long as judging the text
/// did, or twice as long.
pub const MOST_PARSED: usize = 1_000_000;

/// A place in a text. Lines and columns count from 1, and a column counts bytes.
#[derive(Clone, Copy, Drop)]
pub struct Place {
    /// The line.
    pub line: usize,
    /// The column.
    pub column: usize,
}

impl Place {
    /// The first byte of a text.
    pub const START: Place = Place { line: 1, column: 1 };

    /// Returns the place of byte `offset`, counted from 0, of `bytes`.
    pub fn at(bytes: &[u8], offset: usize) -> Place {
        let before = &bytes[..offset.min(bytes.len())];
        let lines = before.iter().filter(|byte| **byte == b'\n').count();
        let columns = before
            .iter()
            .rev()
            .take_while(|byte| **byte != b'\n')
            .count();
        Place {
            line: lines.saturating_add(1),
            column: columns.saturating_add(1),
        }
    }
}

impl fmt::Display for Place {
    fn fmt<W: fmt::Write>(&self, f: &mut fmt::Formatter<W>) -> fmt::Result {
        let Place { line, column } = *self;
        write!(f, "{line}:{column}")
    }
}

/// What is wrong with a file.
#[derive(Drop)]
pub struct Finding {
    /// The place in the file; None if the sentence is on the file as a whole.
    pub place: Option<Place>,
    /// The sentence.
    pub text: String,
}

impl Finding {
    /// Returns the finding with the sentence `text` at byte `offset`, counted from 0, of `bytes`.
    pub fn at(bytes: &[u8], offset: usize, text: String) -> Finding {
        let place = Some(Place::at(bytes, offset));
        Finding { place, text }
    }

    /// Returns the finding with the sentence `text` at the first byte of a file.
    pub fn at_start(text: String) -> Finding {
        let place = Some(Place::START);
        Finding { place, text }
    }

    /// Returns the finding with the sentence `text` on a file as a whole.
    pub fn on_file(alloc: Global, text: &str) -> Result<Finding, AllocError> {
        let text = String::from_str(alloc, text)?;
        Ok(Finding { place: None, text })
    }

    /// Returns the note with this finding on the file `name`: `NAME:LINE:COLUMN: TEXT`, with `front` before the text.
    pub fn note(&self, alloc: Global, name: &str, front: &str) -> Result<String, AllocError> {
        let text = self.text.as_str();
        match self.place {
            Some(place) => format!(in alloc; "{name}:{place}: {front}{text}"),
            None => format!(in alloc; "{name}: {front}{text}"),
        }
    }
}

/// What is wrong with a file that is refused.
#[derive(Drop)]
pub struct Findings {
    /// The findings on the fault for which the file is refused.
    pub own: Vec<Finding>,
    /// Those on other faults.
    pub further: Vec<Finding>,
}

impl Findings {
    /// Returns no findings.
    pub fn new(alloc: Global) -> Findings {
        Findings {
            own: Vec::new(alloc),
            further: Vec::new(alloc),
        }
    }

    /// Adds `finding`, if there is one, to those on the fault for which the file is refused.
    pub fn add(&mut self, finding: Option<Finding>) -> Result<(), AllocError> {
        if let Some(finding) = finding {
            self.own.push(finding)?;
        }
        Ok(())
    }

    /// Adds the findings to `notes`, as notes on the file `name`.
    pub fn note(
        &self,
        alloc: Global,
        name: &str,
        notes: &mut Vec<String>,
    ) -> Result<(), AllocError> {
        for finding in &self.own {
            notes.push(finding.note(alloc, name, "")?)?;
        }
        for finding in &self.further {
            notes.push(finding.note(alloc, name, "further: ")?)?;
        }
        Ok(())
    }
}
