//! Notes and progress on the standard error.

use cg_diagnostics::Aside;
use std::alloc::AllocError;

/// A writer of notes to the standard error, a line each. Progress is shown there on one line that is overwritten.
#[derive(Drop)]
pub(crate) struct Notes<'r, R> {
    rt: &'r R,
    /// Whether progress is shown.
    shows_progress: bool,
    /// The length of the progress line that is shown, in bytes; 0 where none is.
    shown: usize,
}

impl<'r, R: Eprint + AllocGlobal> Notes<'r, R> {
    /// Returns a writer to the standard error of `rt`, which shows progress too where `shows_progress` is true.
    pub(crate) fn new(rt: &'r R, shows_progress: bool) -> Notes<'r, R> {
        Notes {
            rt,
            shows_progress,
            shown: 0,
        }
    }

    /// Overwrites the progress line: a search at the interval `ii`, in cycles, made `moves` moves, and `least` is the
    /// least number that it reached.
    fn show(&mut self, ii: u32, moves: u32, least: u32) -> Result<(), AllocError> {
        let mut line = format!(in self.rt.alloc(); "\rii {ii}: {moves} moves, least {least}")?;
        let length = line.len();
        for _ in length..self.shown {
            line.push(' ')?;
        }
        // The search continues the same way where this can't be written.
        let _ = self.rt.eprint(line.as_str());
        self.shown = length;
        Ok(())
    }

    /// Erases the progress line, if one is shown.
    fn clear(&mut self) {
        if self.shown > 0 {
            let _ = self.rt.eprint("\r");
            for _ in 0..self.shown {
                let _ = self.rt.eprint(" ");
            }
            let _ = self.rt.eprint("\r");
            self.shown = 0;
        }
    }
}

impl<'r, R: Eprint + AllocGlobal> Aside for Notes<'r, R> {
    fn note(&mut self, text: &str) {
        self.clear();
        // The call ends the same way where this can't be written.
        let _ = self.rt.eprintln(text);
    }

    fn progress(&mut self, ii: u32, moves: u32, least: u32) {
        if self.shows_progress {
            // Where memory for the line runs out, it isn't shown.
            let _ = self.show(ii, moves, least);
        }
    }

    fn end_progress(&mut self) {
        self.clear();
    }
}
