use std::io;
use std::io::Print;

/// How many rows were run, and how many differ from what is expected.
#[derive(Clone, Copy, Debug, PartialEq, Eq)]
pub(crate) struct Tally {
    rows: u64,
    different: u64,
}

impl Tally {
    pub(crate) fn new() -> Tally {
        Tally {
            rows: 0,
            different: 0,
        }
    }

    pub(crate) fn rows(&self) -> u64 {
        self.rows
    }

    pub(crate) fn different(&self) -> u64 {
        self.different
    }

    /// Counts a row, and prints its name where it differs.
    pub(crate) fn count(&mut self, rt: &impl Print, name: &str, is_same: bool) -> io::Result<()> {
        self.rows = self.rows.saturating_add(1);
        if !is_same {
            self.different = self.different.saturating_add(1);
            println!(rt; "differs: {name}")?;
        }
        Ok(())
    }
}
