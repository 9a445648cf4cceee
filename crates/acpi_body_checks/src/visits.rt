//! How much work a check may do.

// How many lines a check may visit in all. No firmware comes near it; without a bound a table could be made that keeps a
// check for hours.
const MOST_VISITS: usize = 1 << 23;

/// How many lines a check may visit yet, over all bodies of a machine.
#[derive(Debug, Drop)]
pub(crate) struct Visits {
    left: usize,
}

impl Visits {
    pub(crate) fn new() -> Visits {
        Visits { left: MOST_VISITS }
    }

    /// Takes so many visits, if they are left.
    pub(crate) fn take(&mut self, count: usize) -> bool {
        match self.left.checked_sub(count) {
            Some(left) => {
                self.left = left;
                true
            }
            None => false,
        }
    }
}
