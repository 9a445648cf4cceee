//! Where a run's output goes.

/// The terminal of a run, if it has one. A run asks it how a report looks, and tells it that work begins; nothing that
/// a contract speaks of rests on its answers.
pub trait Console {
    /// Whether standard output shows colours.
    fn shows_colours(&self) -> bool {
        false
    }

    /// Work over tables of so many bytes begins.
    fn work_begins(&mut self, _bytes: usize) {}
}

/// No terminal.
#[derive(Clone, Copy, Debug, Drop)]
pub struct NoConsole;

impl Console for NoConsole {}
