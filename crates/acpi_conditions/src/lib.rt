//! What tables may declare, and under which condition, without running their code (ACPI 6.5, 5.3, 19.6 and 20.2.5):
//! definitions and laws, a walk over nodes that gives their survey, and the searches over what is known.
//!
//! ```text
//! nodes of a table ──► survey ──► entries: a path, the way to the term, what it asks
//! what is known    ──►        ──► refusals and stops
//!
//! If (One) { Device (DEV0) }  ──► \DEV0       ? if(One)
//! Name (\DEV0.AAAA, 1)        ──► \DEV0.AAAA  ? has(\DEV0)
//! ```
//!
//! A run takes one branch of each If and some number of rounds of each While (specs/Runs.antt). The contracts of `laws`
//! say what the survey says of all runs:
//!
//! | Law | Statement |
//! |---|---|
//! | `survey_is_sound` | in every run a term declares its object exactly where what its entry asks is so |
//! | `control_comes_by_the_way` | control comes to an entry's term unless it misses a turn of the entry's way |
//! | `links_are_sound` | a name is found at one of its candidates, and it is found where one of them is certain |
//! | `known_is_seen_among_all` | what is there before all tables may be counted among their entries |
//! | `strict_is_survey` | strict listings of tables are their surveys, without conditions |
//! | `tests_decide` | four tests of what is known decide what nodes give |
//! | `longer_begins` | further tables change nothing of the surveys of those before them |
//! | `walk_is_survey` | the steps of a walk for nodes, one after another, give their survey |
//!
//! A reader makes a step of a `Walk` for each node, and each step is exactly that of specs/Walk.antt:
//!
//! ```text
//! let mut walk = Walk::new(alloc);
//! walk.predefine(term, path)?;                                // for each object that is there before all tables
//! walk.enter_first(place)?;                                   // If
//! if walk.enter_term(device)? {                               // a Device inside of it, if it isn't refused
//!     walk.declare(name)?;                                    // a Name inside of that
//!     walk.leave()?;
//! }
//! walk.leave()?;
//! walk.enter_other(place)?;                                   // Else
//! walk.leave()?;
//! walk.end_table()?;
//! let entries = walk.entries();
//! ```
//!
//! The code asks what is known of one path after another (`Statuses`), which answers these four tests at once, of a
//! walk or of what is seen from an entry:
//!
//! ```text
//! let found = find(alloc, &known, &scope, name)?;             // the candidates, and whether the last is certain
//! let placing = declare_at(alloc, &known, &scope, name)?;     // the path, and whether the term asks `has` and `no`
//! let needs = uncertain_names(alloc, &known, &scope, &names)?;
//! let target = open_at(alloc, &known, &scope, name)?;         // the scope that a Scope opens
//! let seen = Seen::new(&known, &ways, &entry)?;               // what is seen from an entry, behind all tables
//! let links = links_of(alloc, &seen, &names)?;
//! let along = SeenAlong::new(&known, &ways, turns);           // what is seen by a way, from a term that declares nothing
//! let met = Met::new(&known, &ways, way)?;                    // the entries so far that control may have met on its way
//! let numbers = met.numbers_at(alloc, &path)?;
//! ```
#![tactic(auto)]

mod by_path;
mod entry;
mod facts;
mod known_paths;
pub mod laws;
mod met;
mod packages;
mod placing;
mod reasons;
mod searches;
mod seen;
mod seen_along;
mod settled;
mod slots;
mod statuses;
mod stops;
mod targets;
mod turns;
mod walk;
mod walk_steps;

pub use entry::{Asks, Entry, Term};
pub use facts::Mark;
pub use known_paths::KnownPaths;
pub use met::Met;
pub use packages::Refusal;
pub use placing::{Placing, PlacingFault, Reason, declare_at, open_at, uncertain_names};
pub use reasons::copy_paths;
pub use searches::{Candidates, find};
pub use seen::{Seen, links_of};
pub use seen_along::SeenAlong;
pub use statuses::{Presence, Status, Statuses};
pub use stops::{Stop, StopAt};
pub use turns::{Turn, Way, Ways};
pub use walk::{Entries, Walk};
