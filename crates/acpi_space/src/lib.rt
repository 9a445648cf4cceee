//! The namespace as a finite map from paths to values, and the search of a name in it (ACPI 6.5, 5.3).
//!
//! ```text
//! Path, value ──insert──► Space ──get──► the value at a path
//!                           │ ──pairs──► all of them, in the order of the paths; visit_pairs shows them to a Visitor
//! scope, name ──search──────┤ ─────────► the path that the name means
//!             ──misses──────┘ ─────────► the paths that were tried in vain
//! ```
//!
//! ```text
//! let mut objects = TreeSpace::new(alloc);
//! objects.insert(path, object)?;
//! match search(alloc, &objects, &scope, name)? {
//!     Found::At(path) => objects.get(&path),
//!     Found::Missing => None,
//! }
//! ```
//!
//! A `Space` is kept as a tree (`TreeSpace`) or in an ordered map (`MapSpace`), or it is laid over another,
//! which is only borrowed (`Overlay`); contracts see each as a finite map, `contents`. `search` and
//! `misses` are defined over any test of paths (`answer` and `missed` in specs/Search.antt). What the
//! standard says of a search, and when its answer stays, are contracts in `laws`.
#![tactic(auto)]

mod children;
mod grown;
pub mod laws;
mod lookup;
mod map_space;
mod nodes;
mod overlay;
mod scopes;
mod space;
mod trail;
mod tree_space;
mod walk;
mod wanted;

pub use lookup::{Found, SearchFault, search};
pub use map_space::MapSpace;
pub use overlay::Overlay;
pub use space::{Refused, Space, Visitor};
pub use tree_space::TreeSpace;
pub use wanted::{AllPaths, PathsOf, Wanted, misses, wanted_misses};
