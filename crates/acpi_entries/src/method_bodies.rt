//! The bodies of the methods of entries.

ghost use Rattle.std.specs.Prelude.{◌≡◌, ◌↔◌, IfOk, IfErr};
ghost use Rattle.acpi_tree.specs.Terms.{TermTrees};
ghost use Rattle.acpi_tree.specs.TermView.{terms_tree};
ghost use Rattle.acpi_body.specs.Statements.{ReadsBody};
ghost use Rattle.acpi_body.specs.Faults.{ShowsBody};
ghost use Rattle.acpi_body.specs.Reasons.{IfFault};
ghost use Rattle.acpi_entries.specs.steps.MethodBodies.{method_grammar};

use crate::setting::Setting;
use acpi_body::{BodyError, read_terms};
use acpi_code::Depth;
use acpi_conditions::{Entries, Entry, Met, Seen};
use acpi_counts::Counts;
use acpi_tree::Term;
use std::alloc::Global;

/// What the bodies of methods are read against: the entries, how many arguments their objects take, where that is sure,
/// and what the Externals of a table say.
#[derive(Clone, Copy)]
pub(crate) struct Methods<'a> {
    pub(crate) alloc: Global,
    pub(crate) entries: Entries<'a>,
    pub(crate) counts: &'a [Option<u8>],
    pub(crate) expected: &'a Counts,
}

/// The terms of a body, of the method of an entry.
pub(crate) fn terms_of(
    methods: &Methods<'_>,
    entry: &Entry,
    body: &[u8],
    depth: Depth,
) -> Result<Vec<Term>, BodyError>
    // Terms are the reading of the body.
    ensures read { IfOk result (λ v. (ts : TermTrees) → (terms_tree v.items ≡ ts)
        ↔ ReadsBody (method_grammar methods.now entry.now) entry.now.path depth body.now ts) }
    // A fault is the one at which reading the body stops ..
    ensures faults { IfErr result (λ e. IfFault e (λ f.
        ShowsBody (method_grammar methods.now entry.now) entry.now.path depth body.now
        f.reason f.place)) }
    // .. and it has no reading.
    ensures unread { IfErr result (λ e. IfFault e (λ f. (ts : TermTrees)
        → ¬ ReadsBody (method_grammar methods.now entry.now) entry.now.path depth body.now ts)) }
{
    let entries = methods.entries;
    let setting = Setting {
        alloc: methods.alloc,
        seen: Seen::new(entries.paths, entries.ways, entry)?,
        met: Met::new(entries.paths, entries.ways, entry.way)?,
        counts: methods.counts,
        expected: methods.expected,
        method: &entry.path,
    };
    read_terms(&setting, body, depth)
}
