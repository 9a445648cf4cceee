//! What is noticed while the nodes of tables are read.

ghost use Rattle.std.specs.Prelude.{◌≡◌, ◌++◌, ◌∷◌, [], map, OnOk};
ghost use Rattle.acpi_survey.specs.Reading.{with_unknown};
ghost use Rattle.acpi_survey.specs.SourceViews.{unknown_of};

use acpi_conditions::Candidates;
use acpi_name::{Name, Path};
use std::alloc::{AllocError, Global};

/// A Scope that is entered.
#[derive(Debug, Drop)]
pub struct OpenedScope {
    /// Where it stands: the table's number times 2^64, and the number of bytes of the table's code before it.
    pub place: u128,
    /// The path of its target.
    pub path: Path,
}

/// Names of which nothing is known where a node is read.
#[derive(Debug, Drop)]
pub struct Unknown {
    /// Where the node stands: the table's number times 2^64, and the number of bytes of the table's code before it.
    pub place: u128,
    /// The names, not resolved.
    pub names: Vec<Name>,
}

/// Where the source of an Alias may be found.
#[derive(Drop)]
pub struct AliasSource {
    /// Where the Alias stands: the table's number times 2^64, and the number of bytes of the table's code before it.
    pub place: u128,
    /// Where its source may be found from there, when the Alias is read.
    pub found: Candidates,
}

/// The Scopes that are entered, the names of which nothing is known, and the sources of Aliases, each in the order of
/// their places.
#[derive(Drop)]
pub(crate) struct Remarks {
    opened: Vec<OpenedScope>,
    unknown: Vec<Unknown>,
    sources: Vec<AliasSource>,
}

impl Remarks {
    /// Nothing is noticed.
    pub(crate) fn new(alloc: Global) -> Remarks
        ensures opened { result.opened.items ≡ [] }
        ensures sources { result.sources.items ≡ [] }
        ensures unknown { result.unknown.items ≡ [] }
    {
        Remarks {
            opened: Vec::new(alloc),
            unknown: Vec::new(alloc),
            sources: Vec::new(alloc),
        }
    }

    /// The Scopes.
    pub(crate) fn opened(&self) -> &[OpenedScope]
        ensures { result.now ≡ self.now.opened.items }
    {
        &self.opened
    }

    /// The names.
    pub(crate) fn unknown(&self) -> &[Unknown]
        ensures { result.now ≡ self.now.unknown.items }
    {
        &self.unknown
    }

    /// The sources of Aliases.
    pub(crate) fn sources(&self) -> &[AliasSource]
        ensures { result.now ≡ self.now.sources.items }
    {
        &self.sources
    }

    /// Puts a Scope behind others, and the path of its target.
    pub(crate) fn put_opened(&mut self, place: u128, path: Path) -> Result<(), AllocError>
        ensures opened { OnOk result (self.new.opened.items
            ≡ self.old.opened.items ++ record { place = place; path = path } ∷ []) }
        ensures sources { OnOk result (self.new.sources.items ≡ self.old.sources.items) }
        ensures unknown { OnOk result (self.new.unknown.items ≡ self.old.unknown.items) }
    {
        self.opened.push(OpenedScope { place, path })?;
        Ok(())
    }

    /// Puts the names in the node at the place behind others, if there are any.
    pub(crate) fn put_unknown(&mut self, place: u128, names: Vec<Name>) -> Result<(), AllocError>
        ensures opened { OnOk result (self.new.opened.items ≡ self.old.opened.items) }
        ensures sources { OnOk result (self.new.sources.items ≡ self.old.sources.items) }
        ensures unknown { OnOk result (map unknown_of self.new.unknown.items
            ≡ with_unknown place names.items (map unknown_of self.old.unknown.items)) }
    {
        if names.is_empty() {
            return Ok(());
        }
        self.unknown.push(Unknown { place, names })?;
        Ok(())
    }

    /// Puts the source of the Alias at the place behind others.
    pub(crate) fn put_source(&mut self, place: u128, found: Candidates) -> Result<(), AllocError>
        ensures opened { OnOk result (self.new.opened.items ≡ self.old.opened.items) }
        ensures sources { OnOk result (self.new.sources.items
            ≡ self.old.sources.items ++ record { place = place; found = found } ∷ []) }
        ensures unknown { OnOk result (self.new.unknown.items ≡ self.old.unknown.items) }
    {
        self.sources.push(AliasSource { place, found })?;
        Ok(())
    }
}
