//! What tables declare, one after another, before the links are searched.

ghost use Rattle.std.specs.Prelude.{◌≡◌, ◌∷◌, [], ◌++◌, ℕ, List, map, IfOk, IfErr, IsTrue, ◌↔◌};
ghost use Rattle.acpi_name.specs.Names.{Segment};
ghost use Rattle.acpi_space.specs.Laws.{Among};
ghost use Rattle.acpi_space.specs.Overlays.{contents_over, lower_of};
ghost use Rattle.acpi_space.specs.Spaces.{is_defined};
ghost use Rattle.acpi_declare.specs.Declaring.{HasTableOver, HasTables, objects_so_far, notes_so_far, state_of};
ghost use Rattle.acpi_pass.specs.Pending.{IsMissedLink, all_pending_of};
ghost use Rattle.acpi_declare.specs.DeclaredView.{objects_in, links_in, notes_in};
ghost use Rattle.acpi_pass.specs.Links.{links_at, links_of};
ghost use Rattle.acpi_declare.specs.Loads.{IsLoad, AreNotes};
ghost use Rattle.acpi_pass.specs.Namespace.{namespace_of};
ghost use Rattle.acpi_pass.specs.Notes.{notes_of};
ghost use Rattle.acpi_declare.specs.Refusals.{IsLoadFault};

use crate::fault::LoadFault;
use crate::load::{Declared, add_table, start};
use acpi_name::Path;
use acpi_pass::{Keep, PendingLinks, TableNotes, misses_of_links, search_links};
use acpi_space::{AllPaths, Overlay, PathsOf, Space};
use acpi_terms::{Depth, Object};
use bytes::Bytes;
use std::alloc::{AllocError, Global};

/// What was declared so far, table after table: the namespace, the links of fields, which are searched when all
/// tables are declared, and what each table notes.
#[derive(Drop)]
pub struct Declaring<S> {
    pub(crate) objects: S,
    pub(crate) links: Vec<PendingLinks>,
    pub(crate) notes: Vec<TableNotes>,
}

impl<S: Space<Object>> Declaring<S> {
    ghost use Rattle.acpi_declare.specs.Declaring.{objects_so_far, notes_so_far};

    /// What a DSDT declares.
    pub fn dsdt(alloc: Global, dsdt: &Bytes, depth: Depth) -> Result<Declaring<S>, LoadFault>
        ensures ok { IfOk result (λ d. HasTables depth (dsdt.now ∷ [])
            (state_of S.contents d)) }
        ensures err { (later : List (List ℕ))
            → IfErr result (λ e. IsLoadFault depth (dsdt.now ∷ later) e) }
    {
        add_table(alloc, start(alloc)?, 0, dsdt, Keep::All, depth)
    }

    /// With what one SSDT declares over it.
    pub fn with_ssdt(
        self,
        alloc: Global,
        ssdt: &Bytes,
        depth: Depth,
    ) -> Result<Declaring<S>, LoadFault>
        ensures ok { (tables : List (List ℕ))
            → HasTables depth tables (state_of S.contents self)
            → IfOk result (λ d. HasTables depth (tables ++ ssdt.now ∷ [])
            (state_of S.contents d)) }
        ensures err { (tables later : List (List ℕ))
            → HasTables depth tables (state_of S.contents self)
            → IfErr result (λ e. IsLoadFault depth (tables ++ ssdt.now ∷ later) e) }
    {
        let number = self.notes.len();
        add_table(alloc, self, number, ssdt, Keep::All, depth)
    }

    /// What one SSDT declares over these tables, which are borrowed and stay as they are: the namespace of all of them
    /// with it, and its own links and notes.
    pub fn ssdt_over(
        &self,
        alloc: Global,
        ssdt: &Bytes,
        depth: Depth,
    ) -> Result<Declaring<Overlay<'_, S>>, LoadFault>
        ensures ok { (tables : List (List ℕ))
            → (so : HasTables depth tables (state_of S.contents self.now))
            → IfOk result (λ d. HasTableOver depth tables so.placements ssdt.now
            (state_of (contents_over S.contents) d)) }
        ensures lower { IfOk result (λ d. lower_of S.contents (objects_so_far d)
            ≡ S.contents (objects_so_far self.now)) }
        ensures err { (tables later : List (List ℕ))
            → HasTables depth tables (state_of S.contents self.now)
            → IfErr result (λ e. IsLoadFault depth (tables ++ ssdt.now ∷ later) e) }
    {
        let layer = Declaring {
            objects: Overlay::over(alloc, &self.objects),
            links: Vec::new(alloc),
            notes: Vec::new(alloc),
        };
        add_table(alloc, layer, self.notes.len(), ssdt, Keep::All, depth)
    }

    /// The namespace.
    pub fn objects(&self) -> &S
        ensures { result.now ≡ objects_so_far self.now }
    {
        &self.objects
    }

    /// What each table notes, in the order of the tables.
    pub fn notes(&self) -> &[TableNotes]
        ensures { result.now ≡ notes_so_far self.now }
    {
        &self.notes
    }

    /// The paths that the searches of the links miss, where no further table is declared: in the order of the searches,
    /// and one may be there several times.
    pub fn link_misses(&self, alloc: Global) -> Result<Vec<Path>, AllocError>
        ensures { IfOk result (λ v. (p : List Segment) → Among v.items p
            ↔ IsMissedLink (state_of S.contents self.now).objects
            (state_of S.contents self.now).links p) }
    {
        misses_of_links(alloc, &self.objects, &self.links, &AllPaths)
    }

    /// The paths that the searches of the links miss over those objects, and that another space has.
    pub fn link_misses_over<O: Space<Object>, W, T: Space<W>>(
        &self,
        alloc: Global,
        objects: &O,
        among: &T,
    ) -> Result<Vec<Path>, AllocError>
        ensures { IfOk result (λ v. (p : List Segment) → Among v.items p
            ↔ (IsMissedLink (namespace_of (O.contents objects.now))
            (state_of S.contents self.now).links p
            × IsTrue (is_defined (T.contents among.now) p))) }
    {
        misses_of_links(alloc, objects, &self.links, &PathsOf::new(among))
    }

    /// The namespace, the links, searched over it, and the notes.
    pub fn finish(self, alloc: Global) -> Result<Declared<S>, LoadFault>
        ensures found { IfOk result (λ d. links_at (links_in d)
            ≡ links_of (state_of S.contents self).objects
            (state_of S.contents self).links) }
        ensures load { IfOk result (λ d. (depth : ℕ) (tables : List (List ℕ))
            → HasTables depth tables (state_of S.contents self)
            → IsLoad depth tables (namespace_of (S.contents (objects_in d)))
            (links_at (links_in d))) }
        ensures notes { IfOk result (λ d. (depth : ℕ) (tables : List (List ℕ))
            → HasTables depth tables (state_of S.contents self)
            → AreNotes depth tables (map notes_of (notes_in d))) }
        ensures objects { IfOk result (λ d. objects_in d ≡ objects_so_far self) }
        ensures same_notes { IfOk result (λ d. notes_in d ≡ notes_so_far self) }
        ensures memory { IfErr result (λ e. e ≡ LoadFault.Memory) }
    {
        let Declaring {
            objects,
            links,
            notes,
        } = self;
        let links = search_links(alloc, &objects, links)?;
        Ok(Declared {
            objects,
            links,
            notes,
        })
    }
}
