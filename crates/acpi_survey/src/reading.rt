//! What is known while the nodes of tables are read.

ghost use Rattle.std.specs.Prelude.{◌≡◌, ◌++◌, ◌+◌, ◌∷◌, [], Some, filter, is_ok, map, IfOk, OnOk, IsTrue};
ghost use Rattle.std.specs.FinMap as finite;
ghost use Rattle.acpi_name.specs.NameRefs.{name_parts};
ghost use Rattle.acpi_name.specs.Paths.{place_of};
ghost use Rattle.acpi_tree.specs.View.{external_view};
ghost use Rattle.acpi_conditions.specs.Here.{meeting};
ghost use Rattle.acpi_conditions.specs.EntryForms.{entry_view, refusal_of, term_view as declaring_view};
ghost use Rattle.acpi_conditions.specs.Turns.{stop_of};
ghost use Rattle.acpi_conditions.specs.Known.{candidates, is_certain_name, opened_at, declared_at};
ghost use Rattle.acpi_conditions.specs.Met.{met_by};
ghost use Rattle.acpi_conditions.specs.Walk as walks;
ghost use Rattle.acpi_survey.specs.Reading.{count_at, opened_behind, counts_at, is_heard, with_expected, declaring, stopping, passing, expecting, entering, leave, with_source, is_unknown, noticing};
ghost use Rattle.acpi_survey.specs.NameUses.{lent_names};
ghost use Rattle.acpi_survey.specs.Predefined.{nothing_read};
ghost use Rattle.acpi_survey.specs.steps.Readings.{opened_pairs};
ghost use Rattle.acpi_survey.specs.SourceViews.{source_of, unknown_of};
ghost use Rattle.acpi_survey.specs.Survey.{place_in, at_table, behind_table};

use crate::counts::{agreed, expected_count, put_counts};
use crate::remarks::Remarks;
use acpi_conditions::{Candidates, Entries, Met, Refusal, Stop, Term as Declaring, Walk};
use acpi_counts::Counts;
use acpi_name::{Name, NameRef, Path, PlaceFault, place};
use acpi_tree::External;
use std::alloc::{AllocError, Global};
use std::marker::Model;
use std::mem::replace;

/// What is known while the nodes of tables are read: what is declared so far, and how many values follow a name.
#[derive(Drop)]
pub(crate) struct Reading {
    alloc: Global,
    walk: Walk,
    table: usize,
    counts: Vec<Option<u8>>,
    expected: Counts,
    remarks: Remarks,
}

impl Model for Reading {
    ghost use Rattle.acpi_survey.specs.Reading.{Reading as ReadingParts};
    ghost use Rattle.acpi_survey.specs.steps.Readings.{reading_of, expected_code};
    ghost use Rattle.std.specs.Coded.{codes};

    ghost Value = { ReadingParts };

    ghost coded = { Prim.hlevel (codes, expected_code) };

    ghost view = { reading_of };
}

/// The place of what stands at the offset of the code of the table of that number: one number among all tables.
pub fn place_in(table: usize, offset: usize) -> u128
    ensures { result ≡ place_in table offset }
{
    table as u128 * (1 << 64) + offset as u128
}

impl Reading {
    /// Where memory comes from.
    pub(crate) fn memory(&self) -> Global {
        self.alloc
    }

    /// The place, among the bytes of all tables, of what stands at the offset of the code.
    pub(crate) fn place(&self, offset: usize) -> u128
        ensures { result ≡ self.now.base + offset }
    {
        place_in(self.table, offset)
    }

    /// What is known where nothing is.
    pub(crate) fn empty(alloc: Global) -> Reading
        ensures { result ≡ nothing_read }
    {
        Reading {
            alloc,
            walk: Walk::new(alloc),
            table: 0,
            counts: Vec::new(alloc),
            expected: Counts::new(alloc),
            remarks: Remarks::new(alloc),
        }
    }

    /// Puts an object that is there before all tables, at a path.
    pub(crate) fn predefine(
        &mut self,
        name: Name,
        path: Path,
        is_scope: bool,
        args: u8,
    ) -> Result<(), AllocError>
        ensures { OnOk result (self.new ≡ record self.old {
          walk = walks.predefine
              (record { place = 0; name = name; is_scope = is_scope; needs = [] })
              path self.old.walk;
          counts = self.old.counts ++ Some args ∷ [];
        }) }
    {
        let term = Declaring {
            place: 0,
            name,
            is_scope,
            needs: Vec::new(self.alloc),
        };
        self.walk.predefine(term, path)?;
        self.counts.push(Some(args))?;
        Ok(())
    }

    /// Comes to a table of that number.
    pub(crate) fn come_to_table(&mut self, number: usize)
        ensures { self.new ≡ at_table number self.old }
    {
        self.table = number;
    }

    /// Ends a table. What its Externals say, which is forgotten.
    pub(crate) fn end_table(&mut self) -> Result<Counts, AllocError>
        ensures table { OnOk result (self.new ≡ behind_table self.old) }
        ensures expected { IfOk result (λ c. c ≡ self.old.expected) }
    {
        self.walk.end_table()?;
        Ok(replace(&mut self.expected, Counts::new(self.alloc)))
    }

    /// Passes a term with nothing inside, whose object takes so many arguments, where that is sure.
    pub(crate) fn declare(&mut self, term: Declaring, count: Option<u8>) -> Result<(), AllocError>
        ensures { OnOk result (self.new ≡ declaring (declaring_view term) count self.old) }
    {
        if self.walk.declare(term)? {
            self.counts.push(count)?;
        }
        Ok(())
    }

    /// Goes into the package of a term, where it can be declared.
    pub(crate) fn enter_term(&mut self, term: Declaring) -> Result<(), AllocError>
        ensures { OnOk result (self.new ≡ entering (declaring_view term) self.old) }
    {
        if self.walk.enter_term(term)? {
            self.counts.push(Some(0))?;
        }
        Ok(())
    }

    /// Passes what has no effect on what is declared.
    pub(crate) fn pass(&mut self)
        ensures { self.new ≡ passing self.old }
    {
        self.walk.pass();
    }

    /// Passes a Return, a Break or a Continue.
    pub(crate) fn stop(&mut self, place: u128, kind: Stop) -> Result<(), AllocError>
        ensures { OnOk result (self.new ≡ stopping place (stop_of kind) self.old) }
    {
        self.walk.stop(place, kind)
    }

    /// Passes an If whose test is lost.
    pub(crate) fn lost_if(&mut self, place: u128) -> Result<(), AllocError>
        ensures { OnOk result (self.new
            ≡ record self.old { walk = walks.lost_if place self.old.walk }) }
    {
        self.walk.lost_if(place)
    }

    /// Goes into the first branch of an If.
    pub(crate) fn enter_first(&mut self, place: u128) -> Result<(), AllocError>
        ensures { OnOk result (self.new
            ≡ record self.old { walk = walks.enter_first place self.old.walk }) }
    {
        self.walk.enter_first(place)
    }

    /// Goes into an Else.
    pub(crate) fn enter_other(&mut self, place: u128) -> Result<(), AllocError>
        ensures { OnOk result (self.new
            ≡ record self.old { walk = walks.enter_other place self.old.walk }) }
    {
        self.walk.enter_other(place)
    }

    /// Goes into the body of a While.
    pub(crate) fn enter_body(&mut self, place: u128) -> Result<(), AllocError>
        ensures { OnOk result (self.new
            ≡ record self.old { walk = walks.enter_body place self.old.walk }) }
    {
        self.walk.enter_body(place)
    }

    /// Goes into a Scope, where it opens a scope. Whether it does.
    #[tactic(auto, using(crate::proofs::OpenedScopes::opened_more, crate::proofs::OpenedScopes::opened_same))]
    pub(crate) fn enter_scope(&mut self, place: u128, name: NameRef<'_>) -> Result<bool, AllocError>
        ensures scope { OnOk result (self.new
            ≡ record self.old {
              walk = walks.enter_scope place (name_parts name.entry) self.old.walk;
              opened = opened_behind self.old place (name_parts name.entry);
            }) }
        ensures entered { IfOk result (λ b. b ≡ is_ok
            (opened_at self.old.walk.known self.old.walk.around.scope (name_parts name.entry))) }
    {
        let entered = self.walk.enter_scope(place, name)?;
        if entered {
            self.remarks.put_opened(place, self.walk.scope().copy()?)?;
        }
        Ok(entered)
    }

    /// Goes out of the package that was entered last.
    pub(crate) fn leave_package(&mut self) -> Result<(), AllocError>
        ensures { OnOk result (self.new ≡ leave self.old) }
    {
        self.walk.leave()
    }

    /// Whether a term of this name can be declared here.
    pub(crate) fn can_declare(&self, name: NameRef<'_>) -> Result<bool, AllocError>
        ensures { IfOk result (λ b. b ≡ is_ok (declared_at self.now.walk.known
            self.now.walk.around.scope (name_parts name.entry))) }
    {
        self.walk.can_declare(name)
    }

    /// Whether a Scope of this name opens a scope here.
    pub(crate) fn can_open(&self, name: NameRef<'_>) -> Result<bool, AllocError>
        ensures { IfOk result (λ b. b ≡ is_ok (opened_at self.now.walk.known
            self.now.walk.around.scope (name_parts name.entry))) }
    {
        self.walk.can_open(name)
    }
}

// ---- what is known

impl Reading {
    /// The entries so far, by path, and their ways.
    pub(crate) fn entries(&self) -> Entries<'_>
        ensures { map (entry_view result.ways.now) result.paths.now.entries
            ≡ self.now.walk.entries }
    {
        self.walk.entries()
    }

    /// The refusals so far.
    pub(crate) fn refused(&self) -> &[Refusal]
        ensures { map refusal_of result.now ≡ self.now.walk.refused }
    {
        self.walk.refused()
    }
}

// ---- how many values follow a name

impl Reading {
    // Puts the counts of what is at a path behind others.
    fn put_counts_at(
        &self,
        met: &Met<'_>,
        found: &mut Vec<Option<u8>>,
        path: &Path,
    ) -> Result<(), AllocError>
        requires { met.now ≡ meeting self.now.walk }
        ensures { OnOk result (found.new.items ≡ found.old.items ++ counts_at self.now path.now) }
    {
        if self.walk.is_around(path) {
            found.push(Some(0))?;
            return Ok(());
        }
        let numbers = met.numbers_at(self.alloc, path)?;
        put_counts(found, &self.counts, &numbers)
    }

    /// How many values follow a name here.
    pub(crate) fn count_at(&self, name: NameRef<'_>) -> Result<Option<u8>, AllocError>
        ensures { IfOk result (λ n. n ≡ count_at self.now (name_parts name.entry)) }
    {
        let met = self.walk.met()?;
        let scope = self.walk.scope();
        let candidates = met.find(self.alloc, scope, name)?;
        if candidates.paths.is_empty() {
            let count = expected_count(self.alloc, &self.expected, scope, name)?;
            return Ok(Some(count));
        }
        let mut found = Vec::new(self.alloc);
        'each: for path in &candidates.paths {
            self.put_counts_at(&met, &mut found, path)?;
        }
        Ok(agreed(&found))
    }

    /// Passes an External, which may say how many arguments a method takes.
    pub(crate) fn expect(&mut self, external: &External) -> Result<(), AllocError>
        ensures { OnOk result (self.new ≡ expecting (external_view external.now) self.old) }
    {
        self.walk.pass();
        if is_heard(external) {
            add_expected(self.alloc, &mut self.expected, self.walk.scope(), external)?;
        }
        Ok(())
    }
}

// ---- what is noticed

impl Reading {
    /// The walk over the nodes so far.
    pub(crate) fn walk(&self) -> &Walk
        ensures { result.now ≡ self.now.walk }
    {
        &self.walk
    }

    /// What is noticed so far.
    pub(crate) fn remarks(&self) -> &Remarks
        ensures opened { opened_pairs result.now.opened.items ≡ self.now.opened }
        ensures sources { map source_of result.now.sources.items ≡ self.now.sources }
        ensures unknown { map unknown_of result.now.unknown.items ≡ self.now.unknown }
    {
        &self.remarks
    }

    // Whether nothing is known of a name here.
    fn is_unknown(&self, name: NameRef<'_>) -> Result<bool, AllocError>
        ensures { IfOk result (λ b. b ≡ is_unknown self.now (name_parts name.entry)) }
    {
        let met = self.walk.met()?;
        let scope = self.walk.scope();
        let candidates = met.find(self.alloc, scope, name)?;
        if !candidates.paths.is_empty() {
            return Ok(false);
        }
        Ok(self.expected.find(self.alloc, scope, name)?.is_none())
    }

    // Those of the names of which nothing is known here.
    fn unknown_among(&self, names: &[&Name]) -> Result<Vec<Name>, AllocError>
        ensures { IfOk result (λ v. v.items ≡ filter (is_unknown self.now) (lent_names names.now)) }
    {
        let mut unknown = Vec::new(self.alloc);
        'each: for name in names {
            if self.is_unknown(name.view())? {
                unknown.push(name.copy()?)?;
            }
        }
        Ok(unknown)
    }

    /// Keeps those names in the node at the place of which nothing is known here.
    pub(crate) fn keep_unknown(&mut self, place: u128, names: &[&Name]) -> Result<(), AllocError>
        ensures { OnOk result (self.new ≡ noticing place (lent_names names.now) self.old) }
    {
        let unknown = self.unknown_among(names)?;
        self.remarks.put_unknown(place, unknown)
    }

    // Where a name may be found here.
    fn found_here(&self, name: NameRef<'_>) -> Result<Candidates, AllocError>
        ensures paths { IfOk result (λ c. c.paths.items ≡ candidates
            (met_by (meeting self.now.walk)) self.now.walk.around.scope (name_parts name.entry)) }
        ensures certain { IfOk result (λ c. c.is_certain ≡ is_certain_name
            (met_by (meeting self.now.walk)) self.now.walk.around.scope (name_parts name.entry)) }
    {
        let met = self.walk.met()?;
        met.find(self.alloc, self.walk.scope(), name)
    }

    /// Keeps where the source of the Alias at the offset of the code may be found here.
    pub(crate) fn keep_source(&mut self, offset: usize, source: &Name) -> Result<(), AllocError>
        ensures { OnOk result (self.new
            ≡ with_source (self.old.base + offset) source.now self.old) }
    {
        let found = self.found_here(source.view())?;
        let place = self.place(offset);
        self.remarks.put_source(place, found)
    }

    /// Of each entry how many values follow its name, where that is sure.
    pub(crate) fn counts(&self) -> &[Option<u8>]
        ensures { result.now ≡ self.now.counts }
    {
        &self.counts
    }
}

// Whether an External says how many arguments a method takes.
fn is_heard(external: &External) -> bool
    ensures { result ≡ is_heard (external_view external.now) }
{
    external.kind == 8 && external.args <= 7
}

// Adds what an External in the scope says.
fn add_expected(
    alloc: Global,
    expected: &mut Counts,
    scope: &Path,
    external: &External,
) -> Result<(), AllocError>
    requires { IsTrue (is_heard (external_view external.now)) }
    ensures { OnOk result (expected.new ≡ with_expected expected.old external.now.args
        external.now.name.segments (place_of scope.now external.now.name)) }
{
    if external.name.view().is_empty() {
        return Ok(());
    }
    match place(alloc, scope, external.name.view()) {
        Ok(path) => expected.add(path, external.args),
        Err(PlaceFault::AboveRoot) => Ok(()),
        Err(PlaceFault::Memory) => Err(AllocError),
    }
}
