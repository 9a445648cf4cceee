//! A walk over the nodes of tables, which gives their survey.

ghost use Rattle.std.specs.Prelude.{◌≡◌, ◌++◌, ◌∷◌, [], cond, length, map, option_to_list, reverse, slice_get, IfOk, OnOk};
ghost use Rattle.std.specs.List.{flat_map, list_any};
ghost use Rattle.acpi_space.specs.Lookups.{is_same_path};
ghost use Rattle.acpi_conditions.specs.Here.{meeting, scopes_around};
ghost use Rattle.std.specs.Option.{option_map};
ghost use Rattle.acpi_conditions.specs.EntryForms.{entry_view, refusal_of, term_view, why_of};
ghost use Rattle.acpi_conditions.specs.Turns.{stop_of, turn_of};
ghost use Rattle.acpi_conditions.specs.Known.{settled};
ghost use Rattle.acpi_conditions.specs.Survey.{lasting, refusing};
ghost use Rattle.acpi_conditions.specs.Walk.{first_walk, lost_if, package_at, pass, passed, started};
ghost use Rattle.acpi_conditions.specs.steps.Moves.{at_start, entry_here, gone_back, gone_out, innermost, IsBehindTerm, left_term, with_certain, with_entry, with_loop, with_other, with_package, with_returns, with_scope, with_turn, with_turns};
ghost use Rattle.acpi_conditions.specs.steps.Packages.{if_directly_before, kind_of};
ghost use Rattle.acpi_conditions.specs.steps.Settled.{certain_there};
ghost use Rattle.acpi_conditions.specs.declared.packages.Kind.TheVariants.{Other};

use crate::entry::{Entry, Term};
use crate::facts::Mark;
use crate::known_paths::KnownPaths;
use crate::met::Met;
use crate::packages::{Kind, Package, Refusal};
use crate::placing::Reason;
use crate::settled::{AfterTerm, certain_after, lasting_by, settled_by};
use crate::statuses::{Presence, Status, Statuses};
use crate::stops::{Stop, StopAt, keep_returns, way_past};
use crate::targets::Target;
use crate::turns::{Turn, Way, Ways};
use acpi_name::Path;
use std::alloc::{AllocError, Global};
use std::marker::Model;

/// A walk over the nodes of tables (ACPI 6.5, 5.3, 19.6 and 20.2.5): a reader calls a step for each node, and the walk
/// gives the entries and refusals of their survey. After an allocation failure only its safety is promised.
#[derive(Drop)]
pub struct Walk {
    alloc: Global,
    paths: KnownPaths,
    ways: Ways,
    scope: Path,
    way: Way,
    refused: Vec<Refusal>,
    stops: Vec<StopAt>,
    packages: Vec<Package>,
    last_if: Option<Package>,
    start: Mark,
}

/// The entries of a walk.
#[derive(Clone, Copy)]
pub struct Entries<'a> {
    /// The entries, in byte order, and by path.
    pub paths: &'a KnownPaths,
    /// Their ways.
    pub ways: &'a Ways,
}

impl Model for Walk {
    ghost use Rattle.acpi_conditions.specs.Walk.{Walk as WalkParts};

    ghost Value = { WalkParts };

    ghost use Rattle.acpi_conditions.specs.steps.Walks.{walk_of, IsWalk};

    ghost view = { walk_of };

    ghost invariant = { IsWalk };
}

impl Statuses for Walk {
    ghost use Rattle.acpi_conditions.specs.Walk.{Walk as WalkParts};

    ghost known = { λ (w : WalkParts). w.known };

    fn status(&self, path: &Path) -> Status {
        self.paths.status(path)
    }
}

impl Walk {
    /// A walk before all tables, which knows nothing.
    pub fn new(alloc: Global) -> Walk
        ensures { result ≡ first_walk }
    {
        let paths = KnownPaths::new(alloc);
        let ways = Ways::new(alloc);
        let way = ways.empty();
        let start = paths.mark();
        Walk {
            alloc,
            paths,
            ways,
            scope: Path::root(alloc),
            way,
            refused: Vec::new(alloc),
            stops: Vec::new(alloc),
            packages: Vec::new(alloc),
            last_if: None,
            start,
        }
    }

    /// Some node that has no effect on what is declared.
    pub fn pass(&mut self)
        ensures { self.new ≡ pass self.old }
    {
        self.last_if = None;
    }

    /// Behind an If whose test can't be read, so that its first branch isn't walked.
    pub fn lost_if(&mut self, place: u128) -> Result<(), AllocError>
        ensures { OnOk result (self.new ≡ lost_if place self.old) }
    {
        self.last_if = None;
        self.last_if = Some(Package {
            kind: Kind::First,
            place,
            scope: self.scope.copy()?,
            way: self.way,
            mark: self.paths.mark(),
            stops: self.stops.len(),
        });
        Ok(())
    }

    /// The entries so far, by path, and their ways.
    pub fn entries(&self) -> Entries<'_>
        ensures { map (entry_view result.ways.now) result.paths.now.entries ≡ self.now.entries }
    {
        Entries {
            paths: &self.paths,
            ways: &self.ways,
        }
    }

    /// The refusals so far.
    pub fn refused(&self) -> &[Refusal]
        ensures { map refusal_of result.now ≡ self.now.refused }
    {
        &self.refused
    }

    /// The scope in which the walk stands.
    pub fn scope(&self) -> &Path
        ensures { result.now ≡ self.now.around.scope }
    {
        &self.scope
    }

    /// Whether the path is that of the scope in which the walk stands, or of one around.
    pub fn is_around(&self, path: &Path) -> bool
        ensures { result ≡ list_any (λ q. is_same_path q path.now) (scopes_around self.now) }
    {
        is_path(&self.scope, path) || is_scope_of(&self.packages, path)
    }

    /// The entries so far that control may have met on its way here.
    pub fn met(&self) -> Result<Met<'_>, AllocError>
        ensures { IfOk result (λ m. m ≡ meeting self.now) }
    {
        Met::new(&self.paths, &self.ways, self.way)
    }

    /// Takes a turn.
    pub(crate) fn turn(&mut self, turn: Turn) -> Result<(), AllocError>
        ensures { OnOk result (self.new ≡ with_turn (turn_of turn) self.old) }
    {
        self.way = self.ways.turn(self.way, turn)?;
        Ok(())
    }

    /// Says that something stands at a path for certain.
    pub(crate) fn certify(&mut self, path: &Path, is_scope: bool) -> Result<(), AllocError>
        ensures { OnOk result (self.new ≡ with_certain
            (record { path = path.now; is_scope = is_scope } ∷ self.old.known.certain) self.old) }
    {
        self.paths.certify(path, is_scope)?;
        Ok(())
    }

    /// Says that this stands for certain at the path of the entry of a number, if there is one.
    pub(crate) fn certify_entry(
        &mut self,
        number: usize,
        presence: Presence,
    ) -> Result<(), AllocError>
        ensures { OnOk result (self.new ≡ with_certain
            (certain_there presence (option_map (λ e. e.path) (slice_get self.old.entries number))
            ++ self.old.known.certain)
            self.old) }
    {
        self.paths.certify_entry(number, presence)?;
        Ok(())
    }

    /// Puts the entry of a term that stands here behind the others; its number. What it settles isn't certain yet.
    pub(crate) fn put(&mut self, term: Term, target: Target) -> Result<usize, AllocError>
        ensures number { IfOk result (λ n. n ≡ length self.old.entries) }
        ensures walk { OnOk result (self.new
            ≡ with_entry (entry_here self.old (term_view term) target) self.old) }
    {
        let entry = Entry {
            term,
            scope: self.scope.copy()?,
            path: target.path,
            way: self.way,
            asks: target.asks,
        };
        let number = self.paths.put(entry)?;
        Ok(number)
    }

    /// Refuses the term or Scope that stands at a place.
    pub(crate) fn refuse(&mut self, place: u128, reason: Reason) -> Result<(), AllocError>
        ensures { OnOk result (self.new
            ≡ passed (refusing place (why_of reason) self.old.around self.old.known) self.old) }
    {
        self.pass();
        self.refused.push(Refusal { place, reason })?;
        Ok(())
    }

    /// Comes to the body of a While.
    pub(crate) fn enter_loop(&mut self)
        ensures { self.new ≡ with_loop self.old }
    {
        self.paths.enter_loop();
    }

    /// Comes to another scope.
    pub(crate) fn set_scope(&mut self, scope: Path)
        ensures { self.new ≡ with_scope scope self.old }
    {
        self.scope = scope;
    }

    /// Goes into a package. Where it stands and what is known isn't that inside yet.
    pub(crate) fn enter(&mut self, kind: Kind, place: u128) -> Result<(), AllocError>
        ensures { OnOk result (self.new
            ≡ with_package (package_at (kind_of kind) place self.old) self.old) }
    {
        self.last_if = None;
        let here = Package {
            kind,
            place,
            scope: self.scope.copy()?,
            way: self.way,
            mark: self.paths.mark(),
            stops: self.stops.len(),
        };
        self.packages.push(here)?;
        Ok(())
    }

    /// Goes out of the innermost package. What is certain stays, or is what was before it.
    pub(crate) fn go_out(&mut self, keeps: bool) -> Result<(), AllocError>
        ensures { OnOk result (self.new ≡ gone_out keeps self.old.packages self.old) }
    {
        self.last_if = None;
        if let Some(inner) = self.packages.pop() {
            let scope = inner.scope.copy()?;
            self.way = way_past(&mut self.ways, inner.way, &self.stops, inner.stops)?;
            self.scope = scope;
            self.paths.come_out(inner.mark, keeps);
            self.last_if = if_of(inner);
        }
        Ok(())
    }

    /// Goes into the other branch of the If directly before, whose place it says. Where it stands and what is known
    /// isn't that inside yet.
    pub(crate) fn take_if(&mut self) -> Result<Option<u128>, AllocError>
        ensures place { IfOk result (λ o. o ≡ option_map (λ p. p.place) self.old.last_if) }
        ensures walk { OnOk result (self.new ≡ with_other self.old.last_if self.old) }
    {
        if let Some(first) = self.last_if.take() {
            let place = first.place;
            self.packages.push(other_of(first))?;
            return Ok(Some(place));
        }
        Ok(None)
    }

    /// Stands where the innermost package stands, and knows what is known before it.
    pub(crate) fn go_back(&mut self) -> Result<(), AllocError>
        ensures { OnOk result (self.new ≡ gone_back self.old.packages self.old) }
    {
        self.last_if = None;
        if let Some(inner) = self.packages.last() {
            let mark = inner.mark;
            let scope = inner.scope.copy()?;
            self.way = inner.way;
            self.scope = scope;
            self.paths.come_out(mark, false);
            self.paths.hide(mark.entries)?;
        }
        Ok(())
    }

    /// Takes a turn, where it is one.
    pub(crate) fn turn_unless(&mut self, none: bool, turn: Turn) -> Result<(), AllocError>
        ensures { OnOk result (self.new ≡ with_turns (cond none [] (turn_of turn ∷ [])) self.old) }
    {
        if none {
            return Ok(());
        }
        self.turn(turn)
    }

    /// Puts a stop behind the others.
    pub(crate) fn put_stop(&mut self, place: u128, kind: Stop) -> Result<(), AllocError>
        ensures { OnOk result (self.new ≡ record self.old {
          stops = self.old.stops ++ record { place = place; kind = stop_of kind } ∷ [];
        }) }
    {
        self.stops.push(StopAt { place, kind })?;
        Ok(())
    }

    /// What the innermost package is of.
    pub(crate) fn kind(&self) -> Option<Kind>
        ensures { option_map kind_of result
            ≡ option_map (λ p. p.kind) (innermost self.now.packages) }
    {
        let inner = self.packages.last()?;
        Some(inner.kind)
    }

    /// Behind the term whose package is the innermost: whether what is certain inside stays certain, and what else is.
    pub(crate) fn behind_term(&self) -> AfterTerm
        ensures { IsBehindTerm self.now.packages self.now result.keeps (certain_there result.settled
            (option_map (λ e. e.path) (slice_get self.now.entries result.number))) }
    {
        let number = match self.packages.last() {
            Some(inner) => inner.mark.entries,
            None => return AfterTerm::nothing(),
        };
        match self.paths.entries().get(number) {
            Some(entry) => certain_after(number, entry),
            None => AfterTerm::nothing(),
        }
    }

    // What the entry of a number settles.
    fn settled_at(&self, number: usize) -> Presence
        ensures { certain_there result
            (option_map (λ e. e.path) (slice_get self.now.entries number))
            ≡ flat_map settled (option_to_list (slice_get self.now.entries number)) }
    {
        match self.paths.entries().get(number) {
            Some(entry) => settled_by(entry),
            None => Presence::Nothing,
        }
    }

    // What the entry of a number settles for good.
    fn lasting_at(&self, number: usize) -> Presence
        ensures { certain_there result
            (option_map (λ e. e.path) (slice_get self.now.entries number))
            ≡ flat_map lasting (option_to_list (slice_get self.now.entries number)) }
    {
        match self.paths.entries().get(number) {
            Some(entry) => lasting_by(&self.ways, entry),
            None => Presence::Nothing,
        }
    }

    /// Makes certain what the entry of a number settles.
    pub(crate) fn settle(&mut self, number: usize) -> Result<(), AllocError>
        ensures { OnOk result (self.new ≡ with_certain
            (flat_map settled (option_to_list (slice_get self.old.entries number))
            ++ self.old.known.certain)
            self.old) }
    {
        let presence = self.settled_at(number);
        self.certify_entry(number, presence)
    }

    /// Makes certain what the entry of a number settles for good.
    pub(crate) fn certify_lasting(&mut self, number: usize) -> Result<(), AllocError>
        ensures { OnOk result (self.new ≡ with_certain
            (flat_map lasting (option_to_list (slice_get self.old.entries number))
            ++ self.old.known.certain)
            self.old) }
    {
        let presence = self.lasting_at(number);
        self.certify_entry(number, presence)
    }

    /// Goes out of a term's package.
    pub(crate) fn leave_term(&mut self) -> Result<(), AllocError>
        ensures { OnOk result (self.new ≡ left_term self.old.packages self.old) }
    {
        let behind = self.behind_term();
        self.go_out(behind.keeps)?;
        self.certify_entry(behind.number, behind.settled)
    }

    /// Where memory comes from.
    pub(crate) fn alloc(&self) -> Global {
        self.alloc
    }

    /// How many entries there were at the start of the table.
    pub(crate) fn start_count(&self) -> usize
        ensures { result ≡ self.now.start.entries }
    {
        self.start.entries
    }

    /// How many entries there are.
    pub(crate) fn count(&self) -> usize
        ensures { result ≡ length self.now.entries }
    {
        self.paths.entries().len()
    }

    /// Leaves out the stops in the innermost package that are no Returns.
    pub(crate) fn keep_returns(&mut self) -> Result<(), AllocError>
        ensures { OnOk result (self.new ≡ with_returns self.old.packages self.old) }
    {
        if let Some(inner) = self.packages.last() {
            keep_returns(self.alloc, &mut self.stops, inner.stops)?;
        }
        Ok(())
    }

    /// Stands at the start of a table.
    pub(crate) fn start_table(&mut self)
        ensures { self.new ≡ started self.old }
    {
        self.scope = Path::root(self.alloc);
        self.way = self.ways.empty();
        self.stops.clear();
        self.packages.clear();
        self.last_if = None;
        self.start = self.paths.mark();
    }

    /// Forgets what is known, but for what was known at the start of the table, and its entries.
    pub(crate) fn go_to_start(&mut self)
        ensures { self.new ≡ at_start self.old }
    {
        self.packages.clear();
        self.last_if = None;
        self.paths.come_out(self.start, false);
    }
}

// The If directly before, where the package was its first branch.
fn if_of(inner: Package) -> Option<Package>
    ensures { result ≡ if_directly_before inner.kind inner }
{
    match inner.kind {
        Kind::First => Some(inner),
        Kind::Term => None,
        Kind::Scope(_) => None,
        Kind::Other => None,
        Kind::Body => None,
    }
}

// The package of the other branch of an If, by that of its first.
fn other_of(first: Package) -> Package
    ensures { result ≡ record first { kind = Other } }
{
    Package {
        kind: Kind::Other,
        place: first.place,
        scope: first.scope,
        way: first.way,
        mark: first.mark,
        stops: first.stops,
    }
}

fn is_path(one: &Path, other: &Path) -> bool
    ensures { result ≡ is_same_path one.now other.now }
{
    one.cmp(other).is_eq()
}

// Whether one of the packages stands in the scope of this path.
fn is_scope_of(packages: &[Package], path: &Path) -> bool
    ensures { result ≡ list_any (λ p. is_same_path p.scope path.now) (reverse packages.now) }
{
    packages.iter().rev().any(|p| is_path(&p.scope, path))
}
