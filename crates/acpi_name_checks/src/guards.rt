//! Names that predicates show to be declared, line by line.

ghost use Rattle.std.specs.Prelude.{◌≡◌, ◌≤◌, ◌<◌, ◌+◌, IfOk, OnOk, Some, length, slice_get, take, true, []};
ghost use Rattle.std.specs.Global.{Vec};
ghost use Rattle.std.specs.List.{list_any};
ghost use Rattle.acpi_conditions.specs.Entries.{Path as PathParts};
ghost use Rattle.acpi_tree.specs.TermView.{terms_tree};
ghost use Rattle.acpi_uses.specs.Guards.{guarded_of};
ghost use Rattle.acpi_uses.specs.steps.GuardWalks.{found_by, shown_by};
ghost use Rattle.acpi_uses.specs.declared.guards.GuardStep.TheVariants.{Keep, Show, Statement};
ghost use Rattle.acpi_name_checks.specs.Guarding.{is_guarded, is_one_shown, is_shown_by, shown_at};
ghost use Rattle.acpi_name_checks.specs.steps.Standing.{Stands};

use crate::tried::tried_paths;
use acpi_name::{Name, Path};
use acpi_tree::Term;
use acpi_uses::{GuardStep, guard_steps};
use std::alloc::{AllocError, Global};

// Whether what stands at one path shows that what a name is searched for at another does: a name that isn't plain is there
// where a path above it is.
fn is_shown_by(is_plain: bool, tried: &Path, shown: &Path) -> bool
    ensures { result ≡ is_shown_by is_plain tried.now shown.now }
{
    if is_plain {
        return *tried == *shown;
    }
    tried.segs().starts_with(shown.segs())
}

fn is_shown_by_one(is_plain: bool, tried: &Path, shown: &[Path]) -> bool
    ensures { result ≡ list_any (is_shown_by is_plain tried.now) shown.now }
{
    shown.iter().any(|s| is_shown_by(is_plain, tried, s))
}

fn is_one_shown(is_plain: bool, tried: &[Path], shown: &[Path]) -> bool
    ensures { result ≡ is_one_shown is_plain tried.now shown.now }
{
    tried.iter().any(|t| is_shown_by_one(is_plain, t, shown))
}

// Whether a name is shown that is tried at these paths, by names that are tried at those.
fn is_shown(is_plain: bool, tried: &[Path], shown: &[Vec<Path>]) -> bool
    ensures { result ≡ list_any (λ (v : Vec PathParts). is_one_shown is_plain tried.now v.items)
        shown.now }
{
    shown.iter().any(|s| is_one_shown(is_plain, tried, s))
}

/// The names that are shown to be declared at a line of a body.
#[derive(Drop)]
pub(crate) struct Guards<'s, 'a> {
    alloc: Global,
    scope: &'s Path,
    steps: Vec<GuardStep<'a>>,
    next: usize,
    line: usize,
    is_at_line: bool,
    // Of each shown name the paths at which its search looks.
    shown: Vec<Vec<Path>>,
    ghost stands: { Stands scope.now steps.items next line is_at_line shown.items },
}

impl<'s, 'a> Guards<'s, 'a> {
    /// Those before the first line of the body of the method at a path.
    pub(crate) fn new(
        alloc: Global,
        scope: &'s Path,
        body: &'a [Term],
    ) -> Result<Guards<'s, 'a>, AllocError>
        ensures steps { IfOk result (λ g. found_by g.steps.items
            ≡ guarded_of [] (terms_tree body.now)) }
        ensures scope { IfOk result (λ g. g.scope.now ≡ scope.now) }
    {
        Ok(Guards {
            alloc,
            scope,
            steps: guard_steps(alloc, body)?,
            next: 0,
            line: 0,
            is_at_line: false,
            shown: Vec::new(alloc),
        })
    }

    // Back to before the first line.
    fn start(&mut self)
        ensures steps { self.new.steps ≡ self.old.steps }
        ensures scope { self.new.scope ≡ self.old.scope }
        ensures line { self.new.line ≡ 0 }
    {
        self.next = 0;
        self.line = 0;
        self.is_at_line = false;
        self.shown.clear();
    }

    // Back to before the first line, unless the walk stands at or before that line.
    fn prepare(&mut self, line: usize)
        ensures steps { self.new.steps ≡ self.old.steps }
        ensures scope { self.new.scope ≡ self.old.scope }
        ensures line { self.new.line ≤ line }
        ensures here { 0 < line → self.new.line ≡ line → self.new.is_at_line ≡ true }
    {
        if self.line > line || (self.line == line && !self.is_at_line) {
            self.start();
        }
    }

    // Takes the next step, which shows a name.
    fn show(&mut self, name: &'a Name) -> Result<(), AllocError>
        requires { slice_get self.old.steps.items self.old.next ≡ Some (Show name) }
        ensures steps { self.new.steps ≡ self.old.steps }
        ensures scope { self.new.scope ≡ self.old.scope }
        ensures next { OnOk result (self.new.next ≡ self.old.next + 1) }
        ensures line { OnOk result (self.new.line ≡ self.old.line) }
    {
        let paths = tried_paths(self.alloc, self.scope, name.view())?;
        self.shown.push(paths)?;
        self.next += 1;
        self.is_at_line = false;
        Ok(())
    }

    // Takes the next step, which keeps so many names.
    fn keep(&mut self, count: usize)
        requires { slice_get self.old.steps.items self.old.next ≡ Some (Keep count) }
        ensures steps { self.new.steps ≡ self.old.steps }
        ensures scope { self.new.scope ≡ self.old.scope }
        ensures next { self.new.next ≡ self.old.next + 1 }
        ensures line { self.new.line ≡ self.old.line }
    {
        self.shown.truncate(count);
        self.next += 1;
        self.is_at_line = false;
    }

    // Takes the next step, which is a statement.
    fn come_to(&mut self, statement: &'a Term)
        requires { slice_get self.old.steps.items self.old.next ≡ Some (Statement statement) }
        ensures steps { self.new.steps ≡ self.old.steps }
        ensures scope { self.new.scope ≡ self.old.scope }
        ensures next { self.new.next ≡ self.old.next + 1 }
        ensures line { self.new.line ≡ self.old.line + 1 }
        ensures here { self.new.is_at_line ≡ true }
    {
        let _statement = statement;
        self.line += 1;
        self.next += 1;
        self.is_at_line = true;
    }

    fn take_step(&mut self) -> Result<(), AllocError>
        requires { self.old.next < length self.old.steps.items }
        ensures steps { self.new.steps ≡ self.old.steps }
        ensures scope { self.new.scope ≡ self.old.scope }
        ensures next { OnOk result (self.new.next ≡ self.old.next + 1) }
        ensures line { OnOk result (self.new.line ≤ self.old.line + 1) }
        ensures here { OnOk result
            (self.old.line < self.new.line → self.new.is_at_line ≡ true) }
    {
        match self.steps[self.next] {
            GuardStep::Show(name) => self.show(name),
            GuardStep::Keep(count) => {
                self.keep(count);
                Ok(())
            }
            GuardStep::Statement(statement) => {
                self.come_to(statement);
                Ok(())
            }
        }
    }

    // Goes on to a line, or to the end of the body.
    fn go_to(&mut self, line: usize) -> Result<(), AllocError>
        ensures steps { self.new.steps ≡ self.old.steps }
        ensures scope { self.new.scope ≡ self.old.scope }
        ensures line { OnOk result (self.new.line ≤ line) }
        ensures here { OnOk result
            (0 < line → self.new.line ≡ line → self.new.is_at_line ≡ true) }
        ensures end { OnOk result (self.new.line < line
            → length self.new.steps.items ≤ self.new.next) }
    {
        self.prepare(line);
        while self.line < line && self.next < self.steps.len() {
            self.take_step()?;
        }
        Ok(())
    }

    // Whether a name is shown behind the steps so far.
    fn shows(&self, name: &Name) -> Result<bool, AllocError>
        ensures { IfOk result (λ b. b ≡ is_guarded self.now.scope.now
            (shown_by (take self.now.next self.now.steps.items)) name.now) }
    {
        let name = name.view();
        let is_plain = name.plain().is_some();
        let tried = tried_paths(self.alloc, self.scope, name)?;
        Ok(is_shown(is_plain, &tried, &self.shown))
    }

    /// Whether a name is guarded at a line.
    pub(crate) fn guards(&mut self, line: usize, name: &Name) -> Result<bool, AllocError>
        ensures steps { self.new.steps ≡ self.old.steps }
        ensures scope { self.new.scope ≡ self.old.scope }
        ensures is { IfOk result (λ b. b ≡ is_guarded self.old.scope.now
            (shown_at (found_by self.old.steps.items) line) name.now) }
    {
        if line == 0 {
            return Ok(false);
        }
        self.go_to(line)?;
        if self.line < line {
            return Ok(false);
        }
        self.shows(name)
    }
}
