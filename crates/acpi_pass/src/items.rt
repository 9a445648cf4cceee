//! Items in which others stand, and lists of items.

ghost use Rattle.std.specs.Prelude.{◌≡◌, ◌≢◌, [], reverse, true, IfOk, IfNone, IfSome, OnOk};
ghost use Rattle.acpi_name.specs.Paths.{parent_of};
ghost use Rattle.acpi_tree.specs.Objects.{object_view};
ghost use Rattle.acpi_tree.specs.Fits.{item_fits, items_fit};
ghost use Rattle.acpi_tree.specs.Offsets.{OffsetFits, OffsetsFit};
ghost use Rattle.acpi_tree.specs.View.{item_view, items_tree};
ghost use Rattle.acpi_pass.specs.Sites.{step, declares_alone, opens};
ghost use Rattle.acpi_pass.specs.steps.Entering.{Enters, EntersNext, IsLeftBehind, IsScopeOf, StepsInto};
ghost use Rattle.acpi_pass.specs.steps.Pass.{pass_item, pass_items};
ghost use Rattle.acpi_pass.specs.steps.View.{pass_of};
ghost use Rattle.acpi_pass.specs.steps.Outcomes.{Ends};

use crate::pass::Pass;
use crate::placing::{opened_path, rejoin};
use crate::refusal::PassError;
use acpi_name::{Name, Path};
use acpi_space::{SearchFault, Space, misses};
use acpi_tree::{Item, Object};
use std::alloc::AllocError;

// Goes on from a path to one that is a segment longer; any other is given back. So scopes inside one another, of which
// each is open while those inside it are read, have one path.
#[tactic(auto, using(crate::proofs::Searches::rejoined_parts))]
fn go_below(path: &mut Path, inside: Path) -> Result<Option<Path>, AllocError>
    ensures below { IfOk result (λ other. IfNone other
        ((path.new ≡ inside) × (parent_of path.new ≡ path.old))) }
    ensures other { IfOk result (λ other. IfSome other
        (λ p. (p ≡ inside) × (path.new ≡ path.old))) }
{
    let mut parent = inside;
    match parent.pop() {
        Some(seg) if parent == *path => {
            path.push(seg)?;
            Ok(None)
        }
        last => Ok(Some(rejoin(parent, last)?)),
    }
}

/// What is left of an item that is declared itself.
#[derive(Drop)]
pub enum Entered {
    /// Nothing.
    Nothing,
    /// Items in its scope, to which the path of its list's scope leads now: it has one segment more.
    Below(Vec<Item>),
    /// Items in another scope.
    Elsewhere(Path, Vec<Item>),
}

impl<S: Space<Object>> Pass<S> {
    // Declares an object inside which others stand, and gives its path.
    fn declare_scope(
        &mut self,
        scope: &Path,
        name: &Name,
        object: Object,
    ) -> Result<Path, PassError>
        ensures steps { StepsInto result (λ p. p) (pass_of self.old) scope.now
            (step name.now (declares_alone (object_view object))) (pass_of self.new) }
        ensures lower { OnOk result (self.new.lower ≡ self.old.lower) }
    {
        let path = self.free_path(scope, name)?;
        let inside = path.copy()?;
        self.put(path, object)?;
        Ok(inside)
    }

    // Opens a scope, and gives its path.
    fn open_scope(&mut self, scope: &Path, name: &Name) -> Result<Path, PassError>
        ensures steps { StepsInto result (λ p. p) (pass_of self.old) scope.now
            (step name.now opens) (pass_of self.new) }
        ensures lower { OnOk result (self.new.lower ≡ self.old.lower) }
    {
        let target = opened_path(self.alloc, &self.objects, scope, name)?;
        match misses(self.alloc, &self.objects, scope, name.view()) {
            Ok(paths) => {
                self.notes.add_missed(paths)?;
                Ok(target)
            }
            Err(SearchFault::Memory) => Err(PassError::Memory),
            Err(SearchFault::AboveRoot) => unreachable!(),
        }
    }

    // Declares an object inside which these items stand, and gives its path and them.
    fn enter_object(
        &mut self,
        scope: &Path,
        name: Name,
        object: Object,
        items: Vec<Item>,
    ) -> Result<(Path, Vec<Item>), PassError>
        ensures steps { StepsInto result (λ left. left.0) (pass_of self.old) scope.now
            (step name (declares_alone (object_view object))) (pass_of self.new) }
        ensures items { IfOk result (λ left. left.1 ≡ items) }
        ensures lower { OnOk result (self.new.lower ≡ self.old.lower) }
    {
        let inside = self.declare_scope(scope, &name, object)?;
        Ok((inside, items))
    }

    // Opens a scope in which these items stand, and gives its path and them.
    fn enter_scope(
        &mut self,
        scope: &Path,
        name: Name,
        items: Vec<Item>,
    ) -> Result<(Path, Vec<Item>), PassError>
        ensures steps { StepsInto result (λ left. left.0) (pass_of self.old) scope.now
            (step name opens) (pass_of self.new) }
        ensures items { IfOk result (λ left. left.1 ≡ items) }
        ensures lower { OnOk result (self.new.lower ≡ self.old.lower) }
    {
        let inside = self.open_scope(scope, &name)?;
        Ok((inside, items))
    }

    // Declares an item without what stands inside it, and gives that and its scope. None where nothing is left. It is
    // no part of the recursion, which so holds no item on the stack.
    #[inline(never)]
    fn enter(&mut self, scope: &Path, item: Item) -> Result<Option<(Path, Vec<Item>)>, PassError>
        requires room { OffsetFits (item_view item) }
        requires fits { item_fits (item_view item) ≡ true }
        ensures steps { Enters (item_view item) result
            (pass_item (pass_of self.old) scope.now (item_view item)) (pass_of self.new) }
        ensures lower { OnOk result (self.new.lower ≡ self.old.lower) }
    {
        let left = match item {
            Item::Scope(name, items) => self.enter_scope(scope, name, items),
            Item::Device(name, items) => self.enter_object(scope, name, Object::Device, items),
            Item::Processor {
                name,
                id,
                block,
                length,
                items,
            } => self.enter_object(scope, name, Object::Processor { id, block, length }, items),
            Item::Power {
                name,
                level,
                order,
                items,
            } => self.enter_object(scope, name, Object::Power { level, order }, items),
            Item::Thermal(name, items) => self.enter_object(scope, name, Object::Thermal, items),
            item => {
                self.declare_leaf(scope, item)?;
                return Ok(None);
            }
        };
        Ok(Some(left?))
    }

    // Declares the next item of a list, the last of those that are left, without what stands inside it, and gives that.
    // It is no part of the recursion, which so holds no item on the stack.
    #[inline(never)]
    fn enter_next(&mut self, scope: &mut Path, left: &mut Vec<Item>) -> Result<Entered, PassError>
        requires some { left.old.items ≢ [] }
        requires room { OffsetsFit (items_tree (reverse left.old.items)) }
        requires fits { items_fit (items_tree (reverse left.old.items)) ≡ true }
        ensures steps { EntersNext result
            (pass_items (pass_of self.old) scope.old (items_tree (reverse left.old.items)))
            (λ t. pass_items t scope.old (items_tree (reverse left.new.items)))
            (pass_of self.new) scope.new }
        ensures left { IfOk result (λ e. IsLeftBehind (items_tree (reverse left.old.items))
            (items_tree (reverse left.new.items)) e) }
        ensures scope { IfOk result (λ e. IsScopeOf scope.old scope.new e) }
        ensures lower { OnOk result (self.new.lower ≡ self.old.lower) }
    {
        let Some(item) = left.pop() else {
            unreachable!()
        };
        match self.enter(scope, item)? {
            None => Ok(Entered::Nothing),
            Some((inside, items)) => match go_below(scope, inside)? {
                None => Ok(Entered::Below(items)),
                Some(other) => Ok(Entered::Elsewhere(other, items)),
            },
        }
    }

    // What stands inside an item whose scope is not that of its list, with one segment more.
    #[inline(never)]
    #[cycle(declare)]
    fn declare_elsewhere(&mut self, scope: Path, items: Vec<Item>) -> Result<(), PassError>
        requires room { OffsetsFit (items_tree items.items) }
        requires fits { items_fit (items_tree items.items) ≡ true }
        ensures steps { Ends result (pass_items (pass_of self.old) scope (items_tree items.items))
            (pass_of self.new) }
        ensures lower { OnOk result (self.new.lower ≡ self.old.lower) }
    {
        let mut scope = scope;
        self.declare_items(&mut scope, items)
    }

    /// Declares the items of a list, in order, from a scope, which is the same afterwards.
    #[cycle(declare)]
    pub fn declare_items(&mut self, scope: &mut Path, items: Vec<Item>) -> Result<(), PassError>
        requires room { OffsetsFit (items_tree items.items) }
        requires fits { items_fit (items_tree items.items) ≡ true }
        ensures steps { Ends result (pass_items (pass_of self.old) scope.old
            (items_tree items.items)) (pass_of self.new) }
        ensures lower { OnOk result (self.new.lower ≡ self.old.lower) }
        ensures scope { OnOk result (scope.new ≡ scope.old) }
    {
        let mut left = items;
        left.reverse();
        while !left.is_empty() {
            match self.enter_next(scope, &mut left)? {
                Entered::Nothing => {}
                Entered::Below(items) => {
                    self.declare_items(scope, items)?;
                    scope.pop();
                }
                Entered::Elsewhere(other, items) => self.declare_elsewhere(other, items)?,
            }
        }
        Ok(())
    }
}
