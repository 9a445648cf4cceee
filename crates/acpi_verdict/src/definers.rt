//! Which SSDTs declare which paths.

ghost use Rattle.std.specs.Prelude.{◌≡◌, ◌↔◌, OnOk, IfOk, map};
ghost use Rattle.std.specs.FinMap as finite;
ghost use Rattle.std.specs.BTreeMap as tree;
ghost use Rattle.std.specs.Option.{option_copied, option_map};
ghost use Rattle.acpi_tree.specs.Objects.{object_view};
ghost use Rattle.acpi_verdict.specs.steps.Defining.{args_at, takes, AddsOther, AddsDefiner};

use acpi_name::Path;
use acpi_space::{Refused, Space, TreeSpace};
use acpi_terms::Object;
use std::alloc::{AllocError, Global};
use std::collections::BTreeMap;

/// An SSDT that declares a path.
#[derive(Clone, Copy)]
pub(crate) struct Definer {
    /// The SSDT, by its number from 1.
    pub(crate) number: usize,
    /// How many arguments its object takes, where this is a method.
    pub(crate) args: Option<u8>,
}

/// The SSDTs that declare each path.
#[derive(Drop)]
pub(crate) struct Definers {
    /// The first of each path.
    pub(crate) first: TreeSpace<Definer>,
    /// The others, of paths that several declare.
    pub(crate) others: BTreeMap<Path, Vec<Definer>>,
}

/// How many arguments an object takes, where it is a method.
pub(crate) fn method_args(object: Option<&Object>) -> Option<u8>
    ensures { result ≡ args_at (option_map object_view (option_copied object.entry)) }
{
    match object {
        Some(Object::Method(flags)) => Some(*flags % 8),
        _ => None,
    }
}

// Adds one of the others of a path.
fn add_other(
    alloc: Global,
    others: &mut BTreeMap<Path, Vec<Definer>>,
    path: Path,
    definer: Definer,
) -> Result<(), AllocError>
    ensures { OnOk result (AddsOther others.old others.new path definer) }
{
    let mut list = match others.remove(&path) {
        Some(list) => list,
        None => Vec::new(alloc),
    };
    list.push(definer)?;
    others.insert(path, list)?;
    Ok(())
}

impl Definer {
    /// Whether its object is a method of so many arguments.
    pub(crate) fn takes(&self, count: u8) -> bool
        ensures { result ≡ takes self.now count }
    {
        match self.args {
            Some(args) => args == count,
            None => false,
        }
    }
}

impl Definers {
    /// None.
    pub(crate) fn new(alloc: Global) -> Definers
        ensures first { result.first ≡ finite.empty }
        ensures others { tree.IsEmpty result.others }
    {
        Definers {
            first: TreeSpace::new(alloc),
            others: BTreeMap::new(alloc),
        }
    }

    /// Adds an SSDT that declares the path.
    pub(crate) fn add(
        &mut self,
        alloc: Global,
        path: Path,
        definer: Definer,
    ) -> Result<(), AllocError>
        ensures { OnOk result (AddsDefiner self.old self.new path definer) }
    {
        if self.first.get(&path).is_some() {
            return add_other(alloc, &mut self.others, path, definer);
        }
        match self.first.insert(path, definer) {
            Ok(()) => Ok(()),
            Err(Refused::Taken(_)) => unreachable!(),
            Err(Refused::Memory(_)) => Err(AllocError),
        }
    }
}
