//! Which methods use what.

use acpi_machine_facts::MachineFacts;
use acpi_name::Path;
use acpi_overview::Object;
use std::alloc::AllocError;
use std::collections::{BTreeMap, BTreeSet};

/// Which methods use what is at each path, by their places among the bodies.
#[derive(Drop)]
pub(crate) struct Users {
    by_path: BTreeMap<Path, BTreeSet<usize>>,
}

impl Users {
    /// Those of a machine: the methods in whose bodies a name stands that may mean it.
    pub(crate) fn new(facts: &MachineFacts<'_, '_>) -> Result<Users, AllocError> {
        let machine = facts.machine;
        let mut by_path: BTreeMap<Path, BTreeSet<usize>> = BTreeMap::new(machine.alloc);
        for (place, body) in machine.bodies.iter().enumerate() {
            for line in &body.lines {
                for name in &line.names {
                    for path in &name.paths {
                        if let Some(users) = by_path.get_mut(path) {
                            users.insert(place)?;
                            continue;
                        }
                        let mut users = BTreeSet::new(machine.alloc);
                        users.insert(place)?;
                        by_path.insert(path.copy()?, users)?;
                    }
                }
            }
        }
        Ok(Users { by_path })
    }

    // Puts the methods that use what is at a path.
    fn put(&self, path: &Path, found: &mut BTreeSet<usize>) -> Result<(), AllocError> {
        if let Some(users) = self.by_path.get(path) {
            for user in users.iter() {
                found.insert(*user)?;
            }
        }
        Ok(())
    }

    // The methods at these places.
    fn methods<'a>(
        facts: &MachineFacts<'_, 'a>,
        places: &BTreeSet<usize>,
    ) -> Result<Vec<Object<'a>>, AllocError> {
        let mut methods = Vec::new(facts.machine.alloc);
        for place in places.iter() {
            if let Some(body) = facts.machine.bodies.get(*place) {
                methods.push(body.object)?;
            }
        }
        Ok(methods)
    }

    /// The methods that use what is at a path.
    pub(crate) fn of<'a>(
        &self,
        facts: &MachineFacts<'_, 'a>,
        path: &Path,
    ) -> Result<Vec<Object<'a>>, AllocError> {
        let mut found = BTreeSet::new(facts.machine.alloc);
        self.put(path, &mut found)?;
        Users::methods(facts, &found)
    }

    /// The methods that use a region of a table of that number, or a field unit in it.
    pub(crate) fn of_region<'a>(
        &self,
        facts: &MachineFacts<'_, 'a>,
        number: usize,
        path: &Path,
    ) -> Result<Vec<Object<'a>>, AllocError> {
        let mut found = BTreeSet::new(facts.machine.alloc);
        self.put(path, &mut found)?;
        for place in facts.units_in(number) {
            if let Some(object) = facts.overview.objects.get(*place) {
                self.put(object.path, &mut found)?;
            }
        }
        Users::methods(facts, &found)
    }
}
