//! The overview of a machine.

use crate::claims::Claims;
use crate::containers::Tree;
use crate::facts::{Facts, Table};
use crate::objects::Object;
use crate::ospm_methods::{OspmMethod, ospm_methods_of};
use crate::regions::{Region, regions_of};
use crate::resources::{ResourceLists, constant_templates, resources_of};
use crate::value::Value;
use acpi_kinds::ObjectKind;
use std::alloc::{AllocError, Global};

/// How many objects of some kinds there are, and bytes of code.
#[derive(Debug, Clone, Copy)]
pub struct Totals {
    /// How many devices.
    pub devices: usize,
    /// How many field units.
    pub units: usize,
    /// How many methods.
    pub methods: usize,
    /// How many bytes the methods' codes have.
    pub code: usize,
    /// How many methods have code that can't be read.
    pub opaque: usize,
    /// How many objects of DefName.
    pub names: usize,
    /// How many objects have a condition.
    pub conditional: usize,
    /// How many of these stand in a container that has one too.
    pub inside: usize,
}

/// What the tables of a machine say of it, without running any of their code.
#[derive(Drop)]
pub struct Overview<'a> {
    /// The tables, in the order of their numbers.
    pub tables: Vec<Table<'a>>,
    /// The objects in the order of their paths.
    pub objects: Vec<Object<'a>>,
    /// The devices and other objects below which others stand.
    pub tree: Tree<'a>,
    /// By the place of an object, what is known of its value.
    pub values: Vec<Value<'a>>,
    /// The resources of the containers.
    pub resources: ResourceLists<'a>,
    /// The addresses that devices claim.
    pub claims: Claims,
    /// The operation regions in the order of their paths.
    pub regions: Vec<Region<'a>>,
    /// The methods that an operating system runs by itself.
    pub ospm_methods: Vec<OspmMethod<'a>>,
    /// How many there are.
    pub totals: Totals,
}

fn increase(total: &mut usize, count: usize) {
    *total = total.saturating_add(count);
}

impl Totals {
    fn add(&mut self, object: &Object<'_>) {
        match object.kind {
            ObjectKind::Device => increase(&mut self.devices, 1),
            ObjectKind::Field { .. } => increase(&mut self.units, 1),
            ObjectKind::Method(_) => {
                increase(&mut self.methods, 1);
                increase(&mut self.code, object.code);
            }
            ObjectKind::Name(_) => increase(&mut self.names, 1),
            _ => {}
        }
        if object.is_conditional {
            increase(&mut self.conditional, 1);
        }
    }
}

// What there is of the objects of tables, with how many of them stand in a container that has a condition too.
fn totals_of(objects: &[Object<'_>], tree: &Tree<'_>, opaque: usize) -> Totals {
    let mut totals = Totals {
        devices: 0,
        units: 0,
        methods: 0,
        code: 0,
        opaque,
        names: 0,
        conditional: 0,
        inside: 0,
    };
    for place in 0..objects.len() {
        let object = &objects[place];
        if object.site.is_some() {
            totals.add(object);
        }
        if is_inside(tree, object, place) {
            increase(&mut totals.inside, 1);
        }
    }
    totals
}

// Whether the object at a place and the container around it have a condition.
fn is_inside(tree: &Tree<'_>, object: &Object<'_>, place: usize) -> bool {
    object.is_conditional
        && tree
            .container_around(place)
            .is_some_and(|c| c.object.is_conditional)
}

impl<'a> Overview<'a> {
    /// The objects that have a condition; of a limit as many of them at most, and none in a container that has one too.
    pub fn conditional(
        &self,
        alloc: Global,
        limit: Option<usize>,
    ) -> Result<Vec<Object<'a>>, AllocError> {
        let mut found = Vec::new(alloc);
        for place in 0..self.objects.len() {
            let object = &self.objects[place];
            let is_told = match limit {
                Some(limit) => found.len() < limit && !is_inside(&self.tree, object, place),
                None => true,
            };
            if is_told && object.is_conditional {
                found.push(*object)?;
            }
        }
        Ok(found)
    }
}

/// The overview of the tables of which these are the facts. Only an allocation failure is an error.
pub fn overview_of<'a>(alloc: Global, facts: Facts<'a>) -> Result<Overview<'a>, AllocError> {
    let tree = Tree::new(alloc, &facts.objects, &facts.values)?;
    let regions = regions_of(alloc, &facts.regions, &tree)?;
    let templates = facts.templates;
    let resources = resources_of(alloc, &facts.objects, &tree, templates)?;
    let constant = constant_templates(alloc, &resources.current)?;
    let claims = Claims::new(alloc, &tree.containers, &constant)?;
    let ospm_methods = ospm_methods_of(alloc, &facts.objects)?;
    let totals = totals_of(&facts.objects, &tree, facts.opaque);
    Ok(Overview {
        tables: facts.tables,
        objects: facts.objects,
        values: facts.values,
        tree,
        resources,
        claims,
        regions,
        ospm_methods,
        totals,
    })
}
