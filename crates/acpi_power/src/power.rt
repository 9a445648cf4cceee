//! Power resources, and the devices that need them (ACPI 6.5, 7.2 and 7.3).

use acpi_check_machine::{Machine, child_of, name_read};
use acpi_kinds::ObjectKind;
use acpi_overview::{Object, Overview, Value};
use acpi_tree::Term;
use std::alloc::AllocError;

/// A power resource.
#[derive(Debug, Drop)]
pub struct PowerResource<'a> {
    /// The object.
    pub object: Object<'a>,
    /// The deepest sleep state that keeps it on, 0 for S0, 1 for S1 and so on.
    pub level: u8,
    /// Resources go on from the least number to the greatest, and off from the greatest.
    pub order: u16,
    /// The containers that need it, by their numbers.
    pub users: Vec<usize>,
}

/// An object that says how a device is powered, or from which power states it wakes.
#[derive(Debug, Clone, Copy)]
pub struct PowerObject<'a> {
    /// Its last segment: `_S0W` and the like, or `_PR0` and the like.
    pub name: [u8; 4],
    /// What is known of its value.
    pub value: Value<'a>,
}

/// The names of objects that say from which power states a device wakes (7.3.20), in which it is in a sleep state (7.3.14), and
/// which resources it needs (7.3.8).
const NAMES: [[u8; 4]; 14] = [
    *b"_S0W", *b"_S1D", *b"_S2D", *b"_S3D", *b"_S4D", *b"_S1W", *b"_S2W", *b"_S3W", *b"_S4W",
    *b"_PR0", *b"_PR1", *b"_PR2", *b"_PR3", *b"_PRE",
];

/// What is known of the value of what stands directly in an object by that name.
pub(crate) fn value_below<'a>(
    machine: &Machine<'a>,
    overview: &Overview<'a>,
    object: &Object<'a>,
    name: [u8; 4],
) -> Result<Value<'a>, AllocError> {
    if !machine.has(object, name) {
        return Ok(Value::Missing);
    }
    let child = child_of(object.path, name)?;
    let place = machine.objects.partition_point(|o| *o.path < child);
    Ok(
        overview
            .values
            .get(place)
            .copied()
            .unwrap_or(Value::Unknown),
    )
}

/// The objects that say how an object is powered.
pub fn power_objects<'a>(
    machine: &Machine<'a>,
    overview: &Overview<'a>,
    object: &Object<'a>,
) -> Result<Vec<PowerObject<'a>>, AllocError> {
    let mut objects = Vec::new(machine.alloc);
    for name in &NAMES {
        let value = value_below(machine, overview, object, *name)?;
        if !value.is_missing() {
            objects.push(PowerObject { name: *name, value })?;
        }
    }
    Ok(objects)
}

// Puts that a container needs the resource that an element of a package of one of its objects names.
fn put_user(
    machine: &Machine<'_>,
    resources: &mut Vec<PowerResource<'_>>,
    user: &Object<'_>,
    number: usize,
    element: &Term,
) -> Result<(), AllocError> {
    let Some(name) = name_read(element) else {
        return Ok(());
    };
    let Some(found) = machine.search_from(user, user.path, name.view())? else {
        return Ok(());
    };
    for resource in resources.iter_mut() {
        let is_named = found.paths.contains(resource.object.path);
        if is_named && resource.users.last().copied() != Some(number) {
            resource.users.push(number)?;
        }
    }
    Ok(())
}

// .. that the elements name.
fn put_user_of(
    machine: &Machine<'_>,
    resources: &mut Vec<PowerResource<'_>>,
    user: &Object<'_>,
    number: usize,
    elements: &[Term],
) -> Result<(), AllocError> {
    for element in elements {
        put_user(machine, resources, user, number, element)?;
    }
    Ok(())
}

// Puts which resources a container needs.
fn put_users<'a>(
    machine: &Machine<'a>,
    overview: &Overview<'a>,
    resources: &mut Vec<PowerResource<'a>>,
    number: usize,
) -> Result<(), AllocError> {
    let Some(container) = overview.tree.containers.get(number) else {
        return Ok(());
    };
    for object in &power_objects(machine, overview, &container.object)? {
        if let Value::Package(elements) = object.value {
            put_user_of(machine, resources, &container.object, number, elements)?;
        }
    }
    Ok(())
}

/// The power resources, by their paths.
pub fn power_resources<'a>(
    machine: &Machine<'a>,
    overview: &Overview<'a>,
) -> Result<Vec<PowerResource<'a>>, AllocError> {
    let mut resources = Vec::new(machine.alloc);
    for container in &overview.tree.containers {
        if let ObjectKind::Power { level, order } = container.object.kind {
            resources.push(PowerResource {
                object: container.object,
                level,
                order,
                users: Vec::new(machine.alloc),
            })?;
        }
    }
    if !resources.is_empty() {
        for number in 0..overview.tree.containers.len() {
            put_users(machine, overview, &mut resources, number)?;
        }
    }
    Ok(resources)
}
