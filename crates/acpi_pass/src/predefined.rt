//! The namespace before any table.

ghost use Rattle.std.specs.Prelude.{◌≡◌, [], ◌∷◌, None, IfOk, OnOk, IsTrue};
ghost use Rattle.acpi_name.specs.Names.{is_segment};
ghost use Rattle.acpi_tree.specs.Objects.{object_view};
ghost use Rattle.acpi_space.specs.Lookups.{singleton, union};
ghost use Rattle.acpi_pass.specs.Namespace.{namespace_of};
ghost use Rattle.acpi_pass.specs.Predefined.{predefined};

use crate::placing::put;
use acpi_name::{Path, Seg};
use acpi_space::Space;
use acpi_tree::Object;
use std::alloc::{AllocError, Global};

// Puts an object below the root, where its path is free.
fn put_named<S: Space<Object>>(
    alloc: Global,
    objects: &mut S,
    name: [u8; 4],
    object: Object,
) -> Result<(), AllocError>
    requires segment { IsTrue (is_segment name) }
    requires free { namespace_of (S.contents objects.old) (name ∷ []) ≡ None }
    ensures { OnOk result (namespace_of (S.contents objects.new)
        ≡ union (namespace_of (S.contents objects.old))
        (singleton (name ∷ []) (object_view object))) }
{
    match Seg::new(name) {
        Some(seg) => {
            let mut path = Path::root(alloc);
            path.push(seg)?;
            put(objects, path, object)?;
            Ok(())
        }
        None => unreachable!(),
    }
}

/// A namespace that holds the predefined objects alone.
pub fn predefined_space<S: Space<Object>>(alloc: Global) -> Result<S, AllocError>
    ensures { IfOk result (λ s. namespace_of (S.contents s) ≡ predefined) }
{
    let mut objects = S::new(alloc);
    put(&mut objects, Path::root(alloc), Object::Root)?;
    put_named(alloc, &mut objects, *b"_GPE", Object::Scope)?;
    put_named(alloc, &mut objects, *b"_PR_", Object::Scope)?;
    put_named(alloc, &mut objects, *b"_SB_", Object::Scope)?;
    put_named(alloc, &mut objects, *b"_SI_", Object::Scope)?;
    put_named(alloc, &mut objects, *b"_TZ_", Object::Scope)?;
    put_named(alloc, &mut objects, *b"_GL_", Object::Mutex(0))?;
    put_named(alloc, &mut objects, *b"_OSI", Object::Method(1))?;
    put_named(alloc, &mut objects, *b"_OS_", Object::Predefined)?;
    put_named(alloc, &mut objects, *b"_REV", Object::Predefined)?;
    Ok(objects)
}
