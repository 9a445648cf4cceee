//! Names as bytes.

ghost use Rattle.std.specs.Prelude.{◌≡◌, ◌++◌, ◌∷◌, [], ◌<◌, ◌≤◌, ℕ, List, length, OnOk, IfOk, replicate};
ghost use Rattle.acpi_name.specs.NameRefs.{name_parts};
ghost use Rattle.acpi_name.specs.Spelling.{name_bytes, path_bytes, prefix_of, SpellsName};

use crate::name::NameRef;
use std::alloc::{AllocError, Global};

/// The shortest spelling of a name (ACPI 6.5, 20.2.2 NameString): 5C if it is rooted, a 5E for each parent,
/// then 00 for no segments, the segment for one, 2E for two, 2F and their number from three on.
pub fn write_name(alloc: Global, name: NameRef<'_>) -> Result<Vec<u8>, AllocError>
    ensures exact { IfOk result (λ bytes. bytes.items ≡ name_bytes (name_parts name.entry)) }
    ensures spells { IfOk result (λ bytes. SpellsName (name_parts name.entry) bytes.items) }
    ensures shortest { (other : List ℕ) → SpellsName (name_parts name.entry) other
        → IfOk result (λ bytes. length bytes.items ≤ length other) }
{
    let mut bytes = Vec::new(alloc);
    put_prefix(&mut bytes, name.rooted(), name.parents())?;
    put_path(&mut bytes, name.chunks())?;
    Ok(bytes)
}

fn put_prefix(bytes: &mut Vec<u8>, rooted: bool, parents: usize) -> Result<(), AllocError>
    ensures { OnOk result (bytes.new.items ≡ bytes.old.items ++ prefix_of rooted parents) }
{
    if rooted {
        bytes.push(0x5C)?;
        return Ok(());
    }
    for _ in 0..parents {
        bytes.push(0x5E)?;
    }
    Ok(())
}

fn put_path(bytes: &mut Vec<u8>, segs: &[[u8; 4]]) -> Result<(), AllocError>
    requires { length segs.now < 256 }
    ensures { OnOk result (bytes.new.items ≡ bytes.old.items ++ path_bytes segs.now) }
{
    match segs {
        [] => bytes.push(0x00)?,
        [_] => {}
        [_, _] => bytes.push(0x2E)?,
        _ => {
            bytes.push(0x2F)?;
            bytes.push(segs.len() as u8)?;
        }
    }
    bytes.extend_from_slice(segs.as_flattened())?;
    Ok(())
}
