//! Resource templates that methods return, and write before.

use acpi_check_machine::{Body, FoundObject, Line, Machine, constant, name_read};
use acpi_facts::StoreTargets;
use acpi_kinds::ObjectKind;
use acpi_name::{Name, Path};
use acpi_overview::{CodeTemplate, WrittenBytes, last_segment};
use acpi_tree::{Decl, Op, Operand, Term, Width};
use acpi_uses::Role;
use std::alloc::{AllocError, Global};

// The name that a Return returns.
fn returned_name(term: &Term) -> Option<&Name> {
    match term {
        Term::Op(Op::Return, operands) => match operands.as_slice() {
            [Operand::Term(value)] => name_read(value),
            _ => None,
        },
        _ => None,
    }
}

fn is_return(term: &Term) -> bool {
    matches!(term, Term::Op(Op::Return, _))
}

// The line with the first Return of a body, and the name that it returns, where all return that name.
fn returned_by<'b, 'a>(body: &'b Body<'a>) -> Option<(&'b Line<'a>, &'a Name)> {
    let mut first: Option<(&'b Line<'a>, &'a Name)> = None;
    for line in &body.lines {
        if !is_return(line.statement) {
            continue;
        }
        let name = returned_name(line.statement)?;
        match first {
            None => first = Some((line, name)),
            Some((_, before)) => {
                if before != name {
                    return None;
                }
            }
        }
    }
    first
}

// Whether a name stands as the source of a Create field.
fn is_source(role: Role) -> bool {
    matches!(role, Role::Source | Role::Field)
}

// Whether a body does nothing with what is at a path but return it and declare fields of it.
fn is_only_written_in_fields(body: &Body<'_>, path: &Path) -> bool {
    for line in &body.lines {
        for name in &line.names {
            let is_allowed = is_return(line.statement) || is_source(name.role);
            if !is_allowed && name.paths.contains(path) {
                return false;
            }
        }
    }
    true
}

fn bytes_of(width: Width) -> Option<usize> {
    match width {
        Width::Bit => None,
        Width::Byte => Some(1),
        Width::Word => Some(2),
        Width::DWord => Some(4),
        Width::QWord => Some(8),
    }
}

// The bytes of bits.
fn bytes_of_bits(from: u64, count: u64) -> WrittenBytes {
    let to = from.saturating_add(count).saturating_add(7) / 8;
    WrittenBytes {
        from: (from / 8) as usize,
        to: to as usize,
    }
}

// The bytes that a Create field covers, where its place is constant.
fn covered(decl: &Decl) -> Option<WrittenBytes> {
    match decl {
        Decl::Create { width, index, .. } => {
            let from = constant(index)?;
            match bytes_of(*width) {
                Some(count) => Some(WrittenBytes {
                    from: from as usize,
                    to: (from as usize).saturating_add(count),
                }),
                None => Some(bytes_of_bits(from, 1)),
            }
        }
        Decl::CreateField { index, bits, .. } => {
            Some(bytes_of_bits(constant(index)?, constant(bits)?))
        }
        _ => None,
    }
}

// The declaration of a Create field.
fn created(term: &Term) -> Option<&Decl> {
    match term {
        Term::Declare(decl) => match &**decl {
            Decl::Create { .. } | Decl::CreateField { .. } => Some(decl),
            _ => None,
        },
        _ => None,
    }
}

// The bytes of what is at a path that Create fields of a body cover; None where the place of one isn't constant.
fn written_in(
    alloc: Global,
    body: &Body<'_>,
    path: &Path,
) -> Result<Option<Vec<WrittenBytes>>, AllocError> {
    let mut written = Vec::new(alloc);
    for line in &body.lines {
        let Some(decl) = created(line.statement) else {
            continue;
        };
        let is_of_path = line
            .names
            .iter()
            .any(|n| is_source(n.role) && n.paths.contains(path));
        if is_of_path {
            match covered(decl) {
                Some(bytes) => written.push(bytes)?,
                None => return Ok(None),
            }
        }
    }
    Ok(Some(written))
}

// The buffer that a name on a line of a body finds, and its path.
fn buffer_found<'m, 'a>(
    machine: &'m Machine<'a>,
    store_targets: &StoreTargets,
    body: &'m Body<'a>,
    line: &Line<'a>,
    name: &Name,
) -> Option<(&'m Path, &'a [u8])> {
    let found = machine.found_by(body, line.number, line.name(name)?)?;
    if let FoundObject::Entry(object) = found {
        if store_targets.may_store(*object.path.segs().last()?) {
            return None;
        }
    }
    match found.kind() {
        ObjectKind::Name(Some(Term::Buffer(_, bytes))) => Some((found.path(), bytes.as_slice())),
        _ => None,
    }
}

/// The template that the object at a place returns, where it is a method that gives the resources of a device.
pub(crate) fn template_of<'a>(
    machine: &Machine<'a>,
    store_targets: &StoreTargets,
    place: usize,
) -> Result<Option<CodeTemplate<'a>>, AllocError> {
    let Some(object) = machine.objects.get(place) else {
        return Ok(None);
    };
    let segment = last_segment(object.path);
    if segment != *b"_CRS" && segment != *b"_PRS" {
        return Ok(None);
    }
    let Some(body) = machine.body(object.number) else {
        return Ok(None);
    };
    let Some((line, name)) = returned_by(body) else {
        return Ok(None);
    };
    let Some((path, bytes)) = buffer_found(machine, store_targets, body, line, name) else {
        return Ok(None);
    };
    if !is_only_written_in_fields(body, path) {
        return Ok(None);
    }
    let Some(written) = written_in(machine.alloc, body, path)? else {
        return Ok(None);
    };
    Ok(Some(CodeTemplate {
        place,
        name,
        bytes,
        written,
    }))
}
