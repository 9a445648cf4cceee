//! What the names in an entry's term find.

use crate::store_targets::StoreTargets;
use acpi_conditions::{Entry, Seen};
use acpi_name::Name;
use acpi_overview::{Object, Value, objects_at};
use acpi_survey::Survey;
use acpi_tree::{Operand, Term};
use std::alloc::{AllocError, Global};

// A name that is read, with nothing behind it.
fn read_name(term: &Term) -> Option<&Name> {
    match term {
        Term::Call(name, args) => { if args.is_empty() { Some(name) } else { None } }
        _ => None,
    }
}

// The first name that a term reads: the term itself, or one of its operands or theirs.
#[cycle(name_in)]
fn name_in(term: &Term) -> Option<&Name> {
    match term {
        Term::Op(_, operands) => {
            for operand in operands {
                if let Some(name) = name_in_operand(operand) {
                    return Some(name);
                }
            }
            None
        }
        _ => read_name(term),
    }
}

#[cycle(name_in)]
fn name_in_operand(operand: &Operand) -> Option<&Name> {
    match operand {
        Operand::Term(term) => name_in(term),
        _ => None,
    }
}

/// What names are searched in.
#[derive(Clone, Copy)]
pub(crate) struct Names<'a, 'b> {
    pub alloc: Global,
    pub survey: &'a Survey,
    pub objects: &'b [Object<'a>],
    pub store_targets: &'b StoreTargets,
}

impl<'a, 'b> Names<'a, 'b> {
    // The only object at the only path at which a name in the term of an entry may be found, if it is declared before: of
    // one behind it nobody knows that the name found it where the term stands.
    fn object_named(&self, number: usize, name: &Name) -> Result<Option<Object<'a>>, AllocError> {
        let entries = self.survey.entries();
        let Some(entry) = self.survey.entry(number) else {
            return Ok(None);
        };
        let seen = Seen::new(entries.paths, entries.ways, entry)?;
        let found = seen.find(self.alloc, name.view())?;
        let [path] = found.paths.as_slice() else {
            return Ok(None);
        };
        match objects_at(self.objects, path) {
            [object] => Ok(self.declared_before(entry, *object)),
            _ => Ok(None),
        }
    }

    // The object, if its term stands before that of the entry.
    fn declared_before(&self, entry: &Entry, object: Object<'a>) -> Option<Object<'a>> {
        let declared = self.survey.entry(object.number)?;
        if declared.term.place <= entry.term.place {
            Some(object)
        } else {
            None
        }
    }

    /// The constant for which a part of an entry's term stands, where that is a name and nothing can change the constant.
    pub(crate) fn constant(&self, number: usize, term: &Term) -> Result<Option<u64>, AllocError> {
        let Term::Call(name, _) = term else {
            return Ok(None);
        };
        let Some(object) = self.object_named(number, name)? else {
            return Ok(None);
        };
        match object.path.segs().last() {
            Some(segment) if !self.store_targets.may_store(*segment) => {
                Ok(Value::of_object(object.kind, object.code).number())
            }
            _ => Ok(None),
        }
    }

    /// The object that a part of an entry's term reads.
    pub(crate) fn source(
        &self,
        number: usize,
        term: &Term,
    ) -> Result<Option<Object<'a>>, AllocError> {
        match name_in(term) {
            Some(name) => self.object_named(number, name),
            None => Ok(None),
        }
    }
}
