//! Notifications of a method.

use acpi_check_machine::{Body, Line, Machine, name_read};
use acpi_kinds::ObjectKind;
use acpi_name::{Name, Path};
use acpi_overview::Object;
use acpi_tree::{Op, Operand, Term};
use acpi_uses::Role;
use std::alloc::AllocError;
use std::collections::BTreeSet;

/// Who is notified (ACPI 6.5, 19.6.95).
#[derive(Debug, Clone, Copy)]
pub enum NotifyTarget<'m, 'a> {
    /// What is at a path.
    At(&'m Path),
    /// A name that nothing declares.
    Nowhere(&'a Name),
    /// What a term gives.
    Computed(&'a Term),
}

/// A Notify that a method comes to.
#[derive(Debug, Drop)]
pub struct Notification<'m, 'a> {
    /// Who is notified.
    pub target: NotifyTarget<'m, 'a>,
    /// With which value.
    pub value: &'a Term,
    /// The methods through which it comes there, the outermost first.
    pub through: Vec<&'a Path>,
}

/// How many methods are followed into one another at the most.
const DEPTH: usize = 6;

impl<'m, 'a> NotifyTarget<'m, 'a> {
    // Whom a term on a line means.
    fn of(line: &'m Line<'a>, term: &'a Term) -> NotifyTarget<'m, 'a> {
        let Some(name) = name_read(term) else {
            return NotifyTarget::Computed(term);
        };
        match line.name(name) {
            Some(found) => match found.paths.last() {
                Some(path) => NotifyTarget::At(path),
                None => NotifyTarget::Nowhere(name),
            },
            None => NotifyTarget::Nowhere(name),
        }
    }
}

/// The target and the value of a Notify.
pub(crate) fn notify_of(statement: &Term) -> Option<(&Term, &Term)> {
    match statement {
        Term::Op(Op::Notify, operands) => match operands.as_slice() {
            [Operand::Term(target), Operand::Term(value)] => Some((target, value)),
            _ => None,
        },
        _ => None,
    }
}

/// The notification of a line, if it is a Notify, by a method to which others lead.
pub(crate) fn notification_on<'m, 'a>(
    machine: &Machine<'a>,
    line: &'m Line<'a>,
    through: &[&'a Path],
) -> Result<Option<Notification<'m, 'a>>, AllocError> {
    let Some((target, value)) = notify_of(line.statement) else {
        return Ok(None);
    };
    Ok(Some(Notification {
        target: NotifyTarget::of(line, target),
        value,
        through: Vec::from_slice(machine.alloc, through)?,
    }))
}

/// The notifications that are found while methods are followed.
#[derive(Drop)]
struct Search<'m, 'a> {
    machine: &'m Machine<'a>,
    found: Vec<Notification<'m, 'a>>,
    // The methods so far, by the numbers of their entries.
    methods: BTreeSet<usize>,
    // Those that lead to the one that is looked at.
    through: Vec<&'a Path>,
}

impl<'m, 'a> Search<'m, 'a> {
    // The method that a name on a line calls for sure.
    fn called(&self, body: &'m Body<'a>, line: &'m Line<'a>, number: usize) -> Option<Object<'a>> {
        let name = line.names.get(number)?;
        if !matches!(name.role, Role::Call | Role::StatementCall) {
            return None;
        }
        let object = self.machine.only(&name.paths, name.is_certain)?;
        if body.declares(object.path, line.number) {
            return None;
        }
        match object.kind {
            ObjectKind::Method(_) => Some(*object),
            _ => None,
        }
    }

    // Puts those of a line and of what it calls.
    #[cycle(search)]
    fn put_line(
        &mut self,
        body: &'m Body<'a>,
        line: &'m Line<'a>,
        depth: usize,
    ) -> Result<(), AllocError> {
        let machine = self.machine;
        if let Some(notification) = notification_on(machine, line, &self.through)? {
            self.found.push(notification)?;
        }
        for number in 0..line.names.len() {
            if let Some(method) = self.called(body, line, number) {
                self.follow(&method, depth)?;
            }
        }
        Ok(())
    }

    // Puts those of a method that is called, unless it was looked at.
    #[cycle(search)]
    fn follow(&mut self, method: &Object<'a>, depth: usize) -> Result<(), AllocError> {
        if depth == 0 || self.methods.contains(&method.number) {
            return Ok(());
        }
        self.methods.insert(method.number)?;
        self.through.push(method.path)?;
        self.put_method(method, depth - 1)?;
        self.through.pop();
        Ok(())
    }

    // Puts those of a method.
    #[cycle(search)]
    fn put_method(&mut self, method: &Object<'a>, depth: usize) -> Result<(), AllocError> {
        let machine = self.machine;
        let Some(body) = machine.body(method.number) else {
            return Ok(());
        };
        for line in &body.lines {
            self.put_line(body, line, depth)?;
        }
        Ok(())
    }
}

/// The notifications to which a method comes, by itself and through the methods that it calls for sure, each method once.
pub fn notifications_of<'m, 'a>(
    machine: &'m Machine<'a>,
    method: &Object<'a>,
) -> Result<Vec<Notification<'m, 'a>>, AllocError> {
    let mut search = Search {
        machine,
        found: Vec::new(machine.alloc),
        methods: BTreeSet::new(machine.alloc),
        through: Vec::new(machine.alloc),
    };
    search.methods.insert(method.number)?;
    search.put_method(method, DEPTH)?;
    Ok(search.found)
}
