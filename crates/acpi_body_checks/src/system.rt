//! Questions for the operating system that none answers.

use crate::comparing::comparison_of;
use acpi_check_machine::{CheckId, Finding, Line, LineName, Machine, put_finding, terms_on_line};
use acpi_name::{Name, Path};
use acpi_text::put_char;
use acpi_tree::Term;
use std::alloc::{AllocError, Global};
use text_buffer::Text;

// What operating systems answer `_OSI` with yes to (ACPI 6.5, 5.7.2, and the documents of the systems).
static ANSWERED: [&str; 34] = [
    "Windows 2000",
    "Windows 2001",
    "Windows 2001 SP1",
    "Windows 2001 SP2",
    "Windows 2001 SP3",
    "Windows 2001 SP4",
    "Windows 2001.1",
    "Windows 2001.1 SP1",
    "Windows 2006",
    "Windows 2006.1",
    "Windows 2006 SP1",
    "Windows 2006 SP2",
    "Windows 2006 SP3",
    "Windows 2009",
    "Windows 2012",
    "Windows 2013",
    "Windows 2015",
    "Windows 2016",
    "Windows 2017",
    "Windows 2017.2",
    "Windows 2018",
    "Windows 2018.2",
    "Windows 2019",
    "Windows 2020",
    "Windows 2021",
    "Windows 2022",
    "Module Device",
    "Processor Device",
    "3.0 Thermal Model",
    "3.0 _SCP Extensions",
    "Extended Address Space Descriptor",
    "Processor Aggregator Device",
    "Darwin",
    "FreeBSD",
];

fn is_one_of(strings: &[&str], string: &[u8]) -> bool {
    strings.iter().any(|s| s.as_bytes() == string)
}

// The names that mean an object in the root alone, each once.
fn names_of<'n>(
    alloc: Global,
    names: &'n [LineName<'_>],
    segment: [u8; 4],
) -> Result<Vec<&'n Name>, AllocError> {
    let mut found: Vec<&Name> = Vec::new(alloc);
    for name in names {
        if is_in_root(&name.paths, segment) && !is_among(&found, name.name) {
            found.push(name.name)?;
        }
    }
    Ok(found)
}

// Whether these are the path of that segment alone.
fn is_in_root(paths: &[Path], segment: [u8; 4]) -> bool {
    match paths {
        [path] => match path.segs() {
            [found] => found.bytes() == segment,
            _ => false,
        },
        _ => false,
    }
}

fn is_among(names: &[&Name], name: &Name) -> bool {
    names.iter().any(|n| **n == *name)
}

// The names in a term that ask the operating system something.
#[derive(Drop)]
struct Asking<'n> {
    alloc: Global,
    // Those of `_REV`, the revision of ACPI that the system knows.
    revisions: Vec<&'n Name>,
    // Those of `_OSI`, which says whether the system knows a string.
    interfaces: Vec<&'n Name>,
}

impl<'n> Asking<'n> {
    fn new(alloc: Global, names: &'n [LineName<'_>]) -> Result<Asking<'n>, AllocError> {
        Ok(Asking {
            alloc,
            revisions: names_of(alloc, names, *b"_REV")?,
            interfaces: names_of(alloc, names, *b"_OSI")?,
        })
    }

    fn is_revision(&self, term: &Term) -> bool {
        match term {
            Term::Call(name, _) => is_among(&self.revisions, name),
            _ => false,
        }
    }

    // The string that a term asks for.
    fn asked<'t>(&self, term: &'t Term) -> Option<&'t [u8]> {
        let Term::Call(name, values) = term else {
            return None;
        };
        match values.first() {
            Some(Term::Str(string)) if is_among(&self.interfaces, name) => Some(string),
            _ => None,
        }
    }

    fn is_compared(&self, term: &Term) -> bool {
        match comparison_of(term) {
            Some(compared) => {
                self.is_revision(compared.first) || self.is_revision(compared.second)
            }
            None => false,
        }
    }

    // Puts what is said of a string that no system knows behind others.
    fn put_asked(&self, said: &mut Vec<Text>, string: &[u8]) -> Result<(), AllocError> {
        if is_one_of(&ANSWERED, string) {
            return Ok(());
        }
        let mut text = Text::new(self.alloc);
        if string == b"Linux".as_slice() {
            text.put("asks for Linux, which Linux denies");
        } else {
            text.put("asks for \"");
            for byte in string {
                put_char(&mut text, *byte);
            }
            text.put("\", which no system is");
        }
        said.push(text)?;
        Ok(())
    }

    fn put_revision(&self, said: &mut Vec<Text>) -> Result<(), AllocError> {
        let mut text = Text::new(self.alloc);
        text.put("tests _REV, which is 2 in every system");
        said.push(text)?;
        Ok(())
    }
}

/// What is said of the questions in a term, the names in which are given: for the answer itself where the term is a predicate.
pub fn questions_in(
    alloc: Global,
    term: &Term,
    is_predicate: bool,
    names: &[LineName<'_>],
) -> Result<Vec<Text>, AllocError> {
    let asking = Asking::new(alloc, names)?;
    let mut said = Vec::new(alloc);
    if asking.revisions.is_empty() && asking.interfaces.is_empty() {
        return Ok(said);
    }
    if is_predicate && asking.is_revision(term) {
        asking.put_revision(&mut said)?;
    }
    for inner in &terms_on_line(alloc, term)? {
        if let Some(string) = asking.asked(inner) {
            asking.put_asked(&mut said, string)?;
        }
        if asking.is_compared(inner) {
            asking.put_revision(&mut said)?;
        }
    }
    Ok(said)
}

// What is said of the questions on a line.
fn questions_on(alloc: Global, line: &Line<'_>) -> Result<Vec<Text>, AllocError> {
    match line.statement {
        Term::If(predicate, _, _) => questions_in(alloc, predicate, true, &line.names),
        Term::While(predicate, _) => questions_in(alloc, predicate, true, &line.names),
        statement => questions_in(alloc, statement, false, &line.names),
    }
}

/// Strings that `_OSI` is asked for and that no system knows, and tests of `_REV` (ACPI 6.5, 5.7.2 and 5.7.4), in bodies.
pub(crate) fn system(machine: &Machine<'_>, found: &mut Vec<Finding>) -> Result<(), AllocError> {
    for body in &machine.bodies {
        for line in &body.lines {
            for text in questions_on(machine.alloc, line)? {
                put_finding(
                    found,
                    CheckId::System,
                    &body.object,
                    Some(line.number),
                    text,
                )?;
            }
        }
    }
    Ok(())
}
