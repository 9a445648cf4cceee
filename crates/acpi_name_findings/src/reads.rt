//! Calls whose value is read, of methods without a Return.

use acpi_check_machine::{
    CheckId, Finding, Machine, ModuleTerm, module_path, module_terms, put_finding, put_finding_at,
};
use acpi_facts::plain_site;
use acpi_method_reads::{MethodRead, has_return, reads_of_names, reads_of_table};
use acpi_name::Path;
use acpi_ranges::{PlaceIndex, index_of, site_of};
use acpi_trimmed::put_trimmed_path;
use std::alloc::AllocError;
use text_buffer::Text;

// A search for calls: the methods without a Return, by the numbers of their entries, and those whose values are read so far.
#[derive(Drop)]
struct Search<'m, 'a> {
    machine: &'m Machine<'a>,
    without: Vec<usize>,
    read: Vec<usize>,
}

// The methods in whose bodies no Return stands, by the numbers of their entries.
fn without_return(machine: &Machine<'_>) -> Result<Vec<usize>, AllocError> {
    let mut methods = Vec::new(machine.alloc);
    for body in &machine.bodies {
        if !has_return(machine.alloc, body.terms)? {
            methods.push(body.object.number)?;
        }
    }
    Ok(methods)
}

impl<'m, 'a> Search<'m, 'a> {
    // What is said of a call that reads the value of a method, if no Return stands in its body.
    fn text_of(&self, read: &MethodRead) -> Option<Text> {
        if self.without.binary_search(&read.method).is_err() {
            return None;
        }
        let body = self.machine.body(read.method)?;
        let mut text = Text::new(self.machine.alloc);
        text.put("reads the value of ");
        put_trimmed_path(&mut text, body.object.path);
        text.put(", which has no Return (strict interpreters abort: AE_AML_NO_RETURN_VALUE)");
        Some(text)
    }

    fn in_bodies(&mut self, found: &mut Vec<Finding>) -> Result<(), AllocError> {
        let machine = self.machine;
        for body in &machine.bodies {
            for read in &reads_of_names(machine.survey, &machine.callables, &body.names)? {
                self.read.push(read.method)?;
                if let Some(text) = self.text_of(read) {
                    let line = usize::try_from(read.place).ok();
                    put_finding(found, CheckId::NoValue, &body.object, line, text)?;
                }
            }
        }
        Ok(())
    }

    // Puts what is said of a call at module level, where these terms stand.
    fn put_module_read(
        &self,
        terms: &[ModuleTerm<'_>],
        read: &MethodRead,
        found: &mut Vec<Finding>,
    ) -> Result<(), AllocError> {
        let Some(text) = self.text_of(read) else {
            return Ok(());
        };
        let root = Path::root(self.machine.alloc);
        let path = module_path(terms, read.place).unwrap_or(&root);
        let site = plain_site(site_of(read.place));
        put_finding_at(found, CheckId::NoValue, path, site, None, text)
    }

    fn in_table(
        &mut self,
        index: &PlaceIndex<'a>,
        table: usize,
        found: &mut Vec<Finding>,
    ) -> Result<(), AllocError> {
        let machine = self.machine;
        let reads = reads_of_table(machine.survey, index, &machine.callables, table)?;
        if reads.is_empty() {
            return Ok(());
        }
        let terms = module_terms(machine.survey, index, table)?;
        for read in &reads {
            self.read.push(read.method)?;
            self.put_module_read(&terms, read, found)?;
        }
        Ok(())
    }
}

/// Calls whose value is read, of the only method that they can mean, in whose body no Return stands (ACPI 6.5, 19.6.83). The
/// numbers of all methods whose values are read so are the result, one for each call.
pub(crate) fn no_value(
    machine: &Machine<'_>,
    found: &mut Vec<Finding>,
) -> Result<Vec<usize>, AllocError> {
    let mut search = Search {
        machine,
        without: without_return(machine)?,
        read: Vec::new(machine.alloc),
    };
    search.in_bodies(found)?;
    let index = index_of(machine.survey)?;
    for table in 0..machine.survey.tables.len() {
        search.in_table(&index, table, found)?;
    }
    Ok(search.read)
}
