//! What is lost or refused.

use acpi_check_machine::{CheckId, Finding, put_finding_at};
use acpi_findings::{Findings, Problem};
use acpi_name::Path;
use acpi_overview::Site;
use acpi_text::put_decimal;
use acpi_trimmed::put_trimmed_path;
use acpins_survey_reasons::{problem_name, problem_paths, put_named};
use std::alloc::{AllocError, Global};
use text_buffer::Text;

// Puts the paths that a reason names, with a comma between each two.
fn put_paths(text: &mut Text, paths: &[Path]) {
    let mut separator = " ";
    for path in paths {
        text.put(separator);
        separator = ", ";
        put_trimmed_path(text, path);
    }
}

// Puts the reason of a problem with the paths or the name that it names, and what is lost.
fn put_problem(text: &mut Text, problem: &Problem) {
    text.put(problem_name(&problem.reason));
    put_paths(text, problem_paths(&problem.reason));
    put_named(text, problem.name.as_ref());
    if let Some(lost) = problem.lost {
        text.put(" lost ");
        put_decimal(text, lost.from as u64);
        text.put("-");
        put_decimal(text, lost.to as u64);
    }
}

/// The problems of the tables: each at the scope in which it stands, or at the root.
pub(crate) fn problems(
    alloc: Global,
    findings: &Findings,
    found: &mut Vec<Finding>,
) -> Result<(), AllocError> {
    let root = Path::root(alloc);
    for problem in findings.problems() {
        let mut text = Text::new(alloc);
        put_problem(&mut text, problem);
        let path = problem.scope.as_ref().unwrap_or(&root);
        let site = Site {
            table: problem.site.table,
            offset: problem.site.offset,
        };
        put_finding_at(found, CheckId::Problem, path, site, None, text)?;
    }
    Ok(())
}
