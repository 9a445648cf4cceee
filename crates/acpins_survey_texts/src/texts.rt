//! Texts of a survey.

ghost use Rattle.std.specs.Prelude.{◌≡◌, ◌⊎◌, ◌↔◌, IfOk, Err, [], Some, false};
ghost use Rattle.acpi_survey.specs.SurveyOrder.{IsInOrder};
ghost use Rattle.acpi_survey.specs.Surveys.{IsSurvey};
ghost use Rattle.acpins_survey_output.specs.Listings.{IsListing};
ghost use Rattle.acpins_survey_uses.specs.Nothing.{HasNothing};
ghost use Rattle.acpins_page.specs.Page.{IsPage};
ghost use Rattle.acpins_survey_words.specs.Words.{Command as AskedCommand, differing};
ghost use Rattle.acpins_survey_run.specs.Prints.{IsPrintOf};
ghost use Rattle.acpins_survey_run.specs.declared.failure.PrintFault.{PrintFault};
ghost use Rattle.acpins_survey_texts.specs.Texts.{AreFindings, HasNothingAt, HasNothingIn, IsMade, IsTextOf, TellsDiffering, TellsProblems};

use crate::checks::{check_of, found_by};
use crate::diffs::{Version, diff_output};
use crate::json::json_of;
use acpi_body_notes::findings_of;
use acpi_check_ids::CheckId;
use acpi_check_machine::{Machine, read_bodies};
use acpi_code::Depth;
use acpi_constants::Constants;
use acpi_finding_rows::found_rows;
use acpi_findings::Findings;
use acpi_machine_facts::MachineFacts;
use acpi_name::Path;
use acpi_overview::overview_of;
use acpi_survey::{Survey, survey};
use acpins_page::{HEAD, html};
use acpins_report::{ReportOptions, report};
use acpins_survey_output::{bodies, has_problem, list, map, show};
use acpins_survey_run::{FoundMachines, FoundTables, Output, Print, PrintFault, Printer};
use acpins_survey_uses::{list_with_bodies, uses};
use std::alloc::{AllocError, Global};
use std::mem;

/// The most characters of a report's line, where none are given.
const REPORT_WIDTH: usize = 100;

// The survey of these tables.
fn survey_of(alloc: Global, found: &FoundTables, depth: Depth) -> Result<Survey, AllocError>
    ensures is { IfOk result (IsSurvey depth found.now.tables.items) }
    ensures in_order { IfOk result IsInOrder }
{
    survey(alloc, &found.tables, depth)
}

/// What is lost, refused and noticed in the tables of a survey, and noticed in the bodies of their methods.
pub fn findings_in(alloc: Global, survey: &Survey) -> Result<Findings, AllocError>
    ensures { IsInOrder survey.now → IfOk result (AreFindings survey.now) }
{
    findings_of(alloc, survey)
}

// The report, which names the file beside each table.
fn report_of(
    alloc: Global,
    survey: &Survey,
    findings: &Findings,
    found: &FoundTables,
    options: ReportOptions,
) -> Result<Vec<u8>, AllocError> {
    let names = found.names(alloc)?;
    let read = read_bodies(alloc, survey)?;
    let machine = Machine::new(alloc, survey, &read)?;
    let overview = overview_of(alloc, Constants::new(&machine)?.facts()?)?;
    let facts = MachineFacts::new(&machine, &overview)?;
    let checked = found_by(&machine, findings)?;
    let rows = found_rows(&facts, &names, findings, &checked, options.is_verbose)?;
    report(&facts, &rows, &names, options)
}

// The page, which names them so too.
fn page_of(
    alloc: Global,
    survey: &Survey,
    findings: &Findings,
    found: &FoundTables,
) -> Result<Vec<u8>, AllocError>
    ensures { IfOk result (λ page. IsPage HEAD.now page.items) }
{
    let names = found.names(alloc)?;
    let read = read_bodies(alloc, survey)?;
    let machine = Machine::new(alloc, survey, &read)?;
    let overview = overview_of(alloc, Constants::new(&machine)?.facts()?)?;
    let facts = MachineFacts::new(&machine, &overview)?;
    let checked = found_by(&machine, findings)?;
    let rows = found_rows(&facts, &names, findings, &checked, true)?;
    html(&facts, &rows, &map(alloc, survey)?, &names)
}

// The list, with what methods declare or without.
fn list_of(
    alloc: Global,
    survey: &Survey,
    findings: &Findings,
    has_bodies: bool,
) -> Result<Vec<u8>, AllocError>
    ensures { IsInOrder survey.now → has_bodies ≡ false
        → IfOk result (λ text. IsListing survey.now findings.now text.items) }
{
    if has_bodies {
        return list_with_bodies(alloc, survey, findings);
    }
    list(alloc, survey, findings)
}

// The uses of what is at a path and below, or all.
fn uses_of(alloc: Global, survey: &Survey, path: &Option<Path>) -> Result<Vec<u8>, PrintFault>
    ensures { result ≡ Err PrintFault.NoSuchPath → HasNothing survey.now path.now }
{
    match uses(alloc, survey, path.as_ref())? {
        Some(text) => Ok(text),
        None => Err(PrintFault::NoSuchPath),
    }
}

// What `check` prints: 3 is the status where an error or a warning is found.
fn check_output(
    alloc: Global,
    survey: &Survey,
    findings: &Findings,
    is_verbose: bool,
    ignored: &[CheckId],
) -> Result<Output, AllocError>
    ensures { IfOk result (λ m. (m.status ≡ 0) ⊎ (m.status ≡ 3)) }
{
    let check = check_of(alloc, survey, findings, is_verbose, ignored)?;
    let status = if check.has_faults { 3 } else { 0 };
    Ok(Output {
        text: check.text,
        status,
    })
}

// A text of tables: 3 is the status where something in them is lost or refused.
fn with_status(findings: &Findings, text: Vec<u8>) -> Output
    ensures text { result.text.items ≡ text.items }
    ensures statuses { (result.status ≡ 0) ⊎ (result.status ≡ 3) }
    ensures problems { (result.status ≡ 0) ↔ (findings.now.problems.items ≡ []) }
{
    let status = if has_problem(findings) { 3 } else { 0 };
    Output { text, status }
}

/// What is printed of a survey; a report has colours or not, and names the files of the tables that have one.
pub fn output_of(
    alloc: Global,
    print: &Print,
    survey: &Survey,
    findings: &Findings,
    found: &FoundTables,
    is_coloured: bool,
) -> Result<Output, PrintFault>
    ensures ok { IfOk result (λ m. (command : AskedCommand)
        → IsPrintOf command print.now → IsInOrder survey.now
        → IsTextOf command survey.now findings.now m.text.items) }
    ensures statuses { IfOk result (λ m. (m.status ≡ 0) ⊎ (m.status ≡ 3)) }
    ensures problems { IfOk result (λ m. (command : AskedCommand)
        → IsPrintOf command print.now → TellsProblems command findings.now m.status) }
    ensures nothing { result ≡ Err PrintFault.NoSuchPath → (command : AskedCommand)
        → IsPrintOf command print.now → IsInOrder survey.now
        → HasNothingAt command survey.now }
{
    match print {
        Print::List { has_bodies } => {
            Ok(with_status(findings, list_of(alloc, survey, findings, *has_bodies)?))
        }
        Print::Uses { path } => Ok(with_status(findings, uses_of(alloc, survey, path)?)),
        Print::Show(path) => match show(alloc, survey, path)? {
            Some(text) => Ok(with_status(findings, text)),
            None => Err(PrintFault::NoSuchPath),
        },
        Print::Map => Ok(with_status(findings, map(alloc, survey)?)),
        Print::Bodies => Ok(with_status(findings, bodies(alloc, survey)?)),
        Print::Check {
            is_verbose,
            ignored,
        } => Ok(check_output(alloc, survey, findings, *is_verbose, ignored)?),
        Print::Diff { is_verbose } => {
            let only = Version { survey, findings };
            Ok(diff_output(alloc, only, only, *is_verbose)?)
        }
        Print::Report { is_verbose, width } => {
            let options = ReportOptions {
                width: (*width).unwrap_or(REPORT_WIDTH),
                is_coloured,
                is_verbose: *is_verbose,
            };
            let text = report_of(alloc, survey, findings, found, options)?;
            Ok(with_status(findings, text))
        }
        Print::Json => Ok(with_status(findings, json_of(alloc, survey, findings)?)),
        Print::Html => Ok(with_status(findings, page_of(alloc, survey, findings, found)?)),
    }
}

// What `diff` prints of a machine and of a second one, which has these tables.
fn second_output(
    alloc: Global,
    old: Version<'_>,
    found: &FoundTables,
    depth: Depth,
    is_verbose: bool,
) -> Result<Output, AllocError>
    ensures same { IsInOrder old.entry.survey.now → IfOk result (λ m. TellsDiffering
        (differing is_verbose) depth old.entry.survey.now (Some found.now.tables.items) m.status) }
    ensures statuses { IfOk result (λ m. (m.status ≡ 0) ⊎ (m.status ≡ 3)) }
{
    let survey = survey_of(alloc, found, depth)?;
    let findings = findings_in(alloc, &survey)?;
    let new = Version {
        survey: &survey,
        findings: &findings,
    };
    let output = diff_output(alloc, old, new, is_verbose)?;
    mem::forget(findings);
    mem::forget(survey);
    Ok(output)
}

/// Prints the survey of tables.
#[derive(Clone, Copy, Debug, Drop)]
pub struct SurveyPrinter;

impl Printer for SurveyPrinter {
    ghost makes = { IsMade };

    ghost has_nothing = { HasNothingIn };

    fn text(
        &self,
        alloc: Global,
        print: &Print,
        found: &FoundMachines,
        depth: Depth,
        is_coloured: bool,
    ) -> Result<Output, PrintFault> {
        let survey = survey_of(alloc, &found.first, depth)?;
        let findings = findings_in(alloc, &survey)?;
        let version = Version {
            survey: &survey,
            findings: &findings,
        };
        let output = match (print, &found.second) {
            (Print::Diff { is_verbose }, Some(second)) => {
                second_output(alloc, version, second, depth, *is_verbose)?
            }
            _ => output_of(alloc, print, &survey, &findings, &found.first, is_coloured)?,
        };
        // The process ends soon and gives all memory back at once; to take these apart first costs time.
        mem::forget(findings);
        mem::forget(survey);
        Ok(output)
    }
}
