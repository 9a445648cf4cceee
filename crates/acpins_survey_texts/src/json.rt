//! What `json` prints.

ghost use Rattle.std.specs.Prelude.{IfOk};
ghost use Rattle.acpi_survey.specs.SurveyOrder.{IsInOrder};
ghost use Rattle.acpins_survey_texts.specs.Texts.{IsJson};

use crate::checks::found_by;
use acpi_check_machine::{Machine, read_bodies};
use acpi_constants::Constants;
use acpi_entries::bodies_of;
use acpi_findings::Findings;
use acpi_machine_facts::MachineFacts;
use acpi_overview::overview_of;
use acpi_survey::Survey;
use acpi_use_list::{locals_of_machine, sort_uses, uses_of_machine};
use acpins_json_machine::{
    put_devices, put_events, put_findings, put_interfaces, put_power_resources, put_regions,
    put_routings, put_sleep_states, put_thermal_zones, put_uuids,
};
use acpins_json_uses::{put_locals, put_uses};
use acpins_survey_json::{put_end, put_line_member, put_survey};
use std::alloc::{AllocError, Global};
use text_buffer::Text;

// Puts what the checks found, the devices and the regions.
fn put_machine(
    text: &mut Text,
    alloc: Global,
    survey: &Survey,
    findings: &Findings,
) -> Result<(), AllocError> {
    let read = read_bodies(alloc, survey)?;
    let machine = Machine::new(alloc, survey, &read)?;
    put_line_member(text, "findings");
    put_findings(text, alloc, &found_by(&machine, findings)?)?;
    let overview = overview_of(alloc, Constants::new(&machine)?.facts()?)?;
    let facts = MachineFacts::new(&machine, &overview)?;
    put_line_member(text, "devices");
    put_devices(text, &facts)?;
    put_line_member(text, "regions");
    put_regions(text, &facts)?;
    put_others(text, &facts)
}

// Puts what else is known of the machine.
fn put_others(text: &mut Text, facts: &MachineFacts<'_, '_>) -> Result<(), AllocError> {
    put_line_member(text, "sleep_states");
    put_sleep_states(text, facts);
    put_line_member(text, "power_resources");
    put_power_resources(text, facts);
    put_line_member(text, "thermal_zones");
    put_thermal_zones(text, facts)?;
    put_line_member(text, "routings");
    put_routings(text, facts)?;
    put_line_member(text, "events");
    put_events(text, facts)?;
    put_line_member(text, "interfaces");
    put_interfaces(text, facts);
    put_line_member(text, "uuids");
    put_uuids(text, facts);
    Ok(())
}

// The members behind those of the survey itself, and the end of the object.
fn others_of(alloc: Global, survey: &Survey, findings: &Findings) -> Result<Vec<u8>, AllocError> {
    let bodies = bodies_of(survey)?;
    let locals = locals_of_machine(survey, &bodies)?;
    let mut uses = uses_of_machine(survey, &bodies)?;
    sort_uses(&mut uses)?;
    let mut text = Text::new(alloc);
    put_line_member(&mut text, "locals");
    put_locals(&mut text, survey, &locals);
    put_line_member(&mut text, "uses");
    put_uses(&mut text, survey, &uses);
    put_machine(&mut text, alloc, survey, findings)?;
    put_end(&mut text);
    text.into_bytes()
}

/// All that is said of the tables of a survey, for programs: an object of JSON (RFC 8259).
pub(crate) fn json_of(
    alloc: Global,
    survey: &Survey,
    findings: &Findings,
) -> Result<Vec<u8>, AllocError>
    ensures { IsInOrder survey.now → IfOk result (λ text. IsJson survey.now findings.now text.items) }
{
    let mut text = Text::new(alloc);
    put_survey(&mut text, survey, findings)?;
    text.put_all(&others_of(alloc, survey, findings)?);
    text.into_bytes()
}
