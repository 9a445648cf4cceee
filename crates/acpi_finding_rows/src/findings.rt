//! What was found in tables, in words: what is lost, what the checks found, and what is noticed.

use crate::missing::{missing_names, put_missing, put_missing_folded};
use crate::reasons::{put_note_words, put_problem_words};
use crate::summary::FindingCounts;
use acpi_check_machine::{CheckId, Finding, Level};
use acpi_entries::{BodyReading, body_of};
use acpi_findings::Findings;
use acpi_infix::put_constant;
use acpi_kinds::ObjectKind;
use acpi_machine_facts::{MachineFacts, OddBounds};
use acpi_name::Path;
use acpi_overview::Site;
use acpi_phrases::{NO_BREAK, put_number_of};
use acpi_region_rows::put_odd;
use acpi_text::put_decimal;
use acpi_trimmed::put_trimmed_path;
use acpins_check_text::{folds, in_order};
use acpins_survey_reasons::put_body_reason;
use std::alloc::AllocError;
use text_buffer::Text;

/// How grave a finding is, the gravest first.
#[derive(Debug, Clone, Copy, PartialEq, Eq, PartialOrd, Ord)]
pub enum FindingLevel {
    /// Bytes of tables are lost or refused.
    Problem,
    /// A method stops there.
    Error,
    /// Probably a mistake.
    Warning,
    /// Worth a look.
    Remark,
    /// Noticed, and nothing is lost.
    Note,
}

impl FindingLevel {
    /// All of them.
    pub const ALL: [FindingLevel; 5] = [
        FindingLevel::Problem,
        FindingLevel::Error,
        FindingLevel::Warning,
        FindingLevel::Remark,
        FindingLevel::Note,
    ];

    /// The word for it.
    pub fn word(self) -> &'static str {
        match self {
            FindingLevel::Problem => "problem",
            FindingLevel::Error => "error",
            FindingLevel::Warning => "warning",
            FindingLevel::Remark => "remark",
            FindingLevel::Note => "note",
        }
    }

    /// What it means.
    pub fn meaning(self) -> &'static str {
        match self {
            FindingLevel::Problem => "bytes are ignored",
            FindingLevel::Error => "a method stops there",
            FindingLevel::Warning => "probably a mistake",
            FindingLevel::Remark => "worth a look",
            FindingLevel::Note => "nothing lost",
        }
    }

    fn of(level: Level) -> FindingLevel {
        match level {
            Level::Error => FindingLevel::Error,
            Level::Warning => FindingLevel::Warning,
            Level::Remark => FindingLevel::Remark,
        }
    }
}

/// A finding, or some that are told at once.
#[derive(Debug, Drop)]
pub struct FindingRow {
    /// How grave it is.
    pub level: FindingLevel,
    /// What was found.
    pub text: Vec<u8>,
    /// Where it stands, of one.
    pub site: Option<Site>,
}

/// The findings of a machine.
#[derive(Debug, Drop)]
pub struct FoundRows {
    /// The gravest first.
    pub rows: Vec<FindingRow>,
    /// How many there are.
    pub counts: FindingCounts,
    /// How many bytes of tables are lost.
    pub lost: usize,
}

/// Findings while they are put together.
#[derive(Drop)]
struct Building<'f, 'm, 'a> {
    facts: &'f MachineFacts<'m, 'a>,
    files: &'f [&'f str],
    found: FoundRows,
}

/// Puts where something stands: `(byte 0x23F8)`, with the table where there are several.
pub(crate) fn put_site(text: &mut Text, site: Site, line: Option<usize>, has_tables: bool) {
    if has_tables {
        text.put("table");
        text.put_one(NO_BREAK);
        put_decimal(text, site.table as u64);
        text.put(",");
        text.put_one(NO_BREAK);
    }
    text.put("byte");
    text.put_one(NO_BREAK);
    put_constant(text, site.offset as u64);
    if let Some(line) = line {
        text.put(",");
        text.put_one(NO_BREAK);
        text.put("line");
        text.put_one(NO_BREAK);
        put_decimal(text, line as u64);
    }
}

impl<'f, 'm, 'a> Building<'f, 'm, 'a> {
    fn text(&self) -> Text {
        Text::new(self.facts.machine.alloc)
    }

    // Whether a place is told with its table.
    fn has_tables(&self) -> bool {
        self.facts.overview.tables.len() > 1
    }

    // Puts a finding, with its place.
    fn put(
        &mut self,
        level: FindingLevel,
        text: Text,
        site: Option<Site>,
        line: Option<usize>,
    ) -> Result<(), AllocError> {
        let mut text = text;
        if let Some(site) = site {
            text.put(" (");
            put_site(&mut text, site, line, self.has_tables());
            text.put(")");
        }
        self.found.rows.push(FindingRow {
            level,
            text: text.into_bytes()?,
            site,
        })?;
        Ok(())
    }

    // Puts what is lost or refused.
    fn put_problems(&mut self, problems: &Findings) -> Result<(), AllocError> {
        for problem in problems.problems() {
            let mut text = self.text();
            put_problem_words(&mut text, self.facts, self.files, problem)?;
            if let Some(lost) = problem.lost {
                let count = lost.to.saturating_sub(lost.from);
                self.found.lost = self.found.lost.saturating_add(count);
                text.put(", ");
                put_number_of(&mut text, count, "byte", "bytes");
                text.put(" lost");
            }
            let site = Site {
                table: problem.site.table,
                offset: problem.site.offset,
            };
            self.put(FindingLevel::Problem, text, Some(site), None)?;
        }
        self.found.counts.problems = problems.problems().len();
        Ok(())
    }

    // Puts the names that nothing declares.
    fn put_missing(&mut self, is_whole: bool) -> Result<(), AllocError> {
        let machine = self.facts.machine;
        let missing = missing_names(machine)?;
        if missing.is_empty() {
            return Ok(());
        }
        if is_whole {
            for name in &missing {
                let mut text = self.text();
                put_missing(&mut text, name);
                self.put(FindingLevel::Error, text, None, None)?;
            }
            return Ok(());
        }
        let mut text = self.text();
        put_missing_folded(&mut text, &missing)?;
        if self.facts.overview.tables.len() == 1 {
            text.put(". Only one table was given: an SSDT may declare them");
        }
        self.put(FindingLevel::Error, text, None, None)
    }

    // Puts findings of checks that stand on one line.
    fn put_line(&mut self, list: &[&Finding], line: &[usize]) -> Result<(), AllocError> {
        let (Some(first), Some(last)) = (
            line.first().and_then(|n| list.get(*n)),
            line.last().and_then(|n| list.get(*n)),
        ) else {
            return Ok(());
        };
        let mut text = self.text();
        put_trimmed_path(&mut text, &first.path);
        if line.len() > 1 {
            text.put(" .. ");
            put_trimmed_path(&mut text, &last.path);
            text.put(" (");
            put_decimal(&mut text, line.len() as u64);
            text.put(")");
        }
        text.put(": ");
        text.put_all(&first.text);
        let site = Site {
            table: first.table,
            offset: first.offset,
        };
        self.put(
            FindingLevel::of(first.id.level()),
            text,
            Some(site),
            first.line,
        )
    }

    // Puts what the checks found, but for what is lost and for names that nothing declares.
    fn put_checks(&mut self, found: &[Finding], is_whole: bool) -> Result<(), AllocError> {
        let alloc = self.facts.machine.alloc;
        let mut list: Vec<&Finding> = Vec::new(alloc);
        for finding in in_order(alloc, found)? {
            if !matches!(finding.id, CheckId::Problem | CheckId::NoName) {
                list.push(finding)?;
            }
        }
        self.count(found);
        if is_whole {
            for number in 0..list.len() {
                self.put_line(&list, &[number])?;
            }
            return Ok(());
        }
        for line in &folds(alloc, &list)? {
            self.put_line(&list, line)?;
        }
        Ok(())
    }

    // Counts what the checks found, but for what is lost.
    fn count(&mut self, found: &[Finding]) {
        let of = |level: Level| {
            found
                .iter()
                .filter(|f| f.id.level() == level && f.id != CheckId::Problem)
                .count()
        };
        self.found.counts.errors = of(Level::Error);
        self.found.counts.warnings = of(Level::Warning);
        self.found.counts.remarks = of(Level::Remark);
    }

    // Puts the regions with odd bounds.
    fn put_regions(&mut self) -> Result<(), AllocError> {
        let facts = self.facts;
        for region in &facts.regions {
            let Some(odd) = region.odd() else {
                continue;
            };
            let mut text = self.text();
            put_trimmed_path(&mut text, region.path);
            if region.is_local {
                text.put(" in ");
                put_trimmed_path(&mut text, region.object.path);
            }
            text.put(": ");
            put_odd(&mut text, odd);
            let count = &mut self.found.counts.warnings;
            *count = count.saturating_add(1);
            self.put(FindingLevel::Warning, text, region.object.site, None)?;
        }
        Ok(())
    }

    // Puts what is noticed.
    fn put_notes(&mut self, notes: &Findings) -> Result<(), AllocError> {
        for note in notes.notes() {
            let mut text = self.text();
            put_note_words(&mut text, note);
            let site = Site {
                table: note.site.table,
                offset: note.site.offset,
            };
            self.put(FindingLevel::Note, text, Some(site), None)?;
        }
        let counts = &mut self.found.counts;
        counts.notes = counts.notes.saturating_add(notes.notes().len());
        Ok(())
    }

    // Puts the methods that aren't read.
    fn put_bodies(&mut self) -> Result<(), AllocError> {
        let facts = self.facts;
        for object in &facts.machine.objects {
            let ObjectKind::Method(_) = object.kind else {
                continue;
            };
            let mut text = self.text();
            if facts.machine.body(object.number).is_none() {
                self.put_unread(&mut text, object.number, object.path)?;
            }
            if !acpi_overview_text::is_empty(&text) {
                let count = &mut self.found.counts.notes;
                *count = count.saturating_add(1);
                self.put(FindingLevel::Note, text, object.site, None)?;
            }
        }
        Ok(())
    }

    // Puts why the body of a method isn't read, and what that costs.
    fn put_unread(&self, text: &mut Text, number: usize, path: &Path) -> Result<(), AllocError> {
        let Some(body) = body_of(self.facts.machine.survey, number)? else {
            return Ok(());
        };
        if let BodyReading::Opaque { reason, name, .. } = &body.reading {
            put_trimmed_path(text, path);
            text.put(" is not read: ");
            put_body_reason(text, *reason, name);
            text.put("; so every named constant counts as stored to (? for ~)");
        }
        Ok(())
    }
}

/// What was found in the tables of a machine: what is lost and noticed, and what the checks found, with each finding on its own
/// row or alike ones on one. The files of the tables are given.
pub fn found_rows<'f, 'm, 'a>(
    facts: &'f MachineFacts<'m, 'a>,
    files: &'f [&'f str],
    findings: &Findings,
    found: &[Finding],
    is_whole: bool,
) -> Result<FoundRows, AllocError> {
    let mut building = Building {
        facts,
        files,
        found: FoundRows {
            rows: Vec::new(facts.machine.alloc),
            counts: FindingCounts {
                problems: 0,
                errors: 0,
                warnings: 0,
                remarks: 0,
                notes: 0,
            },
            lost: 0,
        },
    };
    building.put_problems(findings)?;
    building.put_missing(is_whole)?;
    building.put_checks(found, is_whole)?;
    building.put_regions()?;
    building.put_notes(findings)?;
    building.put_bodies()?;
    let mut rows = building.found;
    rows.rows.sort_by(|one, other| one.level.cmp(&other.level))?;
    Ok(rows)
}
