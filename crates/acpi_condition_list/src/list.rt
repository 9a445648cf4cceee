//! The list of literals, in which equal beginnings of conditions are one.

ghost use Rattle.std.specs.Prelude.{◌≡◌, ◌++◌, ◌∷◌, [], Some, true, IfOk, IfSome, map, slice_get};
ghost use Rattle.std.specs.List.{All};
ghost use Rattle.acpi_survey.specs.SurveyOrder.{IsInOrder};
ghost use Rattle.acpi_conditions.specs.ByPath.{lent_pair};
ghost use Rattle.acpi_condition_list.specs.ConditionLists.{IsCondition, IsWay, condition_numbered, conditioned_view, numbered_pair, source_literal};
ghost use Rattle.acpi_condition_list.specs.steps.Growing.{Grows};

use crate::sources::{LiteralSource, is_same, put_asks, put_turn};
use acpi_name::Path;
use acpi_ranges::entry_numbered;
use acpi_survey::Survey;
use std::alloc::{AllocError, Global};
use std::collections::BTreeMap;

/// A literal in conditions, behind the one before it.
#[derive(Debug, Clone, Copy, PartialEq, Eq, PartialOrd, Ord)]
pub struct ConditionStep {
    /// The number of the literal before it; None where a condition begins with it.
    pub before: Option<usize>,
    /// What it comes from.
    pub source: LiteralSource,
}

/// An entry, and the last literal of its condition.
#[derive(Debug, Clone, Copy)]
pub struct ConditionedEntry<'a> {
    /// Its path.
    pub path: &'a Path,
    /// Its number.
    pub number: usize,
    /// The number of the last literal of its condition; None where it has none. The condition, as `condition_of` of
    /// `acpi_entries` gives it, is made of that literal and those before it.
    pub condition: Option<usize>,
}

/// The conditions of entries.
#[derive(Drop)]
pub struct Conditions<'a> {
    /// The entries, in their order.
    pub entries: Vec<ConditionedEntry<'a>>,
    /// The literals by their numbers: each once behind the same beginning, in the order in which the conditions of the
    /// entries come to them.
    pub steps: Vec<ConditionStep>,
}

/// The literals so far.
#[derive(Drop)]
struct ConditionList {
    steps: Vec<ConditionStep>,
    numbers: BTreeMap<ConditionStep, usize>,
    /// Of the beginning, and behind it of each literal, the literal behind it that was come to last.
    latest: Vec<usize>,
}

// Where the literal behind that one stands in `latest`.
fn place_of(before: Option<usize>) -> usize {
    match before {
        Some(number) => number.saturating_add(1),
        None => 0,
    }
}

fn is_same_number(one: Option<usize>, other: Option<usize>) -> bool
    ensures { result ≡ true → one ≡ other }
{
    match (one, other) {
        (Some(n), Some(m)) => n == m,
        (None, None) => true,
        _ => false,
    }
}

impl ConditionList {
    fn new(alloc: Global) -> ConditionList {
        ConditionList {
            steps: Vec::new(alloc),
            numbers: BTreeMap::new(alloc),
            latest: Vec::new(alloc),
        }
    }

    // Whether the literal of that number is this one.
    fn is_at(&self, number: usize, step: ConditionStep) -> bool
        ensures { result ≡ true → slice_get self.now.steps.items number ≡ Some step }
    {
        match self.steps.get(number) {
            Some(other) => {
                is_same_number(other.before, step.before) && is_same(other.source, step.source)
            }
            None => false,
        }
    }

    // The number of a literal. One that was come to last is looked at first: conditions that stand behind one another begin
    // alike.
    fn find(&self, step: ConditionStep) -> Option<usize>
        ensures { IfSome result (λ n. slice_get self.now.steps.items n ≡ Some step) }
    {
        let latest = *self.latest.get(place_of(step.before))?;
        if self.is_at(latest, step) {
            return Some(latest);
        }
        let number = *self.numbers.get(&step)?;
        if self.is_at(number, step) {
            Some(number)
        } else {
            None
        }
    }

    // Puts a literal behind the others; its number.
    fn push(&mut self, step: ConditionStep) -> Result<usize, AllocError>
        ensures grown { IfOk result (λ n. self.new.steps.items
            ≡ self.old.steps.items ++ step ∷ []) }
        ensures number { IfOk result (λ n. slice_get self.new.steps.items n ≡ Some step) }
    {
        let number = self.steps.len();
        if number == 0 {
            self.latest.push(0)?;
        }
        self.numbers.insert(step, number)?;
        self.latest.push(0)?;
        self.steps.push(step)?;
        Ok(number)
    }

    // Says that the literal of that number was come to last behind another.
    fn set_latest(&mut self, before: Option<usize>, number: usize)
        ensures { self.new.steps.items ≡ self.old.steps.items }
    {
        if let Some(latest) = self.latest.get_mut(place_of(before)) {
            *latest = number;
        }
    }

    // Comes to a literal; its number.
    fn come_to(&mut self, step: ConditionStep) -> Result<usize, AllocError>
        ensures grown { IfOk result (λ n. Grows self.old.steps.items self.new.steps.items) }
        ensures number { IfOk result (λ n. slice_get self.new.steps.items n ≡ Some step) }
    {
        let number = match self.find(step) {
            Some(number) => number,
            None => self.push(step)?,
        };
        self.set_latest(step.before, number);
        Ok(number)
    }

    // Comes to literals, one behind another; the number of the last.
    fn come_to_all(&mut self, sources: &[LiteralSource]) -> Result<Option<usize>, AllocError>
        ensures grown { IfOk result (λ last. Grows self.old.steps.items self.new.steps.items) }
        ensures way { IfOk result (λ last. IsWay self.new.steps.items last sources.now) }
    {
        let mut before = None;
        'each: for source in sources {
            let source = *source;
            before = Some(self.come_to(ConditionStep { before, source })?);
        }
        Ok(before)
    }
}

// What the condition of the entry of that number comes from.
fn sources_of(survey: &Survey, number: usize) -> Result<Vec<LiteralSource>, AllocError>
    ensures { IsInOrder survey.now → IfOk result (λ v. map (source_literal survey.now) v.items
        ≡ map (λ l. Some l) (condition_numbered survey.now number)) }
{
    let entries = survey.entries();
    let mut sources = Vec::new(survey.memory());
    let Some(entry) = entry_numbered(entries, number) else {
        return Ok(sources);
    };
    'each: for turn in &entries.ways.turns(entry.way)? {
        put_turn(survey, &mut sources, *turn)?;
    }
    put_asks(survey, &mut sources, number)?;
    Ok(sources)
}

/// The conditions of entries, in that order: each has its path and its number.
pub fn conditions_of<'a>(
    survey: &Survey,
    order: &[(&'a Path, usize)],
) -> Result<Conditions<'a>, AllocError>
    ensures entries { IfOk result (λ c. map numbered_pair (map conditioned_view c.entries.items)
        ≡ map lent_pair order.now) }
    ensures conditions { IsInOrder survey.now → IfOk result (λ c. All (λ e. IsCondition survey.now
        c.steps.items e.condition (condition_numbered survey.now e.number)) c.entries.items) }
{
    let mut list = ConditionList::new(survey.memory());
    let mut entries = Vec::new(survey.memory());
    'each: for numbered in order {
        entries.push(ConditionedEntry {
            path: numbered.0,
            number: numbered.1,
            condition: list.come_to_all(&sources_of(survey, numbered.1)?)?,
        })?;
    }
    Ok(Conditions {
        entries,
        steps: list.steps,
    })
}
