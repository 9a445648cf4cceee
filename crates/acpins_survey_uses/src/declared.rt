//! The objects at a path.

ghost use Rattle.std.specs.Prelude.{◌≡◌, true, IfOk};
ghost use Rattle.std.specs.Option.{option_copied};
ghost use Rattle.acpins_survey_uses.specs.Nothing.{HasNoEntry, HasNothing};

use acpi_locals::LocalObject;
use acpi_name::Path;
use acpi_objects::object_kind;
use acpi_ranges::part_of;
use acpi_survey::Survey;
use acpins_survey_output::put_kind;
use std::alloc::{AllocError, Global};
use text_buffer::Text;

/// What tables and bodies declare. The objects of bodies stand in the order of their paths.
#[derive(Clone, Copy)]
pub(crate) struct Declared<'s, 'a> {
    pub(crate) alloc: Global,
    pub(crate) survey: &'s Survey,
    pub(crate) locals: &'s [LocalObject<'a>],
}

// Puts a text behind others, if it isn't one of them.
fn add_text(texts: &mut Vec<Vec<u8>>, text: Vec<u8>) -> Result<(), AllocError> {
    for other in &*texts {
        if *other == text {
            return Ok(());
        }
    }
    texts.push(text)?;
    Ok(())
}

/// Whether a path is another, or lies below it.
pub(crate) fn is_at_or_below(path: &Path, above: &Path) -> bool {
    path.segs().starts_with(above.segs())
}

impl<'s, 'a> Declared<'s, 'a> {
    // The objects of bodies at a path and behind.
    fn locals_from(&self, path: &Path) -> &'s [LocalObject<'a>] {
        let count = self.locals.partition_point(|object| object.path < *path);
        &self.locals[count.min(self.locals.len())..]
    }

    // The texts of the objects at a path, those that differ: entries before the objects of bodies.
    fn texts_at(&self, path: &Path) -> Result<Vec<Vec<u8>>, AllocError> {
        let mut texts = Vec::new(self.alloc);
        for number in &self.survey.at(path)? {
            let mut text = Text::new(self.alloc);
            put_kind(
                &mut text,
                &object_kind(part_of(self.survey, *number), *number),
            );
            add_text(&mut texts, text.into_bytes()?)?;
        }
        for object in self.locals_from(path) {
            if object.path != *path {
                break;
            }
            let mut text = Text::new(self.alloc);
            put_kind(&mut text, &object.object);
            add_text(&mut texts, text.into_bytes()?)?;
        }
        Ok(texts)
    }

    /// Puts the objects at a path that differ, with a bar between each two.
    pub(crate) fn put_objects(&self, text: &mut Text, path: &Path) -> Result<(), AllocError> {
        let mut is_first = true;
        for object in &self.texts_at(path)? {
            if !is_first {
                text.put(" | ");
            }
            text.put_all(object);
            is_first = false;
        }
        Ok(())
    }

    // Whether a body declares something at a path, or below it.
    fn has_local_below(&self, path: &Path) -> bool {
        match self.locals_from(path) {
            [first, ..] => is_at_or_below(&first.path, path),
            [] => false,
        }
    }

    // Whether nothing is declared at a path and below it.
    fn is_nothing_below(&self, path: &Path) -> Result<bool, AllocError>
        ensures { IfOk result (λ b. b ≡ true → HasNoEntry self.now.survey.now path.now) }
    {
        let (here, below) = (self.survey.at(path)?, self.survey.below(path)?);
        Ok(here.is_empty() && below.is_empty() && !self.has_local_below(path))
    }

    /// Whether there is a path, and nothing is declared there and below it.
    pub(crate) fn is_nothing_at(&self, path: Option<&Path>) -> Result<bool, AllocError>
        ensures { IfOk result (λ b. b ≡ true
            → HasNothing self.now.survey.now (option_copied path.entry)) }
    {
        match path {
            Some(path) => self.is_nothing_below(path),
            None => Ok(false),
        }
    }
}
