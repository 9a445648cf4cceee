//! Paths read from text.

ghost use Rattle.std.specs.Prelude.{◌≡◌, ◌<◌, ◌≤◌, ◌∷◌, [], ◌++◌, length, List, IfOk, OnOk, IfSome, Some, None, Err, ◌↔◌, ◌==◌, is_some, position};
ghost use Rattle.std.specs.Option.{option_map, option_copied};
ghost use Rattle.acpi_name.specs.Names.{Segment};
ghost use Rattle.acpi_name.specs.Text.{SpellsPathText, IsPathText};
ghost use Rattle.acpi_name.specs.steps.TextReading.{typed_segment, typed_segments, dotted_parts, parts_behind, path_of_text};
ghost use Rattle.acpi_name.specs.declared.text.PathFault.TheVariants.{Memory};

use crate::path::Path;
use crate::seg::Seg;
use std::alloc::{AllocError, AllocFailed, Global};
use thiserror::Error;

/// Why a text gives no path.
#[derive(Clone, Copy, Debug, PartialEq, Eq, Error)]
pub enum PathFault {
    /// The text is no path's.
    #[error("X1 BadText")]
    BadText,
    /// Memory was refused.
    #[error("X2 Memory")]
    Memory,
}

impl From<AllocError> for PathFault {
    ghost from_gives = { λ _ f. f ≡ Memory };

    fn from(_e: AllocError) -> PathFault {
        PathFault::Memory
    }
}

impl<T: Drop> From<AllocFailed<T>> for PathFault {
    ghost from_gives = { λ _ f. f ≡ Memory };

    fn from(_e: AllocFailed<T>) -> PathFault {
        PathFault::Memory
    }
}

// The segment of which these are the first characters, where the others are `_`.
fn filled_segment(typed: &[u8]) -> Option<Seg>
    ensures { result ≡ typed_segment typed.now }
{
    let bytes = match typed {
        [a] => [*a, b'_', b'_', b'_'],
        [a, b] => [*a, *b, b'_', b'_'],
        [a, b, c] => [*a, *b, *c, b'_'],
        [a, b, c, d] => [*a, *b, *c, *d],
        _ => return None,
    };
    Seg::new(bytes)
}

fn first_dot(text: &[u8]) -> Option<usize>
    ensures place { result ≡ position (λ b. b == 46) text.now }
    ensures within { IfSome result (λ dot. dot < length text.now) }
{
    text.iter().position(|b| *b == b'.')
}

// What stands before the first dot, and behind it.
fn first_part(text: &[u8]) -> (&[u8], Option<&[u8]>)
    ensures parts { dotted_parts text.now ≡ result.0.now ∷ parts_behind (option_copied result.1) }
    ensures shorter { IfSome result.1 (λ rest. length rest.now < length text.now) }
{
    match first_dot(text) {
        Some(dot) => (&text[..dot], Some(&text[dot + 1..])),
        None => (text, None),
    }
}

// Whether each part between the dots is a segment.
fn are_segments(text: &[u8]) -> bool
    ensures { result ≡ is_some (typed_segments (dotted_parts text.now)) }
{
    let mut rest = text;
    loop {
        let (typed, behind) = first_part(rest);
        if filled_segment(typed).is_none() {
            return false;
        }
        match behind {
            Some(more) => rest = more,
            None => return true,
        }
    }
}

// Puts the segments between the dots at the end of the path.
fn push_segments(path: &mut Path, text: &[u8]) -> Result<(), PathFault>
    ensures ok { OnOk result (option_map (λ gs. path.old ++ gs)
        (typed_segments (dotted_parts text.now)) ≡ Some path.new) }
    ensures bad { result ≡ Err PathFault.BadText → typed_segments (dotted_parts text.now) ≡ None }
{
    let mut rest = text;
    loop {
        let (typed, behind) = first_part(rest);
        let Some(seg) = filled_segment(typed) else {
            return Err(PathFault::BadText);
        };
        path.push(seg)?;
        match behind {
            Some(more) => rest = more,
            None => return Ok(()),
        }
    }
}

// The path of a text; the text is looked at whole before any memory is asked for.
fn typed_path(alloc: Global, text: &[u8]) -> Result<Path, PathFault>
    ensures ok { IfOk result (λ p. path_of_text text.now ≡ Some p) }
    ensures bad { (result ≡ Err PathFault.BadText) ↔ (path_of_text text.now ≡ None) }
{
    match text {
        [b'\\'] => Ok(Path::root(alloc)),
        [b'\\', segments @ ..] if are_segments(segments) => {
            let mut path = Path::root(alloc);
            push_segments(&mut path, segments)?;
            Ok(path)
        }
        _ => Err(PathFault::BadText),
    }
}

impl Path {
    /// The path that is typed so: `\`, or `\` and segments joined by `.`, each typed by its first one to
    /// four characters, where the others are `_`.
    pub fn from_text(alloc: Global, text: &str) -> Result<Path, PathFault>
        // What is answered is typed so.
        ensures found { IfOk result (λ p. SpellsPathText p text.now) }

        // What is typed so is answered, unless memory is refused. So a text gives at most one path.
        ensures only { (p : List Segment) → SpellsPathText p text.now → IfOk result (λ q. q ≡ p) }
        ensures bad { (result ≡ Err PathFault.BadText) ↔ ¬ IsPathText text.now }
    {
        typed_path(alloc, text.as_bytes())
    }
}
