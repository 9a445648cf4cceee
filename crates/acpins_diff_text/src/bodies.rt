//! What differs of the bodies of methods.

use crate::blocks::{Block, Blocks};
use crate::clipping::put_clipped;
use crate::paths::put_paths;
use crate::text::DiffOptions;
use acpi_body_diff::{BodyChange, DiffLine, LineMark};
use acpi_diff::Diff;
use acpi_name::Path;
use acpi_text::put_decimal;
use std::alloc::{AllocError, Global};
use text_buffer::Text;

/// The most lines of a body.
const MOST_LINES: usize = 24;

/// The most characters of a line.
const MOST_CHARACTERS: usize = 150;

/// The most characters of a name in source code.
const NAME_CHARACTERS: usize = 4;

fn put_line(text: &mut Text, line: &DiffLine, options: DiffOptions) {
    text.put(match line.mark {
        LineMark::Both => "       ",
        LineMark::Gone => "      -",
        LineMark::New => "      +",
        LineMark::LeftOut => "       ...",
    });
    put_clipped(text, &line.text, MOST_CHARACTERS, options);
    text.put("\n")
}

// The number of lines of both bodies, and those that differ.
fn text_of(
    alloc: Global,
    change: &BodyChange,
    options: DiffOptions,
) -> Result<Vec<u8>, AllocError> {
    let most = if options.is_verbose {
        change.lines.len()
    } else {
        MOST_LINES
    };
    let mut text = Text::new(alloc);
    for line in change.lines.iter().take(most) {
        put_line(&mut text, line, options);
    }
    let left = change.lines.len().saturating_sub(most);
    if left > 0 {
        text.put("       .. ");
        put_decimal(&mut text, left as u64);
        text.put(if left == 1 {
            " line more (-v)\n"
        } else {
            " lines more (-v)\n"
        });
    }
    text.into_bytes()
}

fn is_word_byte(byte: u8) -> bool {
    byte.is_ascii_alphanumeric() || byte == b'_'
}

// Puts a word; of one that may be a name its digits as `#`.
fn put_word(key: &mut Vec<u8>, word: &[u8]) -> Result<(), AllocError> {
    let is_name = word.len() <= NAME_CHARACTERS
        && word
            .first()
            .map_or(false, |b| b.is_ascii_uppercase() || *b == b'_');
    for byte in word {
        key.push(if is_name && byte.is_ascii_digit() {
            b'#'
        } else {
            *byte
        })?;
    }
    Ok(())
}

// Bytes that changes have in common which are alike but for numbers in names.
fn put_key(key: &mut Vec<u8>, line: &[u8]) -> Result<(), AllocError> {
    let mut rest = line;
    for _ in 0..line.len() {
        let count = rest.iter().take_while(|b| is_word_byte(**b)).count();
        let (word, behind) = rest.split_at(count);
        put_word(key, word)?;
        match behind {
            [byte, others @ ..] => {
                key.push(*byte)?;
                rest = others;
            }
            [] => break,
        }
    }
    Ok(())
}

fn mark_byte(mark: LineMark) -> u8 {
    match mark {
        LineMark::Both => b' ',
        LineMark::Gone => b'-',
        LineMark::New => b'+',
        LineMark::LeftOut => b'.',
    }
}

fn key_of(alloc: Global, change: &BodyChange, options: DiffOptions) -> Result<Vec<u8>, AllocError> {
    let mut key = Vec::new(alloc);
    if options.is_verbose {
        for segment in change.path.segs() {
            key.extend_from_slice(&segment.bytes())?;
        }
        return Ok(key);
    }
    for line in &change.lines {
        key.push(mark_byte(line.mark))?;
        put_key(&mut key, &line.text)?;
        key.push(b'\n')?;
    }
    Ok(key)
}

// The changes that are told once: the number of the first, and the paths of all.
fn blocks_of<'d>(
    alloc: Global,
    diff: &'d Diff<'_>,
    options: DiffOptions,
) -> Result<Blocks<'d>, AllocError> {
    let mut blocks = Blocks::new(alloc);
    for change in &diff.bodies {
        let key = key_of(alloc, change, options)?;
        let mut text = Text::new(alloc);
        text.put("  (");
        put_decimal(&mut text, change.old_count as u64);
        text.put(" -> ");
        put_decimal(&mut text, change.new_count as u64);
        text.put(" lines)\n");
        text.put_all(&text_of(alloc, change, options)?);
        blocks.put_by(key, text.into_bytes()?, &change.path)?;
    }
    Ok(blocks)
}

fn put_block(text: &mut Text, block: &Block<'_>, options: DiffOptions) -> Result<(), AllocError> {
    text.put("  ");
    put_paths(text, &block.paths, options)?;
    text.put_all(&block.text);
    Ok(())
}

// Puts a line of the objects that differ in nothing that is told.
fn put_alike(text: &mut Text, diff: &Diff<'_>, options: DiffOptions) -> Result<(), AllocError> {
    if diff.alike.is_empty() {
        return Ok(());
    }
    let mut paths: Vec<&Path> = Vec::new(text.alloc());
    for path in &diff.alike {
        paths.push(path)?;
    }
    text.put("\nONLY SPELLED OTHERWISE, OTHER LOCALS OR SERIALIZED: ");
    put_paths(text, &paths, options)?;
    text.put("\n");
    Ok(())
}

/// Puts the section of method bodies: lines that only one version has, with two around. Changes that are alike, also but for
/// numbers in names, are told once, by the first. A last line has what differs in nothing that is told.
pub(crate) fn put_bodies(
    text: &mut Text,
    diff: &Diff<'_>,
    options: DiffOptions,
) -> Result<(), AllocError> {
    if !diff.bodies.is_empty() {
        text.put("\nMETHOD BODIES\n");
        for block in &blocks_of(text.alloc(), diff, options)?.blocks {
            put_block(text, block, options)?;
        }
    }
    put_alike(text, diff, options)
}
