//! What a system sees without running code.

use crate::blocks::{Block, Blocks};
use crate::change_words::{is_seen, put_change};
use crate::paths::{put_more, put_paths};
use crate::text::DiffOptions;
use acpi_body_diff::BodyChange;
use acpi_diff::{Diff, FindingChange, LostName};
use acpi_text::put_decimal;
use acpi_trimmed::put_trimmed_path;
use std::alloc::{AllocError, Global};
use text_buffer::Text;

/// The most names of a list.
const MOST_NAMES: usize = 12;

fn put_block(text: &mut Text, block: &Block<'_>, options: DiffOptions) -> Result<(), AllocError> {
    text.put("  ");
    put_paths(text, &block.paths, options)?;
    text.put(": ");
    text.put_all(&block.text);
    text.put("\n");
    Ok(())
}

fn is_seen_body(change: &BodyChange) -> bool {
    change.path.segs().last().map_or(false, |s| is_seen(*s))
}

// What differs of names that a system looks at.
fn seen_blocks<'d>(
    alloc: Global,
    diff: &'d Diff<'_>,
    options: DiffOptions,
) -> Result<Blocks<'d>, AllocError> {
    let mut blocks = Blocks::new(alloc);
    for change in &diff.changes {
        if change.path.segs().last().map_or(false, |s| is_seen(*s)) {
            let mut text = Text::new(alloc);
            put_change(&mut text, change, options);
            blocks.put(text.into_bytes()?, &change.path)?;
        }
    }
    for change in &diff.bodies {
        if is_seen_body(change) {
            blocks.put(Vec::from_slice(alloc, b"body changed")?, &change.path)?;
        }
    }
    Ok(blocks)
}

// Whether more methods of the new version use a name that nothing declares, or fewer.
fn is_of(name: &LostName, is_new: bool) -> bool {
    if is_new {
        name.new > name.old
    } else {
        name.new < name.old
    }
}

// The names that nothing declares, from now on or no more, each with how many methods use it more, or less.
fn put_lost_names(text: &mut Text, diff: &Diff<'_>, is_new: bool, options: DiffOptions) {
    let count = diff.lost_names.iter().filter(|n| is_of(n, is_new)).count();
    if count == 0 {
        return;
    }
    let most = if options.is_verbose {
        count
    } else {
        MOST_NAMES
    };
    let front = if is_new {
        "  names that nothing declares, new: "
    } else {
        "  names that nothing declares, no more: "
    };
    let mut is_first = true;
    for name in diff
        .lost_names
        .iter()
        .filter(|n| is_of(n, is_new))
        .take(most)
    {
        text.put(if is_first { front } else { ", " });
        is_first = false;
        text.put_all(&name.name);
        text.put(" (");
        put_decimal(text, name.new.abs_diff(name.old) as u64);
        text.put(")");
    }
    put_more(text, count.saturating_sub(most));
    text.put("\n")
}

fn put_finding(text: &mut Text, change: &FindingChange<'_>) {
    let finding = change.finding;
    text.put(if change.is_new { "  + " } else { "  - " });
    text.put(finding.id.level().text());
    text.put(" ");
    text.put(finding.id.text());
    text.put(" ");
    put_trimmed_path(text, &finding.path);
    text.put(": ");
    text.put_all(&finding.text);
    text.put("\n")
}

/// Puts the section of what a reviewer reads first: ids, resources, status, wake, routing, sleep states and events, names that
/// nothing declares any more or from now on, and the errors and warnings that went or came.
pub(crate) fn put_seen(
    text: &mut Text,
    diff: &Diff<'_>,
    options: DiffOptions,
) -> Result<(), AllocError> {
    let blocks = seen_blocks(text.alloc(), diff, options)?;
    if blocks.blocks.is_empty() && diff.lost_names.is_empty() && diff.findings.is_empty() {
        return Ok(());
    }
    text.put("\nSEEN BY THE SYSTEM\n");
    for block in &blocks.blocks {
        put_block(text, block, options)?;
    }
    put_lost_names(text, diff, true, options);
    put_lost_names(text, diff, false, options);
    for finding in &diff.findings {
        put_finding(text, finding);
    }
    Ok(())
}
