//! What the page `acpins.html` calls: a run of the program `acpins-survey` over arguments, files and folders in memory. It is the
//! program's own `output_of`, so a page shows what the program prints.
//!
//! ```text
//! arguments, files, folders ── output_of (acpins_survey_run) ──► status, text ──► the room of the page
//! ```
//!
//! The page calls it by way of WebAssembly (`.ci/wasm.py`); any caller in C could too. The surveys of a run are not given back, as the
//! program gives none back: a page makes a new instance for each run.
#![tactic(auto)]

mod answer;
mod lent_files;
mod lent_folders;
mod records;

ghost use Rattle.std.specs.Prelude.{◌≡◌, ◌≤◌, ℕ};
ghost use Rattle.acpins_browser.specs.Answers.{AreNotTexts, IsAnswer, IsPut, NeedsRoom, arguments_in};
ghost use Rattle.acpins_browser.specs.LentFiles.{bytes_in, names_in};

use crate::answer::{Answer, answer_of};
pub use records::{LentFile, LentFolder, LentText};
use std::alloc::Global;

/// The text has more bytes than there is room for: `length` says how many.
pub const NO_ROOM: u32 = 4;

/// An argument is not UTF-8.
pub const NOT_UTF8: u32 = 5;

// Writes an answer to the front of the room, where there is room for it.
fn put_answer(answer: &Answer, room: &mut [u8], length: &mut u64) -> u32
    requires { answer.now.status ≤ 3 }
    ensures done { result ≤ 3 → (result ≡ answer.now.status)
        × IsPut (λ text. text ≡ answer.now.text.items) room.old room.new length.new }
    ensures short { result ≡ NO_ROOM
        → NeedsRoom (λ text. text ≡ answer.now.text.items) room.old length.new }
    ensures stay { 4 ≤ result → room.new ≡ room.old }
    ensures statuses { result ≤ 4 }
{
    let count = answer.text.len();
    *length = count as u64;
    if room.len() < count {
        return NO_ROOM;
    }
    let (front, _) = room.split_at_mut(count);
    front.copy_from_slice(&answer.text);
    answer.status
}

/// Runs the command that the arguments say over the page's files and folders. What it prints, the page that it writes, or the line of
/// its failure stands at the front of the room then, and `length` has how many bytes that is. The status is the program's: 0, 1 and 2
/// for a failure, 3 where something is wrong in the tables; or `NO_ROOM`, or `NOT_UTF8`.
#[unsafe(no_mangle)]
pub extern "C" fn acpins_run(
    alloc: Global,
    arguments: &[LentText<'_>],
    files: &[LentFile<'_>],
    folders: &[LentFolder<'_>],
    room: &mut [u8],
    length: &mut u64,
) -> u32
    // The room begins with what a run over these files and folders answers.
    ensures done { result ≤ 3 → IsPut (IsAnswer (bytes_in files.now) (names_in folders.now)
        (arguments_in arguments.now) result) room.old room.new length.new }
    // There is less room than such an answer needs.
    ensures short { result ≡ NO_ROOM → (status : ℕ) × NeedsRoom
        (IsAnswer (bytes_in files.now) (names_in folders.now) (arguments_in arguments.now) status)
        room.old length.new }
    ensures not_utf8 { result ≡ NOT_UTF8 → AreNotTexts (arguments_in arguments.now) }
    ensures stay { 4 ≤ result → room.new ≡ room.old }
    ensures statuses { result ≤ 5 }
{
    *length = 0;
    match answer_of(alloc, arguments, files, folders) {
        Some(answer) => put_answer(&answer, room, length),
        None => NOT_UTF8,
    }
}
