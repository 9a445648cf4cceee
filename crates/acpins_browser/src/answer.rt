//! What a run answers.

ghost use Rattle.std.specs.Prelude.{◌≡◌, ◌≤◌, ◌++◌, ℕ, List, [], IfOk, IfSome, Some, None};
ghost use Rattle.acpins_words.specs.Words.{texts};
ghost use Rattle.acpins_io.specs.Outputs.{FileBytes};
ghost use Rattle.acpins_survey_run.specs.FailureLines.{failure_line};
ghost use Rattle.acpins_survey_run.specs.Failures.{status_of};
ghost use Rattle.acpins_browser.specs.Answers.{AreNotTexts, IsAnswer, arguments_in};
ghost use Rattle.acpins_browser.specs.LentFiles.{bytes_in, names_in};

use crate::lent_files::LentFiles;
use crate::lent_folders::LentFolders;
use crate::records::{LentFile, LentFolder, LentText};
use acpins_survey_run::{Failure, NoConsole, UntilFailure, output_of, report_failure};
use acpins_survey_texts::SurveyPrinter;
use std::alloc::{AllocError, Global};
use std::str::from_utf8;

/// What a run answers: a status, and a text.
#[derive(Drop)]
pub(crate) struct Answer {
    /// The program's status, 0 to 3.
    pub(crate) status: u32,
    /// What it prints, the page that it writes, or the line of its failure.
    pub(crate) text: Vec<u8>,
}

// The arguments as texts; None where one is not UTF-8.
fn texts_of<'a>(alloc: Global, lent: &'a [LentText<'a>]) -> Result<Option<Vec<&'a str>>, AllocError>
    ensures texts { IfOk result (λ found. IfSome found
        (λ v. texts v.items ≡ arguments_in lent.now)) }
    ensures none { IfOk result (λ found. found ≡ None → AreNotTexts (arguments_in lent.now)) }
{
    let mut texts = Vec::new(alloc);
    for argument in lent {
        let Ok(text) = from_utf8(argument.bytes) else {
            return Ok(None);
        };
        texts.push(text)?;
    }
    Ok(Some(texts))
}

// The line that says a failure, or a beginning of it, if there is no memory for all.
fn failure_answer(alloc: Global, failure: &Failure) -> Answer
    ensures status { result.status ≡ status_of failure.now }
    ensures line { (rest : List ℕ) × (failure_line failure.now ≡ result.text.items ++ rest) }
{
    let mut text = Vec::new(alloc);
    let status = report_failure(failure, &mut text, &mut UntilFailure::new());
    Answer {
        status: u32::from(status),
        text,
    }
}

// What a run gives: what it printed, or, where that is nothing, what it wrote to a file.
fn given_text(printed: Vec<u8>, written: Option<Vec<u8>>) -> Vec<u8>
    ensures printed { written ≡ None → result.items ≡ printed.items }
    ensures written { printed.items ≡ [] → IfSome written (λ w. result.items ≡ w.items) }
    ensures nothing { IfSome written (λ w. w.items ≡ [] → result.items ≡ printed.items) }
{
    match written {
        Some(page) if printed.is_empty() => page,
        _ => printed,
    }
}

// What a run over files and folders that are lent answers.
fn run<'a>(
    alloc: Global,
    arguments: &'a [&'a str],
    files: &[LentFile<'_>],
    folders: &[LentFolder<'_>],
) -> Answer
    ensures answer { IsAnswer (bytes_in files.now) (names_in folders.now)
        (texts arguments.now) result.status result.text.items }
    ensures statuses { result.status ≤ 3 }
{
    let mut folders = LentFolders::new(alloc, folders, files);
    let mut files = LentFiles::new(alloc, files);
    match output_of(
        alloc,
        arguments,
        &SurveyPrinter,
        &mut files,
        &mut folders,
        &mut NoConsole,
    ) {
        Ok(output) => Answer {
            status: u32::from(output.status),
            text: given_text(output.text, files.into_written()),
        },
        Err(failure) => failure_answer(alloc, &failure),
    }
}

/// What a run over arguments, files and folders that are lent answers; None where an argument is not UTF-8.
pub(crate) fn answer_of(
    alloc: Global,
    arguments: &[LentText<'_>],
    files: &[LentFile<'_>],
    folders: &[LentFolder<'_>],
) -> Option<Answer>
    ensures answer { IfSome result (λ a. IsAnswer (bytes_in files.now) (names_in folders.now)
        (arguments_in arguments.now) a.status a.text.items) }
    ensures statuses { IfSome result (λ a. a.status ≤ 3) }
    ensures none { result ≡ None → AreNotTexts (arguments_in arguments.now) }
{
    match texts_of(alloc, arguments) {
        Ok(Some(found)) => Some(run(alloc, found.as_slice(), files, folders)),
        Ok(None) => None,
        Err(_) => Some(failure_answer(alloc, &Failure::Memory)),
    }
}
