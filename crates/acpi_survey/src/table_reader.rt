//! The survey of tables.

ghost use Rattle.std.specs.Prelude.{◌≡◌, IfOk};
ghost use Rattle.acpi_survey.specs.Predefined.{first_reading};
ghost use Rattle.acpi_survey.specs.Laws.{IsSurveyed, IsOnlyReading};
ghost use Rattle.acpi_survey.specs.Survey.{AreRead, behind_table};
ghost use Rattle.acpi_pieces.specs.Tables.{code_read};
ghost use Rattle.acpi_survey.specs.SurveyOrder.{IsInOrder};
ghost use Rattle.acpi_survey.specs.Surveys.{IsSurvey, IsTable, behind_nodes, nodes_of_each};

use crate::machine_survey::{Survey, SurveyedTable};
use crate::reading::Reading;
use acpi_code::Depth;
use acpi_outline::read_outline;
use acpi_pieces::{TableContent, judge};
use bytes::Bytes;
use std::alloc::{AllocError, Global};

// The code of a table, of which nothing is read where the table isn't.
fn shared_code(judged: &TableContent) -> Result<Bytes, AllocError>
    ensures { IfOk result (λ b. b ≡ code_read judged.now) }
{
    match judged {
        TableContent::Read { code, .. } => code.slice(..),
        TableContent::Unread(_) => Ok(Bytes::new()),
    }
}

// Reads the table of that number, behind those before it.
fn read_table(
    reading: &mut Reading,
    number: usize,
    bytes: &Bytes,
    depth: Depth,
) -> Result<SurveyedTable, AllocError>
    ensures bytes { IfOk result (λ t. t.bytes ≡ bytes.now) }
    ensures table { IfOk result (λ t. IsTable depth number reading.old t) }
    ensures behind { IfOk result (λ t. reading.new
        ≡ behind_table (behind_nodes number reading.old t)) }
{
    let judged = judge(number, bytes)?;
    let code = shared_code(&judged)?;
    reading.come_to_table(number);
    let nodes = read_outline(reading, &code, depth)?;
    let expected = reading.end_table()?;
    Ok(SurveyedTable {
        bytes: bytes.slice(..)?,
        judged,
        nodes,
        expected,
    })
}

/// The survey of tables, whatever their bytes are, with at most `depth` levels of terms. Only an allocation failure is
/// an error.
pub fn survey(alloc: Global, tables: &[Bytes], depth: Depth) -> Result<Survey, AllocError>
    // Each table is kept, as it is read behind those before it; and so is the limit.
    ensures is { IfOk result (IsSurvey depth tables.now) }
    // So they have these nodes, and no others.
    ensures read { IfOk result (λ s. AreRead depth 0 first_reading tables.now
        (nodes_of_each s.tables.items) s.reading) }
    ensures only { IfOk result (λ s. IsOnlyReading depth tables.now
        (nodes_of_each s.tables.items) s.reading) }
    // What is known behind them is the survey of what their nodes do.
    ensures entries { IfOk result (λ s. IsSurveyed 0 first_reading s.reading
        (nodes_of_each s.tables.items)) }
    // What is kept of them stands in the order of places.
    ensures in_order { IfOk result IsInOrder }
{
    let mut reading = Reading::new(alloc)?;
    let mut read = Vec::new(alloc);
    'each: for bytes in tables {
        let number = read.len();
        read.push(read_table(&mut reading, number, bytes, depth)?)?;
    }
    Ok(Survey {
        tables: read,
        depth,
        reading,
    })
}
