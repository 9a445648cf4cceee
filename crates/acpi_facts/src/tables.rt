//! Tables, and how much of them is read.

ghost use Rattle.std.specs.Prelude.{◌≡◌};
ghost use Rattle.acpi_facts.specs.Tables.{table_state};

use acpi_overview::{Table, TableState};
use acpi_pieces::{TableContent, TableReason};
use acpi_survey::SurveyedTable;

// How much of a table is read.
fn state_of(content: &TableContent) -> TableState
    ensures { result ≡ table_state content.now }
{
    match content {
        TableContent::Read {
            is_cut,
            has_bad_sum,
            ..
        } => match (*is_cut, *has_bad_sum) {
            (true, _) => TableState::Cut,
            (false, true) => TableState::BadSum,
            (false, false) => TableState::Good,
        },
        TableContent::Unread(reason) => match reason {
            TableReason::Table(_) => TableState::Broken,
            TableReason::NotDsdt | TableReason::NotSsdt => TableState::Other,
        },
    }
}

/// The table of a survey.
pub fn table_of(table: &SurveyedTable) -> Table<'_>
    ensures bytes { result.bytes.now ≡ table.now.bytes }
    ensures state { result.state ≡ table_state table.now.judged }
{
    Table {
        bytes: &table.bytes,
        state: state_of(&table.judged),
    }
}
