//! Texts, as they are read from the tables.

ghost use Rattle.std.specs.Prelude.{◌≡◌, IfOk, Ok};
ghost use Rattle.registry_names.specs.Texts.{Text as Bytes};
ghost use Rattle.registry_tables.specs.Teams.{text_spelled};

use registry_names::{Fault, Stop, Text};
use registry_rows::RowKind;
use sqlite::{Error, Row};

/// What was parsed of a text that is read from the tables. Its refusal is the fault `Database`,
/// since no text out of form is ever written.
pub(crate) fn read_back<T>(parsed: Result<T, Stop>) -> Result<T, Fault>
    ensures { IfOk result (λ value. parsed ≡ Ok value) }
{
    match parsed {
        Ok(value) => Ok(value),
        Err(Stop::Fault(fault)) => Err(fault),
        Err(Stop::Refused(_)) => Err(Fault::Database),
    }
}

/// A text alone.
pub(crate) struct TextRow;

impl RowKind for TextRow {
    type Value = Text;

    ghost Seen = { Bytes };

    ghost seen = { λ text. text };

    ghost spelled = { text_spelled };

    fn read(row: &Row) -> Result<Text, Error> {
        let text: String = row.get(0)?;
        Ok(Text::from(text))
    }
}
