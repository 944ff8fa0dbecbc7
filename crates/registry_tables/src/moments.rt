//! Moments, as they are read from the tables.

ghost use Rattle.std.specs.Prelude.{◌≡◌, ℕ, IfOk, map, max, unwrap_or};
ghost use Rattle.registry_tables.specs.Spelled.{number_spelled, second_spelled};
ghost use Rattle.registry_tables.specs.Withdrawals.{last_number};

use registry_names::{Fault, Moment};
use registry_rows::{RowKind, value_of_row};
use sqlite::{Error, Row};

/// The last of the moments that the rows spell, if there is a row.
pub(crate) fn last_moment(rows: &[Row]) -> Result<Option<Moment>, Fault>
    ensures { IfOk result (λ last. last ≡ last_number (map number_spelled rows.now)) }
{
    let mut last = None;
    for row in rows {
        let moment = value_of_row::<MomentRow>(row)?;
        last = Some(later(moment, last));
    }
    Ok(last)
}

// The later of both.
fn later(moment: Moment, other: Option<Moment>) -> Moment
    ensures { result ≡ max moment (unwrap_or other 0) }
{
    match other {
        Some(other) if moment.seconds() < other.seconds() => other,
        _ => moment,
    }
}

/// A moment alone.
pub(crate) struct MomentRow;

impl RowKind for MomentRow {
    type Value = Moment;

    ghost Seen = { ℕ };

    ghost seen = { λ moment. moment };

    ghost spelled = { number_spelled };

    fn read(row: &Row) -> Result<Moment, Error> {
        match Moment::new(row.get(0)?) {
            Some(moment) => Ok(moment),
            None => Err(Error::IntegralValueOutOfRange(0)),
        }
    }
}

/// A moment that comes second.
pub(crate) struct SecondMoment;

impl RowKind for SecondMoment {
    type Value = Moment;

    ghost Seen = { ℕ };

    ghost seen = { λ moment. moment };

    ghost spelled = { second_spelled };

    fn read(row: &Row) -> Result<Moment, Error> {
        match Moment::new(row.get(1)?) {
            Some(moment) => Ok(moment),
            None => Err(Error::IntegralValueOutOfRange(1)),
        }
    }
}
