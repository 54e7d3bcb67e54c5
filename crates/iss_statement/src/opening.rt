//! What a user had before a day.
ghost use Rattle.std.specs.Prelude.{◌≡◌, IsTrue};
ghost use Rattle.iss_archive.specs.Statable.{is_statable};
ghost use Rattle.iss_archive.specs.Statement as spec;
ghost use Rattle.iss_statement.specs.Openings.{IsOpening};

use iss_archive::{PostRow, added, signed_amount};
use iss_model::{Currency, Token};

const MILLISECONDS_PER_DAY: u64 = 86_400_000;

/// What a user had before a day.
#[derive(Clone, Copy)]
pub(crate) struct Opening {
    /// How many rows are of earlier days.
    pub rows: usize,
    /// What they add to what the user has.
    pub balance: i128,
}

/// What the user had before the day `from`, by rows that can be put into a statement.
pub(crate) fn opening_of(rows: &[PostRow], user: &Token, currency: Currency, from: i64) -> Opening
    requires { IsTrue (is_statable user.now currency rows.now) }
    ensures { IsOpening user.now currency from rows.now result }
{
    let mut balance = 0;
    'rows: for (i, row) in rows.iter().enumerate() {
        if day_of(row) >= from {
            return Opening { rows: i, balance };
        }
        balance = added(balance, signed_amount(row, user, currency));
    }
    Opening {
        rows: rows.len(),
        balance,
    }
}

/// The day of the row's stamp, counted from 1970-01-01 in UTC.
pub(crate) fn day_of(row: &PostRow) -> i64
    ensures { result ≡ spec.day_of row.now.at }
{
    (row.at / MILLISECONDS_PER_DAY) as i64
}
