//! What asks for money.
ghost use Rattle.std.specs.Prelude.{◌≡◌, IsTrue};
ghost use Rattle.iss_model.specs.Forms.{is_amount};
ghost use Rattle.iss_velocity.specs.Words.{asked_use};

use iss_model::{Currency, Token, UsageRow};

/// An authorisation, or an increment of one, as it asks for money.
#[derive(Clone, Copy)]
pub struct Spending {
    /// The transaction, named by its authorisation's event token.
    pub txn: Token,
    /// The number of the authorisation's record.
    pub origin: u32,
    pub user: Token,
    pub product: Token,
    pub currency: Currency,
    /// The merchant category code of ISO 18245.
    pub mcc: u16,
    /// The merchant's id.
    pub mid: Token,
    /// In minor units.
    pub amount: u64,
    /// Whether it is the authorisation.
    pub first: bool,
}

impl Spending {
    /// The use that it adds at a stamp.
    pub(crate) fn usage(&self, at: u64) -> UsageRow
        requires { IsTrue (is_amount self.now.amount) }
        ensures { result ≡ asked_use self.now at }
    {
        UsageRow {
            txn: self.txn,
            origin: self.origin,
            user: self.user,
            product: self.product,
            currency: self.currency,
            mcc: self.mcc,
            mid: self.mid,
            amount: self.amount as i64,
            count: i64::from(self.first),
            at,
        }
    }
}
