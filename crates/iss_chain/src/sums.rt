//! What was cleared of a transaction, refunded of it and paid for it.
ghost use Rattle.std.specs.Prelude.{◌≡◌, ◌<◌, ◌^◌, ◌+ℤ◌, pos, int_lt};
ghost use Rattle.iss_model.specs.rules.Facts.{not_below};
ghost use Rattle.iss_chain.specs.Carrying.{sums_with};
ghost use Rattle.iss_chain.specs.Restoring.{post_sums};
ghost use Rattle.iss_chain.specs.Rows.{no_sums, sums_after, IsSmallRow};

use iss_hold::Hold;
use iss_model::{Account, TxnSums};

/// The sums of a transaction, in minor units.
#[derive(Clone, Copy)]
pub(crate) struct PostSums {
    /// What went from the user to the network.
    pub(crate) cleared: i64,
    /// What came back from the network.
    pub(crate) refunded: i64,
    /// What the programme paid to the user, less what came back.
    pub(crate) paid: i64,
}

impl PostSums {
    pub(crate) fn none() -> PostSums
        ensures { result ≡ no_sums }
    {
        PostSums {
            cleared: 0,
            refunded: 0,
            paid: 0,
        }
    }

    /// The sums of a transaction that is taken up again.
    pub(crate) fn of(sums: &TxnSums) -> PostSums
        requires cleared { sums.now.cleared < 2 ^ 62 }
        requires refunded { sums.now.refunded < 2 ^ 62 }
        requires paid { sums.now.paid < 2 ^ 62 }
        ensures { result ≡ post_sums sums.now }
    {
        PostSums {
            cleared: sums.cleared as i64,
            refunded: sums.refunded as i64,
            paid: sums.paid as i64,
        }
    }

    /// The sums after a post.
    pub(crate) fn after(&self, from: &Account, to: &Account, amount: u64) -> PostSums
        requires before { IsSmallRow self.now }
        requires after { IsSmallRow (sums_after from.now to.now amount self.now) }
        ensures { result ≡ sums_after from.now to.now amount self.now }
    {
        let mut sums = *self;
        match from {
            Account::User(_, _) => match to {
                Account::Network(_) => sums.cleared += amount as i64,
                Account::Programme(_) => sums.paid -= amount as i64,
                Account::User(_, _) | Account::Gateway(_) => {}
            },
            Account::Network(_) => match to {
                Account::User(_, _) => sums.refunded += amount as i64,
                Account::Network(_) | Account::Programme(_) | Account::Gateway(_) => {}
            },
            Account::Programme(_) => match to {
                Account::User(_, _) => sums.paid += amount as i64,
                Account::Network(_) | Account::Programme(_) | Account::Gateway(_) => {}
            },
            Account::Gateway(_) => {}
        }
        sums
    }

    /// Whether what was refunded, with this amount, passes what was cleared.
    pub(crate) fn passes_cleared(&self, amount: u64) -> bool
        ensures { result ≡ int_lt self.now.cleared (self.now.refunded +ℤ pos amount) }
    {
        i128::from(self.cleared) < i128::from(self.refunded) + i128::from(amount)
    }

    /// These sums of a transaction, with what it holds. A sum below 0 is given as 0.
    pub(crate) fn with_hold(self, hold: &Hold) -> TxnSums
        ensures { result ≡ sums_with hold.now self }
    {
        TxnSums {
            live: hold.live,
            g: hold.g,
            p: hold.p,
            s: hold.s,
            cleared: not_below(self.cleared),
            refunded: not_below(self.refunded),
            paid: not_below(self.paid),
        }
    }
}

/// A sum, or 0 if it is below 0.
fn not_below(sum: i64) -> u64
    ensures { result ≡ not_below sum }
{
    if sum < 0 { 0 } else { sum as u64 }
}
