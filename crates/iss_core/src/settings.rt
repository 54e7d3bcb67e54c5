//! The entries of settings and loads.
ghost use Rattle.std.specs.Prelude.{[], ◌∷◌, OnOk, IsTrue};
ghost use Rattle.iss_model.specs.Forms.{is_amount};
ghost use Rattle.iss_model.specs.rules.Acts.{Sets};
ghost use Rattle.iss_model.specs.rules.Stepping.{acts_unless};
ghost use Rattle.iss_core.specs.States.{facts_of};
ghost use Rattle.iss_core.specs.Settings.{load_acts};
ghost use Rattle.iss_core.specs.Adding.{AddsActs};

use crate::pieces::{put_decided, put_declined};
use crate::state::State;
use iss_model::{Account, Currency, Entry, Input, Reason, Token, Verdict};
use std::alloc::AllocError;

/// A setting is declined with a reason, or takes effect and is done.
#[tactic(auto, using(iss_model::proofs::Copies::copy_is))]
pub(crate) fn put_setting(
    out: &mut Vec<Entry>,
    why: Option<Reason>,
    token: &Token,
    input: &Input,
) -> Result<(), AllocError>
    ensures { OnOk result (AddsActs out.old out.new (acts_unless why token.now (Sets input.now token.now ∷ []))) }
{
    match why {
        Some(why) => put_declined(out, token, why),
        None => {
            out.push(Entry::Conf(input.clone()?))?;
            put_decided(out, token, Verdict::Done)
        }
    }
}

impl State {
    /// Money comes in for a user from the programme, or the load is declined.
    pub(crate) fn put_load(
        &self,
        out: &mut Vec<Entry>,
        token: &Token,
        user: &Token,
        currency: Currency,
        amount: u64,
    ) -> Result<(), AllocError>
        ensures { OnOk result (AddsActs out.old out.new (load_acts (facts_of self.now) token.now user.now currency amount)) }
    {
        if let Some(why) = self.load_reason(user) {
            return put_declined(out, token, why);
        }
        out.push(Entry::Post {
            from: Account::Programme(currency),
            to: Account::User(*user, currency),
            amount,
            txn: None,
        })?;
        put_decided(out, token, Verdict::Done)
    }
}
