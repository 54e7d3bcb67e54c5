//! A control that stands, and what it counts of a row.
ghost use Rattle.std.specs.Prelude.{◌≡◌, ◌&&◌, ◌+ℤ◌, pos};
ghost use Rattle.std.specs.Str.{bytes_eq};
ghost use Rattle.iss_model.specs.rules.Controls.{is_associated, counts};
ghost use Rattle.iss_model.specs.rules.Reasons.{is_same_control};
ghost use Rattle.iss_model.specs.Inputs.{association_contents, scope_contents};
ghost use Rattle.iss_model.specs.rules.Asks.{passes};
ghost use Rattle.iss_velocity.specs.Counting.{put_of, passes_with};
ghost use Rattle.iss_velocity.specs.Puts.{is_fixed_as, standing_after_change};

use iss_model::{Association, Control, Numbered, Scope, Token, UsageRow, Used};
use iss_scope::{Groups, covers};

/// A control as it stands, and the number of its first record.
#[derive(Clone, Copy)]
pub(crate) struct Standing {
    pub(crate) first: u32,
    pub(crate) control: Control,
}

/// The most that is allowed: an amount in minor units, and a number of uses.
#[derive(Clone, Copy)]
pub(crate) struct Limits {
    pub(crate) amount: Option<u64>,
    pub(crate) usage: Option<u32>,
}

/// What changes of a control: its limits, its activity, or both.
#[derive(Clone, Copy)]
pub(crate) struct Change {
    pub(crate) limits: Option<Limits>,
    pub(crate) active: Option<bool>,
}

impl Standing {
    /// Whether it counts a row: one of a later transaction, in its currency, of its user or product, at a merchant of its scope.
    pub(crate) fn counts(&self, groups: &Groups, row: &UsageRow) -> bool
        ensures { result ≡ counts groups.now (put_of self.now) row.now }
    {
        self.first < row.origin
            && self.control.currency.number() == row.currency.number()
            && is_associated(&self.control.association, &row.user, &row.product)
            && covers(groups, &self.control.scope, row.mcc, &row.mid)
    }

    /// Whether it is active and counts a row.
    pub(crate) fn may_decline(&self, groups: &Groups, row: &UsageRow) -> bool
        ensures { result ≡ (self.now.control.active && counts groups.now (put_of self.now) row.now) }
    {
        self.control.active && self.counts(groups, row)
    }

    /// Whether what was counted and a row pass a limit: that of its amount, or for an authorisation that of its usage.
    pub(crate) fn is_over(&self, used: Option<Used>, row: &UsageRow, first: bool) -> bool
        ensures { result ≡ passes_with self.now.control used row.now first }
    {
        let used = used.unwrap_or(Used {
            amount: 0,
            count: 0,
        });
        passes(self.control.amount_limit, amount_with(&used, row))
            || first
                && passes(
                    self.control.usage_limit.map(u64::from),
                    count_with_one(&used),
                )
    }

    /// The control after a change of the one of a name.
    pub(crate) fn after(&self, name: &Token, change: &Change) -> Standing
        ensures { result ≡ standing_after_change name.now change.now self.now }
    {
        let mut after = *self;
        if *name == self.control.name {
            if let Some(limits) = change.limits {
                after.control.amount_limit = limits.amount;
                after.control.usage_limit = limits.usage;
            }
            if let Some(active) = change.active {
                after.control.active = active;
            }
        }
        after
    }

    /// Whether another control has all that may not change of this one.
    pub(crate) fn is_fixed_as(&self, other: &Control) -> bool
        ensures { result ≡ is_fixed_as self.now.control other.now }
    {
        is_same_control(&self.control, other)
    }
}

/// Whether two controls are the same in what may not change: the currency, the window, the association, the scope and the offset.
pub fn is_same_control(standing: &Control, put: &Control) -> bool
    ensures { result ≡ is_fixed_as standing.now put.now }
{
    standing.currency.number() == put.currency.number()
        && standing.window.number() == put.window.number()
        && is_same_association(&standing.association, &put.association)
        && is_same_scope(&standing.scope, &put.scope)
        && standing.offset == put.offset
}

fn is_associated(association: &Association, user: &Token, product: &Token) -> bool
    ensures { result ≡ is_associated association.now user.now product.now }
{
    match association {
        Association::Anybody => true,
        Association::User(name) => name == user,
        Association::Product(name) => name == product,
    }
}

/// What was counted with the amount of a row.
fn amount_with(used: &Used, row: &UsageRow) -> i128
    ensures { result ≡ row.now.amount +ℤ used.now.amount }
{
    i128::from(row.amount) + i128::from(used.amount)
}

/// How often was counted, with once more.
fn count_with_one(used: &Used) -> i128
    ensures { result ≡ used.now.count +ℤ pos 1 }
{
    i128::from(used.count) + 1
}

/// Whether a sum is above a limit, if there is one.
fn passes(limit: Option<u64>, sum: i128) -> bool
    ensures { result ≡ passes limit sum }
{
    match limit {
        None => false,
        Some(limit) => i128::from(limit) < sum,
    }
}

#[tactic(auto, using(crate::proofs::SameFields::association_is))]
fn is_same_association(a: &Association, b: &Association) -> bool
    ensures { result ≡ bytes_eq (association_contents a.now) (association_contents b.now) }
{
    a == b
}

#[tactic(auto, using(crate::proofs::SameFields::scope_is))]
fn is_same_scope(a: &Scope, b: &Scope) -> bool
    ensures { result ≡ bytes_eq (scope_contents a.now) (scope_contents b.now) }
{
    a == b
}
