//! What users have, each by user and currency.
ghost use Rattle.std.specs.Prelude.{◌≡◌, ℕ, FitsSigned, true, ◌+ℤ◌, ◌-ℤ◌, List, Some, IsSome, IfSome, OnOk};
ghost use Rattle.std.specs.Int.{w64};
ghost use Rattle.std.specs.BTreeMap as tree;
ghost use Rattle.iss_model.specs.declared.currency.Currency.{Currency};
ghost use Rattle.iss_model.specs.Currencies.{iso_number};
ghost use Rattle.iss_model.specs.Forms.{is_limit};
ghost use Rattle.iss_gateway.specs.Tables.{AreSmall, StandsFor, by_user, sum_in, sum_with, is_low, undone_at, back_at};

use crate::books::{Note, Promise};
use iss_model::{Currency, Token};
use std::alloc::AllocError;
use std::collections::BTreeMap;

/// A user and the number of a currency.
pub(crate) fn user_key(user: &Token, currency: Currency) -> (Token, u16)
    ensures { result ≡ (user.now, iso_number currency) }
{
    (*user, currency.number())
}

/// A user's sum in a currency: 0 if none was begun.
pub(crate) fn sum_of(sums: &BTreeMap<(Token, u16), i64>, key: &(Token, u16)) -> i64
    ensures { result ≡ sum_in sums.now key.now }
{
    sums.get(key).copied().unwrap_or(0)
}

/// Makes room for a sum, which begins with 0. No sum changes.
pub(crate) fn begin_sum(
    sums: &mut BTreeMap<(Token, u16), i64>,
    key: (Token, u16),
) -> Result<(), AllocError>
    ensures same { (k : List ℕ × ℕ) → sum_in sums.new k ≡ sum_in sums.old k }
    ensures stay { (k : List ℕ × ℕ) → IsSome (tree.get by_user sums.old k) → IsSome (tree.get by_user sums.new k) }
    ensures stands { OnOk result (IsSome (tree.get by_user sums.new key)) }
{
    if !sums.contains_key(&key) {
        sums.insert(key, 0)?;
    }
    Ok(())
}

/// Writes a sum that was begun.
fn set_sum(sums: &mut BTreeMap<(Token, u16), i64>, key: &(Token, u16), sum: i64)
    requires { IsSome (tree.get by_user sums.old key.now) }
    ensures { tree.Updates by_user sums.old sums.new key.now (Some sum) }
{
    if let Some(place) = sums.get_mut(key) {
        *place = sum;
    }
}

/// Adds to a sum that was begun.
pub(crate) fn add(sums: &mut BTreeMap<(Token, u16), i64>, key: &(Token, u16), amount: i64)
    requires stands { IsSome (tree.get by_user sums.old key.now) }
    requires fits { FitsSigned w64 (sum_in sums.old key.now +ℤ amount) }
    ensures added { (k : List ℕ × ℕ) → sum_in sums.new k ≡ sum_with key.now amount k (sum_in sums.old k) }
    ensures stay { (k : List ℕ × ℕ) → IsSome (tree.get by_user sums.old k) → IsSome (tree.get by_user sums.new k) }
{
    let sum = sum_of(sums, key) + amount;
    set_sum(sums, key, sum);
}

/// Makes room for the sums that a note changes, with the promise that it undoes. No sum changes.
pub(crate) fn begin_note(
    sums: &mut BTreeMap<(Token, u16), i64>,
    note: &Note,
    undone: &Option<Promise>,
) -> Result<(), AllocError>
    ensures same { (k : List ℕ × ℕ) → sum_in sums.new k ≡ sum_in sums.old k }
    ensures note { OnOk result (IsSome (tree.get by_user sums.new (note.now.user, iso_number note.now.currency))) }
    ensures undone { OnOk result (IfSome undone.now (StandsFor sums.new)) }
{
    begin_undone(sums, undone)?;
    begin_sum(sums, user_key(&note.user, note.currency))
}

fn begin_undone(
    sums: &mut BTreeMap<(Token, u16), i64>,
    undone: &Option<Promise>,
) -> Result<(), AllocError>
    ensures same { (k : List ℕ × ℕ) → sum_in sums.new k ≡ sum_in sums.old k }
    ensures stands { OnOk result (IfSome undone.now (StandsFor sums.new)) }
{
    match undone {
        Some(promise) => begin_sum(sums, user_key(&promise.user, promise.currency)),
        None => Ok(()),
    }
}

/// Takes off what a user had by a promise that is undone, if there is one.
pub(crate) fn take_undone(sums: &mut BTreeMap<(Token, u16), i64>, undone: &Option<Promise>)
    requires stands { IfSome undone.now (StandsFor sums.old) }
    requires low { IfSome undone.now (λ p. is_low p.funded ≡ true) }
    requires small { AreSmall 1000000000000000000 sums.old }
    ensures taken { (user : List ℕ) → (c : Currency) → sum_in sums.new (user, iso_number c) ≡ sum_in sums.old (user, iso_number c) -ℤ undone_at undone.now user c }
    ensures stay { (k : List ℕ × ℕ) → IsSome (tree.get by_user sums.old k) → IsSome (tree.get by_user sums.new k) }
{
    if let Some(promise) = undone {
        let user = user_key(&promise.user, promise.currency);
        add(sums, &user, -promise.amount());
    }
}

/// Takes off what a note gives back.
pub(crate) fn take_back(sums: &mut BTreeMap<(Token, u16), i64>, note: &Note)
    requires stands { IsSome (tree.get by_user sums.old (note.now.user, iso_number note.now.currency)) }
    requires low { is_limit note.now.gateway ≡ true }
    requires small { AreSmall 2000000000000000000 sums.old }
    ensures { (user : List ℕ) → (c : Currency) → sum_in sums.new (user, iso_number c) ≡ sum_in sums.old (user, iso_number c) -ℤ back_at note.now user c }
{
    let user = user_key(&note.user, note.currency);
    add(sums, &user, -(note.gateway as i64));
}
