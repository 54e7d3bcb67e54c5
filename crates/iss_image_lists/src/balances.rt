//! Accounts with their balances, written and read.
ghost use Rattle.std.specs.Prelude.{◌≡◌, ◌++◌, OnOk, IfOk};
ghost use Rattle.iss_codec.specs.Readers.{taken_field};
ghost use Rattle.iss_codec.specs.Places.{place_bytes, take_place};
ghost use Rattle.iss_image_lists.specs.Spelling.{account_bytes, balance_bytes, balances_bytes};
ghost use Rattle.iss_image_lists.specs.Taking.{take_user_account, take_account, take_balance, take_balances};
ghost use Rattle.iss_image_lists.specs.ByPlace.{ListTaken};

use crate::parts::{put_length, put_signed, take_signed};
use crate::things::{Takes, take_list};
use iss_codec::{Places, Reader, put_currency, put_place};
use iss_model::{Account, Saldo, Token};
use std::alloc::{AllocError, Global};

/// Appends accounts with their balances, after how many they are. Each token is its place.
pub fn put_balances<P: Places>(
    out: &mut Vec<u8>,
    balances: &[Saldo],
    places: &P,
) -> Result<(), AllocError>
    ensures spelled { OnOk result (out.new.items ≡ out.old.items ++ balances_bytes (place_bytes (P.tokens places.now)) balances.now) }
{
    put_length(out, balances.len())?;
    for balance in balances {
        put_balance(out, balance, places)?;
    }
    Ok(())
}

fn put_balance<P: Places>(out: &mut Vec<u8>, balance: &Saldo, places: &P) -> Result<(), AllocError>
    ensures { OnOk result (out.new.items ≡ out.old.items ++ balance_bytes (place_bytes (P.tokens places.now)) balance.now) }
{
    put_account(out, &balance.account, places)?;
    put_signed(out, balance.amount)
}

fn put_account<P: Places>(
    out: &mut Vec<u8>,
    account: &Account,
    places: &P,
) -> Result<(), AllocError>
    ensures { OnOk result (out.new.items ≡ out.old.items ++ account_bytes (place_bytes (P.tokens places.now)) account.now) }
{
    match account {
        Account::Gateway(currency) => {
            out.push(1)?;
            put_currency(out, *currency)
        }
        Account::Network(currency) => {
            out.push(2)?;
            put_currency(out, *currency)
        }
        Account::Programme(currency) => {
            out.push(3)?;
            put_currency(out, *currency)
        }
        Account::User(user, currency) => {
            out.push(4)?;
            put_place(out, user, places)?;
            put_currency(out, *currency)
        }
    }
}

/// The balances that come next, with tokens by their places among these. `None` if what comes next is no list of them.
pub fn take_balances(
    reader: &mut Reader<'_>,
    alloc: Global,
    tokens: &[Token],
) -> Result<Option<Vec<Saldo>>, AllocError>
    ensures read { IfOk result (ListTaken (take_balances (take_place tokens.now)) reader.old reader.new) }
{
    take_list(reader, alloc, &BalanceTaker { tokens })
}

/// Takes balances.
#[derive(Drop)]
struct BalanceTaker<'a> {
    tokens: &'a [Token],
}

impl Takes for BalanceTaker<'_> {
    type Thing = Saldo;

    ghost take_thing = { λ taker. take_balance (take_place taker.tokens.now) };

    #[tactic(auto, unfolding(crate::specs::Taking::take_balance))]
    fn take(&self, reader: &mut Reader<'_>) -> Option<Saldo> {
        Some(Saldo {
            account: take_account(reader, self.tokens)?,
            amount: take_signed(reader)?,
        })
    }
}

#[tactic(auto, unfolding(crate::specs::Taking::take_account, crate::specs::Taking::take_common_account, crate::specs::Taking::take_user_account))]
fn take_account(reader: &mut Reader<'_>, tokens: &[Token]) -> Option<Account>
    ensures { taken_field result reader.new.bytes.now ≡ take_account (take_place tokens.now) reader.old.bytes.now }
{
    match reader.take_byte()? {
        1 => Some(Account::Gateway(reader.take_currency()?)),
        2 => Some(Account::Network(reader.take_currency()?)),
        3 => Some(Account::Programme(reader.take_currency()?)),
        4 => take_user_account(reader, tokens),
        _ => None,
    }
}

#[tactic(auto, unfolding(crate::specs::Taking::take_user_account))]
fn take_user_account(reader: &mut Reader<'_>, tokens: &[Token]) -> Option<Account>
    ensures { taken_field result reader.new.bytes.now ≡ take_user_account (take_place tokens.now) reader.old.bytes.now }
{
    let user = reader.take_place(tokens)?;
    let currency = reader.take_currency()?;
    Some(Account::User(user, currency))
}
