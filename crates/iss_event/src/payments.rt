//! The fields of each type of line about money, in order. For a bad field, its name is returned.
ghost use Rattle.std.specs.Prelude.{◌≡◌};
ghost use Rattle.iss_field.specs.Seen.{seen};
ghost use Rattle.iss_event.specs.Inputs.{load_input, authorization_input, operation_said, increment_input, reversal_input, clearing_input, refund_input};

use iss_field::{AmountForm, CurrencyForm, FlagForm, MccForm, Name, Object, TokenForm};
use iss_model::{Currency, Input, Token};

/// What every operation on a transaction has.
pub(crate) struct Operation {
    token: Token,
    txn: Token,
    currency: Currency,
    amount: u64,
}

#[tactic(auto, unfolding(crate::specs::Inputs::load_input))]
pub(crate) fn load_input(line: &Object<'_>) -> Result<Input, Name>
    ensures { result ≡ load_input (seen line.now.value) }
{
    let token = line.required(Name::Token, TokenForm)?;
    let user = line.required(Name::User, TokenForm)?;
    let currency = line.required(Name::Currency, CurrencyForm)?;
    let amount = line.required(Name::Amount, AmountForm(currency))?;
    Ok(Input::Load {
        token,
        user,
        currency,
        amount,
    })
}

#[tactic(auto, unfolding(crate::specs::Inputs::authorization_input))]
pub(crate) fn authorization_input(line: &Object<'_>) -> Result<Input, Name>
    ensures { result ≡ authorization_input (seen line.now.value) }
{
    let token = line.required(Name::Token, TokenForm)?;
    let card = line.required(Name::Card, TokenForm)?;
    let currency = line.required(Name::Currency, CurrencyForm)?;
    let amount = line.required(Name::Amount, AmountForm(currency))?;
    let mcc = line.required(Name::Mcc, MccForm)?;
    let mid = line.required(Name::Mid, TokenForm)?;
    let partial = line.optional_or(Name::Partial, FlagForm, false)?;
    Ok(Input::Authorization {
        token,
        card,
        currency,
        amount,
        mcc,
        mid,
        partial,
    })
}

#[tactic(auto, unfolding(crate::specs::Inputs::operation_said))]
fn operation_said(line: &Object<'_>) -> Result<Operation, Name>
    ensures { result ≡ operation_said (seen line.now.value) }
{
    let token = line.required(Name::Token, TokenForm)?;
    let txn = line.required(Name::Txn, TokenForm)?;
    let currency = line.required(Name::Currency, CurrencyForm)?;
    let amount = line.required(Name::Amount, AmountForm(currency))?;
    Ok(Operation {
        token,
        txn,
        currency,
        amount,
    })
}

#[tactic(auto, unfolding(crate::specs::Inputs::increment_input))]
pub(crate) fn increment_input(line: &Object<'_>) -> Result<Input, Name>
    ensures { result ≡ increment_input (seen line.now.value) }
{
    let Operation {
        token,
        txn,
        currency,
        amount,
    } = operation_said(line)?;
    Ok(Input::Increment {
        token,
        txn,
        currency,
        amount,
    })
}

#[tactic(auto, unfolding(crate::specs::Inputs::reversal_input))]
pub(crate) fn reversal_input(line: &Object<'_>) -> Result<Input, Name>
    ensures { result ≡ reversal_input (seen line.now.value) }
{
    let Operation {
        token,
        txn,
        currency,
        amount,
    } = operation_said(line)?;
    Ok(Input::Reversal {
        token,
        txn,
        currency,
        amount,
    })
}

#[tactic(auto, unfolding(crate::specs::Inputs::clearing_input))]
pub(crate) fn clearing_input(line: &Object<'_>) -> Result<Input, Name>
    ensures { result ≡ clearing_input (seen line.now.value) }
{
    let Operation {
        token,
        txn,
        currency,
        amount,
    } = operation_said(line)?;
    let last = line.optional_or(Name::Last, FlagForm, false)?;
    Ok(Input::Clearing {
        token,
        txn,
        currency,
        amount,
        last,
    })
}

#[tactic(auto, unfolding(crate::specs::Inputs::refund_input))]
pub(crate) fn refund_input(line: &Object<'_>) -> Result<Input, Name>
    ensures { result ≡ refund_input (seen line.now.value) }
{
    let Operation {
        token,
        txn,
        currency,
        amount,
    } = operation_said(line)?;
    Ok(Input::Refund {
        token,
        txn,
        currency,
        amount,
    })
}
