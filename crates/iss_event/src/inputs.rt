//! The input of a line of each type.
ghost use Rattle.std.specs.Prelude.{◌≡◌, IfOk};
ghost use Rattle.iss_field.specs.Seen.{seen};
ghost use Rattle.iss_event.specs.Inputs.{part_said, outcome_said, answer_input, ack_input, input_of_kind};

use crate::kind::Kind;
use crate::payments::{
    authorization_input, clearing_input, increment_input, load_input, refund_input, reversal_input,
};
use crate::settings::{
    card_input, control_input, group_input, move_input, product_input, set_input, switch_input,
    user_input,
};
use iss_field::{AmountForm, CurrencyForm, Name, NumberForm, Object, OutcomeForm, OutcomeWord};
use iss_model::limits::{FIRST_NUMBER, GREATEST_NUMBER};
use iss_model::{CallId, Input, Outcome};
use std::alloc::{AllocError, Global};

/// The numbers of calls and notices.
const NUMBERS: NumberForm = NumberForm(FIRST_NUMBER, GREATEST_NUMBER);

/// The input of a line of that kind, or the name of its first bad field.
pub(crate) fn input_of_kind(
    alloc: Global,
    kind: Kind,
    line: &Object<'_>,
) -> Result<Result<Input, Name>, AllocError>
    ensures { IfOk result (λ said. said ≡ input_of_kind kind (seen line.now.value)) }
{
    Ok(match kind {
        Kind::User => user_input(line),
        Kind::Card => card_input(line),
        Kind::Move => move_input(line),
        Kind::Product => product_input(line),
        Kind::Group => group_input(alloc, line)?,
        Kind::Control => control_input(line),
        Kind::Set => set_input(line),
        Kind::Switch => switch_input(line),
        Kind::Load => load_input(line),
        Kind::Authorization => authorization_input(line),
        Kind::Increment => increment_input(line),
        Kind::Reversal => reversal_input(line),
        Kind::Clearing => clearing_input(line),
        Kind::Refund => refund_input(line),
        Kind::Answer => answer_input(line),
        Kind::Ack => ack_input(line),
        Kind::Time => Ok(Input::Time),
    })
}

#[tactic(auto, unfolding(crate::specs::Inputs::answer_input))]
fn answer_input(line: &Object<'_>) -> Result<Input, Name>
    ensures { result ≡ answer_input (seen line.now.value) }
{
    let call = CallId(line.required(Name::Call, NUMBERS)?);
    let word = line.required(Name::Outcome, OutcomeForm)?;
    let outcome = outcome_said(word, line)?;
    Ok(Input::Answer { call, outcome })
}

/// The outcome of this word. Only a part has a currency and an amount.
fn outcome_said(word: OutcomeWord, line: &Object<'_>) -> Result<Outcome, Name>
    ensures { result ≡ outcome_said word (seen line.now.value) }
{
    match word {
        OutcomeWord::Funded => Ok(Outcome::Funded),
        OutcomeWord::Refused => Ok(Outcome::Refused),
        OutcomeWord::Connection => Ok(Outcome::Connection),
        OutcomeWord::Application => Ok(Outcome::Application),
        OutcomeWord::Partial => part_said(line),
    }
}

#[tactic(auto, unfolding(crate::specs::Inputs::part_said))]
fn part_said(line: &Object<'_>) -> Result<Outcome, Name>
    ensures { result ≡ part_said (seen line.now.value) }
{
    let currency = line.required(Name::Currency, CurrencyForm)?;
    let amount = line.required(Name::Amount, AmountForm(currency))?;
    Ok(Outcome::Partial(currency, amount))
}

#[tactic(auto, unfolding(crate::specs::Inputs::ack_input))]
fn ack_input(line: &Object<'_>) -> Result<Input, Name>
    ensures { result ≡ ack_input (seen line.now.value) }
{
    let notice = line.required(Name::Notice, NUMBERS)?;
    Ok(Input::Ack { notice })
}
