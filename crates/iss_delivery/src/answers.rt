//! What a gateway gives, as the processor's input.
ghost use Rattle.std.specs.Prelude.{◌≡◌};
ghost use Rattle.iss_exchange_laws.specs.declared.moves.Sent.TheVariants.{Request};
ghost use Rattle.iss_exchange_laws.specs.Exchanges.{is_gateways};
ghost use Rattle.iss_exchange_laws.specs.Messages.{funded_answer, input_given};

use iss_exchange_laws::Sent;
use iss_gateway::Given;
use iss_model::{Input, Opened, Outcome};

/// What was given for what was sent, as the processor's input. `None` if it answers nothing of that kind.
pub fn input_given(what: &Sent, given: Given) -> Option<Input>
    ensures { result ≡ input_given what.now given }
{
    match what {
        Sent::Request(opened) => answer_given(opened, given),
        Sent::Notice(notice) => match given {
            Given::Acked => Some(Input::Ack {
                notice: notice.number,
            }),
            Given::Funded(_) | Given::Refused => None,
        },
    }
}

/// What was given for a call, as its answer.
fn answer_given(opened: &Opened, given: Given) -> Option<Input>
    ensures { result ≡ input_given (Request opened.now) given }
{
    match given {
        Given::Funded(amount) => Some(funded_answer(opened, amount)),
        Given::Refused => Some(Input::Answer {
            call: opened.call,
            outcome: Outcome::Refused,
        }),
        Given::Acked => None,
    }
}

/// The answer to a call that was funded this much, in minor units: all of its amount, or a part.
fn funded_answer(opened: &Opened, amount: u64) -> Input
    ensures { result ≡ funded_answer opened.now amount }
{
    if amount == opened.amount {
        return Input::Answer {
            call: opened.call,
            outcome: Outcome::Funded,
        };
    }
    Input::Answer {
        call: opened.call,
        outcome: Outcome::Partial(opened.currency, amount),
    }
}

/// Whether only the gateway's word makes an input: that it funded a call, a part of one or none, or acted on a notice.
pub fn is_gateways(input: &Input) -> bool
    ensures { result ≡ is_gateways input.now }
{
    match input {
        Input::Answer { outcome, .. } => match outcome {
            Outcome::Funded | Outcome::Refused | Outcome::Partial(_, _) => true,
            Outcome::Connection | Outcome::Application => false,
        },
        Input::Ack { .. } => true,
        _ => false,
    }
}
