//! The types of line.
ghost use Rattle.std.specs.Prelude.{◌≡◌};
ghost use Rattle.iss_event.specs.Kinds.{kind_of, kind_of_text, kind_in};

use crate::Mode;
use iss_field::{Form, Value, text};

/// What a line is about, by its field `type`.
#[derive(Clone, Copy, Debug, PartialEq, Eq)]
pub(crate) enum Kind {
    User,
    Card,
    Move,
    Product,
    Group,
    Control,
    Set,
    Switch,
    Load,
    Authorization,
    Increment,
    Reversal,
    Clearing,
    Refund,
    Answer,
    Ack,
    Time,
}

/// A type that lines of that mode may have.
#[derive(Clone, Copy)]
pub(crate) struct KindForm(pub(crate) Mode);

impl Form for KindForm {
    type Said = Kind;

    ghost said = { λ form. kind_of form.0 };

    #[tactic(auto, unfolding(crate::specs::Kinds::kind_of))]
    fn read(self, found: &Value<'_>) -> Option<Kind> {
        kind_in(self.0, kind_of_text(text(found)?)?)
    }
}

/// The kind that a text names. Those that come most often are looked for first.
#[tactic(auto, unfolding(crate::specs::Kinds::kind_of_text))]
pub(crate) fn kind_of_text(text: &str) -> Option<Kind>
    ensures { result ≡ kind_of_text text.now }
{
    match text {
        "authorization" => Some(Kind::Authorization),
        "answer" => Some(Kind::Answer),
        "clearing" => Some(Kind::Clearing),
        "increment" => Some(Kind::Increment),
        "reversal" => Some(Kind::Reversal),
        "load" => Some(Kind::Load),
        "refund" => Some(Kind::Refund),
        "ack" => Some(Kind::Ack),
        "time" => Some(Kind::Time),
        "user" => Some(Kind::User),
        "card" => Some(Kind::Card),
        "move" => Some(Kind::Move),
        "product" => Some(Kind::Product),
        "group" => Some(Kind::Group),
        "control" => Some(Kind::Control),
        "set" => Some(Kind::Set),
        "switch" => Some(Kind::Switch),
        _ => None,
    }
}

/// The kind, if a line of that mode may be of it.
pub(crate) fn kind_in(mode: Mode, kind: Kind) -> Option<Kind>
    ensures { result ≡ kind_in mode kind }
{
    match (mode, kind) {
        (Mode::Client, Kind::Answer | Kind::Ack | Kind::Time) => None,
        _ => Some(kind),
    }
}
