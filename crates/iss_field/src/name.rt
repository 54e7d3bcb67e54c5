//! The names of a line's fields.
ghost use Rattle.std.specs.Prelude.{◌≡◌, IsTrue};
ghost use Rattle.iss_field.specs.Names.{name_text};
ghost use Rattle.iss_field.specs.Plain.{is_plain};

/// A field of a line.
#[derive(Clone, Copy, Debug, PartialEq, Eq)]
pub enum Name {
    /// `type`.
    Kind,
    At,
    Token,
    User,
    Card,
    Product,
    Active,
    To,
    Currency,
    Funding,
    TimeoutMs,
    HoldMs,
    Group,
    Mccs,
    Control,
    Window,
    AmountLimit,
    UsageLimit,
    Mcc,
    Mid,
    Partial,
    UtcOffset,
    Set,
    Connection,
    Timeout,
    Application,
    Max,
    DayLimit,
    On,
    Amount,
    Txn,
    /// `final`.
    Last,
    Call,
    Outcome,
    Notice,
}

impl Name {
    /// The name as a line spells it, of which JSON escapes nothing.
    #[tactic(auto, unfolding(crate::specs::Names::name_text))]
    pub fn text(self) -> &'static str
        ensures value { result.now ≡ name_text self }
        ensures plain { IsTrue (is_plain result.now) }
    {
        match self {
            Name::Kind => "type",
            Name::At => "at",
            Name::Token => "token",
            Name::User => "user",
            Name::Card => "card",
            Name::Product => "product",
            Name::Active => "active",
            Name::To => "to",
            Name::Currency => "currency",
            Name::Funding => "funding",
            Name::TimeoutMs => "timeout_ms",
            Name::HoldMs => "hold_ms",
            Name::Group => "group",
            Name::Mccs => "mccs",
            Name::Control => "control",
            Name::Window => "window",
            Name::AmountLimit => "amount_limit",
            Name::UsageLimit => "usage_limit",
            Name::Mcc => "mcc",
            Name::Mid => "mid",
            Name::Partial => "partial",
            Name::UtcOffset => "utc_offset",
            Name::Set => "set",
            Name::Connection => "connection",
            Name::Timeout => "timeout",
            Name::Application => "application",
            Name::Max => "max",
            Name::DayLimit => "day_limit",
            Name::On => "on",
            Name::Amount => "amount",
            Name::Txn => "txn",
            Name::Last => "final",
            Name::Call => "call",
            Name::Outcome => "outcome",
            Name::Notice => "notice",
        }
    }
}
