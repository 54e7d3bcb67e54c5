//! What holds of what is read, of what is told, and of the reference gateway over every list of messages.
ghost use Rattle.std.specs.Prelude.{ℕ, List};
ghost use Rattle.iss_model.specs.declared.call.Notice.{Notice};
ghost use Rattle.iss_model.specs.declared.call.Opened.{Opened};
ghost use Rattle.iss_gateway.specs.declared.message.Message.{Message};
ghost use Rattle.iss_gateway.specs.Laws.{IsCall, IsNotice, NoticeIsRead, RequestIsRead, IsToldAsGiven, Wished, IsHonestAt, IsHonestOver};

/// The text of a request is read as its message. So is that of a notice, unless a part of it is over 10^12 minor units; then
/// it is read as no message.
pub fn messages_are_read()
    ensures requests { (instance : ℕ) → (o : Opened) → IsCall o → RequestIsRead instance o }
    ensures notices { (instance : ℕ) → (n : Notice) → IsNotice n → NoticeIsRead instance n }
{}

/// What the gateway gives for a call's request comes to the same at the issuer, which reads its status and its body.
pub fn answers_are_read()
    ensures { (instance : ℕ) → (o : Opened) → IsToldAsGiven instance o }
{}

/// Over every list of messages a gateway with these books is honest, however much it would fund for each.
pub fn gateways_are_honest()
    ensures { (messages : List Wished) → IsHonestAt messages }
{}

/// Over every list of messages the reference gateway is honest.
///
/// It gives one answer for each token, none that funds a token that was voided, and its total is what it has funded and not
/// undone, less the gateway parts of the notices that acted.
pub fn reference_gateway_is_honest()
    ensures { (most : ℕ) → (limit : ℕ) → (messages : List Message) → IsHonestOver most limit messages }
{}
