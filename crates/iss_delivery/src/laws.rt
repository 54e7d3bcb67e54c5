//! What is sent is read as it was meant.
ghost use Rattle.std.specs.Prelude.{ℕ, List};
ghost use Rattle.iss_exchange_laws.specs.declared.moves.Move.{Move};
ghost use Rattle.iss_exchange_laws.specs.Exchanges.{Exchange};
ghost use Rattle.iss_exchange_laws.specs.Statements.{LeadTo};
ghost use Rattle.iss_delivery.specs.Delivering.{AllAreRead, AllAreSendable};

/// After every list of moves, each text that was sent is read as its message. A notice is read as none if its amount or
/// gateway part is over what a limit may be.
pub fn what_is_sent_is_read()
    ensures sendable { (instance : ℕ) (ms : List Move) (x : Exchange) → LeadTo instance ms x → AllAreSendable x.sent }
    ensures read { (instance : ℕ) (ms : List Move) (x : Exchange) → LeadTo instance ms x → AllAreRead instance x.sent }
{}
