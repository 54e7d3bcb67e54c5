//! What the gateway has funded, and what the processor owes it.
ghost use Rattle.std.specs.Prelude.{ℕ, List};
ghost use Rattle.iss_exchange_laws.specs.declared.moves.Move.{Move};
ghost use Rattle.iss_exchange_laws.specs.Exchanges.{Exchange};
ghost use Rattle.iss_exchange_laws.specs.Statements.{BothReconcile, EvenIfSettled, LeadTo, exchange_after};

/// After every list of moves with an honest gateway, whatever it gives, its total and the balance of its account add up to
/// the gap between the two sides. So if no call is asked and every notice is acknowledged, its total is minus that balance.
pub fn both_sides_reconcile()
    ensures honest { (instance : ℕ) (ms : List Move) (x : Exchange) → LeadTo instance ms x → BothReconcile instance x }
    ensures settled { (instance : ℕ) (ms : List Move) (x : Exchange) → LeadTo instance ms x → EvenIfSettled instance x }
{}

/// So it is with the reference gateway, which is honest.
pub fn reference_gateway_reconciles()
    ensures led { (instance most limit : ℕ) (ms : List Move) → LeadTo instance ms (exchange_after instance most limit ms) }
    ensures reconciles { (instance most limit : ℕ) (ms : List Move) → BothReconcile instance (exchange_after instance most limit ms) }
    ensures settled { (instance most limit : ℕ) (ms : List Move) → EvenIfSettled instance (exchange_after instance most limit ms) }
{}
