//! What a step leaves of calls.
ghost use Rattle.std.specs.Prelude.{◌≡◌, ℕ, true, false};
ghost use Rattle.std.specs.List.{list_all};
ghost use Rattle.iss_model.specs.declared.input.Record.{Record};
ghost use Rattle.iss_model.specs.rules.Facts.{Facts};
ghost use Rattle.iss_model.specs.state.Cores.{CoreState, no_core};
ghost use Rattle.iss_agreement.specs.Stepped.{core_after, core_entries};
ghost use Rattle.iss_state.specs.Sound.{IfNewInForm};
ghost use Rattle.iss_state.specs.Pending.{IfNewAndWell, IsWell};
ghost use Rattle.iss_laws.specs.CallEntries.{may_open, names_what_it_voids};
ghost use Rattle.iss_laws.specs.StepCalls.{ArePaid, IsClosedAsOpened, IsVoidedAsClosed, OpensNone};
ghost use Rattle.iss_laws.specs.Payable.{ArePayable, CallsStand};

/// The entries of a step close the call of a number as often as it was asked or is opened there, and isn't asked then. They void it as
/// often as they close it as failed or abandoned, and a notice names a call exactly if its method is void.
pub fn calls_are_closed_once()
    ensures counted { (s : CoreState) (r : Record) (n : ℕ) → IfNewAndWell s r (IsClosedAsOpened s r n) }
    ensures voided { (s : CoreState) (r : Record) (n : ℕ) → IfNewAndWell s r (IsVoidedAsClosed s r n) }
    ensures named { (s : CoreState) (r : Record) → IfNewAndWell s r (list_all names_what_it_voids (core_entries s r) ≡ true) }
{}

/// Only an authorisation or an increment opens a call: no other input does, nor anything that falls due before one.
pub fn only_purchases_open_calls()
    ensures { (s : CoreState) (r : Record) → may_open r.input ≡ false → IfNewAndWell s r (OpensNone s r) }
{}

/// A step with an input in form leaves each call as it was opened. Each call asks for an amount, with a transaction that
/// stands and is of its user and currency. So it is without a record.
pub fn calls_stay_payable()
    ensures begins { ArePayable no_core }
    ensures steps { (s : CoreState) (r : Record) → IfNewInForm s r (IsWell s → ArePayable s → ArePayable (core_after s r)) }
    ensures lasting { (s : CoreState) (r : Record) → IfNewInForm s r (IsWell s → CallsStand s.calls (core_after s r).calls) }
{}

/// Each closing in a step's entries that funds a call or a part of it has its post, by the facts of any later time. No
/// other post comes from the gateway.
pub fn funded_calls_are_paid()
    ensures { (f : Facts) (number : ℕ) (s : CoreState) (r : Record)
        → IfNewInForm s r (IsWell s → ArePaid f number s r) }
{}
