//! The acts of an input, and of what is due, are a row.
ghost use Rattle.std.specs.Prelude.{ℕ};
ghost use Rattle.iss_model.specs.declared.input.Input.{Input};
ghost use Rattle.iss_model.specs.rules.Due.{DueThing, thing_acts};
ghost use Rattle.iss_model.specs.rules.Facts.{Facts};
ghost use Rattle.iss_model.specs.rules.Stepping.{acts_of};
ghost use Rattle.iss_acts.specs.Causes.{ComesOf, FallsDue};
ghost use Rattle.iss_acts.specs.Sources.{IsRow};

/// Whatever the facts, the acts of a due thing and those of an input are a row. Each has a cause that may act so. It is
/// made of what stands in the facts, at its stage of the row.
pub fn acts_have_causes()
    ensures due { (f : Facts) → (thing : DueThing) → (at : ℕ) → IsRow f FallsDue at (thing_acts thing at f) }
    ensures own { (f : Facts) → (i : Input) → (at : ℕ) → IsRow f (ComesOf i) at (acts_of i at f) }
{}
