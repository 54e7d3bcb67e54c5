//! What holds of equal contents and equal spellings.
ghost use Rattle.std.specs.Prelude.{◌≡◌, ◌↔◌, IsTrue};
ghost use Rattle.iss_model.specs.declared.input.Input.{Input};
ghost use Rattle.iss_model.specs.Inputs.{same_contents};
ghost use Rattle.iss_codec.specs.Meanings.{HaveSpellings, AreSpelledAlike};

/// Two inputs have the same contents exactly if they are equal. If both are in form, they are equal exactly if they are spelled
/// alike.
#[tactic(auto, using(crate::proofs::EqualInputs::same_exactly, crate::proofs::EqualInputs::same_alike))]
pub fn contents_are_their_spelling()
    ensures equal { (a b : Input) → IsTrue (same_contents a b) ↔ (a ≡ b) }
    ensures alike { (a b : Input) → HaveSpellings a b → IsTrue (same_contents a b) ↔ AreSpelledAlike a b }
{}
