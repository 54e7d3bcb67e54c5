//! What holds of the image of every state in image form: it has one image, which is read again.
ghost use Rattle.std.specs.Prelude.{◌≡◌, List, ℕ, Some, None, IsTrue};
ghost use Rattle.iss_model.specs.declared.state.State.{State};
ghost use Rattle.iss_model.specs.texts.Spelling.{AreBytes};
ghost use Rattle.iss_image.specs.States.{image_of_state, state_spelled, is_in_image_form, IsImageOf};

/// The image of a state is read as that state, and what is read as a state is its image.
#[tactic(auto, using(crate::proofs::StateFields::spelled_again, crate::proofs::StateFields::none_spelled))]
pub fn images_are_read_again()
    ensures again { (s : State) → IsTrue (is_in_image_form s) → state_spelled (image_of_state s) ≡ Some s }
    ensures back { (bytes : List ℕ) (s : State) → AreBytes bytes → state_spelled bytes ≡ Some s → IsImageOf s bytes }
    ensures none { (bytes : List ℕ) (s : State) → state_spelled bytes ≡ None → IsImageOf s bytes → ⊥ }
{}
