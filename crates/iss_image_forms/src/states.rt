//! Sound states and their images.
ghost use Rattle.std.specs.Prelude.{IsTrue};
ghost use Rattle.iss_model.specs.declared.state.State.{State};
ghost use Rattle.iss_sound.specs.Sound.{IsSoundState};
ghost use Rattle.iss_image.specs.States.{is_in_image_form};
ghost use Rattle.iss_image_forms.specs.Spans.{are_spans_of_64_bits};

/// Each sound state is in image form, if the numbers among its counters' spans have 64 bits, as those of a program have.
#[tactic(auto, using(crate::proofs::WholeForms::whole_in_form))]
pub fn sound_states_are_in_image_form()
    ensures { (s : State) → IsSoundState s → IsTrue (are_spans_of_64_bits s.counters) → IsTrue (is_in_image_form s) }
{}
