//! Images of histories.
ghost use Rattle.std.specs.Prelude.{ℕ, List, []};
ghost use Rattle.iss_model.specs.declared.input.Record.{Record};
ghost use Rattle.iss_snapshot.specs.Loaded.{IsImageOfHistory, IsOfNoState, ImagesAreSound, EqualImagesCountAlike};

/// The image of a history is that of a sound state in image form. It is empty for a history without a record. Histories with one image have
/// equally many records: they have one state, and it counts them.
#[tactic(auto, using(crate::proofs::Histories::no_bytes))]
pub fn histories_have_images()
    ensures sound { ImagesAreSound }
    ensures of_some { (rs : List Record) → (bytes : List ℕ) → IsImageOfHistory rs bytes → IsOfNoState bytes → ⊥ }
    ensures nothing { IsImageOfHistory [] [] }
    ensures counts { EqualImagesCountAlike }
{}
