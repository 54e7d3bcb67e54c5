//! What holds of every catching up.

ghost use Rattle.iss_follow_catch.specs.Catching.{CaughtUpIsAll};

/// If the second device holds the first records of the first one, it holds all of them once it has caught up.
#[tactic(auto, using(crate::proofs::Pasts::caught_up_is_all))]
pub fn caught_up_is_all()
    ensures { CaughtUpIsAll }
{}
