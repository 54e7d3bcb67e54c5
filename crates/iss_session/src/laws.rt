//! Laws of sessions: how they are put together, and what they leave.
ghost use Rattle.std.specs.Prelude.{◌≡◌, ℕ, ◌+◌, List, ◌++◌};
ghost use Rattle.iss_edge.specs.Outer.{Outer};
ghost use Rattle.iss_model.specs.run.Runs.{Run};
ghost use Rattle.iss_session.specs.Items.{Happening};
ghost use Rattle.iss_session.specs.Desks.{Desk, TextFate};
ghost use Rattle.iss_session.specs.Sessions.{Readers, Session};
ghost use Rattle.iss_session.specs.Happenings.{session_after, session_steps, Fits};
ghost use Rattle.iss_session.specs.Sendings.{Sends};
ghost use Rattle.iss_session.specs.Serving.{Serves};
ghost use Rattle.iss_session.specs.Courses.{AddsLegalRecords, AddsRecords, AddsToBook, EndsGood, FitThen, HeardIsAll, RisesThrough, InEachSession, RunsAsLines, SendsAllTexts, SendsItsTexts, StartsStand, StaysGoodFrom, WaitsTakeTurns, session_then, steps_then};

use iss_edge::Showing;

/// Two parts that follow each other are one: of what is heard, of what is done, of a desk's work and of a session's.
#[tactic(auto, using(crate::proofs::Compositions::after_append, crate::proofs::Compositions::steps_append, crate::proofs::Compositions::fits_append, crate::proofs::SendingLaws::sends_then, crate::proofs::ServingLaws::serves_then))]
pub fn parts_follow()
    ensures after { (read : Readers) (s : Session) (a b : List Happening)
        → session_after read s (a ++ b) ≡ session_then read s a b }
    ensures steps { (read : Readers) (s : Session) (a b : List Happening)
        → session_steps read s (a ++ b) ≡ steps_then read s a b }
    ensures fits { (read : Readers) (s : Session) (a b : List Happening) → Fits read s a
        → FitThen read s a b }
    ensures sends { (level : ℕ) (d e f : Desk) (g k : List TextFate) (a b c : Outer) → Sends level d e g a b
        → Sends level e f k b c → Sends level d f (g ++ k) a c }
    ensures serves { (read : Readers) (s t u : Session) (a b c : Outer) → Serves read s t a b → Serves read t u b c
        → Serves read s u a c }
{}

/// What is heard, with how each bad head was told and what each failed emit tore off, decides what a session goes through.
#[tactic(auto, using(crate::proofs::Deciding::heard_decides))]
pub fn heard_decides_happenings()
    ensures { (read : Readers) (s : Session) (a b : List Happening) → Fits read s a → Fits read s b
        → HeardIsAll read s a b }
{}

/// A session makes the records that lines would make, at the times at which its inputs are judged. They come after those
/// that stand, and each follows on those before it. What stands is the book of them all.
#[tactic(auto, using(crate::proofs::JudgedLines::run_of_lines, crate::proofs::JudgedLines::records_of_session, crate::proofs::JudgedLines::legal_session, crate::proofs::JudgedLines::history_of_session))]
pub fn sessions_judge_lines()
    ensures run { (read : Readers) (s : Session) (happenings : List Happening)
        → RunsAsLines read s happenings }
    ensures records { (read : Readers) (s : Session) (happenings : List Happening)
        → AddsRecords read s happenings }
    ensures legal { (read : Readers) (s : Session) (happenings : List Happening)
        → AddsLegalRecords read s happenings }
    ensures history { (read : Readers) (s : Session) (happenings : List Happening) → AddsToBook read s happenings }
{}

/// The number of records never falls, and neither do the levels at which texts go out.
#[tactic(auto, using(crate::proofs::StillSteps::levels_rise))]
pub fn levels_never_fall()
    ensures { (read : Readers) (s : Session) (happenings : List Happening)
        → RisesThrough read s happenings }
{}

/// A session waits no more often than it has turns.
#[tactic(auto, using(crate::proofs::Waits::waits_within))]
pub fn waits_are_turns()
    ensures { (read : Readers) (s : Session) (happenings : List Happening) → WaitsTakeTurns read s happenings }
{}

/// What a session does up to j records, and the closes at its end, are stretches that are good from j to j. A stop within
/// them leaves a device that shows the j records, and no text went out before its record stood.
pub fn sessions_are_good_stretches<S: Showing>()
    ensures steps { InEachSession (StaysGoodFrom S.starts S.stands) }
    ensures last { (s : Session) (j : ℕ) → StartsStand S.starts S.stands j → EndsGood S.starts S.stands j s }
{}

/// What went out on a channel is what the session sends on it, in its order.
pub fn texts_are_sent()
    ensures part { (read : Readers) (s t : Session) (a b : Outer) → SendsItsTexts read s t a b }
    ensures whole { (read : Readers) (run : Run) (turns : ℕ) (t : Session) (a b : Outer) → SendsAllTexts read run turns t a b }
{}
