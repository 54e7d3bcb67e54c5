//! What holds of runs that follow one another on a device.

ghost use Rattle.iss_top.specs.Replays.{TranscriptsContinue};

/// The transcript of two inputs in a row is that of the first, and then, on the records that it left, that of the second.
#[tactic(auto, using(crate::proofs::Continues::transcripts_continue))]
pub fn transcripts_continue()
    ensures { TranscriptsContinue }
{}
