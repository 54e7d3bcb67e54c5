//! What a drill counts.
ghost use Rattle.std.specs.Prelude.{◌≡◌, ◌+◌, ◌<◌, ◌^◌, [], ◌∷◌, length};
ghost use Rattle.iss_drill.specs.Drills.{call_opened, opened_of, is_repeat};
ghost use Rattle.iss_drill.specs.Giving.{TellsAnswer};
ghost use Rattle.iss_drill.specs.Tallies.{no_tally, Counts, CanCountMore};

use iss_model::{Answer, CallId, Entry, Verdict};

/// What a drill has counted so far. The counts of entries are wide, since a record may make many.
#[derive(Drop)]
pub(crate) struct Tally {
    pub(crate) approved: u128,
    pub(crate) declined: u128,
    pub(crate) lines: u32,
    pub(crate) notices: u128,
    pub(crate) repeats: u32,
}

impl Tally {
    pub(crate) fn new() -> Tally
        ensures { result ≡ no_tally }
    {
        Tally {
            approved: 0,
            declined: 0,
            lines: 0,
            notices: 0,
            repeats: 0,
        }
    }

    /// Counts the entries of a record.
    pub(crate) fn count(&mut self, entries: &[Entry])
        requires { CanCountMore (length entries.now) self.old }
        ensures { Counts entries.now self.old self.new }
    {
        for entry in entries {
            self.count_entry(entry);
        }
    }

    fn count_entry(&mut self, entry: &Entry)
        requires { CanCountMore 1 self.old }
        ensures { Counts (entry.now ∷ []) self.old self.new }
    {
        match entry {
            Entry::Decided(_, Verdict::Approved) => self.approved += 1,
            Entry::Decided(_, Verdict::Declined(_)) => self.declined += 1,
            Entry::Notice(_) => self.notices += 1,
            _ => {}
        }
    }

    /// Counts an answer if it is a repeat.
    #[tactic(auto, using(crate::proofs::Counting::tells_repeat, crate::proofs::Counting::tells_other))]
    pub(crate) fn count_answer(&mut self, answer: &Answer)
        requires { self.old.repeats < 2 ^ 20 }
        ensures { TellsAnswer (is_repeat answer.now) self.old self.new }
    {
        match answer {
            Answer::Repeat(_, _) => self.repeats += 1,
            _ => {}
        }
    }
}

/// The first call that entries open.
pub(crate) fn call_opened(entries: &[Entry]) -> Option<CallId>
    ensures { result ≡ call_opened entries.now }
{
    for entry in entries {
        if let Some(call) = opened_of(entry) {
            return Some(call);
        }
    }
    None
}

fn opened_of(entry: &Entry) -> Option<CallId>
    ensures { result ≡ opened_of entry.now }
{
    match entry {
        Entry::Opened(opened) => Some(opened.call),
        _ => None,
    }
}
