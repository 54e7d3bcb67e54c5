//! Texts in a row.
ghost use Rattle.std.specs.Prelude.{◌≡◌, ◌<◌, [], ◌∷◌, ◌++◌, length, OnOk, OnErr};
ghost use Rattle.std.specs.List.{flat_map};
ghost use Rattle.iss_model.specs.texts.AnswerLines.{answer_text, time_line};
ghost use Rattle.iss_model.specs.run.Sayings.{asked, noticed};
ghost use Rattle.iss_event.specs.FormLines.{form_text};
ghost use Rattle.iss_texts.specs.TextRows.{Gains, HasNone, OfTexts, AreEnds, said_texts, entry_texts_at};
ghost use Rattle.iss_texts.specs.Sending.{Says, SaysSome, SentEach, StopsAt, IsSending};
ghost use Rattle.iss_edge.specs.Outer.{ToldBoth};
ghost use Rattle.iss_edge.specs.World.{Told};
ghost use Rattle.iss_model.specs.declared.limits.TheConstants.{INSTANCES};

use crate::sending::send_each;
use iss_edge::{Edge, Failed};
use iss_event::{FormFault, put_acked, put_form, put_reply, put_time, put_told};
use iss_jit::{put_notice, put_request};
use iss_model::{Answer, Entry, Notice, Opened, Reply};
use std::alloc::{AllocError, Global};

/// Texts in a row, and the places where they end. Each is a line, with its line feed. If an allocation fails, a part of
/// one may be there.
#[derive(Drop)]
pub struct Texts {
    pub bytes: Vec<u8>,
    pub ends: Vec<usize>,
}

impl Texts {
    pub fn new(alloc: Global) -> Texts
        ensures { HasNone result }
    {
        Texts {
            bytes: Vec::new(alloc),
            ends: Vec::new(alloc),
        }
    }

    pub fn clear(&mut self)
        ensures { HasNone self.new }
    {
        self.bytes.clear();
        self.ends.clear();
    }

    /// Adds the text of a line with a fault of form.
    #[tactic(auto, using(crate::proofs::Rows::one_more))]
    pub fn put_form(&mut self, fault: &FormFault) -> Result<(), AllocError>
        ensures { OnOk result (Gains (form_text fault.now ∷ []) self.old self.new) }
    {
        put_form(&mut self.bytes, fault)?;
        self.end()
    }

    /// Adds the answer to an input that isn't new.
    #[tactic(auto, using(crate::proofs::Rows::one_more))]
    pub fn put_told(&mut self, answer: &Answer) -> Result<(), AllocError>
        ensures { OnOk result (Gains (answer_text answer.now ∷ []) self.old self.new) }
    {
        put_told(&mut self.bytes, answer)?;
        self.end()
    }

    /// Adds that a time was taken.
    #[tactic(auto, using(crate::proofs::Rows::one_more))]
    pub fn put_time(&mut self) -> Result<(), AllocError>
        ensures { OnOk result (Gains (time_line ∷ []) self.old self.new) }
    {
        put_time(&mut self.bytes)?;
        self.end()
    }

    /// Adds the request of a call.
    #[tactic(auto, using(crate::proofs::Rows::one_more))]
    pub fn put_request(&mut self, opened: &Opened, instance: u64) -> Result<(), AllocError>
        requires { instance < INSTANCES }
        ensures { OnOk result (Gains (said_texts instance (asked opened.now ∷ [])) self.old self.new) }
    {
        put_request(&mut self.bytes, opened, instance)?;
        self.end_line()
    }

    /// Adds a notice.
    #[tactic(auto, using(crate::proofs::Rows::one_more))]
    pub fn put_notice(&mut self, notice: &Notice, instance: u64) -> Result<(), AllocError>
        requires { instance < INSTANCES }
        ensures { OnOk result (Gains (said_texts instance (noticed notice.now ∷ [])) self.old self.new) }
    {
        put_notice(&mut self.bytes, notice, instance)?;
        self.end_line()
    }

    /// Adds the texts of entries: of each decision, request, notice and acknowledgement.
    pub fn put_entries(&mut self, entries: &[Entry], instance: u64) -> Result<(), AllocError>
        requires { instance < INSTANCES }
        ensures { OnOk result (Gains (flat_map (entry_texts_at instance) entries.now) self.old self.new) }
    {
        for entry in entries {
            self.put_entry(entry, instance)?;
        }
        Ok(())
    }

    #[tactic(auto, using(crate::proofs::Rows::one_more, crate::proofs::Rows::none_more))]
    fn put_entry(&mut self, entry: &Entry, instance: u64) -> Result<(), AllocError>
        requires { instance < INSTANCES }
        ensures { OnOk result (Gains (entry_texts_at instance entry.now) self.old self.new) }
    {
        match entry {
            Entry::Decided(event, verdict) => {
                put_reply(&mut self.bytes, event, &Reply::Decided(*verdict))?;
                self.end()
            }
            Entry::Opened(opened) => self.put_request(opened, instance),
            Entry::Notice(notice) => self.put_notice(notice, instance),
            Entry::Acked(notice) => {
                put_acked(&mut self.bytes, *notice)?;
                self.end()
            }
            _ => Ok(()),
        }
    }

    /// Sends each of the texts on channel 0, in order, by an emit of its own. If one fails, nothing more is sent.
    #[tactic(auto, using(crate::proofs::ToldSaying::all_told, crate::proofs::ToldSaying::some_told, crate::proofs::ToldSaying::all_sent_told, crate::proofs::ToldSaying::stops_told))]
    pub fn send<E: Edge>(&self, edge: &mut E) -> Result<(), Failed>
        requires ends { AreEnds 0 (length self.now.bytes.items) self.now.ends.items }
        ensures told { OfTexts self.now (λ texts. OnOk result (Told (Says texts) (E.told edge.old) (E.told edge.new))) }
        ensures part { OfTexts self.now (λ texts. OnErr result (Told (SaysSome texts) (E.told edge.old) (E.told edge.new))) }
        ensures sent { OfTexts self.now (λ texts. OnOk result (ToldBoth E.told E.heard (SentEach texts) edge.old edge.new)) }
        ensures stopped { OfTexts self.now (λ texts. OnErr result (ToldBoth E.told E.heard (StopsAt texts) edge.old edge.new)) }
        ensures sending { IsSending (E.faults edge.old) (E.faults edge.new) result }
        ensures kept { E.extent edge.new ≡ E.extent edge.old }
        ensures channels { E.channels edge.new ≡ E.channels edge.old }
    {
        send_each(edge, &self.bytes, &self.ends)
    }

    /// Ends the text that was written.
    fn end(&mut self) -> Result<(), AllocError>
        ensures bytes { self.new.bytes.items ≡ self.old.bytes.items }
        ensures ends { OnOk result (self.new.ends.items ≡ self.old.ends.items ++ length self.old.bytes.items ∷ []) }
    {
        self.ends.push(self.bytes.len())?;
        Ok(())
    }

    /// Ends the line that was written, and with it the text.
    fn end_line(&mut self) -> Result<(), AllocError>
        ensures bytes { OnOk result (self.new.bytes.items ≡ self.old.bytes.items ++ 10 ∷ []) }
        ensures ends { OnOk result (self.new.ends.items
            ≡ self.old.ends.items ++ length self.new.bytes.items ∷ []) }
    {
        self.bytes.push(b'\n')?;
        self.end()
    }
}
