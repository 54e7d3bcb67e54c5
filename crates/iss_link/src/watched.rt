//! One watched channel.
ghost use Rattle.std.specs.Prelude.{◌≡◌, ◌++◌, [], true, IfOk, IfNone, IsSome};
ghost use Rattle.iss_http.specs.Answers.{IsReadAs};
ghost use Rattle.iss_http.specs.Heads.{is_empty};
ghost use Rattle.iss_http.specs.Heard.{heard};
ghost use Rattle.iss_link.specs.Values.{subject_of, link_state, bytes_of, joined};

use crate::LinkState;
use iss_channels::{OnChannel, Receives};
use iss_edge::Channel;
use iss_http::{Answer, AnswerReader};
use iss_model::Opened;
use std::alloc::{AllocError, Global};
use std::marker::Model;

/// What the answer on a channel is about.
#[derive(Clone, Copy)]
pub(crate) enum About {
    Call(Opened),
    Notice(u32),
}

/// A channel on which an answer is awaited, with its bytes so far. Room for these is made when the first of them come.
#[derive(Drop)]
pub(crate) struct Watched {
    pub(crate) ch: Channel,
    pub(crate) about: About,
    pub(crate) reader: Option<AnswerReader>,
}

impl Model for Watched {
    ghost use Rattle.iss_session.specs.Links.{Link};
    ghost use Rattle.iss_link.specs.Values.{subject_of, bytes_of, HasBegun};

    ghost Value = { Link };

    ghost view = { λ w. record { ch = w.ch; subject = subject_of w.about; bytes = bytes_of w.reader } };

    ghost invariant = { λ w. HasBegun w.reader };
}

impl OnChannel for Watched {
    ghost channel_of = { λ link. link.ch };

    fn channel(&self) -> Channel {
        self.ch
    }
}

impl Receives for Watched {
    ghost use Rattle.iss_link.specs.Values.{HasRead};

    type Told = Result<Option<Answer>, AllocError>;

    ghost receives = { λ before piece told after. HasRead before piece told after };

    fn receive(&mut self, alloc: Global, piece: &[u8]) -> Result<Option<Answer>, AllocError> {
        self.feed(alloc, piece)
    }
}

impl Watched {
    /// A channel on which no byte came yet.
    pub(crate) fn new(ch: Channel, about: About) -> Watched
        ensures { result ≡ record { ch = ch; subject = subject_of about; bytes = [] } }
    {
        Watched {
            ch,
            about,
            reader: None,
        }
    }

    /// How far the answer has come.
    pub(crate) fn state(&self) -> LinkState
        ensures { result ≡ link_state self.now }
    {
        match self.reader {
            None => LinkState::Waiting,
            Some(_) => LinkState::Reading,
        }
    }

    /// Takes the next bytes, none at their end, and returns the answer when it is whole. Until then the bytes are kept.
    pub(crate) fn feed(&mut self, alloc: Global, piece: &[u8]) -> Result<Option<Answer>, AllocError>
        ensures read { IfOk result (λ said. IsReadAs (self.old.bytes ++ piece.now) (is_empty piece.now) (heard said)) }
        ensures kept { IfOk result (λ said. IfNone said (self.new ≡ joined self.old piece.now)) }
        ensures ch { self.new.ch ≡ self.old.ch }
        ensures subject { self.new.subject ≡ self.old.subject }
    {
        if piece.is_empty() {
            return self.end(alloc);
        }
        let mut reader = begun(alloc, self.reader.take())?;
        match reader.feed(alloc, piece)? {
            None => {
                self.reader = Some(reader);
                Ok(None)
            }
            Some(answer) => Ok(Some(answer)),
        }
    }

    /// The answer that the bytes are, now that no more come.
    fn end(&self, alloc: Global) -> Result<Option<Answer>, AllocError>
        ensures read { IfOk result (λ said. IsReadAs self.now.bytes true (heard said)) }
        ensures some { IfOk result (λ said. IsSome said) }
    {
        match &self.reader {
            None => Ok(Some(Answer::Ended)),
            Some(reader) => Ok(Some(reader.end(alloc)?)),
        }
    }
}

/// The reader of a channel, which begins with its first byte.
fn begun(alloc: Global, reader: Option<AnswerReader>) -> Result<AnswerReader, AllocError>
    ensures { IfOk result (λ begun. begun ≡ bytes_of reader) }
{
    match reader {
        None => AnswerReader::new(alloc),
        Some(reader) => Ok(reader),
    }
}
