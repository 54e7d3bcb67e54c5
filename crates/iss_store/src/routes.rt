//! Where what is said goes out.
ghost use Rattle.std.specs.Prelude.{◌≡◌, [], ◌∷◌, ◌++◌, map, IfOk, OnOk, OnErr};
ghost use Rattle.iss_session.specs.Desks.{waiters_without};
ghost use Rattle.iss_session.specs.Hearings.{is_waiting};
ghost use Rattle.iss_store.specs.Routes.{IsLines, IsServed};

use crate::message::Message;
use crate::waiting::Waiters;
use iss_edge::Channel;
use iss_model::Token;
use iss_texts::Texts;
use std::alloc::{AllocError, Global};

/// Where what is said goes out: as lines on channel 0, or to clients and the gateway.
#[derive(Drop)]
pub struct Routes {
    pub(crate) kind: Kind,
    /// The row in which the lines of a record are written: it is kept from one record to the next.
    pub(crate) texts: Texts,
    /// The clients that wait until their events are decided, in the order in which they came.
    pub(crate) waiters: Waiters,
    /// The message to a client or to the gateway that is written, while clients are served.
    pub(crate) message: Message,
}

/// Who hears what is said.
#[derive(Debug, Clone, Copy)]
pub(crate) enum Kind {
    /// All of it goes out as lines on channel 0.
    Lines,
    /// A decision goes on the channel of the client that waits for it. A request or a notice goes to the gateway, on a
    /// channel of its own, which is dialled for it.
    Served,
}

impl Routes {
    /// All that is said goes out as lines on channel 0.
    pub fn lines(alloc: Global) -> Routes
        ensures { IsLines result }
    {
        Routes {
            kind: Kind::Lines,
            texts: Texts::new(alloc),
            waiters: Waiters::new(alloc),
            message: Message::new(alloc),
        }
    }

    /// What is said goes to clients and to the gateway. Nobody waits yet.
    pub fn served(alloc: Global) -> Routes
        ensures served { IsServed result }
        ensures waiters { result.waiters ≡ [] }
    {
        Routes {
            kind: Kind::Served,
            texts: Texts::new(alloc),
            waiters: Waiters::new(alloc),
            message: Message::new(alloc),
        }
    }

    /// A client waits on a channel until an event is decided. If an allocation fails, nothing changes.
    pub fn wait_for(&mut self, event: &Token, ch: Channel) -> Result<(), AllocError>
        ensures waits { OnOk result (self.new.waiters ≡ self.old.waiters ++ record { event = event.now; ch = ch } ∷ []) }
        ensures unchanged { OnErr result (self.new.waiters ≡ self.old.waiters) }
        ensures kind { self.new.kind ≡ self.old.kind }
    {
        self.waiters.wait_for(event, ch)
    }

    /// Nothing waits on a channel any longer.
    pub fn forget(&mut self, ch: Channel)
        ensures waiters { self.new.waiters ≡ waiters_without ch self.old.waiters }
        ensures kind { self.new.kind ≡ self.old.kind }
    {
        self.waiters.forget(ch);
    }

    /// Whether an event waits on a channel.
    pub fn waits(&self, ch: Channel) -> bool
        ensures { result ≡ is_waiting ch self.now.waiters }
    {
        self.waiters.waits(ch)
    }

    /// The channels on which an event waits, in the order in which they came.
    pub fn channels(&self, alloc: Global) -> Result<Vec<Channel>, AllocError>
        ensures { IfOk result (λ v. v.items ≡ map (λ waiter. waiter.ch) self.now.waiters) }
    {
        self.waiters.channels(alloc)
    }
}
