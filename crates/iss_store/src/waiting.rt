//! Clients that wait until their events are decided.
ghost use Rattle.std.specs.Prelude.{◌≡◌, [], ◌∷◌, ◌++◌, map, IfOk, OnOk, OnErr, option_map};
ghost use Rattle.iss_session.specs.Desks.{waiters_without};
ghost use Rattle.iss_session.specs.Hearings.{is_waiting};
ghost use Rattle.iss_session.specs.Sessions.{waiter_for};
ghost use Rattle.iss_store.specs.Serving.{waiters_after};

use iss_channels::{ByChannel, OnChannel, Places};
use iss_edge::Channel;
use iss_model::Token;
use std::alloc::{AllocError, Global};
use std::marker::Model;

/// A client's channel that waits until an event is decided.
#[derive(Drop)]
pub(crate) struct Waiting {
    pub(crate) event: Token,
    pub(crate) ch: Channel,
}

impl OnChannel for Waiting {
    ghost channel_of = { λ waiting. waiting.ch };

    fn channel(&self) -> Channel {
        self.ch
    }
}

/// Clients that wait. Contracts see them in the order in which they came.
#[derive(Drop)]
pub(crate) struct Waiters {
    waiting: ByChannel<Waiting>,
    events: Places<Token>,
}

impl Model for Waiters {
    ghost use Rattle.std.specs.Prelude.{List, map};
    ghost use Rattle.iss_channels.specs.Placed.{things_of};
    ghost use Rattle.iss_session.specs.Desks.{Waiter};
    ghost use Rattle.iss_store.specs.Waiting.{waiter_of, AreWaitersKept};

    ghost Value = { List Waiter };

    ghost view = { λ s. map waiter_of (things_of s.waiting) };

    ghost invariant = { λ s. AreWaitersKept s.events s.waiting };
}

impl Waiters {
    /// Nobody waits.
    pub(crate) fn new(alloc: Global) -> Waiters
        ensures { result ≡ [] }
    {
        Waiters {
            waiting: ByChannel::new(alloc),
            events: Places::new(alloc),
        }
    }

    /// A client waits on a channel until an event is decided. If an allocation fails, nothing changes.
    pub(crate) fn wait_for(&mut self, event: &Token, ch: Channel) -> Result<(), AllocError>
        ensures waits { OnOk result (self.new ≡ self.old ++ record { event = event.now; ch = ch } ∷ []) }
        ensures unchanged { OnErr result (self.new ≡ self.old) }
    {
        let place = self.waiting.next();
        self.events.add(event, place)?;
        match self.waiting.push(Waiting { event: *event, ch }) {
            Ok(()) => Ok(()),
            Err(refused) => {
                self.events.remove(event, place);
                Err(refused)
            }
        }
    }

    /// Nothing waits on a channel any longer.
    pub(crate) fn forget(&mut self, ch: Channel)
        ensures { self.new ≡ waiters_without ch self.old }
    {
        while let Some((place, waiting)) = self.waiting.take(ch) {
            self.events.remove(&waiting.event, place);
        }
    }

    /// Nothing waits on any of these channels any longer.
    pub(crate) fn forget_all(&mut self, channels: &[Channel])
        ensures { self.new ≡ waiters_after channels.now self.old }
    {
        for ch in channels {
            self.forget(*ch);
        }
    }

    /// Whether an event waits on a channel.
    pub(crate) fn waits(&self, ch: Channel) -> bool
        ensures { result ≡ is_waiting ch self.now }
    {
        self.waiting.find(ch).is_some()
    }

    /// The channels on which an event waits, in the order in which they came.
    pub(crate) fn channels(&self, alloc: Global) -> Result<Vec<Channel>, AllocError>
        ensures { IfOk result (λ v. v.items ≡ map (λ waiter. waiter.ch) self.now) }
    {
        self.waiting.channels(alloc)
    }

    /// The channel of the client that waits for an event.
    pub(crate) fn channel_for(&self, event: &Token) -> Option<Channel>
        ensures { result ≡ option_map (λ waiter. waiter.ch) (waiter_for event.now self.now) }
    {
        let place = self.events.first(event)?;
        let waiting = self.waiting.at(place)?;
        Some(waiting.ch)
    }
}
