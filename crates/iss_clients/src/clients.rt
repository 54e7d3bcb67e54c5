//! Clients whose requests aren't whole yet.
ghost use Rattle.std.specs.Prelude.{◌≡◌, [], ◌∷◌, ◌++◌, true, map, option_map, IfOk, IfErr, IfNone, OnOk};
ghost use Rattle.iss_http.specs.Requests.{answered, IsCauseAs};
ghost use Rattle.iss_session.specs.Hearings.{is_reading, bytes_on, readers_with, readers_without};

use crate::ReadsRequest;
use iss_channels::{ByChannel, OnChannel, Receives};
use iss_edge::Channel;
use iss_http::FeedFault;
use std::alloc::{AllocError, Global};
use std::marker::Model;

/// A client's channel, and the bytes that came on it.
#[derive(Drop)]
struct Client<R: ReadsRequest> {
    ch: Channel,
    reader: R,
}

impl<R: ReadsRequest> Model for Client<R> {
    ghost use Rattle.iss_session.specs.Sessions.{OpenRequest};

    ghost Value = { OpenRequest };

    ghost view = { λ c. record { ch = c.ch; bytes = R.came c.reader } };
}

impl<R: ReadsRequest> OnChannel for Client<R> {
    ghost channel_of = { λ client. client.ch };

    fn channel(&self) -> Channel {
        self.ch
    }
}

impl<R: ReadsRequest> Receives for Client<R> {
    ghost use Rattle.iss_clients.specs.Clients.{HasRead};

    type Told = Result<Option<Vec<u8>>, FeedFault>;

    ghost receives = { λ before piece told after. HasRead R.reads (λ text. text.items) before piece told after };

    fn receive(&mut self, alloc: Global, piece: &[u8]) -> Result<Option<Vec<u8>>, FeedFault> {
        self.reader.read_on(alloc, piece)
    }
}

/// The clients whose requests aren't whole yet, in the order in which they came, each read by an `R`.
#[derive(Drop)]
pub struct Clients<R: ReadsRequest> {
    clients: ByChannel<Client<R>>,
}

impl<R: ReadsRequest> Model for Clients<R> {
    ghost use Rattle.std.specs.Prelude.{List};
    ghost use Rattle.iss_channels.specs.Placed.{things_of};
    ghost use Rattle.iss_session.specs.Sessions.{OpenRequest};

    ghost Value = { List OpenRequest };

    ghost view = { λ c. things_of c.clients };
}

impl<R: ReadsRequest + Drop> Clients<R> {
    /// No client.
    pub fn new(alloc: Global) -> Clients<R>
        ensures { result ≡ [] }
    {
        Clients {
            clients: ByChannel::new(alloc),
        }
    }

    /// A client came on a channel.
    pub fn add(&mut self, alloc: Global, ch: Channel) -> Result<(), AllocError>
        ensures { OnOk result (self.new ≡ self.old ++ record { ch = ch; bytes = [] } ∷ []) }
    {
        let reader = R::begin(alloc)?;
        self.clients.push(Client { ch, reader })?;
        Ok(())
    }

    /// Whether a request is read on a channel.
    pub fn is_reading(&self, ch: Channel) -> bool
        ensures { result ≡ is_reading ch self.now }
    {
        self.clients.find(ch).is_some()
    }

    /// Adds the next bytes to a client's request, and returns its body once it is whole. `None` if it isn't yet.
    ///
    /// # Errors
    ///
    /// The fault of the request, or `OutOfMemory`.
    pub fn feed(
        &mut self,
        alloc: Global,
        ch: Channel,
        piece: &[u8],
    ) -> Result<Option<Vec<u8>>, FeedFault>
        requires reading { is_reading ch self.old ≡ true }
        ensures body { IfOk result
            (λ said. R.reads (bytes_on ch self.old ++ piece.now) ≡ answered (option_map (λ t. t.items) said)) }
        ensures fault { IfErr result (IsCauseAs R.reads (bytes_on ch self.old ++ piece.now)) }
        ensures kept { IfOk result (λ said. IfNone said (self.new ≡ readers_with ch (bytes_on ch self.old ++ piece.now) self.old)) }
        ensures others { readers_without ch self.new ≡ readers_without ch self.old }
    {
        let Some(said) = self.clients.receive(alloc, ch, piece) else {
            unreachable!()
        };
        said
    }

    /// Nothing is read on a channel any longer.
    pub fn remove(&mut self, ch: Channel)
        ensures { self.new ≡ readers_without ch self.old }
    {
        self.clients.remove(ch);
    }

    /// The channels, in the order in which the clients came.
    pub fn channels(&self, alloc: Global) -> Result<Vec<Channel>, AllocError>
        ensures { IfOk result (λ v. v.items ≡ map (λ r. r.ch) self.now) }
    {
        self.clients.channels(alloc)
    }
}
