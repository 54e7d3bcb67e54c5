//! Waiting for what comes next.

ghost use Rattle.std.specs.Prelude.{◌≡◌, Some, IfOk};
ghost use Rattle.std.specs.Result.{result_ok};
ghost use Rattle.iss_edge.specs.Channels.{ComesUnused, after_wait};

use crate::Sockets;
use crate::clocks::monotonic;
use crate::host::AT_ONCE;
use crate::peers::{Peer, Peers};
use crate::sockets::next_number;
use iss_edge::{Arrival, Channel};
use mio::event::Iter;
use std::io;
use std::io::ErrorKind;
use std::net::{Net, TcpStream};
use std::time::Clock;

/// How many milliseconds pass at least between two times that are told.
const TICK: u64 = 20;

/// For how many milliseconds after a look none is needed while a channel may be ready.
const FRESH: u64 = 2;

/// How many milliseconds pass between two rounds of all channels, the guard against a change that no look named.
const ROUND: u64 = 5000;

/// For how many milliseconds a client may be silent before its request is whole.
const CLIENT_PATIENCE: u64 = 30_000;

/// For how many milliseconds the gateway may be silent: twice the longest time that a product gives it.
const GATEWAY_PATIENCE: u64 = 120_000;

impl<N: Net<Stream = TcpStream> + Clock + Drop> Sockets<N> {
    /// A client or a channel that is ready, or the time if none was told lately. If there is none, it sleeps until something comes or the
    /// time is to be told.
    pub fn wait(&mut self) -> io::Result<Arrival>
        ensures unused { IfOk result (ComesUnused self.old) }
        ensures channels { self.new ≡ after_wait (result_ok result) self.old }
    {
        self.listen_on();
        self.at = monotonic(&self.host.net)?;
        let since = self.at.saturating_sub(self.told);
        if since >= TICK {
            // What came before this time is named by the look that follows.
            let time = self.clocks.time(&self.host.net)?;
            self.listen_for(0)?;
            return Ok(self.tell(time));
        }
        if self.at.saturating_sub(self.named) >= FRESH && self.may_be_ready() {
            self.listen_for(0)?;
        } else {
            self.send_texts();
        }
        match self.look()? {
            Arrival::Idle => {
                self.listen_for(TICK - since)?;
                self.look()
            }
            arrives => Ok(arrives),
        }
    }

    /// The channel that the last wait found ready may be so again, after all others.
    fn listen_on(&mut self)
        ensures { self.new ≡ self.old }
    {
        if let Some(ch) = self.asking.take() {
            self.clients.wake(ch);
            self.dialled.wake(ch);
        }
    }

    /// Whether a channel may be ready.
    fn may_be_ready(&self) -> bool {
        !self.clients.is_quiet() || !self.dialled.is_quiet()
    }

    /// The time, after the answers that came before it: one that came in time isn't judged late, however long the program paused. As many
    /// go before the time as one look names, so that answers in pieces can't hold it up.
    fn tell(&mut self, time: u64) -> Arrival
        ensures unused { ComesUnused self.old result }
        ensures channels { self.new ≡ after_wait (Some result) self.old }
    {
        if self.in_time < AT_ONCE {
            self.in_time += 1;
            if let Some(ch) = self.dialled.next(&self.host) {
                return self.hear(ch);
            }
        }
        self.in_time = 0;
        self.told = self.at;
        self.texts.send_all(&mut self.host, &mut self.dialled, true);
        self.look_over();
        Arrival::Time(time)
    }

    /// Looks at all channels, once in a while.
    fn look_over(&mut self)
        ensures { self.new ≡ self.old }
    {
        if self.at.saturating_sub(self.looked) >= ROUND {
            self.looked = self.at;
            self.may_admit = true;
            self.clients.wake_all(self.at, CLIENT_PATIENCE);
            self.dialled.wake_all(self.at, GATEWAY_PATIENCE);
        }
    }

    /// Notes on what something came. If nothing did, it sleeps until then, for at most `most` milliseconds.
    fn listen_for(&mut self, most: u64) -> io::Result<()>
        ensures { self.new ≡ self.old }
    {
        let names = self.host.look(most)?;
        if note_named(names, &mut self.clients, &mut self.dialled) {
            self.may_admit = true;
        }
        self.named = monotonic(&self.host.net)?;
        self.send_texts();
        Ok(())
    }

    /// Has the gateway take texts that wait, while it does.
    fn send_texts(&mut self)
        ensures { self.new ≡ self.old }
    {
        self.texts
            .send_all(&mut self.host, &mut self.dialled, false);
    }

    /// A client or a channel that is ready, the one or the other first by turns.
    fn look(&mut self) -> io::Result<Arrival>
        ensures unused { IfOk result (ComesUnused self.old) }
        ensures channels { self.new ≡ after_wait (result_ok result) self.old }
    {
        self.admits_first = !self.admits_first;
        if self.admits_first {
            return match self.admit()? {
                Arrival::Idle => Ok(self.find_ready()),
                arrives => Ok(arrives),
            };
        }
        match self.find_ready() {
            Arrival::Idle => self.admit(),
            arrives => Ok(arrives),
        }
    }

    /// The next channel that is ready. Answers come before requests, so that a call ends before others begin.
    fn find_ready(&mut self) -> Arrival
        ensures unused { ComesUnused self.old result }
        ensures channels { self.new ≡ after_wait (Some result) self.old }
    {
        if let Some(ch) = self.dialled.next(&self.host) {
            return self.hear(ch);
        }
        match self.clients.next(&self.host) {
            Some(ch) => self.hear(ch),
            None => Arrival::Idle,
        }
    }

    /// The channel is ready.
    fn hear(&mut self, ch: Channel) -> Arrival
        ensures unused { ComesUnused self.old result }
        ensures channels { self.new ≡ after_wait (Some result) self.old }
    {
        self.ready = Some(ch.0);
        self.asking = Some(ch);
        Arrival::Ready(ch)
    }

    /// A client, if one came. If there is no memory for it, a later wait lets it in.
    fn admit(&mut self) -> io::Result<Arrival>
        ensures unused { IfOk result (ComesUnused self.old) }
        ensures channels { self.new ≡ after_wait (result_ok result) self.old }
    {
        let Some(peer) = self.client() else {
            return Ok(Arrival::Idle);
        };
        let number = next_number(self.last)?;
        match self.clients.push(number, peer) {
            Ok(()) => {
                self.clients.wake(Channel(number));
                self.last = number;
                Ok(Arrival::Client(Channel(number)))
            }
            Err(peer) => {
                self.kept = Some(peer);
                Err(io::Error::from(ErrorKind::OutOfMemory))
            }
        }
    }

    /// A client that came. One that can't be accepted, for want of a handle or since it went, is left.
    fn client(&mut self) -> Option<Peer>
        ensures { self.new ≡ self.old }
    {
        if self.kept.is_some() {
            return self.kept.take();
        }
        if !self.may_admit {
            return None;
        }
        let accepted = self.host.accept();
        // One more may wait, unless the system says that none does.
        self.may_admit = !matches!(&accepted, Err(e) if e.kind() == ErrorKind::WouldBlock);
        Some(Peer::client(accepted.ok()?, self.at))
    }
}

/// Notes what came on the channels that these name, and says whether a client came.
fn note_named(names: Iter<'_>, clients: &mut Peers, dialled: &mut Peers) -> bool
    ensures clients { clients.new ≡ clients.old }
    ensures dialled { dialled.new ≡ dialled.old }
{
    let mut has_client = false;
    for event in names {
        let ch = Channel(u32::try_from(event.token().0).unwrap_or(0));
        has_client = has_client || ch.0 == 0;
        clients.note(ch, event.is_read_closed());
        dialled.note(ch, event.is_read_closed());
    }
    has_client
}
