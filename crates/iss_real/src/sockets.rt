//! Channels over loopback sockets.

ghost use Rattle.std.specs.Prelude.{◌≡◌, ◌+◌, Some, IfOk};
ghost use Rattle.std.specs.Result.{result_ok};
ghost use Rattle.std.specs.Io.{ReadsAtMost};
ghost use Rattle.iss_edge.specs.Channels.{no_channels, is_among, IsUnused, after_dial, after_close};

use crate::clocks::{Clocks, monotonic};
use crate::host::{Host, is_passing};
use crate::peers::{Peer, Peers};
use crate::unsent::Unsent;
use iss_edge::Channel;
use std::alloc::Global;
use std::io::{ErrorKind, Write};
use std::marker::Model;
use std::net::{Net, TcpStream};
use std::time::{Clock, Duration};
use std::{io, thread};

/// The most writes that an emit makes, with a pause of a millisecond after each that could write nothing.
const WRITES: u32 = 100;

/// Channels over loopback sockets, seen as their numbers and the one that was last ready. Moments are milliseconds of the monotonic clock.
#[derive(Drop)]
pub struct Sockets<N> {
    pub(crate) host: Host<N>,
    pub(crate) clients: Peers,
    pub(crate) dialled: Peers,
    /// The texts of dialled channels that aren't connected.
    pub(crate) texts: Unsent,
    /// The greatest number that a channel got.
    pub(crate) last: u32,
    pub(crate) ready: Option<u32>,
    /// The channel that the last wait found ready. If it is a client's and the gateway is dialled now, its request is whole.
    pub(crate) asking: Option<Channel>,
    /// Whether a look is for clients first.
    pub(crate) admits_first: bool,
    /// Whether a client may wait to be let in.
    pub(crate) may_admit: bool,
    /// A client that came when there was no memory for it.
    pub(crate) kept: Option<Peer>,
    pub(crate) clocks: Clocks,
    /// When a wait began last, a look named what had come, a time was told, and all channels were looked at.
    pub(crate) at: u64,
    pub(crate) named: u64,
    pub(crate) told: u64,
    pub(crate) looked: u64,
    /// How many answers came before the time that is due.
    pub(crate) in_time: u32,
}

impl<N> Model for Sockets<N> {
    ghost use Rattle.std.specs.Prelude.{◌≡◌, true};
    ghost use Rattle.std.specs.List.{list_all};
    ghost use Rattle.iss_edge.specs.Channels.{Channels};
    ghost use Rattle.iss_real.specs.Numbers.{is_up_to};

    ghost Value = { Channels };

    ghost view = { λ s. record { clients = s.clients; dialled = s.dialled; ready = s.ready } };

    ghost invariant = { λ s.
        (list_all (is_up_to s.last) s.clients ≡ true) × (list_all (is_up_to s.last) s.dialled ≡ true) };
}

impl<N: Net<Stream = TcpStream> + Clock + Drop> Sockets<N> {
    /// No channels. Without a listener each wait fails, and without a gateway each dialled channel does.
    pub fn none(net: N, alloc: Global) -> Sockets<N>
        ensures { result ≡ no_channels }
    {
        Sockets {
            host: Host::new(net, alloc),
            clients: Peers::none(alloc),
            dialled: Peers::none(alloc),
            texts: Unsent::none(alloc),
            last: 0,
            ready: None,
            asking: None,
            admits_first: false,
            may_admit: true,
            kept: None,
            clocks: Clocks::default(),
            at: 0,
            named: 0,
            told: 0,
            looked: 0,
            in_time: 0,
        }
    }

    /// Where this takes its memory.
    pub(crate) fn alloc(&self) -> Global {
        self.host.alloc
    }

    /// Listens for clients on a port of this machine, 0 for any that is free.
    pub fn listen(&mut self, alloc: Global, port: u16) -> io::Result<()>
        ensures { self.new ≡ self.old }
    {
        self.host.listen(alloc, port)
    }

    /// Dials this port of this machine from now on.
    pub fn set_gateway(&mut self, port: u16)
        ensures { self.new ≡ self.old }
    {
        self.host.gateway = Some(port);
    }

    /// Opens a channel to the gateway. It is connected once it has a text.
    pub fn dial(&mut self) -> io::Result<Channel>
        ensures unused { IfOk result (IsUnused self.old) }
        ensures channels { self.new ≡ after_dial (result_ok result) self.old }
    {
        let number = next_number(self.last)?;
        let peer = Peer::dialled(monotonic(&self.host.net)?);
        if self.dialled.push(number, peer).is_err() {
            return Err(io::Error::from(ErrorKind::OutOfMemory));
        }
        self.last = number;
        self.let_asker_wait();
        Ok(Channel(number))
    }

    fn let_asker_wait(&self) {
        if let Some(peer) = self.asking.and_then(|ch| self.clients.find(ch)) {
            peer.let_wait();
        }
    }

    /// Whether the channel was dialled and not closed since.
    pub fn is_dialled(&self, ch: Channel) -> bool
        ensures { result ≡ is_among self.now.dialled ch.0 }
    {
        self.dialled.has(ch)
    }

    /// Writes the bytes to a channel, or fails if the peer doesn't take them in time. The text of a channel that isn't connected is kept
    /// until a socket takes it.
    pub fn emit(&mut self, ch: Channel, bytes: &[u8]) -> io::Result<()>
        ensures { self.new ≡ self.old }
    {
        if self.dialled.is_pending(ch) {
            self.texts.push(ch, bytes)?;
            self.texts
                .send_all(&mut self.host, &mut self.dialled, false);
            return Ok(());
        }
        write_in_time(&self.host.net, self.peer(ch)?.socket()?, bytes)
    }

    /// Reads what came on a channel into the start of `buf`, or fails if that would block.
    pub fn take(&self, ch: Channel, buf: &mut [u8]) -> io::Result<usize>
        ensures { ReadsAtMost result buf.new }
    {
        self.peer(ch)?.read(buf, self.at)
    }

    fn peer(&self, ch: Channel) -> io::Result<&Peer> {
        let peer = self.clients.find(ch).or(self.dialled.find(ch));
        Ok(peer.ok_or(ErrorKind::NotConnected)?)
    }

    /// Closes a channel. A text that no socket took yet gets one more try.
    pub fn close(&mut self, ch: Channel)
        ensures { self.new ≡ after_close ch self.old }
    {
        self.texts.withdraw(&mut self.host, &mut self.dialled, ch);
        self.clients.close(ch);
        self.dialled.close(ch);
        self.host.keep_back();
    }
}

/// The number after that one.
pub(crate) fn next_number(last: u32) -> io::Result<u32>
    ensures { IfOk result (λ number. number ≡ last + 1) }
{
    Ok(last.checked_add(1).ok_or(ErrorKind::QuotaExceeded)?)
}

/// Writes all of the bytes, with a pause whenever the peer takes none. It fails if `WRITES` writes weren't enough.
fn write_in_time(clock: &impl Clock, mut socket: &TcpStream, bytes: &[u8]) -> io::Result<()> {
    let mut rest = bytes;
    for _ in 0..WRITES {
        match socket.write(rest) {
            Ok(count) => rest = &rest[count..],
            Err(e) if is_passing(&e) => thread::sleep(clock, Duration::from_millis(1)),
            Err(e) => return Err(e),
        }
        if rest.is_empty() {
            return Ok(());
        }
    }
    Err(io::Error::from(ErrorKind::TimedOut))
}
