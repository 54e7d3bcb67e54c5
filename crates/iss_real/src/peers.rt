//! Open channels by their numbers, and which of them may be ready.

ghost use Rattle.std.specs.Prelude.{◌≡◌, ◌++◌, ◌∷◌, [], true, OnOk, OnErr};
ghost use Rattle.std.specs.Io.{ReadsAtMost};
ghost use Rattle.std.specs.List.{list_all};
ghost use Rattle.iss_edge.specs.Channels.{is_among, without};
ghost use Rattle.iss_real.specs.Numbers.{is_below};

use crate::host::{Host, is_passing};
use iss_edge::Channel;
use mio::Interest;
use std::alloc::Global;
use std::cell::{Cell, OnceCell};
use std::collections::{BTreeMap, VecDeque};
use std::io;
use std::io::{ErrorKind, Read};
use std::marker::Model;
use std::net::{Net, Shutdown, TcpStream};

/// How often what came and wasn't taken is read at a close.
const LAST_READS: u32 = 256;

/// The most bytes that one such read takes.
const LAST_PIECE: usize = 4096;

/// What the next take finds.
#[derive(Clone, Copy, PartialEq, Drop)]
enum Next {
    /// Bytes, the end or a fault.
    Comes,
    /// The end or a fault, with no bytes before it.
    Ends,
    /// Nothing that has come yet.
    Blocks,
    /// Nothing any more, since the end was taken.
    Over,
    /// A failure.
    Fails,
    /// Only a peek can say.
    Unknown,
}

/// A channel, and its socket once that is connected. The socket doesn't block.
#[derive(Drop)]
pub struct Peer {
    socket: OnceCell<TcpStream>,
    /// When bytes came last, or it was opened, by the monotonic clock in milliseconds. The greatest number if it may be silent.
    heard: Cell<u64>,
    /// Whether it stands among those that may be ready.
    is_woken: Cell<bool>,
    /// Whether looks name it.
    is_watched: Cell<bool>,
    /// Whether a look said that its end came.
    is_ending: Cell<bool>,
    next: Cell<Next>,
}

impl Peer {
    fn new(now: u64, next: Next) -> Peer {
        Peer {
            socket: OnceCell::new(),
            heard: Cell::new(now),
            is_woken: Cell::new(false),
            is_watched: Cell::new(false),
            is_ending: Cell::new(false),
            next: Cell::new(next),
        }
    }

    /// A channel that isn't connected.
    pub fn dialled(now: u64) -> Peer {
        Peer::new(now, Next::Blocks)
    }

    /// A client, whose request may have come with it.
    pub fn client(socket: TcpStream, now: u64) -> Peer {
        let peer = Peer::new(now, Next::Unknown);
        peer.connect(socket);
        peer
    }

    /// Sets the socket of the channel.
    pub fn connect(&self, socket: TcpStream) {
        let _ = self.socket.set(socket);
    }

    /// The channel's socket.
    pub fn socket(&self) -> io::Result<&TcpStream> {
        Ok(self.socket.get().ok_or(ErrorKind::NotConnected)?)
    }

    /// Has looks name it by its number, unless they do.
    pub fn watch<N: Net>(&self, host: &Host<N>, number: u32) {
        if let Ok(socket) = self.socket() {
            if !self.is_watched.get() {
                self.is_watched
                    .set(host.watch(socket, number, Interest::READABLE));
            }
        }
    }

    /// From now on it may be silent.
    pub fn let_wait(&self) {
        self.heard.set(u64::MAX);
    }

    /// Reads what came, or fails if that would block.
    pub fn read(&self, buf: &mut [u8], now: u64) -> io::Result<usize>
        ensures { ReadsAtMost result buf.new }
    {
        if self.next.get() == Next::Fails {
            return Err(io::Error::from(ErrorKind::TimedOut));
        }
        let mut socket = self.socket()?;
        self.next.set(Next::Unknown);
        let count = socket.read(buf)?;
        self.next.set(self.after(count, buf.len()));
        self.heard.set(now.max(self.heard.get()));
        Ok(count)
    }

    /// What the next take finds after one of this many bytes that had this room. One that left room took all.
    fn after(&self, count: usize, room: usize) -> Next {
        if count == 0 {
            Next::Over
        } else if count == room {
            Next::Unknown
        } else if self.is_ending.get() {
            Next::Ends
        } else {
            Next::Blocks
        }
    }

    /// A look named it. While it is connecting, that says nothing of takes.
    fn note(&self, is_ending: bool) {
        if self.socket().is_err() {
            return;
        }
        self.is_ending.set(self.is_ending.get() || is_ending);
        if matches!(self.next.get(), Next::Blocks | Next::Unknown) {
            self.next.set(Next::Comes);
        }
    }

    /// Whether it needn't be looked at until a look names it. A client that waits for the gateway is left alone even if none does.
    fn rests(&self) -> bool {
        match self.next.get() {
            Next::Blocks => self.is_watched.get() || self.heard.get() == u64::MAX,
            next => next == Next::Over,
        }
    }

    /// What was known of it may be wrong.
    fn doubt(&self) {
        if self.next.get() == Next::Blocks {
            self.next.set(Next::Unknown);
        }
    }

    /// Whether a take finds bytes, a fault, or the end for the first time.
    fn is_ready(&self) -> bool {
        if self.next.get() == Next::Unknown {
            self.next.set(self.peek());
        }
        matches!(self.next.get(), Next::Comes | Next::Ends | Next::Fails)
    }

    /// Looks at one byte and leaves it. It takes a fault away, which the take has still to tell.
    fn peek(&self) -> Next {
        let Ok(socket) = self.socket() else {
            return Next::Blocks;
        };
        match socket.peek(&mut [0]) {
            Ok(_) => Next::Comes,
            Err(e) if is_passing(&e) => Next::Blocks,
            Err(_) => Next::Fails,
        }
    }

    /// Reads what came. If bytes were left unread, closing the socket would take back what the peer hasn't read yet.
    fn finish(&self) {
        let Ok(mut socket) = self.socket() else {
            return;
        };
        if matches!(self.next.get(), Next::Ends | Next::Over) {
            return;
        }
        if matches!(socket.read(&mut [0]), Ok(1..)) {
            read_rest(socket);
        }
    }
}

/// Ends what goes out and reads what comes.
fn read_rest(mut socket: &TcpStream) {
    let mut left = [0; LAST_PIECE];
    if socket.shutdown(Shutdown::Write).is_err() {
        return;
    }
    for _ in 0..LAST_READS {
        if !matches!(socket.read(&mut left), Ok(1..)) {
            return;
        }
    }
}

/// Open channels by their numbers, seen as the list of these. Each has a greater one than those that were opened before.
#[derive(Drop)]
pub struct Peers {
    peers: BTreeMap<u32, Peer>,
    /// The numbers of those that may be ready, each once, in the order in which they are looked at.
    woken: VecDeque<u32>,
}

impl Model for Peers {
    ghost use Rattle.std.specs.Prelude.{ℕ, List};
    ghost use Rattle.std.specs.BTreeMap.{keys};

    ghost Value = { List ℕ };

    ghost view = { λ p. keys p.peers };
}

impl Peers {
    /// No channel.
    pub fn none(alloc: Global) -> Peers
        ensures { result ≡ [] }
    {
        Peers {
            peers: BTreeMap::new(alloc),
            woken: VecDeque::new(alloc),
        }
    }

    /// One channel more. If there is no memory for it, it comes back.
    pub fn push(&mut self, number: u32, peer: Peer) -> Result<(), Peer>
        requires greatest { list_all (is_below number) self.old ≡ true }
        ensures pushed { OnOk result (self.new ≡ self.old ++ number ∷ []) }
        ensures refused { OnErr result (self.new ≡ self.old) }
    {
        match self.peers.insert(number, peer) {
            Ok(_) => Ok(()),
            Err(e) => Err(e.value.1),
        }
    }

    /// Closes the channel's socket.
    pub fn close(&mut self, ch: Channel)
        ensures { self.new ≡ without ch.0 self.old }
    {
        if let Some(peer) = self.peers.remove(&ch.0) {
            peer.finish();
        }
    }

    /// Whether the channel is one of these.
    pub fn has(&self, ch: Channel) -> bool
        ensures { result ≡ is_among self.now ch.0 }
    {
        self.peers.contains_key(&ch.0)
    }

    /// The channel of this number.
    pub fn find(&self, ch: Channel) -> Option<&Peer> {
        self.peers.get(&ch.0)
    }

    /// Whether the channel isn't connected yet, and may still be.
    pub fn is_pending(&self, ch: Channel) -> bool {
        self.find(ch).is_some_and(|peer| peer.socket().is_err() && peer.next.get() != Next::Fails)
    }

    /// The channel may be ready, unless it rests.
    pub fn wake(&mut self, ch: Channel)
        ensures { self.new ≡ self.old }
    {
        if let Some(peer) = self.peers.get(&ch.0) {
            if !peer.rests() {
                wake(&mut self.woken, ch.0, peer);
            }
        }
    }

    /// A look named the channel, its end maybe.
    pub fn note(&mut self, ch: Channel, is_ending: bool)
        ensures { self.new ≡ self.old }
    {
        if let Some(peer) = self.find(ch) {
            peer.note(is_ending);
        }
        self.wake(ch);
    }

    /// The takes from the channel fail.
    pub fn lose(&mut self, ch: Channel)
        ensures { self.new ≡ self.old }
    {
        if let Some(peer) = self.find(ch) {
            peer.next.set(Next::Fails);
        }
        self.wake(ch);
    }

    /// Each channel may be ready. Those that were silent for `patience` milliseconds, and on which nothing came since, are lost.
    pub fn wake_all(&mut self, now: u64, patience: u64)
        ensures { self.new ≡ self.old }
    {
        wake_all(&self.peers, &mut self.woken, now, patience);
    }

    /// Whether none may be ready.
    pub fn is_quiet(&self) -> bool {
        self.woken.is_empty()
    }

    /// The next channel that is ready. Those before it that aren't are named by looks from now on.
    pub fn next<N: Net>(&mut self, host: &Host<N>) -> Option<Channel>
        ensures { self.new ≡ self.old }
    {
        next_ready(&self.peers, &mut self.woken, host)
    }
}

/// The channel may be ready. If there is no memory to say so, the next round does.
fn wake(woken: &mut VecDeque<u32>, number: u32, peer: &Peer) {
    if !peer.is_woken.get() {
        peer.is_woken.set(woken.push_back(number).is_ok());
    }
}

fn wake_all(peers: &BTreeMap<u32, Peer>, woken: &mut VecDeque<u32>, now: u64, patience: u64) {
    for (number, peer) in peers {
        peer.doubt();
        if now.saturating_sub(peer.heard.get()) >= patience && !peer.is_ready() {
            peer.next.set(Next::Fails);
        }
        wake(woken, *number, peer);
    }
}

/// The next channel that is ready, which leaves the queue as those before it do.
fn next_ready<N: Net>(
    peers: &BTreeMap<u32, Peer>,
    woken: &mut VecDeque<u32>,
    host: &Host<N>,
) -> Option<Channel> {
    for _ in 0..woken.len() {
        let number = woken.pop_front()?;
        let Some(peer) = peers.get(&number) else {
            continue;
        };
        peer.is_woken.set(false);
        if peer.is_ready() {
            return Some(Channel(number));
        }
        peer.watch(host, number);
    }
    None
}
