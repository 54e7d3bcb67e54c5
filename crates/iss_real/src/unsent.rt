//! Texts for the gateway whose channels aren't connected yet.
//!
//! The edge keeps such a text until a socket takes it. By then it counts as gone out, as its record lasts already. If it
//! is lost with the program, the next run sends it again, as it does with one that is lost in a socket.

ghost use Rattle.std.specs.Prelude.{◌≡◌};

use crate::host::{Host, is_passing};
use crate::peers::Peers;
use iss_edge::Channel;
use mio::Interest;
use std::alloc::Global;
use std::collections::VecDeque;
use std::io;
use std::io::{ErrorKind, Write};
use std::net::{Net, TcpStream};

/// A channel and its text.
#[derive(Drop)]
struct Text {
    ch: Channel,
    bytes: Vec<u8>,
}

/// The texts that no socket took yet, in their order. Only the first has a socket, which is connecting: if the gateway takes no connection
/// now, it takes none for the others.
#[derive(Drop)]
pub struct Unsent {
    alloc: Global,
    texts: VecDeque<Text>,
    socket: Option<TcpStream>,
}

impl Unsent {
    /// No text.
    pub fn none(alloc: Global) -> Unsent {
        Unsent {
            alloc,
            texts: VecDeque::new(alloc),
            socket: None,
        }
    }

    /// One text more, of a channel that isn't connected.
    pub fn push(&mut self, ch: Channel, text: &[u8]) -> io::Result<()> {
        let bytes = text.to_vec(self.alloc)?;
        self.texts.push_back(Text { ch, bytes })?;
        Ok(())
    }

    /// Withdraws the text of a channel that is to be closed, after one more try if it may still be connected.
    pub fn withdraw<N: Net>(&mut self, host: &mut Host<N>, peers: &mut Peers, ch: Channel)
        ensures { peers.new ≡ peers.old }
    {
        if peers.is_pending(ch) {
            self.send_all(host, peers, true);
        }
        // It may be connecting by the number of this channel.
        self.socket = None;
        self.texts.retain(|text| text.ch.0 != ch.0);
    }

    /// Has the gateway take texts while it does, by a new connection if the first one's wasn't made in time. A channel whose connection
    /// fails is lost.
    pub fn send_all<N: Net>(&mut self, host: &mut Host<N>, peers: &mut Peers, is_late: bool)
        ensures { peers.new ≡ peers.old }
    {
        if is_late {
            self.socket = None;
        }
        for _ in 0..self.texts.len() {
            match self.send_first(host, peers) {
                Ok(()) => {}
                Err(e) if is_passing(&e) => return,
                Err(_) => {
                    self.socket = None;
                    host.keep_back();
                    if let Some(text) = self.texts.pop_front() {
                        peers.lose(text.ch);
                    }
                }
            }
        }
    }

    /// Has the gateway take the first text. It would block until the connection is made.
    fn send_first<N: Net>(&mut self, host: &mut Host<N>, peers: &Peers) -> io::Result<()> {
        let Some(text) = self.texts.front() else {
            return Ok(());
        };
        let is_new = self.socket.is_none();
        if is_new {
            self.socket = Some(host.connect()?);
        }
        let mut socket = self.socket.as_ref().ok_or(ErrorKind::NotConnected)?;
        let sent = socket.write(&text.bytes);
        if is_new && sent.is_err() {
            host.watch(socket, text.ch.0, Interest::WRITABLE);
        }
        if sent? < text.bytes.len() {
            return Err(io::Error::from(ErrorKind::WriteZero));
        }
        if let (Some(peer), Some(socket)) = (peers.find(text.ch), self.socket.take()) {
            peer.connect(socket);
            peer.watch(host, text.ch.0);
        }
        self.texts.pop_front();
        Ok(())
    }
}
