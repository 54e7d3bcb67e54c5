//! The system's sockets: letting clients in, connecting to the gateway, and sleeping until something comes.

use mio::event::Iter;
use mio::net::TcpListener;
use mio::unix::SourceFd;
use mio::{Events, Interest, Poll, Registry, Token};
use std::alloc::Global;
use std::io;
use std::io::ErrorKind;
use std::net::{Ipv4Addr, Net, SocketAddr, TcpStream};
use std::os::fd::AsRawFd;
use std::time::Duration;

/// How many sockets one look may name.
pub const AT_ONCE: u32 = 8192;

/// How many handles are kept back for the gateway.
const FOR_GATEWAY: usize = 8;

/// How many handles are kept back for clients: more, since a client whose call has no handle waits for one.
const FOR_CLIENTS: usize = 16;

/// A port on which clients come, and what the last look named.
#[derive(Drop)]
struct Listener {
    port: TcpListener,
    poll: Poll,
    events: Events<Global>,
}

/// The system's sockets, and the ports of this machine that are listened on and dialled.
#[derive(Drop)]
pub struct Host<N> {
    pub net: N,
    pub alloc: Global,
    listener: Option<Listener>,
    pub gateway: Option<u16>,
    /// Handles that are kept back for each side, so that the other can't take all that the system gives.
    for_clients: Vec<Registry>,
    for_gateway: Vec<Registry>,
}

impl<N: Net> Host<N> {
    /// No port is listened on, and none is dialled.
    pub fn new(net: N, alloc: Global) -> Host<N> {
        Host {
            net,
            alloc,
            listener: None,
            gateway: None,
            for_clients: Vec::new(alloc),
            for_gateway: Vec::new(alloc),
        }
    }

    /// Listens on a port, 0 for any that is free. As many clients as the system allows may wait to be let in.
    pub fn listen(&mut self, alloc: Global, port: u16) -> io::Result<()> {
        let address = SocketAddr::from((Ipv4Addr::LOCALHOST, port));
        let mut port = TcpListener::bind(&self.net, address)?;
        let poll = Poll::new(&self.net)?;
        // No channel has the number 0.
        poll.registry()
            .register(&mut port, Token(0), Interest::READABLE)?;
        let events = Events::with_capacity(alloc, AT_ONCE as usize)?;
        self.listener = Some(Listener { port, poll, events });
        self.keep_back();
        Ok(())
    }

    /// Keeps back the handles that are missing and can be had.
    pub fn keep_back(&mut self) {
        if let Some(listener) = &self.listener {
            keep_back(listener, &mut self.for_gateway, FOR_GATEWAY);
            keep_back(listener, &mut self.for_clients, FOR_CLIENTS);
        }
    }

    /// The socket of a client that came. It doesn't block.
    pub fn accept(&mut self) -> io::Result<TcpStream> {
        let listener = self.listener.as_ref().ok_or(ErrorKind::NotConnected)?;
        let accepted = match listener.port.accept() {
            Err(e) if !is_passing(&e) && self.for_clients.pop().is_some() => listener.port.accept(),
            accepted => accepted,
        };
        // Without a handle the system doesn't say whether anybody came.
        keep_back(listener, &mut self.for_clients, FOR_CLIENTS);
        Ok(TcpStream::from(accepted?.0))
    }

    /// A socket that begins to connect to the gateway. It fails with `WouldBlock` if something but a refusal stands in its way, as want of a
    /// handle: that may be over a moment later.
    pub fn connect(&mut self) -> io::Result<TcpStream> {
        let port = self.gateway.ok_or(ErrorKind::NotConnected)?;
        let address = SocketAddr::from((Ipv4Addr::LOCALHOST, port));
        let mut begun = mio::net::TcpStream::connect(&self.net, address);
        if begun.is_err() && self.for_gateway.pop().is_some() {
            begun = mio::net::TcpStream::connect(&self.net, address);
            self.keep_back();
        }
        match begun {
            Ok(socket) => Ok(TcpStream::from(socket)),
            Err(e) if e.kind() == ErrorKind::ConnectionRefused => Err(e),
            Err(_) => Err(io::Error::from(ErrorKind::WouldBlock)),
        }
    }

    /// Has looks name this socket by its channel's number, until it is closed, and says whether they do. If the system can't, a round of all
    /// channels finds what comes.
    pub fn watch(&self, socket: &TcpStream, number: u32, wanted: Interest) -> bool {
        let Some(listener) = &self.listener else {
            return false;
        };
        let registry = listener.poll.registry();
        let (handle, token) = (socket.as_raw_fd(), Token(number as usize));
        // One that was named while it was connecting is registered already.
        registry
            .register(&mut SourceFd(&handle), token, wanted)
            .or_else(|_| registry.reregister(&mut SourceFd(&handle), token, wanted))
            .is_ok()
    }

    /// Sleeps until something comes, for at most `most` milliseconds, and names what it came on. What came since the last look is named at
    /// once.
    pub fn look(&mut self, most: u64) -> io::Result<Iter<'_>> {
        let listener = self.listener.as_mut().ok_or(ErrorKind::NotConnected)?;
        let sleep = Some(Duration::from_millis(most));
        listener.poll.poll(&mut listener.events, sleep)?;
        Ok(listener.events.iter())
    }
}

fn keep_back(listener: &Listener, handles: &mut Vec<Registry>, most: usize) {
    for _ in handles.len()..most {
        if let Ok(handle) = listener.poll.registry().try_clone() {
            let _ = handles.push(handle);
        }
    }
}

/// Whether the same call may succeed a moment later.
pub fn is_passing(e: &io::Error) -> bool {
    matches!(e.kind(), ErrorKind::WouldBlock | ErrorKind::Interrupted)
}
