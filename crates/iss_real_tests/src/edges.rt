//! The real outside: a file and loopback connections, one step after the other.

ghost use Rattle.std.specs.Prelude.{◌<◌, length};

use iss_edge::{Arrival, Channel, Edge};
use iss_real::{Device, RealEdge, Sockets};
use std::fs::{read_dir, remove_file};
use std::io;
use std::io::{Empty, Sink};
use std::net::{Ipv4Addr, TcpStream};
use std::test::Fail;

/// How many waits may bring nothing.
const WAITS: u32 = 60;

/// Ports that no other program here is likely to have, one for each test. The system gives none of them to a client.
const PORTS: [u16; 4] = [17217, 17218, 17219, 17220];

/// A file that a test makes in its folder, and removes.
const FILE: &str = "edge-test";

/// Where the system lists this process's open handles.
const HANDLES: &str = "/proc/self/fd";

/// How many connections are opened at once, each of two channels.
const CONNECTIONS: u32 = 40;

/// How many times a peer is sent bytes that it doesn't read.
const EMITS: u32 = 1000;

/// An outside that listens on a port, and dials it.
fn edge_on(
    rt: HostRuntime,
    port: u16,
    device: Device,
) -> io::Result<RealEdge<Empty, Sink, HostRuntime>> {
    let mut sockets = Sockets::none(rt, rt.alloc());
    sockets.listen(rt.alloc(), port)?;
    sockets.set_gateway(port);
    Ok(RealEdge::new(io::empty(), io::sink(), device, sockets))
}

/// The next client.
fn client<E: Edge>(edge: &mut E) -> Option<Channel> {
    for _ in 0..WAITS {
        match edge.wait() {
            Ok(Arrival::Client(ch)) => return Some(ch),
            Ok(Arrival::Time(_) | Arrival::Idle) => {}
            _ => return None,
        }
    }
    None
}

/// A connection from the edge to itself, by which a text is sent: the channel that was dialled, and the client's.
fn connection<E: Edge>(edge: &mut E) -> Option<(Channel, Channel)> {
    let ours = edge.dial().ok()?;
    edge.emit(ours, b"ask").ok()?;
    Some((ours, client(edge)?))
}

/// The next channel that is ready, and how many bytes were taken from it.
fn taken<E: Edge>(edge: &mut E, buf: &mut [u8]) -> Option<(u32, usize)>
    requires { 0 < length buf.old }
{
    for _ in 0..WAITS {
        match edge.wait() {
            Ok(Arrival::Ready(ch)) => return Some((ch.0, edge.take(ch, buf).ok()?)),
            Ok(Arrival::Time(_) | Arrival::Idle) => {}
            _ => return None,
        }
    }
    None
}

/// Whether a file keeps what is written.
fn keeps_what_is_written<E: Edge>(edge: &mut E) -> bool {
    let mut buf = [1; 8];
    if edge.size() != 8 || edge.write_at(2, b"abc").is_err() || edge.sync().is_err() {
        return false;
    }
    edge.read_at(0, &mut buf).is_ok() && buf == *b"\0\0abc\0\0\0"
}

/// Whether reads that follow one another see what was written over bytes that may have been read ahead.
fn sees_what_is_written_over<E: Edge>(edge: &mut E) -> bool {
    let mut buf = [1; 2];
    if edge.size() != 8
        || edge.read_at(0, &mut buf).is_err()
        || edge.read_at(2, &mut buf).is_err()
    {
        return false;
    }
    let goes_on = edge.read_at(4, &mut buf).is_ok() && buf == *b"c\0";
    goes_on
        && edge.write_at(3, b"xyz").is_ok()
        && edge.read_at(6, &mut buf).is_ok()
        && buf == *b"\0\0"
        && edge.read_at(4, &mut buf).is_ok()
        && buf == *b"yz"
}

/// Whether a connection that the edge dials to itself brings what is sent, both ways, and then its end, once.
fn connects<E: Edge>(edge: &mut E) -> bool {
    let mut buf = [0; 8];
    let Some((ours, theirs)) = connection(edge) else {
        return false;
    };
    let asked = taken(edge, &mut buf) == Some((theirs.0, 3)) && buf.starts_with(b"ask");
    let answered = edge.emit(theirs, b"answer").is_ok()
        && taken(edge, &mut buf) == Some((ours.0, 6))
        && buf.starts_with(b"answer");
    edge.close(theirs);
    let ended = taken(edge, &mut buf) == Some((ours.0, 0)) && taken(edge, &mut buf).is_none();
    edge.close(ours);
    asked && answered && ended && edge.emit(ours, b"more").is_err()
}

/// Whether each piece that comes on a connection is found, one that fills the buffer too, and the end that comes with the last one, once.
fn finds_each_piece<E: Edge>(edge: &mut E) -> bool {
    let mut buf = [0; 8];
    let Some((ours, theirs)) = connection(edge) else {
        return false;
    };
    let whole = taken(edge, &mut buf) == Some((theirs.0, 3));
    let cut = edge.emit(ours, b"piece by piece").is_ok()
        && taken(edge, &mut buf) == Some((theirs.0, 8))
        && taken(edge, &mut buf) == Some((theirs.0, 6));
    let is_out = edge.emit(ours, b"last").is_ok();
    edge.close(ours);
    let ended = taken(edge, &mut buf) == Some((theirs.0, 4))
        && taken(edge, &mut buf) == Some((theirs.0, 0))
        && taken(edge, &mut buf).is_none();
    edge.close(theirs);
    whole && cut && is_out && ended
}

#[test]
fn a_file_and_a_connection(rt: HostRuntime) -> Result<(), Fail> {
    let _ = remove_file(&rt, FILE);
    let device = Device::opened_or_made(&rt, FILE, 8);
    // Its handle keeps the file until the test ends, however it does.
    remove_file(&rt, FILE)?;
    let mut edge = edge_on(rt, PORTS[0], device)?;

    assert!(rt; keeps_what_is_written(&mut edge));
    assert!(rt; sees_what_is_written_over(&mut edge));
    assert!(rt; connects(&mut edge));
    assert!(rt; finds_each_piece(&mut edge));
    Ok(())
}

/// Whether an emit on the channel fails in the end, as it has to if nobody reads.
fn fails_to_emit<E: Edge>(edge: &mut E, ch: Channel) -> bool {
    for _ in 0..EMITS {
        if edge.emit(ch, &[b'x'; 65536]).is_err() {
            return true;
        }
    }
    false
}

#[test]
fn a_peer_that_neither_reads_nor_writes(rt: HostRuntime) -> Result<(), Fail> {
    let mut edge = edge_on(rt, PORTS[1], Device::absent())?;
    let _peer = TcpStream::connect(&rt, (Ipv4Addr::LOCALHOST, PORTS[1]))?;
    let Some(ch) = client(&mut edge) else {
        return Err(Fail::from(io::Error::from(io::ErrorKind::NotConnected)));
    };

    assert!(rt; fails_to_emit(&mut edge, ch));
    assert!(rt; connects(&mut edge));
    Ok(())
}

/// Whether the next take fails.
fn fails_to_take<E: Edge>(edge: &mut E) -> bool {
    let mut buf = [0; 8];
    for _ in 0..WAITS {
        match edge.wait() {
            Ok(Arrival::Ready(ch)) => return edge.take(ch, &mut buf).is_err(),
            Ok(Arrival::Time(_) | Arrival::Idle) => {}
            _ => return false,
        }
    }
    false
}

#[test]
fn a_connection_that_is_reset(rt: HostRuntime) -> Result<(), Fail> {
    let mut edge = edge_on(rt, PORTS[3], Device::absent())?;
    let peer = TcpStream::connect(&rt, (Ipv4Addr::LOCALHOST, PORTS[3]))?;
    let Some(ch) = client(&mut edge) else {
        return Err(Fail::from(io::Error::from(io::ErrorKind::NotConnected)));
    };

    // A socket that is closed with bytes unread resets its connection.
    assert!(rt; edge.emit(ch, b"unread").is_ok());
    drop(peer);
    assert!(rt; fails_to_take(&mut edge));
    Ok(())
}

/// How many handles this process has open.
fn handles(rt: &HostRuntime) -> io::Result<usize> {
    Ok(read_dir(rt, HANDLES)?.count())
}

/// Opens connections until one can't be had, for want of a handle, and closes them all.
fn open_many<E: Edge>(edge: &mut E) {
    for _ in 0..CONNECTIONS {
        if connection(edge).is_none() {
            break;
        }
    }
    for number in 1..=2 * CONNECTIONS {
        edge.close(Channel(number));
    }
    close_if_one_comes(edge);
}

/// If no handle was left for a client, it comes once there is one.
fn close_if_one_comes<E: Edge>(edge: &mut E) {
    if let Some(late) = client(edge) {
        edge.close(late);
    }
}

#[test]
fn more_connections_than_handles(rt: HostRuntime) -> Result<(), Fail> {
    let mut edge = edge_on(rt, PORTS[2], Device::absent())?;
    let before = handles(&rt)?;

    open_many(&mut edge);
    assert_eq!(rt; handles(&rt)?, before);
    assert!(rt; connects(&mut edge));
    Ok(())
}

/// The file of the device that is opened twice.
const LOCKED: &str = "locked";

#[test]
fn a_device_is_open_once(rt: HostRuntime) -> Result<(), Fail> {
    let _ = remove_file(&rt, LOCKED);
    assert_eq!(rt; Device::opened(&rt, LOCKED).size(), 0);
    let first = Device::opened_or_made(&rt, LOCKED, 8);
    assert_eq!(rt; first.size(), 8);
    assert_eq!(rt; Device::opened(&rt, LOCKED).size(), 0);
    drop(first);
    assert_eq!(rt; Device::opened(&rt, LOCKED).size(), 8);
    remove_file(&rt, LOCKED)?;
    Ok(())
}
