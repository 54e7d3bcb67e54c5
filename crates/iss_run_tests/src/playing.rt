//! Runs over an outside in memory, by what they begin with.
ghost use Rattle.std.specs.Prelude.{◌≡◌, ◌&&◌, true, not, IsTrue, IfOk};
ghost use Rattle.iss_edge.specs.Channels.{is_among};
ghost use Rattle.iss_edge.specs.Memory.{are_clients_apart, is_client_number};
ghost use Rattle.iss_run_tests.specs.Apart.{Admits};

use iss_edge::{Bytes, Channel, Edge, MemoryEdge, Script};
use iss_top::run;
use std::alloc::{AllocError, Global};

/// What a wait brings.
#[derive(Clone, Copy)]
pub(crate) enum Come<'a> {
    Client(u32),
    /// A whole request with this line.
    Asks(u32, &'a str),
    More(u32, &'a [u8]),
    /// As many bytes `a`.
    Letters(u32, usize),
    Ended(u32),
    Time(u64),
}

/// A device of this size: these pieces, zeros, and then the records that these lines make there.
#[derive(Clone, Copy)]
pub(crate) struct Device {
    pub(crate) size: usize,
    pub(crate) pieces: &'static [&'static [u8]],
    pub(crate) lines: &'static str,
    /// How many times a user of 36 letters has moved before, who makes a record more; there is no such user if it is 0.
    pub(crate) moves: usize,
}

/// A run: what it begins with, and what it has to do.
#[derive(Clone, Copy)]
pub(crate) struct Run {
    pub(crate) what: &'static str,
    pub(crate) words: &'static [&'static str],
    pub(crate) device: Device,
    pub(crate) input: &'static str,
    pub(crate) comes: &'static [Come<'static>],
    /// The numbers of the calls that fail.
    pub(crate) fails: &'static [u64],
    pub(crate) status: u8,
    /// What is done, two letters each (`told`).
    pub(crate) done: &'static str,
    /// What the calls answer, two letters each.
    pub(crate) heard: &'static str,
    /// All that goes out, if it is compared.
    pub(crate) sent: Option<&'static str>,
    /// The device after it, if it is compared.
    pub(crate) leaves: Option<Device>,
    /// How many calls it makes that may fail, or 0 if none is to fail but those above.
    pub(crate) calls: u64,
    /// How many records stand before each text goes out.
    pub(crate) levels: &'static [usize],
    /// Which texts wait for the gateway, if they are compared with what the next run writes first. All requests come before all
    /// notices, in the order of their numbers.
    pub(crate) waiting: Option<&'static [Waiting]>,
}

/// A text that waits for the gateway: its number among the texts of a run, from 0. It waits if at least `from` records stand,
/// and fewer than `until`.
#[derive(Clone, Copy)]
pub(crate) struct Waiting {
    pub(crate) text: usize,
    pub(crate) from: usize,
    pub(crate) until: usize,
}

/// A device of no bytes.
pub(crate) const NO_DEVICE: Device = Device {
    size: 0,
    pieces: &[],
    lines: "",
    moves: 0,
};

/// A replay of no lines: it opens the device and writes what waits for the gateway.
pub(crate) const OPENING: Run = Run {
    what: "an opening",
    words: &["replay", "d"],
    device: NO_DEVICE,
    input: "",
    comes: &[],
    fails: &[],
    status: 0,
    done: "",
    heard: "",
    sent: None,
    leaves: None,
    calls: 0,
    levels: &[],
    waiting: None,
};

/// A run that was played, and the outside after it.
#[derive(Drop)]
pub(crate) struct Played {
    pub(crate) status: u8,
    pub(crate) edge: MemoryEdge,
}

/// Plays the run on this device with this to come, and the call of this number fails too.
pub(crate) fn play(
    alloc: Global,
    row: &Run,
    comes: &[Come],
    device: &[u8],
    failing: u64,
) -> Result<Played, AllocError> {
    play_lines(alloc, row, row.input, comes, device, failing)
}

/// The same with these lines in the place of the run's own.
fn play_lines(
    alloc: Global,
    row: &Run,
    lines: &str,
    comes: &[Come],
    device: &[u8],
    failing: u64,
) -> Result<Played, AllocError> {
    let words = words_of(alloc, row.words)?;
    let mut edge = edge_of(alloc, row, lines, comes, device, failing)?;
    let status = status_of(alloc, words.as_slice(), &mut edge);
    Ok(Played { status, edge })
}

/// The top call over any outside: over the one in memory its clauses take long to elaborate.
fn status_of<E: Edge>(alloc: Global, words: &[String], edge: &mut E) -> u8 {
    run(alloc, words, edge)
}

fn words_of(alloc: Global, words: &[&str]) -> Result<Vec<String>, AllocError> {
    let mut list = Vec::new(alloc);
    for word in words {
        list.push(String::from_str(alloc, word)?)?;
    }
    Ok(list)
}

fn edge_of(
    alloc: Global,
    row: &Run,
    lines: &str,
    comes: &[Come],
    device: &[u8],
    failing: u64,
) -> Result<MemoryEdge, AllocError> {
    let script = script_of(alloc, comes)?;
    if !are_apart(alloc, script.as_slice())? {
        return Err(AllocError);
    }
    let device = device.to_vec(alloc)?;
    let input = lines.as_bytes().to_vec(alloc)?;
    let mut fails = row.fails.to_vec(alloc)?;
    fails.push(failing)?;
    MemoryEdge::new(alloc, device, input, script, fails)
}

fn script_of(alloc: Global, comes: &[Come]) -> Result<Vec<Script>, AllocError> {
    let mut script = Vec::new(alloc);
    for come in comes {
        script.push(item_of(alloc, *come)?)?;
    }
    Ok(script)
}

fn item_of(alloc: Global, come: Come) -> Result<Script, AllocError> {
    match come {
        Come::Client(ch) => Ok(Script::Client(Channel(ch))),
        Come::Asks(ch, line) => Ok(Script::More(Channel(ch), request(alloc, line)?)),
        Come::More(ch, bytes) => Ok(Script::More(Channel(ch), Bytes::from(bytes.to_vec(alloc)?))),
        Come::Letters(ch, count) => Ok(Script::More(Channel(ch), letters(alloc, count)?)),
        Come::Ended(ch) => Ok(Script::Ended(Channel(ch))),
        Come::Time(at) => Ok(Script::Time(at)),
    }
}

fn letters(alloc: Global, count: usize) -> Result<Bytes, AllocError> {
    let mut bytes = Vec::new(alloc);
    bytes.resize(count, b'a')?;
    Ok(Bytes::from(bytes))
}

/// A whole request with this line.
fn request(alloc: Global, line: &str) -> Result<Bytes, AllocError> {
    let length = line.len();
    let text = format!(in alloc;
        "POST /events HTTP/1.1\r\nContent-Length: {length}\r\n\r\n{line}"
    )?;
    Ok(Bytes::from(text.into_bytes()))
}

/// Whether each client comes on a channel of its own, as an outside in memory asks.
fn are_apart(alloc: Global, script: &[Script]) -> Result<bool, AllocError>
    ensures { IfOk result (λ apart. IsTrue apart → are_clients_apart script.now ≡ true) }
{
    let mut known = Vec::new(alloc);
    for item in script {
        if !comes_apart(&mut known, item)? {
            return Ok(false);
        }
    }
    Ok(true)
}

/// Whether a client comes on a channel that isn't known yet, and then is. All else may come.
fn comes_apart(known: &mut Vec<u32>, item: &Script) -> Result<bool, AllocError>
    ensures { IfOk result (λ apart. IsTrue apart → Admits known.old.items item.now known.new.items) }
{
    match item {
        Script::Client(ch) => {
            if !is_free(known.as_slice(), ch.0) {
                return Ok(false);
            }
            known.push(ch.0)?;
            Ok(true)
        }
        _ => Ok(true),
    }
}

/// Whether a client may come on this channel after these came.
fn is_free(known: &[u32], ch: u32) -> bool
    ensures { IsTrue result → is_client_number ch && not (is_among known.now ch) ≡ true }
{
    if ch < 1 {
        return false;
    }
    if 1000000 < ch {
        return false;
    }
    !is_known(known, ch)
}

fn is_known(known: &[u32], ch: u32) -> bool
    ensures { result ≡ is_among known.now ch }
{
    known.iter().any(|number| *number == ch)
}

const MOVING_USER: &str = "wwwwwwwwwwwwwwwwwwwwwwwwwwwwwwwwwwww";

/// The device that a run begins with.
pub(crate) fn start_of(alloc: Global, device: &Device) -> Result<Vec<u8>, AllocError> {
    let mut bytes = Vec::new(alloc);
    for piece in device.pieces {
        bytes.extend_from_slice(*piece)?;
    }
    bytes.resize(device.size, 0)?;
    if device.moves > 0 {
        let moves = moves_of(alloc, device.moves)?;
        bytes = filled(alloc, bytes.as_slice(), moves.as_str())?;
    }
    if !device.lines.is_empty() {
        bytes = filled(alloc, bytes.as_slice(), device.lines)?;
    }
    Ok(bytes)
}

/// A device with the records that these lines make.
fn filled(alloc: Global, device: &[u8], lines: &str) -> Result<Vec<u8>, AllocError> {
    let played = play_lines(alloc, &OPENING, lines, &[], device, 0)?;
    played.edge.device().to_vec(alloc)
}

/// A user, and then this many moves of the user, to SUSPENDED and to ACTIVE in turns. Tokens go from q10 on.
fn moves_of(alloc: Global, count: usize) -> Result<String, AllocError> {
    let mut lines = format!(in alloc;
        "{{\"type\":\"user\",\"token\":\"q10\",\"user\":\"{MOVING_USER}\"}}\n"
    )?;
    for number in (11usize..).take(count) {
        let state = if number % 2 == 1 {
            "SUSPENDED"
        } else {
            "ACTIVE"
        };
        let line = format!(in alloc;
            "{{\"type\":\"move\",\"token\":\"q{number}\",\"user\":\"{MOVING_USER}\",\"to\":\"{state}\"}}\n"
        )?;
        lines.push_str(line.as_str())?;
    }
    Ok(lines)
}
