//! The channels of an outside in memory.

ghost use Rattle.std.specs.Prelude.{◌≡◌, ℕ, ◌≤◌, ◌++◌, ◌∷◌, [], true, min, take, drop, length, Ok, Some, None, IfOk, IfSome, IfNone, OnErr};
ghost use Rattle.std.specs.Result.{result_ok};
ghost use Rattle.iss_edge.specs.Calls.{next_arrival, next_bytes};
ghost use Rattle.iss_edge.specs.Channels.{no_channels, is_among, IsUnused, ComesUnused, after_wait, after_dial, after_close, without};
ghost use Rattle.iss_edge.specs.declared.outside.Action.TheVariants.{Dial};
ghost use Rattle.iss_edge.specs.declared.outside.Answered.TheVariants.{Waited, Dialled};
ghost use Rattle.iss_edge.specs.Memory.{Traffic, left_on, next_rest, after_take, are_clients_apart};

use super::piece::Piece;
use crate::{Action, Answered, Arrival, Bytes, Channel, Script};
use std::alloc::{AllocError, Global};
use std::collections::VecDeque;
use std::marker::Model;

/// The greatest number of a channel on which a client comes.
const GREATEST_CLIENT: u32 = 1_000_000;

/// The number of the first channel that is dialled. Clients come on smaller ones.
const FIRST_DIALLED: u32 = GREATEST_CLIENT + 1;

/// What came on channels and is still to come, and which channels are open.
#[derive(Drop)]
pub(crate) struct Network {
    /// What came, in order. Standard input came at the start.
    pieces: Vec<Piece>,
    /// What is to come, an item for each wait.
    script: VecDeque<Script>,
    clients: Vec<u32>,
    dialled: Vec<u32>,
    /// How often a dial succeeded.
    dials: u32,
    ready: Option<u32>,
}

impl Model for Network {
    ghost use Rattle.std.specs.Prelude.{◌≡◌, true};
    ghost use Rattle.iss_edge.specs.Memory.{Traffic, is_client_number, is_dialled_number, are_to_come};
    ghost use Rattle.std.specs.List.{list_all};

    ghost Value = { Traffic };

    ghost view = { λ n. record {
      pieces = n.pieces.items;
      script = n.script.items;
      channels = record { clients = n.clients.items; dialled = n.dialled.items; ready = n.ready };
    } };

    ghost invariant = { λ n.
        (are_to_come n.clients.items n.script.items ≡ true)
        × (list_all is_client_number n.clients.items ≡ true)
        × (list_all (is_dialled_number n.dials) n.dialled.items ≡ true) };
}

impl Network {
    /// No channel is open, these bytes came on channel 0, and the script is to come.
    pub(crate) fn new(
        alloc: Global,
        input: Bytes,
        script: Vec<Script>,
    ) -> Result<Network, AllocError>
        requires { are_clients_apart script.items ≡ true }
        ensures { IfOk result (λ network. network
            ≡ record { pieces = record { ch = record { 0 = 0 }; rest = input } ∷ []; script = script.items; channels = no_channels }) }
    {
        let mut pieces = Vec::new(alloc);
        pieces.push(Piece::new(Channel(0), input))?;
        Ok(Network {
            pieces,
            script: VecDeque::from(script),
            clients: Vec::new(alloc),
            dialled: Vec::new(alloc),
            dials: 0,
            ready: None,
        })
    }

    /// What the next item of the script brings. If an allocation fails, it stays to come.
    pub(crate) fn wait(&mut self) -> Result<Arrival, AllocError>
        ensures is_next { IfOk result (λ arrives. arrives ≡ next_arrival self.old.script) }
        ensures left { IfOk result (λ arrives. (ch : ℕ) → left_on self.new.pieces ch
            ≡ left_on self.old.pieces ch ++ next_bytes self.old.script ch) }
        ensures script { IfOk result (λ arrives. self.new.script ≡ drop 1 self.old.script) }
        ensures unused { IfOk result (ComesUnused self.old.channels) }
        ensures channels { self.new.channels ≡ after_wait (result_ok result) self.old.channels }
        ensures kept { OnErr result (self.new ≡ self.old) }
    {
        self.pieces.reserve(1)?;
        self.clients.reserve(1)?;
        match self.script.pop_front() {
            Some(Script::Client(ch)) => {
                self.clients.push(ch.0)?;
                Ok(Arrival::Client(ch))
            }
            Some(Script::More(ch, bytes)) => {
                self.pieces.push(Piece::new(ch, bytes))?;
                self.ready = Some(ch.0);
                Ok(Arrival::Ready(ch))
            }
            Some(Script::Ended(ch)) => {
                self.ready = Some(ch.0);
                Ok(Arrival::Ready(ch))
            }
            Some(Script::Time(at)) => Ok(Arrival::Time(at)),
            Some(Script::Idle) => Ok(Arrival::Idle),
            None => Ok(Arrival::End),
        }
    }

    /// A channel that was not open, if there is memory and a number is left.
    pub(crate) fn dial(&mut self) -> Option<Channel>
        ensures unused { IfSome result (IsUnused self.old.channels) }
        ensures dialled { self.new ≡ record self.old { channels = after_dial result self.old.channels } }
    {
        let number = self.dials.checked_add(FIRST_DIALLED)?;
        self.dialled.push(number).ok()?;
        self.dials += 1;
        Some(Channel(number))
    }

    /// Closes a channel.
    pub(crate) fn close(&mut self, ch: Channel)
        ensures { self.new ≡ record self.old { channels = after_close ch self.old.channels } }
    {
        forget(&mut self.clients, ch);
        forget(&mut self.dialled, ch);
    }

    /// Copies the next bytes of a channel into the start of the buffer, as many as came at once and fit, and returns how many.
    pub(crate) fn copy_next(&self, ch: Channel, buf: &mut [u8]) -> usize
        ensures count { result ≡ min (length buf.old) (length (next_rest ch.0 self.now.pieces)) }
        ensures bytes { take result buf.new ≡ take result (next_rest ch.0 self.now.pieces) }
    {
        copy_start(next_rest(self.pieces.as_slice(), ch), buf)
    }

    /// Takes `count` bytes of the channel's next piece.
    pub(crate) fn pass(&mut self, ch: Channel, count: usize)
        requires { count ≤ length (next_rest ch.0 self.old.pieces) }
        ensures { self.new ≡ record self.old { pieces = after_take ch.0 count self.old.pieces } }
    {
        pass_next(self.pieces.as_mut_slice(), ch, count);
    }

    /// Whether the channel was dialled and not closed since.
    pub(crate) fn is_dialled(&self, ch: Channel) -> bool
        ensures { result ≡ is_among self.now.channels.dialled ch.0 }
    {
        self.dialled.iter().any(|number| *number == ch.0)
    }
}

/// Takes the channel out of these.
fn forget(numbers: &mut Vec<u32>, ch: Channel)
    ensures { numbers.new.items ≡ without ch.0 numbers.old.items }
{
    numbers.retain(|number| *number != ch.0);
}

/// What is left of the first piece that has bytes of the channel, or no bytes.
fn next_rest<'a>(pieces: &'a [Piece], ch: Channel) -> &'a [u8]
    ensures { result.now ≡ next_rest ch.0 pieces.now }
{
    for piece in pieces {
        if piece.has_more_on(ch) {
            return piece.rest();
        }
    }
    &[]
}

/// Takes `count` bytes of that piece.
fn pass_next(pieces: &mut [Piece], ch: Channel, count: usize)
    requires { count ≤ length (next_rest ch.0 pieces.old) }
    ensures { pieces.new ≡ after_take ch.0 count pieces.old }
{
    for piece in pieces.iter_mut() {
        if piece.has_more_on(ch) {
            piece.pass(count);
            return;
        }
    }
}

/// Copies the bytes into the start of the buffer, as many as fit, and returns how many.
fn copy_start(bytes: &[u8], buf: &mut [u8]) -> usize
    ensures count { result ≡ min (length buf.old) (length bytes.now) }
    ensures bytes { take result buf.new ≡ take result bytes.now }
{
    let count = buf.len().min(bytes.len());
    buf[..count].copy_from_slice(&bytes[..count]);
    count
}

/// What the next item of the script brings, noted as an answer, or nothing at all if an allocation fails.
pub(crate) fn arrive(
    network: &mut Network,
    heard: &mut Vec<Answered>,
) -> Result<Arrival, AllocError>
    ensures is_next { IfOk result (λ arrives. arrives ≡ next_arrival network.old.script) }
    ensures left { IfOk result (λ arrives. (ch : ℕ) → left_on network.new.pieces ch
        ≡ left_on network.old.pieces ch ++ next_bytes network.old.script ch) }
    ensures script { IfOk result (λ arrives. network.new.script ≡ drop 1 network.old.script) }
    ensures unused { IfOk result (ComesUnused network.old.channels) }
    ensures channels { network.new.channels ≡ after_wait (result_ok result) network.old.channels }
    ensures kept { OnErr result (network.new ≡ network.old) }
    ensures heard { IfOk result (λ arrives. heard.new.items ≡ heard.old.items ++ Waited (Some arrives) ∷ []) }
    ensures unheard { OnErr result (heard.new.items ≡ heard.old.items) }
{
    // With room for the answer, nothing can fail after the item was passed.
    heard.reserve(1)?;
    let arrives = network.wait()?;
    heard.push(Answered::Waited(Some(arrives)))?;
    Ok(arrives)
}

/// Opens a channel and notes it in both lists, or nothing at all if an allocation fails or no number is left.
pub(crate) fn open_channel(
    network: &mut Network,
    trace: &mut Vec<Action>,
    heard: &mut Vec<Answered>,
) -> Option<Channel>
    ensures unused { IfSome result (IsUnused network.old.channels) }
    ensures dialled { network.new ≡ record network.old { channels = after_dial result network.old.channels } }
    ensures noted { IfSome result (λ ch. trace.new.items ≡ trace.old.items ++ Dial ch ∷ []) }
    ensures heard { IfSome result (λ ch. heard.new.items ≡ heard.old.items ++ Dialled (Some ch) ∷ []) }
    ensures unnoted { IfNone result (trace.new.items ≡ trace.old.items) }
    ensures unheard { IfNone result (heard.new.items ≡ heard.old.items) }
{
    // With room in both lists, nothing can fail after the channel is open.
    trace.reserve(1).ok()?;
    heard.reserve(1).ok()?;
    let ch = network.dial()?;
    trace.push(Action::Dial { ch }).ok()?;
    heard.push(Answered::Dialled(Some(ch))).ok()?;
    Some(ch)
}
