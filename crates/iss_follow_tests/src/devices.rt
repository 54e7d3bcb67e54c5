//! Devices with records on them, as bytes, and runs on two of them.
ghost use Rattle.std.specs.Prelude.{IfOk, IfSome, IsTrue};
ghost use Rattle.iss_model.specs.texts.Spelling.{is_record};

use iss_codec::{decode, encode};
use iss_edge::{Action, Edge, MemoryEdge};
use iss_follow::follow;
use iss_model::{Input, Moved, Record, Token, UserState};
use iss_store::Store;
use std::alloc::{AllocError, Global};

/// The header of one journal, of instance 0, without records.
pub(crate) const ONE_JOURNAL: &[u8] = b"\x01ISS1\x01\0\0\0\0\0\0\0\0\0";

/// The header of a device in halves, of instance 0, without records.
pub(crate) const HALVES: &[u8] = b"\x01ISS1\x02\0\0\0\0\0\0\0\0\0";

/// The same of instance 7.
pub(crate) const HALVES_OF_7: &[u8] = b"\x01ISS1\x02\0\0\0\0\0\0\0\0\x07";

/// A name of 36 letters.
const LONG_NAME: &[u8] = b"wwwwwwwwwwwwwwwwwwwwwwwwwwwwwwwwwwww";

/// The tokens of the events, in order.
const TOKENS: [&[u8]; 8] = [b"t1", b"t2", b"t3", b"t4", b"t5", b"t6", b"t7", b"t8"];

/// A device of this size that begins so, and has zeros after that.
pub(crate) fn device_of(alloc: Global, front: &[u8], size: usize) -> Result<Vec<u8>, AllocError> {
    let mut device = front.to_vec(alloc)?;
    device.resize(size, 0)?;
    Ok(device)
}

/// An outside with this device, of whose calls the one of this number fails.
pub(crate) fn edge_of(
    alloc: Global,
    device: &[u8],
    failing: u64,
) -> Result<MemoryEdge, AllocError> {
    let device = device.to_vec(alloc)?;
    let mut fails = Vec::new(alloc);
    fails.push(failing)?;
    MemoryEdge::new(alloc, device, Vec::new(alloc), Vec::new(alloc), fails)
}

/// The device with this many records more: a user with a long name, who is suspended and made active by turns.
fn with_moves(alloc: Global, device: &[u8], count: usize) -> Option<Vec<u8>> {
    let mut edge = edge_of(alloc, device, 0).ok()?;
    for number in 0..count {
        committed(alloc, &mut edge, move_of(number)?)?;
    }
    edge.device().to_vec(alloc).ok()
}

/// The device with these users more, by events of their own.
pub(crate) fn with_users(
    alloc: Global,
    device: &[u8],
    users: &[(&[u8], &[u8])],
) -> Option<Vec<u8>> {
    let mut edge = edge_of(alloc, device, 0).ok()?;
    for (token, user) in users {
        committed(alloc, &mut edge, user_of(token, user)?)?;
    }
    edge.device().to_vec(alloc).ok()
}

fn user_of(token: &[u8], user: &[u8]) -> Option<Input> {
    Some(Input::User {
        token: Token::new(token)?,
        user: Token::new(user)?,
    })
}

fn move_of(number: usize) -> Option<Input> {
    let token = TOKENS.get(number)?;
    if number == 0 {
        return user_of(token, LONG_NAME);
    }
    let state = if number % 2 == 1 {
        UserState::Suspended
    } else {
        UserState::Active
    };
    let user = Token::new(LONG_NAME)?;
    Some(Input::Move {
        token: Token::new(token)?,
        who: Moved::User(user, state),
    })
}

/// Commits the record of this input at the stamp 0.
fn committed<E: Edge>(alloc: Global, edge: &mut E, input: Input) -> Option<()> {
    let Ok(Some(record)) = in_form(alloc, &Record { at: 0, input }) else {
        return None;
    };
    let mut store = Store::open(alloc, edge).ok()?;
    let planned = store.plan(alloc, &record.input, record.at).ok()?;
    store.commit(alloc, edge, planned).ok()?;
    Some(())
}

/// The record as it is read again from its spelling, and so in form.
fn in_form(alloc: Global, record: &Record) -> Result<Option<Record>, AllocError>
    ensures { IfOk result (λ found. IfSome found (λ r. IsTrue (is_record r))) }
{
    let bytes = encode(alloc, record)?;
    decode(alloc, bytes.as_slice())
}

/// A run that was played, and both outsides after it.
#[derive(Drop)]
pub(crate) struct Played {
    pub(crate) status: u8,
    pub(crate) from: MemoryEdge,
    pub(crate) to: MemoryEdge,
}

/// Plays a run by these words on these two devices. Of the calls on each, the one of this number fails.
pub(crate) fn play(
    alloc: Global,
    words: &[&str],
    from: (&[u8], u64),
    to: (&[u8], u64),
) -> Result<Played, AllocError> {
    let words = words_of(alloc, words)?;
    let mut from = edge_of(alloc, from.0, from.1)?;
    let mut to = edge_of(alloc, to.0, to.1)?;
    let status = status_of(alloc, words.as_slice(), &mut from, &mut to);
    Ok(Played { status, from, to })
}

/// The top call over any outsides: over those in memory its clauses take long to elaborate.
fn status_of<F: Edge, T: Edge>(alloc: Global, words: &[String], from: &mut F, to: &mut T) -> u8 {
    follow(alloc, words, from, to)
}

fn words_of(alloc: Global, words: &[&str]) -> Result<Vec<String>, AllocError> {
    let mut list = Vec::new(alloc);
    for word in words {
        list.push(String::from_str(alloc, word)?)?;
    }
    Ok(list)
}

/// How many writes were made, and how many syncs.
pub(crate) fn counts_of(actions: &[Action]) -> (usize, usize) {
    let writes = actions.iter().filter(|action| is_write(action)).count();
    let syncs = actions.iter().filter(|action| is_sync(action)).count();
    (writes, syncs)
}

fn is_write(action: &Action) -> bool {
    matches!(action, Action::Write { .. })
}

fn is_sync(action: &Action) -> bool {
    matches!(action, Action::Sync { .. })
}

/// Whether exactly this text went out on channel 0, by one whole emit.
pub(crate) fn is_sent(actions: &[Action], text: &[u8]) -> bool {
    let mut sent = 0usize;
    for action in actions {
        if let Action::Emit { ch, bytes, ok } = action {
            if ch.0 != 0 || !*ok || bytes.as_slice() != text {
                return false;
            }
            sent = sent.saturating_add(1);
        }
    }
    sent == 1
}

/// A device of 707 bytes in halves with eight records, of which seven are in the image of its second half.
pub(crate) fn eight(alloc: Global) -> Option<Vec<u8>> {
    let empty = device_of(alloc, HALVES, 707).ok()?;
    with_moves(alloc, empty.as_slice(), 8)
}
