//! What a run did and heard, as letters and texts.
use crate::playing::Run;
use iss_edge::{Action, Answered, Arrival, Channel};

/// A place or a channel: digits up to 9, and A, B, .. for the channels that are dialled, from 1000001 on.
fn letter(number: u64) -> u8 {
    match number {
        0..=9 => b'0' + number as u8,
        1000001..=1000026 => b'A' + (number - 1000001) as u8,
        _ => b'.',
    }
}

/// The letter of what was done, in lower case if it failed.
fn cased(letter: u8, ok: bool) -> u8 {
    if ok {
        letter
    } else {
        letter.to_ascii_lowercase()
    }
}

/// A write and its place, a sync, an emit, a dial or a close and its channel.
fn letters_of(action: &Action) -> [u8; 2] {
    match action {
        Action::Write { at, ok, .. } => [cased(b'W', *ok), letter(*at)],
        Action::Sync { ok } => [cased(b'S', *ok), b'.'],
        Action::Emit { ch, ok, .. } => [cased(b'E', *ok), letter(u64::from(ch.0))],
        Action::Dial { ch } => [b'D', letter(u64::from(ch.0))],
        Action::Close { ch } => [b'X', letter(u64::from(ch.0))],
    }
}

/// A client that came, a channel that was ready, a time, nothing or the end, a take, a dial or an emit and its channel.
fn answer_letters(answered: &Answered) -> [u8; 2] {
    match answered {
        Answered::Waited(None) => *b"w.",
        Answered::Waited(Some(Arrival::Client(ch))) => [b'C', letter(u64::from(ch.0))],
        Answered::Waited(Some(Arrival::Ready(ch))) => [b'R', letter(u64::from(ch.0))],
        Answered::Waited(Some(Arrival::Time(_))) => *b"M.",
        Answered::Waited(Some(Arrival::Idle)) => *b"I.",
        Answered::Waited(Some(Arrival::End)) => *b"Z.",
        Answered::Took { ch, bytes } => [cased(b'T', bytes.is_some()), letter(u64::from(ch.0))],
        Answered::Dialled(Some(ch)) => [b'D', letter(u64::from(ch.0))],
        Answered::Dialled(None) => *b"d.",
        Answered::Emitted { ch, ok } => [cased(b'E', *ok), letter(u64::from(ch.0))],
    }
}

pub(crate) fn is_done(actions: &[Action], letters: &str) -> bool {
    let mut rest = letters.as_bytes();
    for action in actions {
        match rest.strip_prefix(&letters_of(action)) {
            Some(more) => rest = more,
            None => return false,
        }
    }
    rest.is_empty()
}

pub(crate) fn is_heard(answers: &[Answered], letters: &str) -> bool {
    let mut rest = letters.as_bytes();
    for answered in answers {
        match rest.strip_prefix(&answer_letters(answered)) {
            Some(more) => rest = more,
            None => return false,
        }
    }
    rest.is_empty()
}

/// What is left of a text after the bytes that went out, if they are its first ones.
pub(crate) fn unsent<'a>(actions: &[Action], text: &'a str) -> Option<&'a [u8]> {
    let mut rest = text.as_bytes();
    for action in actions {
        if let Action::Emit { bytes, .. } = action {
            rest = rest.strip_prefix(bytes.as_slice())?;
        }
    }
    Some(rest)
}

/// The status of a run of whose calls one failed, by that call. A call that reads or writes the device isn't among the answers.
pub(crate) fn status_after(answers: &[Answered]) -> u8 {
    for answered in answers {
        let [what, ch] = answer_letters(answered);
        if what.is_ascii_lowercase() {
            return status_by(what, ch);
        }
    }
    6
}

/// The status that a failed call leads to, by its letters: of those on clients' and dialled channels a run goes on.
fn status_by(what: u8, ch: u8) -> u8 {
    match (what, ch) {
        (b'w', _) | (b't', b'0') => 3,
        (b'e', b'0') => 5,
        _ => 0,
    }
}

/// How many records surely stand after these actions: those before the last text of which a byte went out.
pub(crate) fn level(row: &Run, actions: &[Action]) -> usize {
    let mut level = 0;
    let mut text = 0usize;
    for action in actions {
        if let Action::Emit { bytes, .. } = action {
            if !bytes.is_empty() {
                level = row.levels.get(text).copied().unwrap_or(level);
            }
            text = text.saturating_add(1);
        }
    }
    level
}
