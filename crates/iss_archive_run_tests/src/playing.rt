//! Runs over any keeper, and what each has to come to.
use crate::devices::{Device, bytes_of, edge_of};
use iss_archive::{Keeper, MapKeeper};
use iss_archive_run::archive;
use iss_edge::{Action, Channel, Edge, MemoryEdge};
use iss_sql_keeper::SqliteKeeper;
use sqlite::Connection;
use std::alloc::{AllocError, Global};

/// A run, and what it has to come to.
#[derive(Clone, Copy)]
pub(crate) struct Run {
    pub(crate) words: &'static [&'static str],
    pub(crate) device: Device,
    /// The number of the call on the outside that fails, or 0.
    pub(crate) failing: u64,
    pub(crate) status: u8,
    /// What is done on the outside, a letter each (`letter_of`).
    pub(crate) done: &'static str,
    /// All that goes out.
    pub(crate) sent: &'static str,
    /// Of how many records the keeper holds the postings after it, and how many these are. It is `None` if it can't be asked.
    pub(crate) held: Option<(u32, u64)>,
}

/// The first five records of the purchase are archived.
pub(crate) const FIVE: Run = Run {
    words: &["archive", "d", "a"],
    device: Device::Purchase(5),
    failing: 0,
    status: 0,
    done: "SE",
    sent: "{\"posts\":1,\"records\":5}\n",
    held: Some((5, 1)),
};

/// All six records of the purchase are archived.
pub(crate) const SIX: Run = Run {
    device: Device::Purchase(6),
    sent: "{\"posts\":2,\"records\":6}\n",
    held: Some((6, 2)),
    ..FIVE
};

/// A run that was played, and the outside after it.
#[derive(Drop)]
pub(crate) struct Played {
    pub(crate) status: u8,
    pub(crate) edge: MemoryEdge,
}

/// The number of the first of these runs, one after the other over a keeper, that doesn't come to what it has to.
pub(crate) fn first_astray<K: Keeper>(
    alloc: Global,
    keeper: &mut K,
    runs: &[Run],
) -> Option<usize> {
    for (number, run) in runs.iter().enumerate() {
        if !comes_to(alloc, keeper, run) {
            return Some(number);
        }
    }
    None
}

/// The same over an empty keeper in memory, whose call of this number fails.
pub(crate) fn first_in_memory(
    alloc: Global,
    failing: u64,
    runs: &[Run],
) -> Result<Option<usize>, AllocError> {
    let mut fails = Vec::new(alloc);
    fails.push(failing)?;
    let mut keeper = MapKeeper::new(alloc, None, Vec::new(alloc), fails)?;
    Ok(first_astray(alloc, &mut keeper, runs))
}

/// The same over an empty database in memory.
pub(crate) fn first_in_database(alloc: Global, runs: &[Run]) -> Result<Option<usize>, AllocError> {
    let conn = Connection::open_in_memory(alloc)?;
    let mut keeper = SqliteKeeper::new(alloc, Some(conn))?;
    Ok(first_astray(alloc, &mut keeper, runs))
}

/// Whether the run comes to what it has to.
fn comes_to<K: Keeper>(alloc: Global, keeper: &mut K, run: &Run) -> bool {
    let Some(played) = play(alloc, keeper, run) else {
        return false;
    };
    let held = held_by(keeper);
    played.status == run.status
        && is_done(played.edge.trace(), run.done)
        && is_sent(played.edge.trace(), run.sent)
        && held == run.held
}

/// Plays the run over this keeper.
pub(crate) fn play<K: Keeper>(alloc: Global, keeper: &mut K, run: &Run) -> Option<Played> {
    let words = words_of(alloc, run.words).ok()?;
    let device = bytes_of(alloc, run.device)?;
    let mut edge = edge_of(alloc, device, run.failing).ok()?;
    let status = status_of(alloc, words.as_slice(), &mut edge, keeper);
    Some(Played { status, edge })
}

/// The top call over any outside and any keeper: over those in memory its clauses take long to elaborate.
fn status_of<E: Edge, K: Keeper>(
    alloc: Global,
    words: &[String],
    edge: &mut E,
    keeper: &mut K,
) -> u8 {
    archive(alloc, words, edge, keeper)
}

fn words_of(alloc: Global, words: &[&str]) -> Result<Vec<String>, AllocError> {
    let mut list = Vec::new(alloc);
    for word in words {
        list.push(String::from_str(alloc, word)?)?;
    }
    Ok(list)
}

/// Of how many records a keeper holds the postings, and how many these are.
pub(crate) fn held_by<K: Keeper>(keeper: &mut K) -> Option<(u32, u64)> {
    match keeper.head().ok()? {
        Some(head) => Some((head.records, head.posts)),
        None => Some((0, 0)),
    }
}

/// The letter of what was done, in lower case if it failed.
fn cased(letter: u8, ok: bool) -> u8 {
    if ok {
        letter
    } else {
        letter.to_ascii_lowercase()
    }
}

/// `W` for a write, `S` for a sync, `E` for an emit on channel 0, and a dot for all else.
fn letter_of(action: &Action) -> u8 {
    match action {
        Action::Write { ok, .. } => cased(b'W', *ok),
        Action::Sync { ok } => cased(b'S', *ok),
        Action::Emit {
            ch: Channel(0),
            ok,
            ..
        } => cased(b'E', *ok),
        _ => b'.',
    }
}

/// Whether exactly this was done.
fn is_done(actions: &[Action], letters: &str) -> bool {
    let mut rest = letters.as_bytes();
    for action in actions {
        match rest.strip_prefix(&[letter_of(action)]) {
            Some(more) => rest = more,
            None => return false,
        }
    }
    rest.is_empty()
}

/// Whether exactly this text went out.
fn is_sent(actions: &[Action], text: &str) -> bool {
    let mut rest = text.as_bytes();
    for action in actions {
        if let Action::Emit { bytes, .. } = action {
            match rest.strip_prefix(bytes.as_slice()) {
                Some(more) => rest = more,
                None => return false,
            }
        }
    }
    rest.is_empty()
}
