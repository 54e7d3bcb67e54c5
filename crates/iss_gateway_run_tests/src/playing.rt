//! Runs of the gateway over an outside in memory, by what comes.
ghost use Rattle.std.specs.Prelude.{◌≡◌, ◌&&◌, true, not, IsTrue, IfOk};
ghost use Rattle.iss_edge.specs.Channels.{is_among};
ghost use Rattle.iss_edge.specs.Memory.{are_clients_apart, is_client_number};
ghost use Rattle.iss_gateway_run_tests.specs.Apart.{Admits};

use iss_edge::{Action, Bytes, Channel, Edge, MemoryEdge, Script};
use iss_gateway_serve::serve_gateway;
use std::alloc::{AllocError, Global};

/// What a wait brings.
#[derive(Clone, Copy)]
pub(crate) enum Come<'a> {
    Client(u32),
    More(u32, &'a [u8]),
    Ended(u32),
}

/// A run that was played, and the outside after it.
#[derive(Drop)]
pub(crate) struct Played {
    pub(crate) status: u8,
    pub(crate) edge: MemoryEdge,
}

/// Plays a run by these words with this to come. The call of the number `failing` fails.
pub(crate) fn play(
    alloc: Global,
    words: &[&str],
    comes: &[Come],
    failing: u64,
) -> Result<Played, AllocError> {
    let words = words_of(alloc, words)?;
    let mut edge = edge_of(alloc, comes, failing)?;
    let status = status_of(alloc, words.as_slice(), &mut edge);
    Ok(Played { status, edge })
}

/// Whether exactly this text went out, on one channel, by whole emits.
pub(crate) fn is_sent(actions: &[Action], channel: u32, text: &[u8]) -> bool {
    let mut rest = text;
    for action in actions {
        if let Action::Emit { ch, bytes, ok } = action {
            match rest.strip_prefix(bytes.as_slice()) {
                Some(more) if ch.0 == channel && *ok => rest = more,
                _ => return false,
            }
        }
    }
    rest.is_empty()
}

/// The top call over any outside: over the one in memory its clauses take long to elaborate.
fn status_of<E: Edge>(alloc: Global, words: &[String], edge: &mut E) -> u8 {
    serve_gateway(alloc, words, edge)
}

fn words_of(alloc: Global, words: &[&str]) -> Result<Vec<String>, AllocError> {
    let mut list = Vec::new(alloc);
    for word in words {
        list.push(String::from_str(alloc, word)?)?;
    }
    Ok(list)
}

fn edge_of(alloc: Global, comes: &[Come], failing: u64) -> Result<MemoryEdge, AllocError> {
    let script = script_of(alloc, comes)?;
    if !are_apart(alloc, script.as_slice())? {
        return Err(AllocError);
    }
    let mut fails = Vec::new(alloc);
    fails.push(failing)?;
    MemoryEdge::new(alloc, Vec::new(alloc), Vec::new(alloc), script, fails)
}

fn script_of(alloc: Global, comes: &[Come]) -> Result<Vec<Script>, AllocError> {
    let mut script = Vec::new(alloc);
    for come in comes {
        script.push(item_of(alloc, *come)?)?;
    }
    Ok(script)
}

fn item_of(alloc: Global, come: Come) -> Result<Script, AllocError> {
    match come {
        Come::Client(ch) => Ok(Script::Client(Channel(ch))),
        Come::More(ch, bytes) => Ok(Script::More(Channel(ch), Bytes::from(bytes.to_vec(alloc)?))),
        Come::Ended(ch) => Ok(Script::Ended(Channel(ch))),
    }
}

/// Whether each client comes on a channel of its own, as an outside in memory asks.
fn are_apart(alloc: Global, script: &[Script]) -> Result<bool, AllocError>
    ensures { IfOk result (λ apart. IsTrue apart → are_clients_apart script.now ≡ true) }
{
    let mut known = Vec::new(alloc);
    for item in script {
        if !comes_apart(&mut known, item)? {
            return Ok(false);
        }
    }
    Ok(true)
}

/// Whether a client comes on a channel that isn't known yet, and then is. All else may come.
fn comes_apart(known: &mut Vec<u32>, item: &Script) -> Result<bool, AllocError>
    ensures { IfOk result (λ apart. IsTrue apart → Admits known.old.items item.now known.new.items) }
{
    match item {
        Script::Client(ch) => {
            if !is_free(known.as_slice(), ch.0) {
                return Ok(false);
            }
            known.push(ch.0)?;
            Ok(true)
        }
        _ => Ok(true),
    }
}

/// Whether a client may come on this channel after these came.
fn is_free(known: &[u32], ch: u32) -> bool
    ensures { IsTrue result → is_client_number ch && not (is_among known.now ch) ≡ true }
{
    if ch < 1 {
        return false;
    }
    if 1000000 < ch {
        return false;
    }
    !is_known(known, ch)
}

fn is_known(known: &[u32], ch: u32) -> bool
    ensures { result ≡ is_among known.now ch }
{
    known.iter().any(|number| *number == ch)
}
