//! What a gateway answers to asks that come in pieces, and to clients that fail.
use crate::playing::{Come, is_sent, play};
use iss_edge::Action;
use std::alloc::{AllocError, Global};
use std::test::Fail;

/// A gateway that funds at most 60.00 for a call and 100.00 for a user.
const WORDS: &[&str] = &["8000", "100", "6000", "10000"];

/// An ask of 60.00 in three pieces, cut inside the last header line and inside the body.
const FIRST: &[Come<'static>] = &[
    Come::Client(1),
    Come::More(1, b"POST /jit HTTP/1.1\r\nContent-Le"),
    Come::More(
        1,
        b"ngth: 195\r\n\r\n{\"amount\":\"60.00\",\"card\":\"c1\",\"curr",
    ),
    Come::More(
        1,
        b"ency\":\"USD\",\"event\":\"a1\",\"mcc\":\"5411\",\"method\":\"pgfs.authorization\",\"mid\":\"m1\",\"number\":1,\"token\":\"00000000-0000-8000-8000-000000000001\",\"txn\":\"a1\",\"user\":\"u1\"}",
    ),
];

const FUNDED: &[u8] =
    b"HTTP/1.1 200 OK\r\nContent-Type: application/json\r\nContent-Length: 66\r\nConnection: close\r\n\r\n{\"amount\":\"60.00\",\"token\":\"00000000-0000-8000-8000-000000000001\"}\n";

/// A body that is no message, and a client that ends before its request is whole.
const NO_MESSAGE: &[Come<'static>] = &[
    Come::Client(1),
    Come::Client(2),
    Come::More(2, b"POST /jit HT"),
    Come::More(1, b"POST /jit HTTP/1.1\r\nContent-Length: 2\r\n\r\n{}"),
    Come::Ended(2),
];

const UNREAD: &[u8] =
    b"HTTP/1.1 400 Bad Request\r\nContent-Type: application/json\r\nContent-Length: 32\r\nConnection: close\r\n\r\n{\"fault\":\"TEXT\",\"reply\":\"form\"}\n";

/// The status of a run, whether this text went out on channel 1, and how many channels were closed.
fn outcome(
    alloc: Global,
    words: &[&str],
    comes: &[Come],
    failing: u64,
    text: &[u8],
) -> Result<(u8, bool, usize), AllocError> {
    let played = play(alloc, words, comes, failing)?;
    let actions = played.edge.trace();
    let closes = actions.iter().filter(|action| is_close(action)).count();
    Ok((played.status, is_sent(actions, 1, text), closes))
}

fn is_close(action: &Action) -> bool {
    matches!(action, Action::Close { .. })
}

#[test]
fn an_ask_in_three_pieces_is_funded(rt: HostRuntime) -> Result<(), Fail> {
    assert_eq!(rt; outcome(rt.alloc(), WORDS, FIRST, 0, FUNDED)?, (0, true, 1));
    Ok(())
}

#[test]
fn a_body_that_is_no_message_is_told_so(rt: HostRuntime) -> Result<(), Fail> {
    assert_eq!(rt;
        outcome(rt.alloc(), WORDS, NO_MESSAGE, 0, UNREAD)?,
        (0, true, 2)
    );
    Ok(())
}

#[test]
fn a_wait_that_fails_ends_the_run(rt: HostRuntime) -> Result<(), Fail> {
    assert_eq!(rt; outcome(rt.alloc(), WORDS, FIRST, 2, b"")?, (3, true, 0));
    Ok(())
}

#[test]
fn a_take_that_fails_costs_its_channel(rt: HostRuntime) -> Result<(), Fail> {
    assert_eq!(rt; outcome(rt.alloc(), WORDS, FIRST, 3, b"")?, (0, true, 1));
    Ok(())
}

#[test]
fn other_words_are_refused(rt: HostRuntime) -> Result<(), Fail> {
    assert_eq!(rt;
        outcome(rt.alloc(), &["8000", "100", "6000"], FIRST, 0, b"")?,
        (2, true, 0)
    );
    Ok(())
}
