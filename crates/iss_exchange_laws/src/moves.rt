//! What is sent, and what may happen between the processor and the gateway.
use iss_model::{Input, Notice, Opened};

/// What the processor sends to the gateway.
#[derive(Clone, Copy)]
pub enum Sent {
    Request(Opened),
    Notice(Notice),
}

/// What may happen. Stamps are in milliseconds since 1970.
#[derive(Drop)]
pub enum Move {
    /// An input comes to the processor at a stamp.
    Input(Input, u64),
    /// The first record that isn't released yet sends its requests and notices.
    Release,
    /// The processor crashes, and this many records are left.
    Crash(u32),
    /// The request or notice of this number, from 1, reaches the gateway.
    ToGateway(u32),
    /// The gateway's answer of this number, from 1, reaches the processor at a stamp.
    ToProcessor(u32, u64),
}
