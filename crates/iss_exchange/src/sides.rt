//! What both sides keep, and what is between them.
use iss_core::Core;
use iss_exchange_laws::Sent;
use iss_gateway::{Gateway, Given, Message};
use iss_model::Record;

/// What the gateway gave for what was sent.
#[derive(Clone, Copy)]
pub struct Answer {
    pub what: Sent,
    pub given: Given,
}

/// The processor's records with their core, those of them that were released with a core of their own, what was sent, given and
/// heard, and the gateway.
#[derive(Drop)]
pub(crate) struct Sides {
    pub(crate) instance: u64,
    pub(crate) core: Core,
    pub(crate) released_core: Core,
    pub(crate) records: Vec<Record>,
    /// How many of the records were released.
    pub(crate) released: usize,
    pub(crate) sent: Vec<Sent>,
    pub(crate) given: Vec<Answer>,
    pub(crate) heard: Vec<Message>,
    pub(crate) gateway: Gateway,
}
