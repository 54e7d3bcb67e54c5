//! What is held while a run serves.
ghost use Rattle.std.specs.Prelude.{◌≡◌, ◌<◌, ◌∷◌, [], true, IfOk, OnOk};
ghost use Rattle.iss_model.specs.declared.limits.TheConstants.{INSTANCES};
ghost use Rattle.iss_store.specs.Serving.{has_number, HaveNumbers};
ghost use Rattle.iss_serve.specs.Held.{seen_held, noted, IsHeld, IsStillHeld};

use iss_clients::{Clients, zeros};
use iss_edge::Channel;
use iss_event::Scratch;
use iss_http::RequestReader;
use iss_link::{Gone, Links};
use iss_model::{CallId, Input};
use iss_session::piece::LONGEST_PIECE;
use iss_store::Routes;
use std::alloc::{AllocError, Global};

/// An input that is to be judged, and for a client's line the channel that it came on.
#[derive(Drop)]
pub(crate) struct QueuedInput {
    pub(crate) input: Input,
    pub(crate) client: Option<Channel>,
}

/// What is held while a run serves.
#[derive(Drop)]
pub(crate) struct Held {
    /// The clients whose requests aren't whole yet.
    pub(crate) clients: Clients<RequestReader>,
    /// Where what is said goes out, and the clients that wait until their events are decided.
    pub(crate) routes: Routes,
    /// The channels on which the gateway's answers are awaited.
    pub(crate) links: Links,
    /// The calls that weren't reached: each has its answer, which is still to be judged.
    pub(crate) unreached: Vec<CallId>,
    /// The time that came last, in milliseconds since 1970.
    pub(crate) clock: u64,
    /// How many waits are left.
    pub(crate) turns: u32,
    /// What a take brings.
    pub(crate) buffer: Vec<u8>,
    /// What the line of each request is read over.
    pub(crate) scratch: Scratch,
}

impl Held {
    /// Nothing is held, and `turns` waits are left.
    pub(crate) fn new(alloc: Global, instance: u64, turns: u32) -> Result<Held, AllocError>
        requires { instance < INSTANCES }
        ensures now { IfOk result (λ held. seen_held held ≡ record {
          clients = [];
          served = [];
          links = record { instance = instance; links = [] };
          unreached = [];
          clock = 0;
          turns = turns;
        }) }
        ensures held { IfOk result IsHeld }
    {
        Ok(Held {
            clients: Clients::new(alloc),
            routes: Routes::served(alloc),
            links: Links::new(alloc, instance)?,
            unreached: Vec::new(alloc),
            clock: 0,
            turns,
            buffer: zeros(alloc, LONGEST_PIECE)?,
            scratch: Scratch::new(alloc),
        })
    }

    /// Notes what became of messages to the gateway: the channels on which answers are awaited, and the calls that weren't reached.
    pub(crate) fn note_all(&mut self, gone: &[Gone]) -> Result<(), AllocError>
        requires numbered { HaveNumbers gone.now }
        ensures now { OnOk result (seen_held self.new ≡ noted gone.now (seen_held self.old)) }
        ensures still { OnOk result (IsStillHeld self.old self.new) }
    {
        for one in gone {
            self.note(one)?;
        }
        Ok(())
    }

    /// Notes what became of a message.
    fn note(&mut self, gone: &Gone) -> Result<(), AllocError>
        requires numbered { has_number gone.now ≡ true }
        ensures now { OnOk result (seen_held self.new ≡ noted (gone.now ∷ []) (seen_held self.old)) }
        ensures still { OnOk result (IsStillHeld self.old self.new) }
    {
        match gone {
            Gone::Unreached(call) => {
                self.unreached.push(*call)?;
                Ok(())
            }
            Gone::Asked(..) => self.links.watch(gone),
            Gone::Noted(..) => self.links.watch(gone),
        }
    }
}
