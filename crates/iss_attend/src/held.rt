//! What is held while clients are attended to, and what a wait brings.
ghost use Rattle.std.specs.Prelude.{◌≡◌, ◌<◌, ◌≤◌, [], ◌∷◌, Some, true, length, IfOk, OnOk, OnErr};
ghost use Rattle.iss_edge.specs.declared.outside.Action.TheVariants.{Close};
ghost use Rattle.iss_edge.specs.World.{Later};
ghost use Rattle.iss_edge.specs.Outer.{Adds, ToldBoth};
ghost use Rattle.iss_session.specs.declared.piece.TheConstants.{LONGEST_PIECE};
ghost use Rattle.iss_session.specs.Hearings.{is_reading, readers_without};
ghost use Rattle.iss_attend.specs.Attendances.{first_attendance, at_rest};
ghost use Rattle.iss_attend.specs.Causes.{IsAttendCaused};
ghost use Rattle.iss_attend.specs.Held.{held_arrived, held_taking, seen_held, IsHeld, Leaves, LeavesPart};

use crate::reading::read;
use crate::replying::reply;
use crate::{AnswersBodies, AttendFault};
use iss_clients::{Clients, take_piece, zeros};
use iss_edge::{Arrival, Channel, Edge};
use iss_http::JitReader;
use iss_session::piece::LONGEST_PIECE;
use std::alloc::{AllocError, Global};

/// What is held while clients are attended to.
#[derive(Drop)]
pub(crate) struct Held<A> {
    /// The clients whose requests aren't whole yet.
    pub(crate) clients: Clients<JitReader>,
    /// What answers them.
    pub(crate) answers: A,
    /// How many waits are left.
    pub(crate) turns: u32,
    /// What a take brings.
    pub(crate) buffer: Vec<u8>,
}

impl<A: AnswersBodies + Drop> Held<A> {
    /// No client is there, and `turns` waits are left.
    pub(crate) fn new(alloc: Global, answers: A, turns: u32) -> Result<Held<A>, AllocError>
        requires { turns ≤ A.room answers }
        ensures now { IfOk result (λ held. seen_held held ≡ first_attendance answers turns) }
        ensures held { IfOk result (IsHeld A.room) }
    {
        Ok(Held {
            clients: Clients::new(alloc),
            answers,
            turns,
            buffer: zeros(alloc, LONGEST_PIECE)?,
        })
    }

    /// Waits once, and takes in what came: a client, a channel that is ready, the end, or something else, which changes nothing.
    pub(crate) fn hear<E: Edge>(&mut self, alloc: Global, edge: &mut E) -> Result<(), AttendFault>
        requires held { IsHeld A.room self.old }
        requires turns { 0 < self.old.turns }
        ensures held { OnOk result (IsHeld A.room self.new) }
        ensures turns { OnOk result (self.new.turns < self.old.turns) }
        ensures attends { OnOk result
            (Leaves E.told E.heard A.after A.response (seen_held self.old) self.new edge.old edge.new) }
        ensures part { OnErr result
            (LeavesPart E.told E.heard A.after A.response (seen_held self.old) edge.old edge.new) }
        ensures caused { IsAttendCaused (E.faults edge.old) (E.faults edge.new) result }
    {
        self.turns -= 1;
        let Ok(arrival) = edge.wait() else {
            return Err(AttendFault::Wait);
        };
        match arrival {
            Arrival::Client(ch) => {
                self.clients.add(alloc, ch)?;
                Ok(())
            }
            Arrival::Ready(ch) => {
                self.take(alloc, edge, ch)?;
                Ok(())
            }
            Arrival::Time(_) => Ok(()),
            Arrival::Idle => Ok(()),
            Arrival::End => {
                self.turns = 0;
                Ok(())
            }
        }
    }

    /// Takes from a channel that is ready. A channel that nobody listens to is left alone.
    fn take<E: Edge>(&mut self, alloc: Global, edge: &mut E, ch: Channel) -> Result<(), AllocError>
        requires buffer { length self.old.buffer.items ≡ LONGEST_PIECE }
        requires bodies { self.old.turns < A.room self.old.answers }
        requires ready { (E.channels edge.old).ready ≡ Some ch.0 }
        ensures held { OnOk result (IsHeld A.room self.new) }
        ensures turns { OnOk result (self.new.turns ≡ self.old.turns) }
        ensures attends { OnOk result
            (Leaves E.told E.heard A.after A.response (held_arrived self.old ch) self.new edge.old edge.new) }
        ensures part { OnErr result
            (LeavesPart E.told E.heard A.after A.response (held_arrived self.old ch) edge.old edge.new) }
        ensures later { Later (E.faults edge.old) (E.faults edge.new) }
    {
        if self.clients.is_reading(ch) {
            return self.take_request(alloc, edge, ch);
        }
        Ok(())
    }

    /// Takes from a client whose request isn't whole. If the take fails, or the bytes end early, the channel is closed.
    fn take_request<E: Edge>(
        &mut self,
        alloc: Global,
        edge: &mut E,
        ch: Channel,
    ) -> Result<(), AllocError>
        requires reading { is_reading ch self.old.clients ≡ true }
        requires buffer { length self.old.buffer.items ≡ LONGEST_PIECE }
        requires bodies { self.old.turns < A.room self.old.answers }
        requires ready { (E.channels edge.old).ready ≡ Some ch.0 }
        ensures held { OnOk result (IsHeld A.room self.new) }
        ensures turns { OnOk result (self.new.turns ≡ self.old.turns) }
        ensures attends { OnOk result
            (Leaves E.told E.heard A.after A.response (held_taking self.old ch) self.new edge.old edge.new) }
        ensures part { OnErr result
            (LeavesPart E.told E.heard A.after A.response (held_taking self.old ch) edge.old edge.new) }
        ensures later { Later (E.faults edge.old) (E.faults edge.new) }
    {
        let Some(count) = take_piece(edge, ch, &mut self.buffer) else {
            self.lose(edge, ch);
            return Ok(());
        };
        if count == 0 {
            self.lose(edge, ch);
            return Ok(());
        }
        match read(
            &mut self.clients,
            &mut self.answers,
            alloc,
            ch,
            &self.buffer[..count],
        )? {
            None => Ok(()),
            Some(text) => {
                reply(edge, ch, &text);
                Ok(())
            }
        }
    }

    /// A client is lost before its request was whole, and its channel is closed.
    #[tactic(auto, using(iss_edge::proofs::Outers::told_closes))]
    fn lose<E: Edge>(&mut self, edge: &mut E, ch: Channel)
        ensures now { seen_held self.new ≡ at_rest self.old.answers self.old.turns (readers_without ch self.old.clients) }
        ensures buffer { self.new.buffer ≡ self.old.buffer }
        ensures told { ToldBoth E.told E.heard (Adds (Close ch ∷ []) []) edge.old edge.new }
        ensures later { Later (E.faults edge.old) (E.faults edge.new) }
    {
        self.clients.remove(ch);
        edge.close(ch);
    }
}
