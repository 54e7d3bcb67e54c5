//! How often calls have failed, by kind.

ghost use Rattle.std.specs.Prelude.{◌≡◌, ◌==◌, ◌≤◌, if◌then◌else◌};
ghost use Rattle.iss_edge.specs.World.{Later, Rose};
ghost use Rattle.iss_edge.specs.Channels.{count_of};
ghost use Rattle.iss_edge.specs.declared.counts.Fault.TheVariants.{Input, Output, Peer, Link};
ghost use Rattle.iss_edge.specs.Memory.{stream_faults};

use crate::{Channel, Failed};
use std::marker::Model;

/// What a call that failed was on.
#[derive(Debug, Clone, Copy)]
pub enum Fault {
    Disk,
    /// Standard input, or a wait.
    Input,
    /// Standard output.
    Output,
    /// The channel of a client.
    Peer,
    /// A channel that was dialled, or a dial.
    Link,
}

impl Fault {
    /// What a take from a channel fails on.
    pub fn of_take(ch: Channel, is_dialled: bool) -> Fault
        ensures { result ≡ (if ch.0 == 0 then Input else (if is_dialled then Link else Peer)) }
    {
        if ch.0 == 0 {
            return Fault::Input;
        }
        Fault::of_far(is_dialled)
    }

    /// What an emit on a channel fails on.
    pub fn of_emit(ch: Channel, is_dialled: bool) -> Fault
        ensures { result ≡ (if ch.0 == 0 then Output else (if is_dialled then Link else Peer)) }
    {
        if ch.0 == 0 {
            return Fault::Output;
        }
        Fault::of_far(is_dialled)
    }

    fn of_far(is_dialled: bool) -> Fault
        ensures { result ≡ (if is_dialled then Link else Peer) }
    {
        if is_dialled { Fault::Link } else { Fault::Peer }
    }
}

/// How often calls have failed, by kind. A count stands still at 2^64 - 1.
#[derive(Debug, Drop)]
pub struct FaultCounts {
    disk: u64,
    input: u64,
    output: u64,
    peer: u64,
    link: u64,
}

impl Model for FaultCounts {
    ghost use Rattle.iss_edge.specs.World.{Faults};

    ghost Value = { Faults };

    ghost view = { λ c. record { disk = c.disk; input = c.input; output = c.output; peer = c.peer; link = c.link } };
}

impl FaultCounts {
    /// No call has failed.
    pub fn none() -> FaultCounts
        ensures { result ≡ stream_faults 0 0 0 }
    {
        FaultCounts {
            disk: 0,
            input: 0,
            output: 0,
            peer: 0,
            link: 0,
        }
    }

    /// Counts a call that failed.
    pub fn count(&mut self, fault: Fault) -> Failed
        ensures later { Later self.old self.new }
        ensures rose { Rose (count_of fault self.old) (count_of fault self.new) }
    {
        match fault {
            Fault::Disk => raise(&mut self.disk),
            Fault::Input => raise(&mut self.input),
            Fault::Output => raise(&mut self.output),
            Fault::Peer => raise(&mut self.peer),
            Fault::Link => raise(&mut self.link),
        }
    }
}

/// One more, unless the count is at its end.
fn raise(count: &mut u64) -> Failed
    ensures later { count.old ≤ count.new }
    ensures rose { Rose count.old count.new }
{
    *count = count.saturating_add(1);
    Failed
}
