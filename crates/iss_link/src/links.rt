//! The channels on which the gateway's answers are awaited.
ghost use Rattle.std.specs.Prelude.{◌≡◌, ◌<◌, ◌++◌, [], map, length, Some, IfOk, OnOk, OnErr, IsSome};
ghost use Rattle.iss_edge.specs.World.{Later, Stays};
ghost use Rattle.iss_model.specs.declared.limits.TheConstants.{INSTANCES};
ghost use Rattle.iss_session.specs.Hearings.{link_at, links_of};
ghost use Rattle.iss_link.specs.Values.{gone_as, heard_of, state_on};
ghost use Rattle.iss_link.specs.Hearing.{ListensOn, channels_after};
ghost use Rattle.iss_link.specs.Worlds.{StillTold};

use crate::answers::listen;
use crate::watched::{About, Watched};
use crate::{Gone, Heard, LinkState};
use iss_channels::ByChannel;
use iss_edge::{Channel, Edge};
use iss_session::piece::LONGEST_PIECE;
use std::alloc::{AllocError, Global};
use std::marker::Model;

/// The channels on which the gateway's answers are awaited, each with what it is about and the bytes that came on it. Contracts see
/// the instance, and the links in the order in which they were watched.
#[derive(Drop)]
pub struct Links {
    instance: u64,
    watched: ByChannel<Watched>,
    buffer: Vec<u8>,
}

impl Model for Links {
    ghost use Rattle.iss_link.specs.Values.{LinksNow};
    ghost use Rattle.iss_link.specs.Kept.{AreLinks};
    ghost use Rattle.iss_channels.specs.Placed.{things_of};

    ghost Value = { LinksNow };

    ghost view = { λ l. record { instance = l.instance; links = things_of l.watched } };

    ghost invariant = { λ l. AreLinks l.instance l.buffer.items };
}

impl Links {
    /// Links of which no channel is watched.
    pub fn new(alloc: Global, instance: u64) -> Result<Links, AllocError>
        requires { instance < INSTANCES }
        ensures { IfOk result (λ links. links ≡ record { instance = instance; links = [] }) }
    {
        Ok(Links {
            instance,
            watched: ByChannel::new(alloc),
            buffer: zeros(alloc, LONGEST_PIECE)?,
        })
    }

    /// Watches the channel on which a request or a notice went out. If an allocation fails, all stays as it was.
    pub fn watch(&mut self, gone: &Gone) -> Result<(), AllocError>
        ensures watched { OnOk result (self.new ≡ record self.old { links = self.old.links ++ links_of (gone_as gone.now) }) }
        ensures unchanged { OnErr result (self.new ≡ self.old) }
    {
        match gone {
            Gone::Asked(opened, ch) => self.watched.push(Watched::new(*ch, About::Call(*opened))),
            Gone::Noted(number, ch) => self.watched.push(Watched::new(*ch, About::Notice(*number))),
            Gone::Unreached(_) => Ok(()),
        }
    }

    /// How far the answer on a channel has come, `None` exactly if the channel isn't watched.
    pub fn state(&self, ch: Channel) -> Option<LinkState>
        ensures { result ≡ state_on ch self.now.links }
    {
        let watched = self.watched.find(ch)?;
        Some(watched.state())
    }

    /// Takes once from a watched channel that is ready, and returns what was heard.
    ///
    /// It returns `Nothing` only if bytes came and the answer isn't whole. It returns `Connection` only if the take
    /// failed or the bytes ended before a whole answer. After each answer but `Nothing` the channel is closed and watched
    /// no longer. If an allocation fails, the take was made, and what is watched is open.
    pub fn ready<E: Edge>(
        &mut self,
        alloc: Global,
        edge: &mut E,
        ch: Channel,
    ) -> Result<Heard, AllocError>
        requires watched { IsSome (link_at ch self.old.links) }
        requires ready { (E.channels edge.old).ready ≡ Some ch.0 }
        ensures listens { ListensOn E.channels E.faults E.told E.heard edge.old edge.new self.old self.new ch result }
        ensures alone { StillTold E.told edge.old edge.new }
        ensures later { Later (E.faults edge.old) (E.faults edge.new) }
        ensures kept { Stays E.extent edge.old edge.new }
        ensures channels { IfOk result (λ said. E.channels edge.new ≡ channels_after ch (heard_of said) (E.channels edge.old)) }
        ensures still { OnErr result (Stays E.channels edge.old edge.new) }
    {
        listen(
            &mut self.watched,
            &mut self.buffer,
            alloc,
            edge,
            ch,
            self.instance,
        )
    }

    /// The watched channels, in the order in which they were watched.
    pub fn channels(&self, alloc: Global) -> Result<Vec<Channel>, AllocError>
        ensures { IfOk result (λ v. v.items ≡ map (λ link. link.ch) self.now.links) }
    {
        self.watched.channels(alloc)
    }
}

/// `size` zeros.
fn zeros(alloc: Global, size: usize) -> Result<Vec<u8>, AllocError>
    ensures { IfOk result (λ bytes. length bytes.items ≡ size) }
{
    let bytes = vec![in alloc; 0; size]?;
    Ok(bytes)
}
