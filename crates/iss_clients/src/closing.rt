//! The closes of channels.
ghost use Rattle.std.specs.Prelude.{[], map};
ghost use Rattle.iss_edge.specs.declared.outside.Action.TheVariants.{Close};
ghost use Rattle.iss_edge.specs.World.{Later};
ghost use Rattle.iss_edge.specs.Outer.{Adds, ToldBoth};
ghost use Rattle.iss_link.specs.Worlds.{StillTold};

use iss_edge::{Channel, Edge};

/// Closes these channels, in their order.
pub fn close_each<E: Edge>(edge: &mut E, channels: &[Channel])
    ensures closed { ToldBoth E.told E.heard (Adds (map Close channels.now) []) edge.old edge.new }
    ensures alone { StillTold E.told edge.old edge.new }
    ensures later { Later (E.faults edge.old) (E.faults edge.new) }
{
    for ch in channels {
        edge.close(*ch);
    }
}
