//! The end of a run that serves: every channel that is still open is closed.
ghost use Rattle.std.specs.Prelude.{[], map, OnOk, OnErr};
ghost use Rattle.iss_edge.specs.declared.outside.Action.TheVariants.{Close};
ghost use Rattle.iss_edge.specs.World.{Later};
ghost use Rattle.iss_edge.specs.Outer.{Adds, ToldBoth};
ghost use Rattle.iss_link.specs.Worlds.{StillTold};
ghost use Rattle.iss_serve.specs.Closings.{open_channels};
ghost use Rattle.iss_serve.specs.Held.{seen_held};

use crate::held::Held;
use iss_clients::close_each;
use iss_edge::Edge;
use std::alloc::{AllocError, Global};

/// Closes the clients whose requests aren't whole, the clients that wait, and the channels to the gateway.
pub(crate) fn close_all<E: Edge>(alloc: Global, held: &Held, edge: &mut E) -> Result<(), AllocError>
    ensures closed { OnOk result (ToldBoth E.told E.heard (Adds (map Close (open_channels (seen_held held.now))) []) edge.old edge.new) }
    ensures unchanged { OnErr result (ToldBoth E.told E.heard (Adds [] []) edge.old edge.new) }
    ensures alone { StillTold E.told edge.old edge.new }
    ensures later { Later (E.faults edge.old) (E.faults edge.new) }
{
    let reading = held.clients.channels(alloc)?;
    let waiting = held.routes.channels(alloc)?;
    let linked = held.links.channels(alloc)?;
    close_each(edge, &reading);
    close_each(edge, &waiting);
    close_each(edge, &linked);
    Ok(())
}
