//! One record of a device, taken up.
ghost use Rattle.std.specs.Prelude.{◌≤◌};
ghost use Rattle.iss_model.specs.declared.limits.TheConstants.{MOST_RECORDS};
ghost use Rattle.iss_opening.specs.Taking.{TakesIn};

use crate::OpenFault;
use iss_codec::decode;
use iss_core::Core;
use iss_model::limits::MOST_RECORDS;
use iss_model::{Entry, Judged, Record};
use std::alloc::Global;

/// A record that was read and taken up.
#[derive(Drop)]
pub struct Taken {
    /// The record's number, from 1.
    pub number: u32,
    pub accepted: Record,
    /// What the record makes.
    pub entries: Vec<Entry>,
}

/// Takes up the record that this body spells. `gate` is the place of the gate before it.
#[tactic(auto, using(crate::proofs::TakenUp::one_too_many, crate::proofs::TakenUp::goes_back, crate::proofs::TakenUp::is_told, crate::proofs::TakenUp::takes_up))]
pub(crate) fn take_in(
    alloc: Global,
    core: Core,
    gate: u64,
    body: &[u8],
) -> Result<(Core, Taken), OpenFault>
    requires few { core.state.count ≤ MOST_RECORDS }
    ensures takes { TakesIn core gate body.now result }
{
    let Some(accepted) = decode(alloc, body)? else {
        return Err(OpenFault::BadSpelling(gate));
    };
    if core.count() >= MOST_RECORDS {
        return Err(OpenFault::BadHistory(gate));
    }
    if accepted.at < core.now() {
        return Err(OpenFault::BadHistory(gate));
    }
    let judged = core.judge(alloc, &accepted.input, accepted.at)?;
    let Judged::New(_) = judged else {
        return Err(OpenFault::BadHistory(gate));
    };
    let (next, entries) = core.step(alloc, &accepted)?;
    let number = next.count();
    Ok((
        next,
        Taken {
            number,
            accepted,
            entries,
        },
    ))
}
