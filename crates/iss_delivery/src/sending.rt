//! What entries send.
ghost use Rattle.std.specs.Prelude.{◌≡◌, ◌++◌, OnOk, option_to_list};
ghost use Rattle.std.specs.List.{filter_map};
ghost use Rattle.iss_exchange_laws.specs.Messages.{sent_by};

use iss_exchange_laws::Sent;
use iss_model::Entry;
use std::alloc::AllocError;

/// Adds what entries send, in their order. If an allocation fails, a part of it may be there.
pub fn put_sent(out: &mut Vec<Sent>, entries: &[Entry]) -> Result<(), AllocError>
    ensures { OnOk result (out.new.items ≡ out.old.items ++ filter_map sent_by entries.now) }
{
    for entry in entries {
        put(out, sent_by(entry))?;
    }
    Ok(())
}

/// What an entry sends.
fn sent_by(entry: &Entry) -> Option<Sent>
    ensures { result ≡ sent_by entry.now }
{
    match entry {
        Entry::Opened(opened) => Some(Sent::Request(*opened)),
        Entry::Notice(notice) => Some(Sent::Notice(*notice)),
        _ => None,
    }
}

fn put<T: Copy + Drop>(things: &mut Vec<T>, thing: Option<T>) -> Result<(), AllocError>
    ensures { OnOk result (things.new.items ≡ things.old.items ++ option_to_list thing) }
{
    if let Some(thing) = thing {
        things.push(thing)?;
    }
    Ok(())
}
