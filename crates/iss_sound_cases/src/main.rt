//! A program that says of each state on its input whether it is sound.
//!
//! After `base` come the lines of a state, up to `end`, in the forms that `reading` tells. Each line after that is a change of this state:
//! `change N LINE` puts another line in the place of the one at N, counted from 0, `add N LINE` puts one before that, and `drop N` leaves
//! it out. A change after `and` is made together with the next one. For the state, and for each changed one, the program prints `sound`,
//! `unsound`, or `unread`. `.ci/states.py` makes its input, and says of each state what is printed, by a second reading of the rules.
//!
//! It may cite `iss_sound`, `iss_model` and `iss_event`. Nothing may cite it.
#![tactic(auto)]

mod reading;
mod words;

use iss_sound::sound;
use std::alloc::{AllocError, Global};
use std::io;

/// The lines of a state, whether all of them came, and the changes that are made together with the next one.
#[derive(Drop)]
struct Base {
    lines: Vec<String>,
    whole: bool,
    changes: Vec<String>,
}

fn main(rt: HostRuntime) -> io::Result<()> {
    let mut base = Base {
        lines: Vec::new(rt.alloc()),
        whole: true,
        changes: Vec::new(rt.alloc()),
    };
    for line in rt.lines(rt.alloc()) {
        if let Some(said) = said_of(rt.alloc(), &mut base, line?.as_str())? {
            println!(rt; "{said}")?;
        }
    }
    Ok(())
}

/// Takes a line of the base or of a change, and says whether the state that is then told is sound.
fn said_of(alloc: Global, base: &mut Base, line: &str) -> Result<Option<&'static str>, AllocError> {
    if line == "base" {
        base.lines.clear();
        base.whole = false;
        return Ok(None);
    }
    if !base.whole {
        if line != "end" {
            base.lines.push(String::from_str(alloc, line)?)?;
            return Ok(None);
        }
        base.whole = true;
        return Ok(Some(verdict_on(alloc, base)?));
    }
    if let Some(change) = line.strip_prefix("and ") {
        base.changes.push(String::from_str(alloc, change)?)?;
        return Ok(None);
    }
    base.changes.push(String::from_str(alloc, line)?)?;
    let said = verdict_on(alloc, base)?;
    base.changes.clear();
    Ok(Some(said))
}

/// Whether the state of a base with its changes is sound.
fn verdict_on(alloc: Global, base: &Base) -> Result<&'static str, AllocError> {
    let Some(state) = reading::state_of(alloc, &base.lines, &base.changes)? else {
        return Ok("unread");
    };
    if sound(alloc, &state)? {
        Ok("sound")
    } else {
        Ok("unsound")
    }
}
