//! A program that says of each image on its input whether it loads.
//!
//! `image HEX` gives an image. Each line after that is a damage of this image: `put N HEX` puts other bytes at place N, counted from 0,
//! `add N HEX` puts bytes before that place, `drop N COUNT` leaves bytes out, and `cut N` leaves out all from that place on. For the image, and
//! for each damaged one, the program prints `loads` if it makes a core of which it is the image, and else `none`. `.ci/images.py` makes its
//! input, and says of each image what is printed, by a second reading of the bytes and the rules.
//!
//! It may cite `iss_snapshot` and `hex`. Nothing may cite it.
#![tactic(auto)]

mod damages;

use damages::{bytes_of, damaged};
use iss_snapshot::{image_of, load};
use std::alloc::{AllocError, Global};
use std::io;

/// The instance of each core that is made.
const INSTANCE: u64 = 0;

fn main(rt: HostRuntime) -> io::Result<()> {
    let mut image = Vec::new(rt.alloc());
    for line in rt.lines(rt.alloc()) {
        let said = said_of(rt.alloc(), &mut image, line?.as_str())?;
        println!(rt; "{said}")?;
    }
    Ok(())
}

/// Takes an image or a damage, and says whether it loads.
fn said_of(alloc: Global, image: &mut Vec<u8>, line: &str) -> Result<&'static str, AllocError> {
    if let Some(text) = line.strip_prefix("image ") {
        let Some(bytes) = bytes_of(alloc, text)? else {
            return Ok("unread");
        };
        *image = bytes;
        return verdict_on(alloc, image);
    }
    match damaged(alloc, image, line)? {
        Some(bytes) => verdict_on(alloc, &bytes),
        None => Ok("unread"),
    }
}

/// Whether bytes load, and are the image of the core that they make.
fn verdict_on(alloc: Global, image: &[u8]) -> Result<&'static str, AllocError> {
    let Some(core) = load(alloc, image, INSTANCE)? else {
        return Ok("none");
    };
    if image_of(alloc, &core)?.as_slice() == image {
        Ok("loads")
    } else {
        Ok("differs")
    }
}
