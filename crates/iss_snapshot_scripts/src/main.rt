//! A program that takes the lines of scripts as a dry run does. After each line the core is written down, and made again from its image.
//!
//! A line of `#` begins a new core. Every other line is told what a dry run tells it. `.ci/checks/images.sh` sees that its input is all scripts
//! in a row, and its output theirs.
//!
//! It may cite `iss_snapshot`, `iss_core`, `iss_event`, `iss_texts` and `iss_model`. Nothing may cite it.
#![tactic(auto)]

mod taking;

use iss_core::Core;
use iss_texts::Texts;
use std::io::{self, BufRead, BufReader, Write};
use taking::{INSTANCE, take_line};

fn main(rt: HostRuntime) -> io::Result<()> {
    let mut reader = BufReader::new(rt.alloc(), rt.reader())?;
    let mut core = Core::new(rt.alloc(), INSTANCE)?;
    let mut line = Vec::new(rt.alloc());
    for _ in 0..u64::MAX {
        line.clear();
        if reader.read_until(b'\n', &mut line)? == 0 {
            break;
        }
        let mut texts = Texts::new(rt.alloc());
        let next = take_line(rt.alloc(), core, line.trim_ascii_end(), &mut texts)?;
        rt.stdout().write_all(&texts.bytes)?;
        let Some(again) = next else {
            println!(rt; "no core is made again")?;
            return Ok(());
        };
        core = again;
    }
    Ok(())
}
