//! The time that is told, by the system's two clocks.

ghost use Rattle.std.specs.Prelude.{◌≡◌, ◌-◌, None};
ghost use Rattle.iss_real.specs.Clocks.{IsTold, TellsSteady, HoldsJump, BelievesJump};

use std::io;
use std::io::ErrorKind;
use std::time::{Clock, Duration};

/// How many milliseconds the system's time may gain on the monotonic clock without having jumped.
const AHEAD: u64 = 20;

/// For how many milliseconds the system's time has to be ahead by a jump before it is believed.
const BELIEVED: u64 = 10_000;

/// What is known of the clocks, by default nothing. A jump ahead that doesn't last is never told, since what it expires stays expired.
#[derive(Default, Drop)]
pub struct Clocks {
    /// How many milliseconds the times that were told were at most ahead of the monotonic clock.
    offset: Option<u64>,
    /// When the system's time was first seen to be further ahead than that, by the monotonic clock, and by how much at least since.
    jumped: Option<(u64, u64)>,
}

impl Clocks {
    /// The time to tell, in milliseconds since 1970.
    pub fn time(&mut self, clock: &impl Clock) -> io::Result<u64> {
        // A pause between the two looks like a step back, which does no harm.
        let time = millis(clock.since_1970()?)?;
        Ok(self.time_at(monotonic(clock)?, time))
    }

    /// The time to tell when the monotonic clock and the system's time read so. It is the system's time. While that is
    /// ahead by a jump, it is the time that has passed since by the monotonic clock. Once the jump has lasted, the least
    /// that it was ahead by is believed.
    fn time_at(&mut self, elapsed: u64, time: u64) -> u64
        ensures first { self.old.offset ≡ None → IsTold time (time - elapsed) None result self.new.offset self.new.jumped }
        ensures steady { TellsSteady AHEAD self.old self.new elapsed time result }
        ensures held { HoldsJump AHEAD BELIEVED self.old self.new elapsed time result }
        ensures believed { BelievesJump AHEAD BELIEVED self.old self.new elapsed time result }
    {
        let offset = time.saturating_sub(elapsed);
        let known = self.offset.unwrap_or(offset);
        if offset.saturating_sub(known) <= AHEAD {
            self.jumped = None;
            self.offset = Some(offset.max(known));
            return time;
        }
        let (since, seen) = self.jumped.unwrap_or((elapsed, offset));
        let least = seen.min(offset);
        if elapsed.saturating_sub(since) < BELIEVED {
            self.jumped = Some((since, least));
            return elapsed + known;
        }
        self.jumped = None;
        self.offset = Some(least);
        elapsed + least
    }
}

/// The monotonic clock, in milliseconds.
pub fn monotonic(clock: &impl Clock) -> io::Result<u64> {
    millis(clock.monotonic()?)
}

fn millis(time: Duration) -> io::Result<u64> {
    Ok(u64::try_from(time.as_millis()).or(Err(ErrorKind::InvalidData))?)
}
