//! What one transaction holds.
ghost use Rattle.std.specs.Prelude.{◌≡◌, false, ◌+◌, ◌-◌, ◌^◌, ◌<◌, ◌≤◌, pos, ◌+ℤ◌, ◌<ℤ◌};
ghost use Rattle.iss_model.specs.rules.Facts.{not_below};
ghost use Rattle.iss_model.specs.rules.Pieces.{taken_to_clear, taken_to_release};
ghost use Rattle.iss_hold.specs.Holdings.{part_of, with_part, parts_of_hold, whole_of, without_parts};
ghost use Rattle.iss_hold.specs.Entries.{IsHoldCovered, taken_in_all, parts_taken};

use iss_model::{Part, Txn};

/// A transaction, whether it hasn't ended, and what it holds of its user, by who funds it.
#[derive(Clone, Copy)]
pub struct Hold {
    pub txn: Txn,
    pub live: bool,
    pub g: u64,
    pub p: u64,
    pub s: u64,
}

/// What was taken from a hold, by who funds it, and the rest that the hold had nothing for.
#[derive(Clone, Copy, Debug, PartialEq, Eq)]
pub struct Taken {
    pub g: u64,
    pub p: u64,
    pub s: u64,
    pub rest: u64,
}

impl Hold {
    pub(crate) fn part(&self, part: Part) -> u64
        ensures { result ≡ part_of part self.now }
    {
        match part {
            Part::G => self.g,
            Part::P => self.p,
            Part::S => self.s,
        }
    }

    /// All that is held, in minor units.
    pub fn whole(&self) -> u64
        requires { whole_of self.now < 2 ^ 64 }
        ensures { result ≡ whole_of self.now }
    {
        self.g + self.p + self.s
    }

    /// The hold with more in a part.
    pub(crate) fn with_more(&self, part: Part, amount: u64) -> Hold
        requires { part_of part self.now + amount < 2 ^ 64 }
        ensures { result ≡ with_part part (part_of part self.now + amount) self.now }
    {
        let mut hold = *self;
        match part {
            Part::G => hold.g += amount,
            Part::P => hold.p += amount,
            Part::S => hold.s += amount,
        }
        hold
    }

    /// The hold with less in a part.
    pub(crate) fn with_less(&self, part: Part, amount: u64) -> Hold
        requires { amount ≤ part_of part self.now }
        ensures { result ≡ with_part part (part_of part self.now - amount) self.now }
    {
        let mut hold = *self;
        match part {
            Part::G => hold.g -= amount,
            Part::P => hold.p -= amount,
            Part::S => hold.s -= amount,
        }
        hold
    }

    /// The hold with a part changed by an amount, which is negative if it is let go.
    pub(crate) fn with_change(&self, part: Part, amount: i64) -> Hold
        requires covered { IsHoldCovered amount (part_of part self.now) }
        requires fits { (pos (part_of part self.now) +ℤ amount) <ℤ pos (2 ^ 64) }
        ensures { result ≡ with_part part (not_below (pos (part_of part self.now) +ℤ amount)) self.now }
    {
        let size = amount.unsigned_abs();
        if amount < 0 {
            self.with_less(part, size)
        } else {
            self.with_more(part, size)
        }
    }

    /// The hold without what was taken from it.
    pub fn without(&self, taken: &Taken) -> Hold
        ensures { result ≡ without_parts (parts_taken taken.now) self.now }
    {
        Hold {
            g: self.g.saturating_sub(taken.g),
            p: self.p.saturating_sub(taken.p),
            s: self.s.saturating_sub(taken.s),
            ..*self
        }
    }

    /// The hold of a transaction that has ended.
    pub(crate) fn ended(&self) -> Hold
        ensures { result ≡ record (self.now) { live = false } }
    {
        Hold {
            live: false,
            ..*self
        }
    }

    /// What a clearing takes: the gateway's part first, then the programme's, then the user's own.
    pub fn taken_to_clear(&self, amount: u64) -> Taken
        ensures { result ≡ taken_in_all (taken_to_clear (parts_of_hold self.now) amount) amount }
    {
        let g = amount.min(self.g);
        let p = (amount - g).min(self.p);
        let s = (amount - g - p).min(self.s);
        Taken {
            g,
            p,
            s,
            rest: amount - g - p - s,
        }
    }

    /// What a release takes: the programme's part first, then the gateway's, then the user's own.
    pub fn taken_to_release(&self, amount: u64) -> Taken
        ensures { result ≡ taken_in_all (taken_to_release (parts_of_hold self.now) amount) amount }
    {
        let p = amount.min(self.p);
        let g = (amount - p).min(self.g);
        let s = (amount - p - g).min(self.s);
        Taken {
            g,
            p,
            s,
            rest: amount - p - g - s,
        }
    }
}
