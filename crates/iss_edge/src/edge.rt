//! The outside as a trait: what a call on it does, said by what an implementation tells.

ghost use Rattle.std.specs.Prelude.{◌≡◌, ℕ, ◌+◌, ◌<◌, ◌≤◌, ◌⊎◌, List, Option, Some, length, is_ok, IfOk, IfSome, IsSome, OnOk, OnErr};
ghost use Rattle.std.specs.Result.{result_ok};
ghost use Rattle.iss_edge.specs.declared.outside.Answered.{Answered};
ghost use Rattle.iss_edge.specs.declared.outside.Answered.TheVariants.{Dialled, Emitted, Waited};
ghost use Rattle.iss_edge.specs.World.{World, Told, Stays, Faults, Later, HasCause};
ghost use Rattle.iss_edge.specs.Calls.{Same, Reads, Writes, WritesPart, Syncs, SyncsPart, Waits, Takes, Emits, EmitsPart, Dials, Closes, ClosesUnnoted, Hears, HearsNothing, heard_take};
ghost use Rattle.iss_edge.specs.Channels.{Channels, IsUnused, ComesUnused, after_wait, after_dial, after_close, count_of, take_fault, emit_fault};

use crate::{Arrival, Channel, Failed};

/// All that the processor reads and does outside of its memory.
///
/// An implementation tells what it knows of the outside, or nothing. A call's clauses speak of what is told after it. If
/// anything is, it was told before the call too.
pub trait Edge {
    /// The device, what is still to come, and all that was done so far.
    ghost told: { Self → Option World };

    /// What the calls answered so far, in order.
    ghost heard: { Self → Option (List Answered) };

    /// How often calls have failed so far, by kind.
    ghost faults: { Self → Faults };

    /// The device's length in bytes.
    ghost extent: { Self → ℕ };

    /// The channels that are open, and the channel that was last said to be ready.
    ghost channels: { Self → Channels };

    /// The device's length in bytes, which no call changes.
    fn size(&self) -> u64
        ensures { result ≡ extent self.now };

    /// Reads the device's bytes from this place on into `buf`. If it fails, what `buf` holds is open.
    fn read_at(&mut self, at: u64, buf: &mut [u8]) -> Result<(), Failed>
        requires { at + length buf.old ≤ extent self.old }
        ensures read { OnOk result (Told (Reads at buf.new) (told self.old) (told self.new)) }
        ensures unchanged { OnErr result (Told Same (told self.old) (told self.new)) }
        ensures cause { HasCause (λ f. f.disk) (faults self.old) (faults self.new) result }
        ensures heard { Told HearsNothing (heard self.old) (heard self.new) }
        ensures kept { Stays extent self.old self.new }
        ensures channels { Stays channels self.old self.new };

    /// Writes the bytes to the device from this place on. Until a sync succeeds, a stop may leave anything there, and
    /// if the write fails, what stands there is open.
    fn write_at(&mut self, at: u64, bytes: &[u8]) -> Result<(), Failed>
        requires { at + length bytes.now ≤ extent self.old }
        ensures written { OnOk result (Told (Writes at bytes.now) (told self.old) (told self.new)) }
        ensures part { OnErr result
            (Told (WritesPart at bytes.now) (told self.old) (told self.new)) }
        ensures cause { HasCause (λ f. f.disk) (faults self.old) (faults self.new) result }
        ensures heard { Told HearsNothing (heard self.old) (heard self.new) }
        ensures kept { Stays extent self.old self.new }
        ensures channels { Stays channels self.old self.new };

    /// Makes all that was written last. If it fails, a stop may still leave anything there.
    fn sync(&mut self) -> Result<(), Failed>
        ensures synced { OnOk result (Told Syncs (told self.old) (told self.new)) }
        ensures part { OnErr result (Told SyncsPart (told self.old) (told self.new)) }
        ensures cause { HasCause (λ f. f.disk) (faults self.old) (faults self.new) result }
        ensures heard { Told HearsNothing (heard self.old) (heard self.new) }
        ensures kept { Stays extent self.old self.new }
        ensures channels { Stays channels self.old self.new };

    /// Waits for what comes next. A client comes on a channel that was not open. If it fails, nothing is lost.
    fn wait(&mut self) -> Result<Arrival, Failed>
        ensures arrived { IfOk result (λ arrives. Told (Waits arrives) (told self.old) (told self.new)) }
        ensures unchanged { OnErr result (Told Same (told self.old) (told self.new)) }
        ensures unused { IfOk result (ComesUnused (channels self.old)) }
        ensures cause { HasCause (λ f. f.input) (faults self.old) (faults self.new) result }
        ensures heard { Told (Hears (Waited (result_ok result))) (heard self.old) (heard self.new) }
        ensures kept { Stays extent self.old self.new }
        ensures channels { channels self.new ≡ after_wait (result_ok result) (channels self.old) };

    /// Takes the next bytes of a channel into the start of `buf`, which is not empty, and returns how many. The channel is 0, or
    /// the one that was last said to be ready. It returns 0 exactly at the end of the channel's bytes. If it fails, it took none,
    /// and what `buf` holds is open.
    fn take(&mut self, ch: Channel, buf: &mut [u8]) -> Result<usize, Failed>
        requires channel { (ch.0 ≡ 0) ⊎ ((channels self.old).ready ≡ Some ch.0) }
        requires room { 0 < length buf.old }
        ensures bound { IfOk result (λ count. count ≤ length buf.new) }
        ensures taken { IfOk result
            (λ count. Told (Takes ch count buf.new) (told self.old) (told self.new)) }
        ensures unchanged { OnErr result (Told Same (told self.old) (told self.new)) }
        ensures cause { HasCause (count_of (take_fault (channels self.old) ch)) (faults self.old) (faults self.new) result }
        ensures heard { Told (Hears (heard_take ch buf.new result)) (heard self.old) (heard self.new) }
        ensures kept { Stays extent self.old self.new }
        ensures channels { Stays channels self.old self.new };

    /// Sends the bytes out on a channel. If it fails, a prefix of them may have gone out.
    fn emit(&mut self, ch: Channel, bytes: &[u8]) -> Result<(), Failed>
        ensures emitted { OnOk result (Told (Emits ch bytes.now) (told self.old) (told self.new)) }
        ensures part { OnErr result
            (Told (EmitsPart ch bytes.now) (told self.old) (told self.new)) }
        ensures cause { HasCause (count_of (emit_fault (channels self.old) ch)) (faults self.old) (faults self.new) result }
        ensures heard { Told (Hears (Emitted ch (is_ok result))) (heard self.old) (heard self.new) }
        ensures kept { Stays extent self.old self.new }
        ensures channels { Stays channels self.old self.new };

    /// Opens a channel to the gateway that was not open before.
    fn dial(&mut self) -> Result<Channel, Failed>
        ensures dialled { IfOk result (λ ch. Told (Dials ch) (told self.old) (told self.new)) }
        ensures unchanged { OnErr result (Told Same (told self.old) (told self.new)) }
        ensures unused { IfOk result (IsUnused (channels self.old)) }
        ensures cause { HasCause (λ f. f.link) (faults self.old) (faults self.new) result }
        ensures heard { Told (Hears (Dialled (result_ok result))) (heard self.old) (heard self.new) }
        ensures kept { Stays extent self.old self.new }
        ensures channels { channels self.new ≡ after_dial (result_ok result) (channels self.old) };

    /// Closes a channel.
    fn close(&mut self, ch: Channel)
        ensures noted { IsSome (heard self.new) → Told (Closes ch) (told self.old) (told self.new) }
        ensures closed { Told (ClosesUnnoted ch) (told self.old) (told self.new) }
        ensures later { Later (faults self.old) (faults self.new) }
        ensures heard { Told HearsNothing (heard self.old) (heard self.new) }
        ensures kept { Stays extent self.old self.new }
        ensures channels { channels self.new ≡ after_close ch (channels self.old) };

    /// The device that is told has the length that is told.
    ghost sized: { (edge : Self) → IfSome (told edge) (λ world. length world.device ≡ extent edge) };
}
