//! A store: planning, committing, and what stands.
ghost use Rattle.std.specs.Prelude.{◌≡◌, ◌<◌, List, length, IfSome, IfOk, IsTrue};
ghost use Rattle.iss_edge.specs.World.{Told, Stays};
ghost use Rattle.iss_edge.specs.Calls.{HearsNothing};
ghost use Rattle.iss_model.specs.declared.input.Record.{Record};
ghost use Rattle.iss_model.specs.declared.limits.TheConstants.{MOST_RECORDS};
ghost use Rattle.iss_model.specs.Forms.{is_in_form, is_stamp};
ghost use Rattle.iss_model.specs.rules.Judging.{judge};
ghost use Rattle.iss_model.specs.run.Rooms.{need_of};
ghost use Rattle.iss_core.specs.Values.{IsNext};
ghost use Rattle.iss_opening.specs.Opening.{Opens, OpensGood, OpenedAs, OnRefused, ReadsAlone, OpenCause};
ghost use Rattle.iss_opening.specs.Standing.{StandsFor};
ghost use Rattle.iss_store.specs.Values.{IsFramed};
ghost use Rattle.iss_store.specs.Planning.{IsPlanOf, judged_at, judged_plan, Plans, PlansOnBook, made_on, free_turned_at, TurnsFor};
ghost use Rattle.iss_store.specs.Committing.{Commits, CommitsOnBook, Keeps, KeepsPart, WhereItLasts, CommitCause};

use crate::putting::Seat;
use crate::{Durable, OpenFault, PlanFault, Planned, StoreFault};
use iss_codec::put_record;
use iss_core::Core;
use iss_edge::Edge;
use iss_halves::layout::BESIDE_IMAGE;
use iss_halves::{Half, Halves};
use iss_journal::{Frame, Journal};
use iss_model::limits::MOST_RECORDS;
use iss_model::{Answer, Input, Judged, Record};
use iss_snapshot::image_of;
use std::alloc::{AllocError, Global};
use std::marker::Model;

/// The records on a device, and what they make. Contracts see its core, the place of the end gate with the place where its journal
/// ends, how the device is laid out, and the number of records in the image of the current half. A store *stands for* records if
/// its core does and they end at that gate.
#[derive(Drop)]
pub struct Store {
    pub(crate) core: Core,
    journal: Journal,
    halves: Halves,
    point: u32,
    /// How much a turn would leave free, if that was asked for since the last record.
    free_turned: Option<u64>,
}

impl Model for Store {
    ghost use Rattle.std.specs.Coded.{codes};
    ghost use Rattle.iss_model.specs.state.Kept.{kept_code};
    ghost use Rattle.iss_opening.specs.Values.{StoreNow};

    ghost Value = { StoreNow };

    ghost coded = { Prim.hlevel (codes, kept_code) };

    ghost use Rattle.iss_store.specs.Planning.{IsKept};

    ghost view = { λ s. record { core = s.core; place = s.journal; layout = s.halves; point = s.point } };

    ghost invariant = { λ s. IsKept (record {
      core = s.core;
      place = s.journal;
      layout = s.halves;
      point = s.point;
    }) s.free_turned };
}

impl Store {
    /// Opens the device, in one journal or in halves. The image there makes the core, and each record after it is read once and
    /// taken up. An end gate other than 0 is made 0, so that a record which a stop has left after it never stands.
    ///
    /// # Errors
    ///
    /// `NotFormatted` if the size or the header is wrong. `BadImage` and `BadRecord` name the current half's first place, if the
    /// image there is that of no sound state, or too long for the half. `BadRecord`, `BadSpelling` and `BadHistory` have the
    /// place of the first bad gate: no record follows it, what follows spells no record, or that record isn't new, goes back in
    /// time, or is one more than there may be.
    pub fn open<E: Edge>(alloc: Global, edge: &mut E) -> Result<Store, OpenFault>
        ensures opens { Told (Opens result) (E.told edge.old) (E.told edge.new) }
        ensures moments { Told OpensGood (E.told edge.old) (E.told edge.new) }
        ensures refused { OnRefused result (Told ReadsAlone (E.told edge.old) (E.told edge.new)) }
        ensures opened { IfOk result (λ store. Told (OpenedAs store) (E.told edge.old) (E.told edge.new)) }
        ensures size { IfOk result (λ store. store.layout.size ≡ E.extent edge.new) }
        ensures cause { OpenCause (E.faults edge.old) (E.faults edge.new) result }
        ensures heard { Told HearsNothing (E.heard edge.old) (E.heard edge.new) }
        ensures kept { Stays E.extent edge.old edge.new }
        ensures channels { Stays E.channels edge.old edge.new }
    {
        let opened = iss_opening::open(alloc, edge)?;
        let (core, journal, halves, point) = opened.into_parts();
        Ok(Store {
            core,
            journal,
            halves,
            point,
            free_turned: None,
        })
    }

    /// What stands.
    pub fn core(&self) -> &Core
        ensures { result.now ≡ self.now.core }
    {
        &self.core
    }

    /// How many records are in the image of the current half; 0 in one journal.
    pub fn point(&self) -> u32
        ensures { result ≡ self.now.point }
    {
        self.point
    }

    /// The record that an input makes at a stamp, if it makes one. It is its own if it is new, else that of a time if
    /// something is due before its answer. An input that makes none is told why. If the record doesn't fit, the input is
    /// told how many bytes are free, and how many it needs; after as many records as there may be, it is told that they are
    /// spent. A record that fits after a turn alone has the image for it in its plan. Nothing that stands is changed: the store
    /// only keeps how much a turn would leave free, until its next record.
    pub fn plan(&mut self, alloc: Global, input: &Input, at: u64) -> Result<Planned, PlanFault>
        requires input_form { IsTrue (is_in_form input.now) }
        requires stamp { IsTrue (is_stamp at) }
        ensures planned { Plans (judged_at self.old input.now at) result }
        ensures plan_of { IfOk result (IsPlanOf self.old) }
        ensures on_book { PlansOnBook self.old input.now at result }
        ensures kept { self.new ≡ self.old }
    {
        match self.core.judge(alloc, input, at)? {
            Judged::New(accepted) => self.plan_record(alloc, accepted, false),
            Judged::Clock(clock) => self.plan_record(alloc, clock, true),
            Judged::Told(answer) => Err(PlanFault::Told(answer)),
        }
    }

    /// The plan of a record that is next, if it fits.
    fn plan_record(
        &mut self,
        alloc: Global,
        accepted: Record,
        is_clock: bool,
    ) -> Result<Planned, PlanFault>
        requires next { IsNext self.old.core accepted }
        requires input_form { IsTrue (is_in_form accepted.input) }
        requires stamp { IsTrue (is_stamp accepted.at) }
        ensures planned { Plans (made_on self.old accepted (judged_plan accepted is_clock)) result }
        ensures plan_of { IfOk result (IsPlanOf self.old) }
        ensures kept { self.new ≡ self.old }
    {
        if self.core.count() == MOST_RECORDS {
            return Err(PlanFault::Told(Answer::Spent));
        }
        let frame = frame_of(alloc, &accepted)?;
        let free = self.journal.free();
        let need = frame.size();
        if need <= free {
            return Ok(Planned {
                accepted,
                is_clock,
                frame,
                half: None,
            });
        }
        if !self.halves.is_halved() {
            return Err(PlanFault::Told(Answer::Full { free, need }));
        }
        match self.turn_for(alloc, need)? {
            Turn::To(half) => Ok(Planned {
                accepted,
                is_clock,
                frame,
                half: Some(half),
            }),
            Turn::Short(turned) => Err(PlanFault::Told(Answer::Full {
                free: free.max(turned),
                need,
            })),
        }
    }

    /// The half to which a turn leads if a record with this need fits after it; else how much the turn would leave free.
    fn turn_for(&mut self, alloc: Global, need: u64) -> Result<Turn, AllocError>
        requires halved { IsTrue self.old.layout.halved }
        requires some { 0 < need }
        ensures turns { IfOk result (λ turn. TurnsFor self.old need turn) }
        ensures kept { self.new ≡ self.old }
    {
        if let Some(free) = self.known_short(need) {
            return Ok(Turn::Short(free));
        }
        let image = image_of(alloc, &self.core)?;
        let free = self
            .halves
            .half_size()
            .saturating_sub(BESIDE_IMAGE + image.len() as u64);
        self.free_turned = Some(free);
        if free < need {
            return Ok(Turn::Short(free));
        }
        let half = Half::of(alloc, &image)?;
        Ok(Turn::To(half))
    }

    /// How much a turn would leave free, if that is known and is less than this need.
    fn known_short(&self, need: u64) -> Option<u64>
        ensures { IfSome result (λ free. (free ≡ free_turned_at self.now) × (free < need)) }
    {
        match self.free_turned {
            Some(free) if free < need => Some(free),
            _ => None,
        }
    }

    /// Makes the record of a plan last, and takes it up. The device has the size that it had when it was opened. If the plan needs
    /// a turn, the device is turned first. After a fault the store is gone, and the device may be opened again. It stands for the
    /// old records or also for the new one, and surely for the new one if only an allocation failed.
    pub fn commit<E: Edge>(
        self,
        alloc: Global,
        edge: &mut E,
        planned: Planned,
    ) -> Result<(Store, Durable), StoreFault>
        requires plan { IsPlanOf self planned }
        requires size { E.extent edge.old ≡ self.layout.size }
        ensures committed { IfOk result (λ x. Commits self planned x.0 x.1) }
        ensures on_book { (rs : List Record) → StandsFor self rs
            → IfOk result (λ x. CommitsOnBook self x.0 rs planned x.1) }
        ensures moments { Told (KeepsPart self planned.accepted) (E.told edge.old) (E.told edge.new) }
        ensures lasts { WhereItLasts result
            (Told (Keeps self planned.accepted) (E.told edge.old) (E.told edge.new)) }
        ensures cause { CommitCause (E.faults edge.old) (E.faults edge.new) result }
        ensures heard { Told HearsNothing (E.heard edge.old) (E.heard edge.new) }
        ensures kept { Stays E.extent edge.old edge.new }
        ensures channels { Stays E.channels edge.old edge.new }
    {
        let core = self.core;
        let seat = Seat {
            journal: self.journal,
            halves: self.halves,
            point: self.point,
        };
        let seat = seat.put(edge, &core, &planned)?;
        let (core, entries) = core.step(alloc, &planned.accepted)?;
        let durable = Durable {
            number: core.count(),
            entries,
            is_time: planned.is_told_time(),
        };
        let store = Store {
            core,
            journal: seat.journal,
            halves: seat.halves,
            point: seat.point,
            free_turned: None,
        };
        Ok((store, durable))
    }
}

/// Whether a turn makes room for a record.
enum Turn {
    /// It does: this is the half with the image of what stands.
    To(Half),
    /// It doesn't: this is how much it would leave free.
    Short(u64),
}

/// A record's frame in the journal.
#[tactic(auto, using(crate::proofs::Framing::framed_so, crate::proofs::Framing::framed_need))]
fn frame_of(alloc: Global, accepted: &Record) -> Result<Frame, AllocError>
    requires input_form { IsTrue (is_in_form accepted.now.input) }
    requires stamp { IsTrue (is_stamp accepted.now.at) }
    ensures framed { IfOk result (IsFramed accepted.now) }
    ensures need { IfOk result (λ frame. length frame ≡ need_of accepted.now) }
{
    let mut bytes = Frame::begin(alloc)?;
    put_record(&mut bytes, accepted.at, &accepted.input)?;
    Frame::close(bytes)
}
