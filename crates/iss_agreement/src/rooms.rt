//! What holds of every room.
ghost use Rattle.std.specs.Prelude.{◌≡◌, true, false, List};
ghost use Rattle.iss_model.specs.declared.input.Record.{Record};
ghost use Rattle.iss_model.specs.run.Rooms.{Room, most_free, fits, room_after};
ghost use Rattle.iss_agreement.specs.Stepped.{fits_a_half, free_after};

/// In halves a record fits if it fits the current half, or the other one after a turn. On one journal what is free depends
/// on no image, and the room stays as it is.
#[tactic(auto, using(crate::proofs::RoomLaws::fits_either, crate::proofs::RoomLaws::free_in_journal, crate::proofs::RoomLaws::journal_stays))]
pub fn a_record_fits_now_or_after_a_turn()
    ensures halves { (room : Room) (rs : List Record) (r : Record) → room.halved ≡ true
        → fits room rs r ≡ fits_a_half room rs r }
    ensures one_journal { (room : Room) (rs : List Record) → room.halved ≡ false → most_free room rs ≡ free_after room rs }
    ensures stays { (room : Room) (rs : List Record) (r : Record) → room.halved ≡ false → room_after room rs r ≡ room }
{}
