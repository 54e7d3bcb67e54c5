//! A worked list of moves: the checker computes what both sides have.
ghost use Rattle.std.specs.Prelude.{◌≡◌, pos, neg_ℤ, [], false};
ghost use Rattle.iss_exchange_laws.specs.Worked.{amount_of, bought, crashed, funded_in_part, settled, sides, sides_after, undone, unreached};

/// A purchase of 60.00 is funded, and isn't heard of. It fails, its void undoes what was funded, and its acknowledgement
/// comes. Of another purchase, of 90.00, a part of 60.00 is funded. A crash loses a record that isn't released, and no other.
#[tactic(auto, unfolding(iss_model::specs::rules::Stepping::step, iss_model::specs::rules::Judging::judge))]
pub fn worked_moves()
    ensures bought { sides_after (bought 6000 false) ≡ sides 4 (pos 6000) (pos 0) (amount_of 1 6000) [] [] }
    ensures without_answer { sides_after unreached ≡ sides 5 (pos 6000) (pos 0) [] (amount_of 1 6000) (amount_of 1 0) }
    ensures after_void { sides_after undone ≡ sides 5 (pos 0) (pos 0) [] [] [] }
    ensures acknowledged { sides_after settled ≡ sides 6 (pos 0) (pos 0) [] [] [] }
    ensures part { sides_after funded_in_part ≡ sides 5 (pos 6000) (neg_ℤ (pos 6000)) [] [] [] }
    ensures after_crash { sides_after crashed ≡ sides 4 (pos 6000) (pos 0) (amount_of 1 6000) [] [] }
{}
