//! Laws of the definitions: the state that a core keeps and the book of its records agree.
//!
//! Each law is the contract of a function with an empty body. It holds for every list of records, legal or not.
ghost use Rattle.std.specs.Prelude.{◌≡◌, ℕ, ◌+ℤ◌, List, [], ◌∷◌, ◌++◌, length, map};
ghost use Rattle.std.specs.FinMap as finite;
ghost use Rattle.iss_model.specs.declared.currency.Currency.{Currency};
ghost use Rattle.iss_model.specs.declared.account.Account.{Account};
ghost use Rattle.iss_model.specs.declared.account.Part.{Part};
ghost use Rattle.iss_model.specs.declared.entry.Entry.{Entry};
ghost use Rattle.iss_model.specs.declared.decision.Judged.TheVariants.{New, Clock};
ghost use Rattle.iss_model.specs.declared.input.Input.{Input};
ghost use Rattle.iss_model.specs.declared.input.Record.{Record};
ghost use Rattle.iss_model.specs.Sums.{Change, account_key};
ghost use Rattle.iss_model.specs.state.Kept.{kept_at};
ghost use Rattle.iss_model.specs.rules.Settings.{users_of, cards_of};
ghost use Rattle.iss_model.specs.rules.Controls.{ControlPut, groups_of, controls_of, sets_of};
ghost use Rattle.iss_model.specs.rules.Activity.{txns_of, calls_of, notices_of, pending_of};
ghost use Rattle.iss_model.specs.rules.Facts.{held_in, stand_in_sum, reply_in};
ghost use Rattle.iss_model.specs.rules.Asks.{used_in};
ghost use Rattle.iss_model.specs.texts.BalanceLines.{accounts_of};
ghost use Rattle.iss_model.specs.rules.Histories.{book_facts, events_of, history_keeper, history_of, nothing_yet, time_of};
ghost use Rattle.iss_model.specs.state.Cores.{CoreState, no_core, control_facts, core_facts, core_keeper, core_of};
ghost use Rattle.iss_model.specs.run.Transcripts.{Reading, transcript};
ghost use Rattle.iss_agreement.specs.Shown.{shown_products, shown_state};
ghost use Rattle.iss_agreement.specs.Likeness.{AreAlike};
ghost use Rattle.iss_agreement.specs.Stepped.{BookTakes, CoreTakes, book_entries, book_gives, book_rows, core_after, core_entries, core_gives, core_judges, kept_facts};
ghost use Rattle.iss_agreement.specs.Booked.{CountsSinceFirst, amounts_counted, balance_with, book_balance, book_part, book_sum, kept_balance, kept_held, kept_part, kept_stood, record_sum, times_counted};

/// The state that is kept entry by entry is the one that the book shows by filters and sums over all its rows.
/// Book and state tell the same facts, so a further record makes the same entries on both, and both judge an input alike.
#[tactic(auto, using(crate::proofs::CoreOfBook::core_history, crate::proofs::CoreOfBook::core_step, crate::proofs::CoreOfBook::facts_history, crate::proofs::CoreOfBook::entries_history, crate::proofs::CoreOfBook::judge_history))]
pub fn core_keeps_the_book()
    ensures state { (rs : List Record) → core_of rs ≡ shown_state (history_of rs) }
    ensures longer { (rs : List Record) → (r : Record) → core_after (core_of rs) r ≡ core_of (rs ++ r ∷ []) }
    ensures facts { (rs : List Record) → kept_facts rs ≡ book_facts rs }
    ensures entries { (rs : List Record) → (r : Record) → core_entries (core_of rs) r ≡ book_entries rs r }
    ensures judged { (rs : List Record) → (i : Input) → (stamp : ℕ) → core_gives rs i stamp ≡ book_gives rs i stamp }
{}

/// Cores that are alike tell the same facts. So a record makes the same entries on both and leaves them alike, and both judge
/// an input alike.
#[tactic(auto, using(crate::proofs::Likeness::alike_itself, crate::proofs::Likeness::facts_alike, crate::proofs::Likeness::entries_same, crate::proofs::Likeness::worlds_alike, crate::proofs::Likeness::judged_same))]
pub fn alike_cores_stay_alike()
    ensures itself { (c : CoreState) → AreAlike c c }
    ensures facts { (c d : CoreState) → AreAlike c d → core_facts c ≡ core_facts d }
    ensures entries { (c d : CoreState) → (r : Record) → AreAlike c d → core_entries c r ≡ core_entries d r }
    ensures worlds { (c d : CoreState) → (r : Record) → AreAlike c d → AreAlike (core_after c r) (core_after d r) }
    ensures judged { (c d : CoreState) → (i : Input) → (stamp : ℕ) → AreAlike c d → core_judges c i stamp ≡ core_judges d i stamp }
{}

/// The texts of lines on a core are those on its book.
#[tactic(auto, using(crate::proofs::CoreOfBook::core_transcript))]
pub fn a_core_is_told_its_transcript()
    ensures { (lines : List Reading) → transcript core_keeper no_core lines ≡ transcript history_keeper nothing_yet lines }
{}

/// What a control counts by origin over the whole book is what it counts in the rows of records later than its first.
#[tactic(auto, using(crate::proofs::Since::amounts_since, crate::proofs::Since::times_since))]
pub fn controls_count_since_their_first_record()
    ensures amounts { (rs : List Record) (put : ControlPut) → CountsSinceFirst (amounts_counted rs put) put rs }
    ensures times { (rs : List Record) (put : ControlPut) → CountsSinceFirst (times_counted rs put) put rs }
{}

/// A further record adds to each sum of the book what its entries change there. So an account's balance grows by what the
/// entries post to it, less what they post from it.
#[tactic(auto, using(crate::proofs::StepSums::summed_more, crate::proofs::StepSums::balance_more))]
pub fn records_add_to_sums()
    ensures sums { (changes : Entry → List Change) (key : List ℕ) (rs : List Record) (r : Record)
        → book_sum changes key (rs ++ r ∷ []) ≡ book_sum changes key rs +ℤ record_sum changes key rs r }
    ensures balance { (a : Account) (rs : List Record) (r : Record)
        → book_balance (rs ++ r ∷ []) a ≡ balance_with rs r a }
{}

/// What a core answers to each question is what its book answers: each list by filters, each sum over all rows.
pub fn core_answers_as_its_book()
    ensures records { (rs : List Record) → (history_of rs).records ≡ rs }
    ensures time { (rs : List Record) → (core_of rs).now ≡ time_of rs }
    ensures count { (rs : List Record) → (core_of rs).count ≡ length rs }
    ensures events { (rs : List Record) → (core_of rs).accepted ≡ events_of rs }
    ensures reply { (rs : List Record) → (event : List ℕ) → reply_in (kept_facts rs) event ≡ reply_in (book_facts rs) event }
    ensures users { (rs : List Record) → (core_of rs).cardholders.users ≡ users_of (history_of rs).rows }
    ensures cards { (rs : List Record) → (core_of rs).cardholders.cards ≡ cards_of (history_of rs).rows }
    ensures products { (rs : List Record) → (core_of rs).products ≡ shown_products (book_rows rs) }
    ensures groups { (rs : List Record) → (core_of rs).groups ≡ groups_of (history_of rs).rows }
    ensures controls { (rs : List Record) → map control_facts (core_of rs).controls ≡ controls_of (history_of rs).rows }
    ensures sets { (rs : List Record) → (core_of rs).stand_ins.sets ≡ sets_of (history_of rs).rows }
    ensures used { (rs : List Record) (control user : List ℕ) (at : ℕ)
        → used_in (kept_facts rs) control user at ≡ used_in (book_facts rs) control user at }
    ensures balance { (rs : List Record) → (a : Account) → kept_balance (core_of rs) a ≡ book_balance rs a }
    ensures accounts { (rs : List Record)
        → finite.keys (core_of rs).balances ≡ map account_key (accounts_of (history_of rs).rows) }
    ensures held { (rs : List Record) (user : List ℕ) (currency : Currency)
        → kept_held (core_of rs) user currency ≡ held_in (book_facts rs) user currency }
    ensures part { (rs : List Record) (txn : List ℕ) (p : Part) → kept_part (core_of rs) txn p ≡ book_part rs txn p }
    ensures cleared { (rs : List Record) → (txn : List ℕ)
        → kept_at (core_of rs).txn_sums.cleared txn ≡ (book_facts rs).cleared txn }
    ensures refunded { (rs : List Record) (txn : List ℕ) → kept_at (core_of rs).txn_sums.refunded txn ≡ (book_facts rs).refunded txn }
    ensures paid { (rs : List Record) → (txn : List ℕ)
        → kept_at (core_of rs).txn_sums.paid txn ≡ (book_facts rs).paid txn }
    ensures stood { (rs : List Record) (product user : List ℕ) (at : ℕ)
        → kept_stood (core_of rs) product user at ≡ stand_in_sum (book_facts rs) product user at }
    ensures txns { (rs : List Record) → (core_of rs).holdings.txns ≡ txns_of (history_of rs).rows }
    ensures calls { (rs : List Record) → (core_of rs).calls ≡ calls_of (history_of rs).rows }
    ensures notices { (rs : List Record) → (core_of rs).outbox.made ≡ length (notices_of (history_of rs).rows) }
    ensures pending { (rs : List Record) → (core_of rs).outbox.pending ≡ pending_of (history_of rs).rows }
{}

/// Judging returns a record of the input itself, or of the time before its answer. That record is new if it is judged
/// again, by the book as by the state.
pub fn judging_is_stable()
    ensures book { (rs : List Record) (i : Input) (stamp : ℕ) (r : Record) → book_gives rs i stamp ≡ New r → BookTakes rs r }
    ensures book_clock { (rs : List Record) (i : Input) (stamp : ℕ) (r : Record)
        → book_gives rs i stamp ≡ Clock r → BookTakes rs r }
    ensures state { (rs : List Record) (i : Input) (stamp : ℕ) (r : Record)
        → core_gives rs i stamp ≡ New r → CoreTakes rs r }
    ensures state_clock { (rs : List Record) (i : Input) (stamp : ℕ) (r : Record)
        → core_gives rs i stamp ≡ Clock r → CoreTakes rs r }
{}
