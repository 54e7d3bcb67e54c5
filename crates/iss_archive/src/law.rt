//! Laws of the archive, each the contract of a function that does nothing.

ghost use Rattle.std.specs.Prelude.{◌≡◌, ◌++◌, [], ◌∷◌, List, ℕ};
ghost use Rattle.iss_model.specs.declared.currency.Currency.{Currency};
ghost use Rattle.iss_model.specs.declared.input.Record.{Record};
ghost use Rattle.iss_archive.specs.Postings.{postings_of, own_postings, book_balance};
ghost use Rattle.iss_archive.specs.Statement.{added_by};

/// What all postings of a book add to what a user has is the user's balance in the book.
#[tactic(auto, using(crate::proofs::BalanceLaws::postings_balance))]
pub fn postings_come_to_the_balance()
    ensures { (user : List ℕ) (c : Currency) (rs : List Record) → added_by user c (postings_of rs) ≡ book_balance user c rs }
{}

/// The postings of a list with one record more are those before it, and those of the entries that the record makes.
pub fn one_record_more_adds_its_own()
    ensures { (rs : List Record) (r : Record) → postings_of (rs ++ r ∷ []) ≡ postings_of rs ++ own_postings rs r }
{}
