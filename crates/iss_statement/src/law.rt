//! Laws of statements, each the contract of a function that does nothing.
ghost use Rattle.iss_statement.specs.Covered.{ClosingIsBalance, LastCoversAll};

/// If a statement is over the postings of a book and no row of the user is of a later day, its closing balance is the user's
/// balance in the book.
#[tactic(auto, using(crate::proofs::Closing::closing))]
pub fn closing_is_the_balance()
    ensures { ClosingIsBalance }
{}

/// If rows can be put into a statement and the last of them isn't of a later day, no row is.
#[tactic(auto, using(crate::proofs::Closing::covers))]
pub fn last_row_covers_all()
    ensures { LastCoversAll }
{}
