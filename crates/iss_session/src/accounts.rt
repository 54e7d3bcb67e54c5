//! Runs whose book has no product of the gateway.
ghost use Rattle.iss_session.specs.Courses.{InEachRun, StaysLocal};

/// A run begins on the book of some records, and its book has no product of the gateway in the end. Then it sends the
/// gateway nothing and awaits nothing of it.
pub fn accounts_stay_local()
    ensures { InEachRun StaysLocal }
{}
