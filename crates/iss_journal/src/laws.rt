//! What holds of every device.

ghost use Rattle.iss_journal.specs.Region.{ShowsOnce};
ghost use Rattle.iss_journal.specs.Reading.{BeginsToRead, ReadsOn, ReadsToTheEnd, BadShowsNothing};

/// A device shows at most one list of records.
pub fn shows_once()
    ensures { ShowsOnce }
{}

/// What a scan reads from a region's first gate on, until it comes to an end, is what the device shows. At a bad record
/// the device shows no list of records.
pub fn reads_what_is_shown()
    ensures begins { BeginsToRead }
    ensures on { ReadsOn }
    ensures ends { ReadsToTheEnd }
    ensures bad { BadShowsNothing }
{}
