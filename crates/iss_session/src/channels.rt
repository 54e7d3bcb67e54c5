//! Channels are closed after the last bytes that go out on them.
ghost use Rattle.iss_session.specs.Courses.{ClosesClients, ClosesDialled, InEachRun};

/// When a run that serves is over, no channel is left open that was dialled or sent on, and none that a client came on.
/// Each was closed, and after that nothing was sent on it.
pub fn channels_are_closed()
    ensures dialled { InEachRun ClosesDialled }
    ensures clients { InEachRun ClosesClients }
{}
