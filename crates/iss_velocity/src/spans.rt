//! The spans in which controls add up.
ghost use Rattle.std.specs.Prelude.{◌≡◌, IsTrue};
ghost use Rattle.iss_model.specs.Forms.{is_stamp};
ghost use Rattle.iss_velocity.specs.Spanning.{spans_at, number_in, utc_number, number_by, is_single};

use iss_model::Window;
use iss_time::window;

/// A stamp and a transaction, with the windows in UTC that the stamp falls in, made once for all controls.
#[derive(Clone, Copy)]
pub(crate) struct Spans {
    /// In milliseconds since 1970.
    at: u64,
    /// The number of the authorisation's record, which stands for its transaction.
    origin: u32,
    day: i64,
    week: i64,
    month: i64,
}

impl Spans {
    #[tactic(auto, unfolding(crate::specs::Spanning::spans_at))]
    pub(crate) fn new(at: u64, origin: u32) -> Spans
        requires { IsTrue (is_stamp at) }
        ensures value { result ≡ spans_at at origin }
        ensures stamp { IsTrue (is_stamp result.at) }
    {
        Spans {
            at,
            origin,
            day: window(Window::Day, at, 0),
            week: window(Window::Week, at, 0),
            month: window(Window::Month, at, 0),
        }
    }

    /// The number of the span in which a control of this window and offset adds up.
    pub(crate) fn number(&self, kind: Window, offset: i16) -> i64
        requires { IsTrue (is_stamp self.now.at) }
        ensures { result ≡ number_by self.now kind offset }
    {
        if offset == 0 {
            self.utc_number(kind)
        } else {
            number_in(kind, offset, self.at, self.origin)
        }
    }

    fn utc_number(&self, kind: Window) -> i64
        ensures { result ≡ utc_number self.now kind }
    {
        match kind {
            Window::Transaction => i64::from(self.origin),
            Window::Day => self.day,
            Window::Week => self.week,
            Window::Month => self.month,
            Window::Lifetime => 0,
        }
    }
}

/// The number of the span of a window at an offset, for a stamp and a transaction.
#[tactic(auto, unfolding(crate::specs::Spanning::number_in))]
fn number_in(kind: Window, offset: i16, at: u64, origin: u32) -> i64
    requires { IsTrue (is_stamp at) }
    ensures { result ≡ number_in kind offset at origin }
{
    match kind {
        Window::Transaction => i64::from(origin),
        Window::Day => window(Window::Day, at, offset),
        Window::Week => window(Window::Week, at, offset),
        Window::Month => window(Window::Month, at, offset),
        Window::Lifetime => 0,
    }
}

/// Whether a control of this window adds up over single transactions.
pub(crate) fn is_single(window: Window) -> bool
    ensures { result ≡ is_single window }
{
    match window {
        Window::Transaction => true,
        Window::Day | Window::Week | Window::Month | Window::Lifetime => false,
    }
}
