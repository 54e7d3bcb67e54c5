//! What answers the bodies of requests.
ghost use Rattle.std.specs.Prelude.{◌≡◌, ◌<◌, ◌≤◌, ◌+◌, List, ℕ, IfOk, OnOk};

use std::alloc::{AllocError, Global};

/// What answers the bodies of requests, each at once.
///
/// Contracts see by what stands the `response` to a body, what stands `after` it, and for how many bodies more there is `room`.
pub trait AnswersBodies {
    ghost response: { Self → List ℕ → List ℕ };

    ghost after: { Self → List ℕ → Self };

    ghost room: { Self → ℕ };

    /// The response to a body, a whole message. If an allocation fails, what stands is open.
    fn answer(&mut self, alloc: Global, body: &[u8]) -> Result<Vec<u8>, AllocError>
        requires { 0 < room self.old }
        ensures response { IfOk result (λ text. text.items ≡ response self.old body.now) }
        ensures after { OnOk result (self.new ≡ after self.old body.now) }
        ensures room { OnOk result (room self.old ≤ room self.new + 1) };
}
