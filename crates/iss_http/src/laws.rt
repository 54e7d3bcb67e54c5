//! Laws of the grammar: each is the contract of a function with an empty body.
ghost use Rattle.std.specs.Prelude.{◌≡◌, ◌⊎◌, ◌++◌, ℕ, Bool, List};
ghost use Rattle.iss_http.specs.Requests.{request, jit_request, more, hopeless_request, IsHopelessRequest};
ghost use Rattle.iss_http.specs.Answers.{AnswerIsAwaitedOrStays, answer_read, hopeless_answer, IsHopelessAnswer};

/// Once bytes are a request or an answer, no further bytes change that. So in whichever pieces the bytes come, a reader
/// returns what all of them together make.
pub fn what_is_whole_stays()
    ensures request { (bytes rest : List ℕ) → (request bytes ≡ more) ⊎ (request (bytes ++ rest) ≡ request bytes) }
    ensures jit { (bytes rest : List ℕ) → (jit_request bytes ≡ more) ⊎ (jit_request (bytes ++ rest) ≡ jit_request bytes) }
    ensures answer { (bytes rest : List ℕ) (over : Bool)
        → AnswerIsAwaitedOrStays bytes rest over }
{}

/// Bytes with which no head begins are no request and no whole answer, whenever the reader tells that.
pub fn a_bad_head_begins_nothing()
    ensures request { (bytes : List ℕ) → IsHopelessRequest bytes
        → request bytes ≡ hopeless_request bytes }
    ensures jit { (bytes : List ℕ) → IsHopelessRequest bytes
        → jit_request bytes ≡ hopeless_request bytes }
    ensures answer { (bytes : List ℕ) (over : Bool) → IsHopelessAnswer bytes
        → answer_read bytes over ≡ hopeless_answer bytes over }
{}
