//! Worked messages: the checker computes what each of them is.
ghost use Rattle.std.specs.Prelude.{◌≡◌, ◌∷◌, [], codes, take, true, false};
ghost use Rattle.iss_http.specs.declared.faults.HttpFault.TheVariants.{Method, Path, Coding, NoLength, BodyLong};
ghost use Rattle.iss_http.specs.Requests.{request, jit_request, more, body, faulty, IsHopelessRequest};
ghost use Rattle.iss_http.specs.Answers as answers;
ghost use Rattle.iss_http.specs.Answers.{answer_read, ended, garbled, whole};
ghost use Rattle.iss_http.specs.Messages.{respond, ask};
ghost use Rattle.iss_http.specs.Worked.{last_headers, sent, posted};

/// Requests that are taken, and the front of one.
#[tactic(auto, unfolding(crate::specs::Requests::request, crate::specs::Requests::request_headed, crate::specs::Heads::request_head, crate::specs::Lengths::content_length, crate::specs::Lengths::length_of, crate::specs::Worked::is_utf8, crate::specs::Worked::is_token_byte, crate::specs::Worked::trim_ows))]
pub fn worked_requests()
    ensures plain { request (posted ("Content-Length: 2" ∷ []) "{}") ≡ body (codes "{}") }
    ensures empty { request (posted ("Content-Length: 0" ∷ []) "") ≡ body [] }
    ensures other_case { request (posted ("Host: localhost" ∷ "cONTENT-lENGTH:2" ∷ []) "{}") ≡ body (codes "{}") }
    ensures behind { request (posted ("Content-Length: 2" ∷ []) "{} and more") ≡ body (codes "{}") }
    ensures head_cut { request (take 40 (posted ("Content-Length: 2" ∷ []) "{}")) ≡ more }
    ensures body_cut { request (posted ("Content-Length: 2" ∷ []) "{") ≡ more }
{}

/// Requests to a gateway: one that is taken, and one to the path of events.
#[tactic(auto, unfolding(crate::specs::Requests::jit_request, crate::specs::Requests::request_headed, crate::specs::Heads::request_head, crate::specs::Lengths::content_length, crate::specs::Lengths::length_of, crate::specs::Worked::is_utf8, crate::specs::Worked::is_token_byte, crate::specs::Worked::trim_ows))]
pub fn worked_jit_requests()
    ensures taken { jit_request (sent ("POST /jit HTTP/1.1" ∷ "Content-Length: 2" ∷ []) "{}") ≡ body (codes "{}") }
    ensures events { jit_request (posted ("Content-Length: 2" ∷ []) "{}") ≡ faulty Path }
{}

/// Requests that are refused.
#[tactic(auto, unfolding(crate::specs::Requests::request, crate::specs::Requests::request_headed, crate::specs::Heads::request_head, crate::specs::Lengths::content_length, crate::specs::Lengths::length_of, crate::specs::Worked::is_utf8, crate::specs::Worked::is_token_byte, crate::specs::Worked::trim_ows))]
pub fn worked_faults()
    ensures method { request (sent ("GET /events HTTP/1.1" ∷ []) "") ≡ faulty Method }
    ensures path { request (sent ("POST /x HTTP/1.1" ∷ []) "") ≡ faulty Path }
    ensures longer_path { request (sent ("POST /events/ HTTP/1.1" ∷ []) "") ≡ faulty Path }
    ensures coding { request (posted ("Transfer-Encoding: chunked" ∷ []) "") ≡ faulty Coding }
    ensures no_digits { request (posted ("Content-Length: 12x" ∷ []) "") ≡ faulty NoLength }
    ensures twice { request (posted ("Content-Length: 1" ∷ "Content-Length: 1" ∷ []) "1") ≡ faulty NoLength }
    ensures eleven_digits { request (posted ("Content-Length: 00000000001" ∷ []) "1") ≡ faulty NoLength }
    ensures long { request (posted ("Content-Length: 16385" ∷ []) "") ≡ faulty BodyLong }
{}

/// A head that begins with a space, whatever comes after it.
#[tactic(auto, using(crate::proofs::Hopeless::space_first))]
pub fn worked_hopeless()
    ensures { IsHopelessRequest (codes " POST /events HTTP/1.1") }
{}

/// What a gateway answers.
#[tactic(auto, unfolding(crate::specs::Answers::answer_read, crate::specs::Answers::answer_headed, crate::specs::Heads::response_head, crate::specs::Lengths::content_length, crate::specs::Lengths::length_of, crate::specs::Worked::is_utf8, crate::specs::Worked::is_token_byte, crate::specs::Worked::trim_ows))]
pub fn worked_answers()
    ensures plain { answer_read (sent ("HTTP/1.1 200 OK" ∷ "Content-Length: 2" ∷ []) "{}") false ≡ whole 200 (codes "{}") }
    ensures chunked { answer_read (sent ("HTTP/1.1 200 OK" ∷ "Transfer-Encoding: chunked" ∷ []) "") false ≡ garbled }
    ensures one_byte_early { answer_read (sent ("HTTP/1.1 200 OK" ∷ "Content-Length: 2" ∷ []) "{") true ≡ ended }
    ensures not_ended { answer_read (sent ("HTTP/1.1 200 OK" ∷ "Content-Length: 2" ∷ []) "{") false ≡ answers.more }
    ensures no_length { answer_read (sent ("HTTP/1.1 402 Payment Required" ∷ []) "") true ≡ whole 402 [] }
{}

/// What is sent.
#[tactic(auto, unfolding(crate::specs::Messages::respond, crate::specs::Messages::ask, crate::specs::Worked::digits))]
pub fn worked_texts()
    ensures response { respond 409 (codes "{}")
        ≡ sent ("HTTP/1.1 409 Conflict" ∷ last_headers) "{}" }
    ensures refused { respond 402 (codes "{}")
        ≡ sent ("HTTP/1.1 402 Payment Required" ∷ last_headers) "{}" }
    ensures asked { ask (codes "{}")
        ≡ sent ("POST /jit HTTP/1.1" ∷ "Host: localhost" ∷ last_headers) "{}" }
{}
