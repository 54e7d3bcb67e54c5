//! The response that tells a client what is wrong with its request.
ghost use Rattle.std.specs.Prelude.{◌≡◌, IfOk};
ghost use Rattle.iss_http.specs.Messages.{IsStatus};
ghost use Rattle.iss_model.specs.texts.AnswerLines.{http_fault_line};
ghost use Rattle.iss_session.specs.Hearings.{fault_status, fault_text, fault_response};

use iss_http::statuses::{BAD_REQUEST, NOT_FOUND};
use iss_http::{HttpFault, respond};
use std::alloc::{AllocError, Global};

/// The response that tells the fault of a request.
pub fn fault_response(alloc: Global, fault: HttpFault) -> Result<Vec<u8>, AllocError>
    ensures { IfOk result (λ text. text.items ≡ fault_response fault) }
{
    let line = fault_line(alloc, fault)?;
    respond(alloc, fault_status(fault), &line)
}

/// The status that tells a fault of HTTP.
fn fault_status(fault: HttpFault) -> u16
    ensures value { result ≡ fault_status fault }
    ensures known { IsStatus result }
{
    match fault {
        HttpFault::Path => NOT_FOUND,
        _ => BAD_REQUEST,
    }
}

/// The name of a fault of HTTP.
fn fault_text(fault: HttpFault) -> &'static str
    ensures { result.now ≡ fault_text fault }
{
    match fault {
        HttpFault::Head => "HEAD",
        HttpFault::HeadLong => "HEAD_LONG",
        HttpFault::Method => "METHOD",
        HttpFault::Path => "PATH",
        HttpFault::Coding => "CODING",
        HttpFault::NoLength => "NO_LENGTH",
        HttpFault::BodyLong => "BODY_LONG",
    }
}

/// The line that tells a fault of HTTP, with its line feed.
#[tactic(auto, using(crate::proofs::Texts::fault_told), unfolding(iss_model::specs::texts::AnswerLines::http_fault_line))]
fn fault_line(alloc: Global, fault: HttpFault) -> Result<Vec<u8>, AllocError>
    ensures { IfOk result (λ line. line.items ≡ http_fault_line (fault_text fault)) }
{
    let mut line = Vec::new(alloc);
    line.extend_from_slice(b"{\"fault\":\"")?;
    line.extend_from_slice(fault_text(fault).as_bytes())?;
    line.extend_from_slice(b"\",\"reply\":\"http\"}\n")?;
    Ok(line)
}
