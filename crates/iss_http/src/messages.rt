//! The texts that are sent.
ghost use Rattle.std.specs.Prelude.{◌≡◌, [], ◌++◌, decimal, unwrap_or, IfOk, OnOk};
ghost use Rattle.http.specs.StatusCode.{reason_phrase};
ghost use Rattle.iss_http.specs.Messages.{respond, ask, message, crlf, IsStatus};

use http::StatusCode;
use itoa::Buffer;
use std::alloc::{AllocError, Global};

/// A response with this status, one of those in `statuses`, and a body of JSON (RFC 9112).
pub fn respond(alloc: Global, status: u16, body: &[u8]) -> Result<Vec<u8>, AllocError>
    requires { IsStatus status }
    ensures { IfOk result (λ text. text.items ≡ respond status body.now) }
{
    let mut out = Vec::with_capacity(alloc, 256)?;
    write_response(&mut out, status, body)?;
    Ok(out)
}

/// A request to the gateway, a POST to `/jit` with a body of JSON (RFC 9112).
pub fn ask(alloc: Global, body: &[u8]) -> Result<Vec<u8>, AllocError>
    ensures { IfOk result (λ text. text.items ≡ ask body.now) }
{
    let mut out = Vec::with_capacity(alloc, 256)?;
    write_ask(&mut out, body)?;
    Ok(out)
}

/// Writes a response with this status, one of those in `statuses`, and a body of JSON (RFC 9112), in place of what stands there.
///
/// Its lines are the status with its phrase, `Content-Type: application/json`, `Content-Length`, and `Connection: close`.
/// If an allocation fails, a part of it may be there.
#[tactic(auto, unfolding(crate::specs::Messages::respond))]
pub fn write_response(out: &mut Vec<u8>, status: u16, body: &[u8]) -> Result<(), AllocError>
    requires { IsStatus status }
    ensures { OnOk result (out.new.items ≡ respond status body.now) }
{
    out.clear();
    out.extend_from_slice(b"HTTP/1.1 ")?;
    put_number(out, u64::from(status))?;
    out.extend_from_slice(b" ")?;
    out.extend_from_slice(phrase(status).as_bytes())?;
    put_end(out)?;
    put_rest(out, body)
}

/// Writes a request to the gateway, a POST to `/jit` with a body of JSON (RFC 9112), in place of what stands there.
///
/// Its lines are `POST /jit HTTP/1.1`, `Host: localhost`, and those of a response below its status. If an allocation fails, a
/// part of it may be there.
#[tactic(auto, unfolding(crate::specs::Messages::ask))]
pub fn write_ask(out: &mut Vec<u8>, body: &[u8]) -> Result<(), AllocError>
    ensures { OnOk result (out.new.items ≡ ask body.now) }
{
    out.clear();
    put_line(out, "POST /jit HTTP/1.1")?;
    put_line(out, "Host: localhost")?;
    put_rest(out, body)
}

/// The phrase of a status, as RFC 9110 has it.
fn phrase(status: u16) -> &'static str
    requires { IsStatus status }
    ensures { result.now ≡ unwrap_or (reason_phrase status) [] }
{
    match StatusCode::from_u16(status) {
        Ok(code) => code.canonical_reason().unwrap_or(""),
        Err(_) => "",
    }
}

/// Adds the lines on the body, and the body.
fn put_rest(out: &mut Vec<u8>, body: &[u8]) -> Result<(), AllocError>
    ensures { OnOk result (out.new.items ≡ message out.old.items body.now) }
{
    put_line(out, "Content-Type: application/json")?;
    out.extend_from_slice(b"Content-Length: ")?;
    put_number(out, body.len() as u64)?;
    put_end(out)?;
    put_line(out, "Connection: close")?;
    put_end(out)?;
    out.extend_from_slice(body)
}

/// Adds a line.
fn put_line(out: &mut Vec<u8>, text: &str) -> Result<(), AllocError>
    ensures { OnOk result (out.new.items ≡ out.old.items ++ text.now ++ crlf) }
{
    out.extend_from_slice(text.as_bytes())?;
    put_end(out)
}

/// Ends a line.
fn put_end(out: &mut Vec<u8>) -> Result<(), AllocError>
    ensures { OnOk result (out.new.items ≡ out.old.items ++ crlf) }
{
    out.extend_from_slice(b"\r\n")
}

/// Adds a number in decimal digits.
fn put_number(out: &mut Vec<u8>, number: u64) -> Result<(), AllocError>
    ensures { OnOk result (out.new.items ≡ out.old.items ++ decimal number) }
{
    out.extend_from_slice(Buffer::new().format(number).as_bytes())
}
