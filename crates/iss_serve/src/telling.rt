//! The response that tells a client what is wrong with its line.
ghost use Rattle.std.specs.Prelude.{◌≡◌, IfOk};
ghost use Rattle.iss_event.specs.FormLines.{form_text};
ghost use Rattle.iss_http.specs.declared.statuses.TheConstants.{BAD_REQUEST};
ghost use Rattle.iss_http.specs.Messages.{respond};

use iss_event::{FormFault, form_line};
use iss_http::respond;
use iss_http::statuses::BAD_REQUEST;
use std::alloc::{AllocError, Global};

/// The response that tells the fault of a line.
pub(crate) fn form_response(alloc: Global, fault: &FormFault) -> Result<Vec<u8>, AllocError>
    ensures { IfOk result (λ text. text.items ≡ respond BAD_REQUEST (form_text fault.now)) }
{
    let line = form_line(alloc, fault)?;
    respond(alloc, BAD_REQUEST, &line)
}
