//! Bytes as a JSON object.
ghost use Rattle.std.specs.Prelude.{◌≡◌, ◌≢◌, Some, None, Err, true, IfOk, IfSome, option_map, option_and_then};
ghost use Rattle.json.specs.Value.{value_view};
ghost use Rattle.serde_json.specs.Read.{read};
ghost use Rattle.iss_field.specs.Objects.{object_of, if_object};
ghost use Rattle.iss_field.specs.Seen.{seen, fits, json_text};

use crate::fitting::is_fit_object;
use crate::plain::plain_members;
use json::{Error, Reader, Scratch, Value};
use std::alloc::{AllocError, Global};

/// How deep arrays and objects may nest.
const MAX_DEPTH: usize = 127;

/// A JSON object, as its line spells it.
#[derive(Drop)]
pub struct Object<'a> {
    pub(crate) value: Value<'a>,
    // Each of its numbers is one that data has.
    ghost fit: { fits (value_view value) ≡ true },
}

impl<'a> Object<'a> {
    /// The object that the bytes are (RFC 8259), or `None` if they aren't one.
    pub fn read(
        alloc: Global,
        scratch: &'a mut Scratch,
        bytes: &'a [u8],
    ) -> Result<Option<Object<'a>>, AllocError>
        ensures { IfOk result (λ found. option_map (λ object. seen object.value) found ≡ object_of bytes.now) }
    {
        match object_of(alloc, scratch, bytes)? {
            Some(value) => Ok(Some(Object { value })),
            None => Ok(None),
        }
    }
}

/// The object that the bytes are, or `None` if they aren't one.
fn object_of<'a>(
    alloc: Global,
    scratch: &'a mut Scratch,
    bytes: &'a [u8],
) -> Result<Option<Value<'a>>, AllocError>
    ensures value { IfOk result (λ found. option_map seen found ≡ object_of bytes.now) }
    ensures fit { IfOk result (λ found. IfSome found
        (λ object. fits (value_view object) ≡ true)) }
{
    match str::from_utf8(bytes) {
        Ok(text) => object_of_text(alloc, scratch, text),
        Err(_) => Ok(None),
    }
}

fn object_of_text<'a>(
    alloc: Global,
    scratch: &'a mut Scratch,
    text: &'a str,
) -> Result<Option<Value<'a>>, AllocError>
    ensures value { IfOk result (λ found. option_map seen found
        ≡ option_and_then if_object (read text.now)) }
    ensures fit { IfOk result (λ found. IfSome found
        (λ object. fits (value_view object) ≡ true)) }
{
    match value_of_text(alloc, scratch, text) {
        Ok(value) if is_fit_object(&value) => Ok(Some(value)),
        Ok(_) => Ok(None),
        Err(Error::Invalid) => Ok(None),
        Err(Error::OutOfMemory) => Err(AllocError),
        Err(Error::TooLong | Error::DuplicateKey) => unreachable!(),
    }
}

fn value_of_text<'a>(
    alloc: Global,
    scratch: &'a mut Scratch,
    text: &'a str,
) -> Result<Value<'a>, Error>
    ensures ok { IfOk result (λ value. json_text text.now ≡ Some (value_view value)) }
    ensures invalid { result ≡ Err Error.Invalid → json_text text.now ≡ None }
    ensures never_too_long { result ≢ Err Error.TooLong }
    ensures never_duplicate { result ≢ Err Error.DuplicateKey }
{
    if let Some(members) = plain_members(alloc, text)? {
        return Ok(Value::Object(members));
    }
    let mut reader = Reader::new(text, scratch)?;
    let value = Value::read(alloc, &mut reader, MAX_DEPTH)?;
    if reader.next().is_some() {
        return Err(Error::Invalid);
    }
    Ok(value)
}
