//! The limits of a message.

/// The most digits of a length.
pub(crate) const MOST_DIGITS: usize = 10;

/// The most header lines of a head.
pub(crate) const MOST_HEADERS: usize = 64;

/// The most bytes of a head.
pub(crate) const MOST_HEAD: usize = 8192;

/// The most bytes of a body.
pub(crate) const MOST_BODY: u64 = 16384;

/// The most bytes of a request that are kept: a head and a body.
pub(crate) const MOST_REQUEST: usize = MOST_HEAD + MOST_BODY as usize;

/// The most bytes of an answer that are kept: a head, a body, and one byte more. By that byte a body without a length is
/// too long.
pub(crate) const MOST_ANSWER: usize = MOST_REQUEST + 1;
