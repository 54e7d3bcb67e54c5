//! Why a client's request isn't taken.

/// A fault of a request.
#[derive(Clone, Copy, PartialEq, Eq, Debug)]
pub enum HttpFault {
    /// No head of at most 64 header lines begins with these bytes (RFC 9112).
    Head,
    /// 8192 bytes came that aren't a whole head yet.
    HeadLong,
    /// The method isn't POST.
    Method,
    /// The target isn't the path that is served: `/events` for clients, `/jit` for a gateway.
    Path,
    /// The body has a transfer coding or a content coding.
    Coding,
    /// There isn't one `Content-Length` alone, of 1 to 10 digits.
    NoLength,
    /// The body has more than 16384 bytes.
    BodyLong,
}

/// Why a reader returns no body.
#[derive(Clone, Copy, PartialEq, Eq, Debug)]
pub enum FeedFault {
    /// The bytes that came are no request that is taken.
    Http(HttpFault),
    /// An allocation failed.
    OutOfMemory,
}
