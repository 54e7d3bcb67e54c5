//! The statuses of responses (RFC 9110, RFC 4918).

/// Success.
pub const OK: u16 = 200;

/// The request or its body isn't in form.
pub const BAD_REQUEST: u16 = 400;

/// A gateway doesn't fund what it is asked for.
pub const PAYMENT_REQUIRED: u16 = 402;

/// The target is no path that is served.
pub const NOT_FOUND: u16 = 404;

/// The request contradicts what stands.
pub const CONFLICT: u16 = 409;

/// There is no room to keep what the request asks for.
pub const INSUFFICIENT_STORAGE: u16 = 507;
