//! What reads the request of one client.
ghost use Rattle.std.specs.Prelude.{◌≡◌, List, ℕ, [], ◌++◌, option_map, IfOk, IfErr, IfNone};
ghost use Rattle.iss_http.specs.Requests.{Request as RequestSpec, answered, request, jit_request, IsCauseAs};

use iss_http::{FeedFault, JitReader, RequestReader};
use std::alloc::{AllocError, Global};

/// Reads one request, whose bytes come in any pieces. Contracts see the bytes that came so far as `came`, and what bytes are as a
/// request as `reads`.
pub trait ReadsRequest {
    ghost came: { Self → List ℕ };

    ghost reads: { List ℕ → RequestSpec };

    /// A reader that has received no bytes.
    fn begin(alloc: Global) -> Result<Self, AllocError>
        ensures { IfOk result (λ reader. came reader ≡ []) };

    /// Takes the next bytes, and returns the body when the request is whole. `None` if it isn't yet.
    fn read_on(&mut self, alloc: Global, piece: &[u8]) -> Result<Option<Vec<u8>>, FeedFault>
        ensures body { IfOk result
            (λ said. reads (came self.old ++ piece.now) ≡ answered (option_map (λ text. text.items) said)) }
        ensures fault { IfErr result (IsCauseAs reads (came self.old ++ piece.now)) }
        ensures kept { IfOk result (λ said. IfNone said (came self.new ≡ came self.old ++ piece.now)) };
}

/// A client's request, to the path of events.
impl ReadsRequest for RequestReader {
    ghost came = { λ reader. reader };

    ghost reads = { request };

    fn begin(alloc: Global) -> Result<RequestReader, AllocError> {
        RequestReader::new(alloc)
    }

    fn read_on(&mut self, alloc: Global, piece: &[u8]) -> Result<Option<Vec<u8>>, FeedFault> {
        self.feed(alloc, piece)
    }
}

/// A request to a gateway, to the path of its funding.
impl ReadsRequest for JitReader {
    ghost came = { λ reader. reader };

    ghost reads = { jit_request };

    fn begin(alloc: Global) -> Result<JitReader, AllocError> {
        JitReader::new(alloc)
    }

    fn read_on(&mut self, alloc: Global, piece: &[u8]) -> Result<Option<Vec<u8>>, FeedFault> {
        self.feed(alloc, piece)
    }
}
