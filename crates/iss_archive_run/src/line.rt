//! The line that tells how far an archive goes.
ghost use Rattle.std.specs.Prelude.{◌≡◌, IfOk};
ghost use Rattle.iss_archive.specs.Archived.{posts_in};
ghost use Rattle.iss_archive_run.specs.Lines.{archived_line};

use iss_archive::Head;
use itoa::Buffer;
use std::alloc::{AllocError, Global};

/// How many postings are archived.
pub(crate) fn posts_in(head: &Option<Head>) -> u64
    ensures { result ≡ posts_in head.now }
{
    match head {
        Some(head) => head.posts,
        None => 0,
    }
}

/// How many postings are archived, and of how many records.
#[tactic(auto, unfolding(crate::specs::Lines::archived_line))]
pub(crate) fn line_of(alloc: Global, posts: u64, records: u32) -> Result<Vec<u8>, AllocError>
    ensures { IfOk result (λ line. line.items ≡ archived_line posts records) }
{
    let mut line = Vec::new(alloc);
    line.extend_from_slice(b"{\"posts\":")?;
    line.extend_from_slice(Buffer::new().format(posts).as_bytes())?;
    line.extend_from_slice(b",\"records\":")?;
    line.extend_from_slice(Buffer::new().format(records).as_bytes())?;
    line.extend_from_slice(b"}\n")?;
    Ok(line)
}
