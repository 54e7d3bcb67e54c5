//! Many links at once.
use iss_edge::Channel;
use iss_link::{Gone, Links};
use std::alloc::{AllocError, Global};
use std::test::Fail;

/// Watches `count` links on falling channels. Returns how many of them are found, and whether they are listed as they were watched.
fn found(alloc: Global, count: u32) -> Result<(usize, bool), AllocError> {
    let mut links = Links::new(alloc, 7)?;
    for number in 0..count {
        links.watch(&Gone::Noted(number, Channel(count.saturating_sub(number))))?;
    }
    let channels = links.channels(alloc)?;
    let found = channels
        .iter()
        .filter(|ch| links.state(**ch).is_some())
        .count();
    let are_falling = channels
        .iter()
        .zip(channels.iter().skip(1))
        .all(|(one, next)| next.0 < one.0);
    Ok((found, are_falling))
}

#[test]
fn ten_thousand_links(rt: HostRuntime) -> Result<(), Fail> {
    assert_eq!(rt; found(rt.alloc(), 10000)?, (10000, true));
    Ok(())
}
