//! Runs that stop: after each action, some of the images that it may leave, and the runs that come next on each.
use crate::images::{WAYS, image_length, image_of, is_front, point_on, records_on};
use crate::padded::{IMAGE_LENGTH, padded, padded_day};
use crate::playing::{OPENING, Played, Run, Waiting, play, start_of};
use crate::replays::lines;
use crate::serving::served;
use crate::told::level;
use iss_edge::{Action, Channel, MemoryEdge};
use std::alloc::{AllocError, Global};
use std::test::Fail;

/// The first number of a channel that is dialled.
const FIRST_DIALLED: u32 = 1000001;

/// The next opening of an image, if at least this many records stand there. They are the first ones on the device after the whole
/// run, or on the one that it began with, if the device hasn't turned yet.
fn opened(
    alloc: Global,
    image: &[u8],
    start: &[u8],
    whole: &[u8],
    least: usize,
) -> Result<Option<Played>, AllocError> {
    let opened = play(alloc, &OPENING, &[], image, 0)?;
    let device = opened.edge.device();
    let (count, _) = records_on(device);
    let are_first = is_front(device, whole) || is_front(device, start);
    let stands = opened.status == 0 && least <= count && are_first;
    Ok(if stands { Some(opened) } else { None })
}

/// The text of this number, from 0, among these actions, without its channel.
fn bytes_at(actions: &[Action], number: usize) -> Option<&[u8]> {
    text_at(actions, number).map(|text| text.1)
}

/// Whether an opening writes the texts of this run that wait, as many records as now stand on its device, and no other.
fn says_what_waits(row: &Run, whole: &Played, opened: &Played) -> bool {
    let (count, _) = records_on(opened.edge.device());
    match row.waiting {
        Some(waiting) => are_said(waiting, count, whole.edge.trace(), opened.edge.trace()),
        None => true,
    }
}

/// Whether those of these texts are said that wait at this number of records, in their order, and no other.
fn are_said(waiting: &[Waiting], count: usize, whole: &[Action], said: &[Action]) -> bool {
    let mut number = 0usize;
    for text in waiting {
        if text.from <= count && count < text.until {
            if bytes_at(said, number) != bytes_at(whole, text.text) {
                return false;
            }
            number = number.saturating_add(1);
        }
    }
    bytes_at(said, number).is_none()
}

/// Whether each image after these actions has the records that stood first, and those of texts of which a byte went out. All of
/// them are first ones of the whole run's, and an opening says what waits then. A run that has no levels is on no device with records.
pub(crate) fn stands_after(
    alloc: Global,
    row: &Run,
    start: &[u8],
    whole: &Played,
    actions: &[Action],
) -> Result<bool, AllocError> {
    if row.levels.is_empty() {
        return Ok(true);
    }
    let (at_start, _) = records_on(start);
    let least = level(row, actions).max(at_start);
    for left in WAYS {
        let image = image_of(alloc, start, actions, left)?;
        let stands = match opened(alloc, &image, start, whole.edge.device(), least)? {
            Some(opened) => says_what_waits(row, whole, &opened),
            None => false,
        };
        if !stands {
            return Ok(false);
        }
    }
    Ok(true)
}

/// The actions of a run up to this moment.
fn actions_until(edge: &MemoryEdge, count: usize) -> &[Action] {
    edge.trace().get(..count).unwrap_or(&[])
}

/// After how many actions a run of lines leaves an image that it must not.
fn first_bad_line(alloc: Global, row: &Run) -> Result<Option<usize>, AllocError> {
    let start = start_of(alloc, &row.device)?;
    let whole = play(alloc, row, row.comes, &start, 0)?;
    for count in 0..=whole.edge.trace().len() {
        let actions = actions_until(&whole.edge, count);
        if !stands_after(alloc, row, &start, &whole, actions)? {
            return Ok(Some(count));
        }
    }
    Ok(None)
}

/// The first of these runs that leaves such an image, and after how many actions.
fn first_lost(alloc: Global, rows: &[Run]) -> Result<Option<(&'static str, usize)>, AllocError> {
    for row in rows {
        if let Some(count) = first_bad_line(alloc, row)? {
            return Ok(Some((row.what, count)));
        }
    }
    Ok(None)
}

#[test]
fn each_stop_of_a_replay_leaves_what_was_told(rt: HostRuntime) -> Result<(), Fail> {
    assert_eq!(rt; first_lost(rt.alloc(), lines())?, None);
    Ok(())
}

#[test]
fn each_stop_on_a_device_that_turns_leaves_what_was_told(rt: HostRuntime) -> Result<(), Fail> {
    assert_eq!(rt; first_lost(rt.alloc(), padded())?, None);
    Ok(())
}

#[test]
fn each_stop_of_a_day_leaves_what_was_told(rt: HostRuntime) -> Result<(), Fail> {
    assert_eq!(rt; first_lost(rt.alloc(), padded_day())?, None);
    Ok(())
}

/// How many records stand in the image after a run on the padded device, and the length of that image.
fn turned(alloc: Global, row: &Run) -> Result<(usize, usize), AllocError> {
    let start = start_of(alloc, &row.device)?;
    let played = play(alloc, row, row.comes, &start, 0)?;
    let device = played.edge.device();
    Ok((point_on(device), image_length(device)))
}

#[test]
fn each_of_them_turns_before_its_first_record(rt: HostRuntime) -> Result<(), Fail> {
    for row in padded().iter().chain(padded_day()) {
        assert_eq!(rt; turned(rt.alloc(), row)?, (50, IMAGE_LENGTH));
    }
    Ok(())
}

/// The text of this number, from 0, among these actions.
fn text_at(actions: &[Action], number: usize) -> Option<(Channel, &[u8])> {
    let mut count = 0usize;
    for action in actions {
        if let Action::Emit { ch, bytes, .. } = action {
            if count == number {
                return Some((*ch, bytes.as_slice()));
            }
            count = count.saturating_add(1);
        }
    }
    None
}

/// Whether the first texts of a run are, to the gateway, the lines that waited.
fn are_asked_first(waited: &[Action], next: &[Action]) -> bool {
    for number in 0..waited.len() {
        match (text_at(waited, number), text_at(next, number)) {
            (None, _) => return true,
            (Some((_, line)), Some((ch, text))) => {
                let line = line.strip_suffix(b"\n").unwrap_or(line);
                if ch.0 < FIRST_DIALLED || !text.ends_with(line) {
                    return false;
                }
            }
            (Some(_), None) => return false,
        }
    }
    true
}

/// Whether this text went out whole, to the gateway on any channel, or to the client on this one.
fn is_sent(actions: &[Action], to: Channel, text: &[u8], whole: bool) -> bool {
    actions.iter().any(|action| match action {
        Action::Emit { ch, bytes, ok } => {
            *ok && bytes.as_slice().starts_with(text)
                && (!whole || bytes.as_slice().len() == text.len())
                && (ch.0 == to.0 || FIRST_DIALLED <= ch.0.min(to.0))
        }
        _ => false,
    })
}

/// Whether each text that went out to the gateway, or else to clients, is sent whole there too. Of one that was torn the bytes that
/// went out are compared.
fn are_sent(actions: &[Action], there: &[Action], to_gateway: bool) -> bool {
    actions.iter().all(|action| match action {
        Action::Emit { ch, bytes, ok } => {
            bytes.is_empty()
                || (FIRST_DIALLED <= ch.0) != to_gateway
                || is_sent(there, *ch, bytes.as_slice(), *ok)
        }
        _ => true,
    })
}

/// A run that served, what it began with, and what stands after it.
#[derive(Clone, Copy)]
pub(crate) struct Serving<'a> {
    pub(crate) row: &'a Run,
    pub(crate) start: &'a [u8],
    /// The run by which the records were made.
    pub(crate) made: &'a Played,
    /// Whether none of its calls failed: then the next run sends the gateway no other text.
    pub(crate) is_whole: bool,
}

/// Whether the next run on an image goes on. It ends well, and first sends what waits. If no call of the run failed,
/// it sends the gateway no other text. Then it answers again what these actions answered.
fn goes_on(
    alloc: Global,
    serving: &Serving,
    actions: &[Action],
    image: &[u8],
) -> Result<bool, AllocError> {
    let (at_start, _) = records_on(serving.start);
    let least = level(serving.row, actions).max(at_start);
    let device = serving.made.edge.device();
    let waited = match opened(alloc, image, serving.start, device, least)? {
        Some(waited) => waited,
        None => return Ok(false),
    };
    let again = Run {
        fails: &[],
        ..*serving.row
    };
    let next = play(alloc, &again, again.comes, image, 0)?;
    let sent = next.edge.trace();
    let asks_the_same = !serving.is_whole || are_sent(sent, serving.made.edge.trace(), true);
    Ok(
        next.status == 0
            && are_asked_first(waited.edge.trace(), sent)
            && asks_the_same
            && are_sent(actions, sent, false),
    )
}

/// Whether the next run goes on from each image after these actions.
pub(crate) fn goes_on_after(
    alloc: Global,
    serving: &Serving,
    actions: &[Action],
) -> Result<bool, AllocError> {
    for left in WAYS {
        let image = image_of(alloc, serving.start, actions, left)?;
        if !goes_on(alloc, serving, actions, &image)? {
            return Ok(false);
        }
    }
    Ok(true)
}

/// After how many actions a run that serves leaves an image from which the next one doesn't go on.
fn first_bad_serving(alloc: Global, row: &Run) -> Result<Option<usize>, AllocError> {
    let start = start_of(alloc, &row.device)?;
    let made = play(alloc, row, row.comes, &start, 0)?;
    let serving = Serving {
        row,
        start: &start,
        made: &made,
        is_whole: row.fails.is_empty(),
    };
    for count in 0..=made.edge.trace().len() {
        if !goes_on_after(alloc, &serving, actions_until(&made.edge, count))? {
            return Ok(Some(count));
        }
    }
    Ok(None)
}

/// The first of these runs that leaves such an image, and after how many actions.
fn first_stuck(alloc: Global, rows: &[Run]) -> Result<Option<(&'static str, usize)>, AllocError> {
    for row in rows {
        if let Some(count) = first_bad_serving(alloc, row)? {
            return Ok(Some((row.what, count)));
        }
    }
    Ok(None)
}

#[test]
fn each_stop_while_serving_leaves_what_was_told(rt: HostRuntime) -> Result<(), Fail> {
    assert_eq!(rt; first_stuck(rt.alloc(), served())?, None);
    Ok(())
}
