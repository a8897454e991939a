//! A terminal that is kept equal to another by diffs, and captures of a recorded stream.

use crate::pace::{Pace, may_scroll};
use crate::picture::{Part, Tally, differing, have_same_cells, have_same_flags};
use anyhow::{Result, bail};
use std::alloc::Global;
use std::num::NonZeroU16;
use vt_notes::{Notes, Recorder};
use vt100::{Parser, Screen};

/// The scrollback capacity of the follower in rows.
const KEPT: usize = 100;

/// Input that fills the follower's scrollback, and its main page with wrapped rows.
const MAIN: &[u8] =
    b"\x1b[7mthe main page \xe4\xb8\xad\x1b[100b\r\n\x1b[32m$ \x1b[3S\x1b[m# \x1b[90b";

/// Input that enters the alternate page, and prints text with different attributes there.
const ALTERNATE: &[u8] = b"\x1b[?1049h\x1b[1;4;33;44malternate \xe4\xb8\xad\x1b[200b\x1b[?25l";

/// Feeds `bytes` to one terminal, the leader, and keeps a second terminal, the follower, equal to
/// the leader by updates at random intervals, which `pace` chooses. The follower stays on its
/// alternate page; at the end, its main page and scrollback must be unchanged.
pub fn follow(
    alloc: Global,
    (rows, cols): (NonZeroU16, NonZeroU16),
    pace: Pace,
    bytes: &[u8],
) -> Result<Tally> {
    let mut leader = Parser::new(alloc, rows, cols, 0)?;
    let notes = Notes::new(alloc);
    let mut follower = Parser::new_with_callbacks(alloc, rows, cols, KEPT, notes)?;
    follower.process(MAIN)?;
    let mut before = follower.screen().clone()?;
    follower.process(ALTERNATE)?;
    let mut tally = follow_each(&mut leader, &mut follower, pace, bytes)?;
    follower.process(b"\x1b[?1049l")?;
    if tally.differs.is_none() && !has_kept(follower.screen_mut(), &mut before)? {
        tally.differs = Some(Part::Rest);
    }
    Ok(tally)
}

/// Draws the leader's screen on the follower, and then feeds the bytes to the leader and updates
/// the follower. Stops at the first difference between the two terminals.
fn follow_each(
    leader: &mut Parser,
    follower: &mut Parser<Notes>,
    mut pace: Pace,
    bytes: &[u8],
) -> Result<Tally> {
    let mut tally = Tally::default();
    let calls = follower.callbacks().calls().len();
    redraw(leader.screen(), follower)?;
    tally.differs = differing(leader.screen(), follower.screen());
    let mut rest = bytes;
    for _ in 0..bytes.len() {
        if rest.is_empty() || tally.differs.is_some() {
            break;
        }
        let (piece, later) = rest.split_at(pace.next_length().min(rest.len()));
        rest = later;
        let scrolls = may_scroll(tally.updates);
        let written = update(leader, follower, piece, scrolls)?;
        tally.count(piece.len(), written);
        tally.differs = differing(leader.screen(), follower.screen());
        if follower.callbacks().calls().len() != calls {
            tally.differs = Some(Part::Calls);
        }
    }
    Ok(tally)
}

fn redraw(leader: &Screen, follower: &mut Parser<Notes>) -> Result<()> {
    let text = leader.contents_formatted()?;
    Ok(follower.process(text.as_bytes())?)
}

/// Feeds a chunk to the leader and the resulting diff to the follower. Returns the length of the
/// diff in bytes. If `scrolls` is true, the diff may move rows first.
fn update(
    leader: &mut Parser,
    follower: &mut Parser<Notes>,
    piece: &[u8],
    scrolls: bool,
) -> Result<usize> {
    let prev = leader.screen().clone()?;
    leader.process(piece)?;
    let text = difference(leader.screen(), &prev, scrolls)?;
    follower.process(text.as_bytes())?;
    Ok(text.len())
}

fn difference(screen: &Screen, prev: &Screen, scrolls: bool) -> Result<String> {
    if !screen.is_sized_as(prev) {
        bail!("a leader of another size");
    }
    if scrolls {
        return Ok(screen.contents_diff_scrolling(prev)?);
    }
    Ok(screen.contents_diff(prev)?)
}

/// Returns whether two screens have the same cells, wrapped flags and scrollback. The main pages of
/// both screens are active.
fn has_kept(screen: &mut Screen, before: &mut Screen) -> Result<bool> {
    let rows = screen.size().0.get();
    let kept = screen.scrollback_len();
    if kept != before.scrollback_len()
        || !have_same_cells(screen, before, rows)
        || !have_same_flags(screen, before)
    {
        return Ok(false);
    }
    screen.set_scrollback(kept)?;
    before.set_scrollback(kept)?;
    Ok(have_same_cells(screen, before, rows))
}

/// The scrollback capacities with which the recorded stream is captured.
const CAPACITIES: [usize; 4] = [0, 1, 7, 1000];

/// Input that ends an incomplete sequence of the recorded stream, and activates the main page.
const END: &[u8] = b"\x18\x1b[?1049l";

/// Returns whether the capture of a stream is the same for each scrollback capacity. The capture
/// consists of the rows that scroll off the main page, followed by scrollback and the page. The
/// stream must not contain RIS.
pub fn are_one(alloc: Global, size: (NonZeroU16, NonZeroU16), bytes: &[u8]) -> Result<bool> {
    let mut first = None;
    for capacity in CAPACITIES {
        let text = captured(alloc, size, capacity, bytes)?;
        match &first {
            None => first = Some(text),
            Some(wanted) if text == *wanted => {}
            Some(_) => return Ok(false),
        }
    }
    Ok(true)
}

fn captured(
    alloc: Global,
    (rows, cols): (NonZeroU16, NonZeroU16),
    capacity: usize,
    bytes: &[u8],
) -> Result<String> {
    let recorder = Recorder::new(alloc);
    let mut parser = Parser::new_with_callbacks(alloc, rows, cols, capacity, recorder)?;
    parser.process(bytes)?;
    parser.process(END)?;
    let (screen, recorder) = parser.screen_and_callbacks_mut();
    recorder.capture(screen)?;
    let mut text = String::new(alloc);
    text.push_str(recorder.text())?;
    Ok(text)
}
