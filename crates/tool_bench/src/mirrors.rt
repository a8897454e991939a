//! Measurements of mirrors with many viewers.

use anyhow::{Context, Result, bail};
use std::alloc::Global;
use std::fs;
use std::num::NonZeroU16;
use std::rt::Files;
use vt_mirror::{Mirror, Update};

/// The number of groups of viewers that take turns in [`Work::Lag`].
const GROUPS: u64 = 16;

/// The schedule on which viewers are updated.
#[derive(Clone, Copy)]
enum Work {
    /// All viewers are updated each time EVERY bytes have been processed.
    Step,

    /// The viewers form sixteen groups. Each time EVERY bytes have been processed, one group is
    /// updated, in turn.
    Lag,

    /// After the whole file has been processed, all viewers are updated EVERY times.
    Idle,

    /// There are no viewers; the file is only parsed, EVERY bytes at a time.
    Read,
}

/// The measurement that the command-line arguments specify.
#[derive(Clone, Copy)]
struct Task {
    work: Work,
    scrolls: bool,
    viewers: u64,
    every: usize,
}

/// The counts that were measured.
#[derive(Drop)]
struct Totals {
    updates: u64,
    full: u64,
    bytes: usize,
}

impl Totals {
    /// Counts an update.
    fn add(&mut self, update: Option<Update>) {
        self.updates = self.updates.saturating_add(1);
        match update {
            Some(Update::Diff(text)) => self.bytes = self.bytes.saturating_add(text.len()),
            Some(Update::Full { .. }) => self.full = self.full.saturating_add(1),
            None => {}
        }
    }
}

/// Feeds a file to a mirror, as the command-line arguments after `mirror` specify, and prints the
/// number of updates, the number of full updates among them, and the total length of the diffs in
/// bytes.
pub fn measure_mirror<R: AllocGlobal + Files + Print>(rt: &R, words: &[String]) -> Result<()> {
    let [what, call, rows, cols, capacity, viewers, every, file] = words else {
        bail!("usage: tool_bench mirror WHAT CALL ROWS COLS CAPACITY VIEWERS EVERY FILE");
    };
    let task = Task {
        work: work_named(what.as_str()).context("no work of this name")?,
        scrolls: call.as_str() == "update_scrolling",
        viewers: viewers.parse::<u64>()?,
        every: every.parse::<usize>()?,
    };
    let rows = rows.parse::<NonZeroU16>()?;
    let cols = cols.parse::<NonZeroU16>()?;
    let capacity = capacity.parse::<usize>()?;
    let bytes = fs::read(rt, file.as_str())?;
    let mirror = mirror_with(rt.alloc(), rows, cols, capacity, task)?;
    let totals = measured(mirror, task, bytes.as_slice())?;
    println!(rt;
        "{what}: {} updates, {} full, {} bytes of differences",
        totals.updates, totals.full, totals.bytes
    )?;
    Ok(())
}

/// Returns the schedule named `name`, or `None` if there is no such schedule.
fn work_named(name: &str) -> Option<Work> {
    match name {
        "step" => Some(Work::Step),
        "lag" => Some(Work::Lag),
        "idle" => Some(Work::Idle),
        "read" => Some(Work::Read),
        _ => None,
    }
}

/// Creates a mirror, and adds the viewers of the task, or none for [`Work::Read`].
fn mirror_with(
    alloc: Global,
    rows: NonZeroU16,
    cols: NonZeroU16,
    capacity: usize,
    task: Task,
) -> Result<Mirror> {
    let mut mirror = Mirror::new(alloc, rows, cols, capacity)?;
    if !matches!(task.work, Work::Read) {
        for _ in 0..task.viewers {
            mirror.join()?;
        }
    }
    Ok(mirror)
}

/// Feeds `bytes` to the mirror, updates the viewers as the task specifies, and returns the counts.
fn measured(mut mirror: Mirror, task: Task, bytes: &[u8]) -> Result<Totals> {
    let mut totals = Totals {
        updates: 0,
        full: 0,
        bytes: 0,
    };
    if let Work::Idle = task.work {
        mirror.process(bytes)?;
        for _ in 0..task.every {
            update_viewers(&mut mirror, task, 0, &mut totals)?;
        }
        return Ok(totals);
    }
    if task.every == 0 {
        bail!("EVERY is 0");
    }
    let mut turn = 0u64;
    for chunk in bytes.chunks(task.every) {
        mirror.process(chunk)?;
        update_viewers(&mut mirror, task, turn, &mut totals)?;
        turn = turn.saturating_add(1);
    }
    Ok(totals)
}

/// Updates the viewers that are due at turn number `turn`, and adds their updates to `totals`.
fn update_viewers(mirror: &mut Mirror, task: Task, turn: u64, totals: &mut Totals) -> Result<()> {
    for viewer in 0..task.viewers {
        let is_due = match task.work {
            Work::Step | Work::Idle => true,
            Work::Lag => viewer % GROUPS == turn % GROUPS,
            Work::Read => false,
        };
        if is_due {
            totals.add(updated(mirror, task, viewer)?);
        }
    }
    Ok(())
}

/// Calls the method that the task specifies, and returns the viewer's update.
fn updated(mirror: &mut Mirror, task: Task, viewer: u64) -> Result<Option<Update>> {
    if task.scrolls {
        return Ok(mirror.update_scrolling(viewer)?);
    }
    Ok(mirror.update(viewer)?)
}
