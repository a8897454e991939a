//! The replay of one case, and the counts of replayed cases.

use crate::case::Case;
use crate::cut;
use crate::given::{difference, gives};
use crate::text::{other_lines, picture_lines};
use anyhow::{Context, Result};
use std::alloc::Global;
use std::fmt;
use vt_notes::Notes;
use vt100::{Parser, Screen};

/// Replays a case: parses its bytes in one call, byte by byte, and in two chunks for every position
/// of the split. Then compares the output with the output recorded in the case. Finally feeds the
/// output to a new parser and checks that it displays what the original parser displays: after each
/// byte, unless a narrow glyph contains U+FE0F, and after all bytes if the case is steady.
///
/// Prints a line for the first difference of each kind. Returns `true` if there were no
/// differences.
pub fn replay<R: AllocGlobal + Print>(rt: &R, case: &Case<'_>) -> Result<bool> {
    let is_shown = is_shown_however_cut(rt, case)?;
    let gives = are_texts_given(rt, case)?;
    let is_drawn = !case.is_steady || is_drawn_again(rt, case)?;
    let is_drawn_everywhere = is_drawn_at_every_place(rt, case)?;
    Ok(is_shown && gives && is_drawn && is_drawn_everywhere)
}

fn is_shown_however_cut<R: AllocGlobal + Print>(rt: &R, case: &Case<'_>) -> Result<bool> {
    let alloc = rt.alloc();
    let name = case.name;
    let mut same = true;
    if !is_shown(alloc, case, &[case.bytes.as_slice()])? {
        println!(rt; "differs: {name} (whole)")?;
        same = false;
    }
    let bytes: Vec<&[u8]> = case.bytes.chunks(1).collect(alloc)?;
    if !is_shown(alloc, case, bytes.as_slice())? {
        println!(rt; "differs: {name} (bytes)")?;
        same = false;
    }
    if let Some(place) = differing_cut(alloc, case)? {
        println!(rt; "differs: {name} (cut {place})")?;
        same = false;
    }
    Ok(same)
}

fn are_texts_given<R: AllocGlobal + Print>(rt: &R, case: &Case<'_>) -> Result<bool> {
    let alloc = rt.alloc();
    let name = case.name;
    let mut same = true;
    if let Some(line) = differing_text(alloc, case)? {
        let word = line.split(' ').next().unwrap_or(line);
        println!(rt; "differs: {name} ({word})")?;
        same = false;
    }
    Ok(same)
}

fn is_drawn_again<R: AllocGlobal + Print>(rt: &R, case: &Case<'_>) -> Result<bool> {
    let alloc = rt.alloc();
    let name = case.name;
    let mut same = true;
    if !is_redrawn(alloc, case)? {
        println!(rt; "differs: {name} (redrawn)")?;
        same = false;
    }
    if !is_updated(alloc, case)? {
        println!(rt; "differs: {name} (updated)")?;
        same = false;
    }
    Ok(same)
}

fn is_drawn_at_every_place<R: AllocGlobal + Print>(rt: &R, case: &Case<'_>) -> Result<bool> {
    if let Some(place) = place_not_drawn(rt.alloc(), case)? {
        println!(rt; "differs: {} (drawn at {place})", case.name)?;
        return Ok(false);
    }
    Ok(true)
}

/// Returns the index of the first byte after which the output of the screen does not reproduce the
/// screen, or `None` if there is no such byte.
fn place_not_drawn(alloc: Global, case: &Case<'_>) -> Result<Option<usize>> {
    let mut parser = fed(alloc, case, &[])?;
    for (place, byte) in case.bytes.chunks(1).enumerate() {
        let prev = parser.screen().clone()?;
        parser.process(byte)?;
        if !cut::is_drawn(alloc, parser.screen(), &prev)? {
            return Ok(Some(place));
        }
    }
    Ok(None)
}

/// Returns the first index at which splitting the bytes leads to a different state, or `None` if
/// there is no such index.
fn differing_cut(alloc: Global, case: &Case<'_>) -> Result<Option<usize>> {
    for place in 0..case.bytes.len() {
        let (front, back) = case.bytes.split_at(place);
        if !is_shown(alloc, case, &[front, back])? {
            return Ok(Some(place));
        }
    }
    Ok(None)
}

/// Returns whether a new parser that parses the chunks in `pieces` has the display and invokes the
/// callbacks that the case specifies.
fn is_shown(alloc: Global, case: &Case<'_>, pieces: &[&[u8]]) -> Result<bool> {
    let parser = fed(alloc, case, pieces)?;
    let others = other_lines(alloc, parser.screen(), parser.callbacks())?;
    let is_same = others.as_str() == case.others.as_str();
    Ok(is_same && is_picture(alloc, parser.screen(), case)?)
}

/// Returns whether a screen has the cells, wrapped flags and cursor that the case specifies.
fn is_picture(alloc: Global, screen: &Screen, case: &Case<'_>) -> Result<bool> {
    let picture = picture_lines(alloc, screen)?;
    Ok(picture.as_str() == case.picture.as_str())
}

/// Returns the first line of `case` that specifies output other than that of the screen after all
/// bytes, or `None` if there is no such line.
fn differing_text<'a>(alloc: Global, case: &Case<'a>) -> Result<Option<&'a str>> {
    let prev = screen_before(alloc, case)?;
    let parser = fed(alloc, case, &[case.bytes.as_slice()])?;
    for line in &case.texts {
        if !gives(alloc, parser.screen(), &prev, line)? {
            return Ok(Some(line));
        }
    }
    Ok(None)
}

/// Returns the screen from which the diffs of a case start.
fn screen_before(alloc: Global, case: &Case<'_>) -> Result<Screen> {
    let before = case.bytes.get(..case.before);
    let before = before.context("fewer bytes than come before a difference")?;
    let parser = fed(alloc, case, &[before])?;
    Ok(parser.screen().clone()?)
}

/// Feeds the redraw of a case's final screen to a new parser. Returns whether the parser has the
/// cells, wrapped flags and cursor that the case specifies, has the same redraw as the final
/// screen, and has invoked no callbacks.
fn is_redrawn(alloc: Global, case: &Case<'_>) -> Result<bool> {
    let parser = fed(alloc, case, &[case.bytes.as_slice()])?;
    let redraw = parser.screen().contents_formatted()?;
    is_drawn_by(alloc, case, &[redraw.as_bytes()], redraw.as_str())
}

/// Replays the diff of a case: a new parser displays the case's earlier screen and then parses the
/// diff to the final screen. Returns whether the parser has the cells, wrapped flags and cursor
/// that the case specifies, has the same redraw as the final screen, and has invoked no callbacks.
fn is_updated(alloc: Global, case: &Case<'_>) -> Result<bool> {
    let prev = screen_before(alloc, case)?;
    let parser = fed(alloc, case, &[case.bytes.as_slice()])?;
    let begun = prev.contents_formatted()?;
    let update = difference(parser.screen(), &prev)?;
    let redraw = parser.screen().contents_formatted()?;
    let texts = [begun.as_bytes(), update.as_bytes()];
    is_drawn_by(alloc, case, &texts, redraw.as_str())
}

/// Feeds `texts` to a new parser. Returns whether the parser has the cells, wrapped flags and
/// cursor that the case specifies, has the redraw `redraw`, and has invoked no callbacks.
fn is_drawn_by(alloc: Global, case: &Case<'_>, texts: &[&[u8]], redraw: &str) -> Result<bool> {
    let parser = fed(alloc, case, texts)?;
    let again = parser.screen().contents_formatted()?;
    let is_quiet = parser.callbacks().calls().is_empty();
    Ok(is_quiet && again.as_str() == redraw && is_picture(alloc, parser.screen(), case)?)
}

/// Creates a parser of the size that a case specifies, and feeds the chunks in `pieces` to it.
fn fed(alloc: Global, case: &Case<'_>, pieces: &[&[u8]]) -> Result<Parser<Notes>> {
    Ok(vt_notes::read(alloc, case.rows, case.cols, pieces)?)
}

/// Counts of replayed cases.
#[derive(Clone, Copy, Default)]
pub struct Tally {
    run: u64,

    /// The number of cases whose replay differed from the expected state.
    pub differ: u64,
}

impl Tally {
    /// Counts a replayed case; `same` is true if nothing differed.
    pub fn count(&mut self, same: bool) {
        self.run = self.run.saturating_add(1);
        if !same {
            self.differ = self.differ.saturating_add(1);
        }
    }
}

impl fmt::Display for Tally {
    fn fmt<W: fmt::Write>(&self, f: &mut fmt::Formatter<W>) -> fmt::Result {
        let Tally { run, differ } = *self;
        write!(f, "cases: {run} run, {differ} differ")
    }
}
