//! The replay of one script.

use crate::given::gives;
use crate::text::{bytes_of, other_lines, picture_lines, size_lines};
use anyhow::{Result, bail};
use std::alloc::Global;
use std::num::NonZeroU16;
use vt_notes::Notes;
use vt100::{Parser, Screen};

/// A script: a sequence of calls on a new parser, and the expected states between these calls.
#[derive(Clone, Copy)]
pub struct Script<'a> {
    pub name: &'a str,
    pub rows: NonZeroU16,
    pub cols: NonZeroU16,
    pub capacity: usize,

    /// The lines of the script after the first line.
    pub lines: &'a str,
}

/// Replays a script. Prints a line for each output and each state that differs. Returns `true` if
/// there were no differences.
pub fn replay<R: AllocGlobal + Print>(rt: &R, script: Script<'_>) -> Result<bool> {
    let notes = Notes::new(rt.alloc());
    let mut parser = Parser::new_with_callbacks(
        rt.alloc(),
        script.rows,
        script.cols,
        script.capacity,
        notes,
    )?;
    // The screen at the last step that examined the parser.
    let mut prev = parser.screen().clone()?;
    let mut same = true;
    let steps = script.lines.strip_prefix("> ").unwrap_or(script.lines);
    for (i, step) in steps.split("\n> ").enumerate() {
        let (call, lines) = step.split_once('\n').unwrap_or((step, ""));
        if call != "expect" {
            take_step(rt.alloc(), &mut parser, call)?;
            continue;
        }
        if let Some(word) = differing_word(rt.alloc(), &parser, &prev, lines)? {
            println!(rt; "differs: {} (step {i}: {word})", script.name)?;
            same = false;
        }
        prev = parser.screen().clone()?;
    }
    Ok(same)
}

/// Makes the call that a step names.
fn take_step(alloc: Global, parser: &mut Parser<Notes>, call: &str) -> Result<()> {
    let (name, rest) = call.split_once(' ').unwrap_or((call, ""));
    match name {
        "process" => process(alloc, parser, rest),
        "set_size" => {
            let (rows, cols) = size_of(rest)?;
            Ok(parser.set_size(rows, cols)?)
        }
        "screen_set_size" => {
            let (rows, cols) = size_of(rest)?;
            Ok(parser.screen_mut().set_size(rows, cols)?)
        }
        "set_scrollback" => Ok(parser.screen_mut().set_scrollback(rest.parse::<usize>()?)?),
        "clear_scrollback" => {
            parser.screen_mut().clear_scrollback();
            Ok(())
        }
        "clone" => {
            *parser.screen_mut() = parser.screen().clone()?;
            Ok(())
        }
        "clear_events" => {
            *parser.callbacks_mut() = Notes::new(alloc);
            Ok(())
        }
        _ => bail!("no step is named {name:?}"),
    }
}

fn process(alloc: Global, parser: &mut Parser<Notes>, digits: &str) -> Result<()> {
    let bytes = bytes_of(alloc, digits)?;
    Ok(parser.process(bytes.as_slice())?)
}

fn size_of(words: &str) -> Result<(NonZeroU16, NonZeroU16)> {
    let Some((rows, cols)) = words.split_once(' ') else {
        bail!("a size of one number: {words:?}");
    };
    Ok((rows.parse::<NonZeroU16>()?, cols.parse::<NonZeroU16>()?))
}

/// Returns the first word of the first line whose specified output differs from that of `parser`.
/// If all output agrees, returns the string `state` if the lines specify a different state, and
/// `None` otherwise.
fn differing_word<'a>(
    alloc: Global,
    parser: &Parser<Notes>,
    prev: &Screen,
    lines: &'a str,
) -> Result<Option<&'a str>> {
    let state = state_lines(alloc, parser)?;
    let mut shown = String::new(alloc);
    for line in lines.lines() {
        let word = line.split(' ').next().unwrap_or(line);
        if is_of_state(word) {
            writeln!(shown, "{line}")?;
        } else if !gives(alloc, parser.screen(), prev, line)? {
            return Ok(Some(word));
        }
    }
    if shown.as_str() != state.as_str() {
        return Ok(Some("state"));
    }
    Ok(None)
}

fn state_lines(alloc: Global, parser: &Parser<Notes>) -> Result<String> {
    let mut lines = size_lines(alloc, parser.screen())?;
    let picture = picture_lines(alloc, parser.screen())?;
    let others = other_lines(alloc, parser.screen(), parser.callbacks())?;
    lines.push_str(picture.as_str())?;
    lines.push_str(others.as_str())?;
    Ok(lines)
}

fn is_of_state(word: &str) -> bool {
    matches!(
        word,
        "size"
            | "scrollback"
            | "lengths"
            | "cursor"
            | "flags"
            | "cell"
            | "screen"
            | "event"
            | "scroll"
    )
}
