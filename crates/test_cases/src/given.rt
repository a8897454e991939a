//! Comparison of a screen's output with the lines of a case file.

use crate::text::bytes_of;
use anyhow::{Context, Result, bail};
use std::alloc::Global;
use vt100::{Error, Screen};

/// Returns whether a screen has the output that a line of a case file gives; `prev` is the screen
/// from which diffs start.
pub fn gives(alloc: Global, screen: &Screen, prev: &Screen, line: &str) -> Result<bool> {
    let (word, rest) = line.split_once(' ').unwrap_or((line, ""));
    match word {
        "rows" => are_rows(alloc, screen, rest),
        "rows_formatted" => are_rows_formatted(alloc, screen, rest),
        "rows_diff" => are_rows_changed(alloc, screen, prev, rest),
        "between" => is_range(alloc, screen, rest),
        _ => {
            let text = text_of(screen, prev, word)?;
            is_text(alloc, text.as_str(), rest)
        }
    }
}

/// Returns whether a text equals the bytes that `word` encodes.
fn is_text(alloc: Global, text: &str, word: &str) -> Result<bool> {
    let expected = bytes_of(alloc, word)?;
    Ok(text.as_bytes() == expected.as_slice())
}

/// Returns the screen's output of the kind that `word` names.
fn text_of(screen: &Screen, prev: &Screen, word: &str) -> Result<String> {
    let text = match word {
        "contents" => screen.contents()?,
        "formatted" => screen.contents_formatted()?,
        "basic" => screen.contents_formatted_basic()?,
        "diff" => difference(screen, prev)?,
        "cursor_state" => screen.cursor_state_formatted()?,
        "attributes" => screen.attributes_formatted()?,
        "input" => screen.input_mode_formatted()?,
        "input_diff" => screen.input_mode_diff(prev)?,
        _ => bail!("no text is named {word:?}"),
    };
    Ok(text)
}

/// Returns the diff from `prev` to `screen`. Both screens must have the same size.
pub fn difference(screen: &Screen, prev: &Screen) -> Result<String> {
    if !screen.is_sized_as(prev) {
        bail!("a difference from a screen of another size");
    }
    Ok(screen.contents_diff(prev)?)
}

/// The texts of rows, or an error if one of them cannot be allocated.
type Texts = std::result::Result<Vec<String>, Error>;

/// Returns whether the plain texts of the rows are those that `line` gives as `START WIDTH BYTES
/// ..`.
fn are_rows(alloc: Global, screen: &Screen, line: &str) -> Result<bool> {
    let (start, width, words) = range_of(line)?;
    let texts: Texts = screen.rows(start, width).try_collect(alloc);
    are_texts(alloc, texts?, words)
}

/// Returns whether the redraws of the rows are those that `line` gives as `START WIDTH BYTES ..`.
fn are_rows_formatted(alloc: Global, screen: &Screen, line: &str) -> Result<bool> {
    let (start, width, words) = range_of(line)?;
    let (_, cols) = screen.size();
    if start >= cols.get() {
        bail!("a range that begins past the columns");
    }
    let texts: Texts = screen.rows_formatted(start, width).try_collect(alloc);
    are_texts(alloc, texts?, words)
}

/// Returns whether the diffs from the rows of `prev` to the rows of `screen` are those that `line`
/// gives as `START WIDTH BYTES ..`. Both screens must have the same size.
fn are_rows_changed(alloc: Global, screen: &Screen, prev: &Screen, line: &str) -> Result<bool> {
    let (start, width, words) = range_of(line)?;
    if !screen.is_sized_as(prev) {
        bail!("rows that differ from those of another size");
    }
    let (_, cols) = screen.size();
    if start >= cols.get() {
        bail!("a range that begins past the columns");
    }
    let texts: Texts = screen.rows_diff(prev, start, width).try_collect(alloc);
    are_texts(alloc, texts?, words)
}

/// Splits a line into the start and the width of a range of columns, and the remaining words.
fn range_of(line: &str) -> Result<(u16, u16, &str)> {
    let (start, rest) = line.split_once(' ').context("a range without a width")?;
    let (width, words) = rest.split_once(' ').context("a range without texts")?;
    Ok((start.parse::<u16>()?, width.parse::<u16>()?, words))
}

/// Returns whether each text equals the bytes that the corresponding word encodes, and there are as
/// many words as texts.
fn are_texts(alloc: Global, texts: Vec<String>, words: &str) -> Result<bool> {
    let mut words = words.split(' ');
    for text in &texts {
        let word = words.next().context("fewer texts than rows")?;
        if !is_text(alloc, text.as_str(), word)? {
            return Ok(false);
        }
    }
    Ok(words.next().is_none())
}

/// Returns whether a range of the screen has the text that `line` gives as `ROW COL ROW COL BYTES`.
fn is_range(alloc: Global, screen: &Screen, line: &str) -> Result<bool> {
    let mut words = line.split(' ');
    let start_row = number(words.next())?;
    let start_col = number(words.next())?;
    let end_row = number(words.next())?;
    let end_col = number(words.next())?;
    let word = words.next().context("a range without a text")?;
    let (_, cols) = screen.size();
    if start_row < end_row && start_col > cols.get() {
        bail!("a range that begins past the columns");
    }
    let text = screen.contents_between(start_row, start_col, end_row, end_col)?;
    is_text(alloc, text.as_str(), word)
}

fn number(word: Option<&str>) -> Result<u16> {
    let word = word.context("a number is missing")?;
    Ok(word.parse::<u16>()?)
}
