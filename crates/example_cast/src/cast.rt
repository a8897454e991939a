//! Recordings made by asciinema, in versions 2 and 3 of its format.

use anyhow::{Context, Result, bail};
use serde_json::Value;
use std::alloc::Global;
use std::num::NonZeroU16;

/// The supported versions of asciinema's format.
#[derive(Clone, Copy, PartialEq, Eq)]
pub enum Version {
    /// Version 2: the time of an event is measured from the beginning of the recording.
    Two,

    /// Version 3: the time of an event is measured from the previous event, and a line that begins
    /// with `#` is a comment.
    Three,
}

/// The content of the first line: the version, and the initial size of the terminal.
#[derive(Clone, Copy)]
pub struct Header {
    pub version: Version,
    pub rows: NonZeroU16,
    pub cols: NonZeroU16,
}

/// An event of a recording: the content of a line after the header.
#[derive(Clone, Copy)]
pub struct Event<'a> {
    /// The time in seconds since the recording began.
    pub time: f64,
    pub action: Action<'a>,
}

/// A clock that holds the time of the last event that was read.
#[derive(Clone, Copy)]
pub struct Clock {
    version: Version,

    /// The time in seconds since the recording began.
    time: f64,
}

/// The action of an event.
#[derive(Clone, Copy)]
pub enum Action<'a> {
    /// The program wrote output to its terminal.
    Output(&'a str),

    /// The terminal was resized.
    Resize { rows: NonZeroU16, cols: NonZeroU16 },

    /// An event that does not change the screen: input, a marker, the program's exit, or an unknown
    /// kind.
    Other,
}

/// Parses a line as JSON.
pub fn json(alloc: Global, line: &str) -> Result<Value> {
    match Value::from_str(alloc, line) {
        Ok(value) => Ok(value),
        Err(error) if error.is_memory() => bail!("out of memory"),
        Err(_) => bail!("not JSON"),
    }
}

impl Version {
    /// Returns whether a line contains an event, that is, whether it is neither blank nor a
    /// comment.
    pub fn has_event(self, line: &str) -> bool {
        let is_comment = self == Version::Three && line.starts_with('#');
        !is_comment && !line.trim().is_empty()
    }
}

impl Header {
    /// Reads the header from the JSON value of the first line.
    pub fn read(value: &Value) -> Result<Header> {
        match value.get("version").and_then(Value::as_u64) {
            Some(2) => Header::read_size(Version::Two, value, "height", "width"),
            Some(3) => {
                let term = value.get("term").context("no term")?;
                Header::read_size(Version::Three, term, "rows", "cols")
            }
            _ => bail!("not the header of a recording of version 2 or 3"),
        }
    }

    /// Reads the size of the terminal from the fields with the names `rows` and `cols`.
    fn read_size(version: Version, value: &Value, rows: &str, cols: &str) -> Result<Header> {
        Ok(Header {
            version,
            rows: read_number(value, rows)?,
            cols: read_number(value, cols)?,
        })
    }
}

impl Clock {
    /// Creates a clock at the beginning of a recording.
    pub fn new(version: Version) -> Clock {
        Clock { version, time: 0.0 }
    }

    /// Advances the clock to an event whose line contains the time `time`.
    fn go_on(&mut self, time: f64) {
        self.time = match self.version {
            Version::Two => time,
            Version::Three => self.time + time,
        };
    }
}

impl<'a> Event<'a> {
    /// Reads an event of any kind from the JSON value of its line, and advances the clock to it.
    pub fn read(value: &'a Value, clock: &mut Clock) -> Result<Event<'a>> {
        let parts = value.as_array().context("an event is an array")?;
        let [time, kind, data] = parts.as_slice() else {
            bail!("an event has three parts");
        };
        clock.go_on(time.as_f64().context("an event begins with a number")?);
        let kind = kind.as_str().context("the kind of an event is a text")?;
        Ok(Event {
            time: clock.time,
            action: Action::read(kind, data)?,
        })
    }
}

impl<'a> Action<'a> {
    fn read(kind: &str, data: &'a Value) -> Result<Action<'a>> {
        match kind {
            "o" => Ok(Action::Output(data.as_str().context("output is a text")?)),
            "r" => resize(data).context("a size is COLSxROWS"),
            _ => Ok(Action::Other),
        }
    }
}

/// Returns the number of rows or columns in the field `name`.
fn read_number(value: &Value, name: &str) -> Result<NonZeroU16> {
    value
        .get(name)
        .and_then(size)
        .context(format_args!("no {name} from 1 to 65535"))
}

/// Converts a JSON number of rows or columns to a nonzero integer. Returns `None` if the value is
/// not an integer from 1 to 65535.
fn size(value: &Value) -> Option<NonZeroU16> {
    NonZeroU16::new(u16::try_from(value.as_u64()?).ok()?)
}

fn resize<'a>(data: &Value) -> Option<Action<'a>> {
    let (cols, rows) = data.as_str()?.split_once('x')?;
    Some(Action::Resize {
        rows: rows.parse::<NonZeroU16>().ok()?,
        cols: cols.parse::<NonZeroU16>().ok()?,
    })
}
