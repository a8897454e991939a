//! The command-line arguments.

use crate::moment::Moment;

/// What the command-line arguments ask for.
#[derive(Clone, Copy)]
pub enum Request {
    /// To play the recording.
    Play,

    /// To print the screen at a moment.
    Screen(Moment, Form),

    /// To print the version.
    Version,
}

/// The form in which a screen is printed.
#[derive(Clone, Copy)]
pub enum Form {
    /// The text of each row.
    Text,

    /// The escape sequences that draw the screen.
    Redraw,

    /// An SVG image.
    Svg,
}

/// Returns what the command-line arguments ask for, or `None` if they are invalid.
pub fn read_words(words: &[String]) -> Option<Request> {
    match words {
        [] => Some(Request::Play),
        [word] if word.as_str() == "--version" => Some(Request::Version),
        [word, seconds, form @ ..] if word.as_str() == "--at" => Some(Request::Screen(
            Moment::At(read_seconds(seconds.as_str())?),
            read_form(form)?,
        )),
        [word, form @ ..] if word.as_str() == "--last" => {
            Some(Request::Screen(Moment::Last, read_form(form)?))
        }
        _ => None,
    }
}

/// Returns a number of seconds, 0 or more, or `None` if `word` is not one.
fn read_seconds(word: &str) -> Option<f64> {
    let seconds = word.parse::<f64>().ok()?;
    (seconds.is_finite() && seconds >= 0.0).then_some(seconds)
}

/// Returns the form that the arguments after the moment name, or `None` if they are invalid.
fn read_form(words: &[String]) -> Option<Form> {
    match words {
        [] => Some(Form::Text),
        [word] if word.as_str() == "--redraw" => Some(Form::Redraw),
        [word] if word.as_str() == "--svg" => Some(Form::Svg),
        _ => None,
    }
}
