//! Conversion of notes to lines of text.

use crate::note::Note;
use std::alloc::AllocError;
use std::convert::AsSlice;

impl Note {
    /// Appends the recorded call to `lines` as one line, including a trailing newline. Returns
    /// [`AllocError`] if an allocation fails.
    pub(crate) fn write_line(&self, lines: &mut String) -> Result<(), AllocError> {
        match self {
            Note::AudibleBell => writeln!(lines, "audible_bell()"),
            Note::VisualBell => writeln!(lines, "visual_bell()"),
            Note::Resize((rows, cols)) => writeln!(lines, "resize({rows}, {cols})"),
            Note::SetWindowIconName(name) => write_texts(lines, "set_window_icon_name", &[name]),
            Note::SetWindowTitle(title) => write_texts(lines, "set_window_title", &[title]),
            Note::CopyToClipboard(kind, text) => {
                write_texts(lines, "copy_to_clipboard", &[kind, text])
            }
            Note::PasteFromClipboard(kind) => write_texts(lines, "paste_from_clipboard", &[kind]),
            Note::UnhandledChar(code) => writeln!(lines, "unhandled_char({})", u32::from(*code)),
            Note::UnhandledControl(byte) => writeln!(lines, "unhandled_control({byte})"),
            Note::UnhandledEscape(first, second, byte) => {
                writeln!(lines, "unhandled_escape({first:?}, {second:?}, {byte})")
            }
            Note::UnhandledCsi(first, second, groups, byte) => {
                writeln!(
                    lines,
                    "unhandled_csi({first:?}, {second:?}, {groups:?}, {byte:?})"
                )
            }
            Note::UnhandledOsc(parts) => write_texts(lines, "unhandled_osc", parts),
            Note::OnScroll(row, alternate) => write_scroll(lines, row.text.as_bytes(), *alternate),
        }
    }
}

fn write_texts<T: AsSlice<u8>>(
    lines: &mut String,
    name: &str,
    texts: &[T],
) -> Result<(), AllocError> {
    write!(lines, "{name}(")?;
    for (i, text) in texts.iter().enumerate() {
        if i > 0 {
            write!(lines, ", ")?;
        }
        write!(lines, "\"{}\"", text.as_slice().escape_ascii())?;
    }
    writeln!(lines, ")")
}

/// Appends the line for a row that scrolled off: `scroll`, the row's text in hexadecimal (a dot if
/// the text is empty), and 1 if the row was on the alternate page, otherwise 0.
fn write_scroll(lines: &mut String, text: &[u8], alternate: bool) -> Result<(), AllocError> {
    write!(lines, "scroll ")?;
    if text.is_empty() {
        write!(lines, ".")?;
    }
    for byte in text {
        write!(lines, "{byte:02x}")?;
    }
    writeln!(lines, " {}", u8::from(alternate))
}
