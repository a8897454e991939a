//! Operating system commands (OSC): titles and the clipboard.

ghost use Rattle.std.specs.Prelude.{◌≡◌, [], ◌∷◌, bytes_eq, map};
ghost use Rattle.std.specs.List.{list_all};
ghost use Rattle.vt100.specs.Internals.{Does};
ghost use Rattle.vt_screen.specs.Controls.{clipboard_steps, is_base64, is_clipboard_kind, named_steps, osc_steps};

use vt_screen::{Callbacks, Screen};

/// Invokes the callbacks that an operating system command calls for, or reports
/// an unknown command.
#[tactic(auto, using(crate::proofs::Stepping::called, crate::proofs::Stepping::parts_counted))]
pub fn perform<CB: Callbacks>(screen: &mut Screen, callbacks: &mut CB, parts: &[&[u8]])
    ensures { Does CB.does callbacks.old screen.old
        (osc_steps (map (λ part. part.now) parts.now)) callbacks.new screen.new }
{
    if parts.len() == 2 {
        title(screen, callbacks, parts, parts[0], parts[1]);
        return;
    }
    if parts.len() == 3 {
        clipboard(screen, callbacks, parts, parts[0], parts[1], parts[2]);
        return;
    }
    callbacks.unhandled_osc(screen, parts);
}

/// Performs a two-part operating system command: OSC 0 sets the icon name and the title, OSC 1 only
/// the icon name, and OSC 2 only the title. Any other command is reported as unhandled. `parts`
/// consists of `name` (the number of the command) and `text`.
#[tactic(auto, using(crate::proofs::Stepping::steps_called), unfolding(vt_screen::specs::Controls::named_steps))]
fn title<CB: Callbacks>(
    screen: &mut Screen,
    callbacks: &mut CB,
    parts: &[&[u8]],
    name: &[u8],
    text: &[u8],
)
    requires { map (λ part. part.now) parts.now ≡ name.now ∷ text.now ∷ [] }
    ensures { Does CB.does callbacks.old screen.old (named_steps name.now text.now) callbacks.new screen.new }
{
    if is_text(name, b"0") {
        callbacks.set_window_icon_name(screen, text);
        callbacks.set_window_title(screen, text);
        return;
    }
    if is_text(name, b"1") {
        callbacks.set_window_icon_name(screen, text);
        return;
    }
    if is_text(name, b"2") {
        callbacks.set_window_title(screen, text);
        return;
    }
    callbacks.unhandled_osc(screen, parts);
}

/// Performs a three-part operating system command: OSC 52, which requests or sets the contents of
/// clipboards. An OSC 52 with invalid parts and any other command are reported as unhandled.
/// `parts` consists of `name` (the number of the command), `kind` (the bytes that name the
/// clipboards) and `text` (`?` for a request, otherwise the contents in Base64).
#[tactic(auto, using(crate::proofs::Stepping::steps_called), unfolding(vt_screen::specs::Controls::clipboard_steps))]
fn clipboard<CB: Callbacks>(
    screen: &mut Screen,
    callbacks: &mut CB,
    parts: &[&[u8]],
    name: &[u8],
    kind: &[u8],
    text: &[u8],
)
    requires { map (λ part. part.now) parts.now ≡ name.now ∷ kind.now ∷ text.now ∷ [] }
    ensures { Does CB.does callbacks.old screen.old
        (clipboard_steps name.now kind.now text.now) callbacks.new screen.new }
{
    if !is_text(name, b"52") || !all_clipboards(kind) {
        callbacks.unhandled_osc(screen, parts);
        return;
    }
    if is_text(text, b"?") {
        callbacks.paste_from_clipboard(screen, kind);
        return;
    }
    if all_base64(text) {
        callbacks.copy_to_clipboard(screen, kind, text);
        return;
    }
    callbacks.unhandled_osc(screen, parts);
}

/// Returns whether two byte strings are equal.
fn is_text(text: &[u8], word: &[u8]) -> bool
    ensures { result ≡ bytes_eq text.now word.now }
{
    text == word
}

/// Returns whether each byte of `kind` names a clipboard or selection: `c`, `p`, `q`, `s`, or a
/// digit from `0` to `7`.
fn all_clipboards(kind: &[u8]) -> bool
    ensures { result ≡ is_clipboard_kind kind.now }
{
    kind.iter().all(|byte| matches!(byte, b'c' | b'p' | b'q' | b's' | b'0'..=b'7'))
}

/// Returns whether each byte of `text` is a Base64 character.
fn all_base64(text: &[u8]) -> bool
    ensures { result ≡ list_all is_base64 text.now }
{
    text.iter().all(
        |byte| matches!(byte, b'A'..=b'Z' | b'a'..=b'z' | b'0'..=b'9' | b'+' | b'/' | b'='),
    )
}
