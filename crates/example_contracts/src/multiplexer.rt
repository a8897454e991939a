//! A multiplexer, which keeps a remote terminal in sync with a screen by sending one redraw
//! followed by diffs.

ghost use Rattle.std.specs.List.{AllByRecursion};
ghost use Rattle.std.specs.Prelude.{◌≡◌, ◌∷◌, IfErr, OnOk, Ok, false};
ghost use Rattle.vt100.specs.Pieces.{IsPlainParser, Processes, processing};
ghost use Rattle.example_contracts.specs.Failing.{IsFailure};
ghost use Rattle.example_contracts.specs.Remote.{SendsNext, ShowsScreen};
ghost use Rattle.vt_grid.specs.Page.{SameSize};
ghost use Rattle.vt_redraw.specs.Picture.{SamePictureSize};
ghost use Rattle.vt_redraw.specs.Steady.{IsSteady};
ghost use Rattle.vt_screen.specs.Chain.{last_screen};
ghost use Rattle.vt_screen.specs.Shown.{display};

use vt100::{Callbacks, DiffOptions, Error, Parser, Repeat, Screen, laws};

/// Sends a complete redraw of the screen to a remote terminal of the same size.
///
/// A terminal is plain if it is in ground state, with the full scroll region, origin mode off and
/// no scrollback displayed. A display is steady if every visible glyph reproduces itself when
/// printed. If the remote terminal is plain and the display of the screen is steady, the terminal
/// has the same display as the screen after the call.
///
/// # Errors
///
/// Returns [`Error::OutOfMemory`] if an allocation fails, and [`Error::Failed`] if the remote
/// terminal failed before.
pub fn send_redraw<CB: Callbacks>(screen: &Screen, remote: &mut Parser<CB>) -> Result<(), Error>
    ensures shows { OnOk result (IsSteady (display screen.now) → IsPlainParser remote.old →
        SamePictureSize (display screen.now) (display remote.old.screen) → ShowsScreen screen.now remote.new) }
    ensures fine { OnOk result (remote.new.is_failed ≡ false) }
    ensures only { IfErr result (IsFailure remote.old) }
{
    // Only for the proof: a call on a screen makes its invariant available.
    remote.screen().size();
    let text = screen.contents_formatted()?;
    remote.process(text.as_bytes())?;
    Ok(())
}

/// Sends to a remote terminal the diff from `prev`, a screen of the same size, to `screen`.
///
/// If the remote terminal is plain and displays what `prev` displays, and the display of `screen`
/// is steady (see [`send_redraw`] for both terms), the terminal has the same display as `screen`
/// after the call.
///
/// # Errors
///
/// Returns [`Error::OutOfMemory`] if an allocation fails, and [`Error::Failed`] if the remote
/// terminal failed before.
pub fn send_difference<CB: Callbacks>(
    screen: &Screen,
    prev: &Screen,
    remote: &mut Parser<CB>,
) -> Result<(), Error>
    requires { SameSize screen.now.page prev.now.page }
    ensures shows { OnOk result
        (IsSteady (display screen.now) → ShowsScreen prev.now remote.old → ShowsScreen screen.now remote.new) }
    ensures only { IfErr result (IsFailure remote.old) }
{
    // Only for the proof: a call on a screen makes its invariant available.
    remote.screen().size();
    let text = screen.contents_diff(prev)?;
    remote.process(text.as_bytes())?;
    Ok(())
}

/// Sends to a remote terminal a short diff from `prev`, a screen of the same size, to `screen`. The
/// diff may move rows and columns first and repeat ASCII characters with REP, so the remote
/// terminal must perform REP after these characters, as tmux and every terminal of this library do.
///
/// The terminal displays what it would display after [`send_difference`].
///
/// # Errors
///
/// Returns [`Error::OutOfMemory`] if an allocation fails, and [`Error::Failed`] if the remote
/// terminal failed before.
pub fn send_short_difference<CB: Callbacks>(
    screen: &Screen,
    prev: &Screen,
    remote: &mut Parser<CB>,
) -> Result<(), Error>
    requires { SameSize screen.now.page prev.now.page }
    ensures shows { OnOk result
        (IsSteady (display screen.now) → ShowsScreen prev.now remote.old → ShowsScreen screen.now remote.new) }
    ensures only { IfErr result (IsFailure remote.old) }
{
    // Only for the proof: a call on a screen makes its invariant available.
    remote.screen().size();
    let options = DiffOptions {
        scroll: true,
        repeat: Repeat::Ascii,
        portable: false,
    };
    let text = screen.contents_diff_with(prev, options)?;
    remote.process(text.as_bytes())?;
    Ok(())
}

/// Sends to a remote terminal a complete redraw of `first`, and then the diff from `first` to
/// `second`. The terminal and both screens must have the same size.
///
/// If the remote terminal is plain and the displays of both screens are steady (see [`send_redraw`]
/// for both terms), the terminal has the same display as `second` after the call, whatever it
/// displayed before.
///
/// # Errors
///
/// Returns [`Error::OutOfMemory`] if an allocation fails, and [`Error::Failed`] if the remote
/// terminal failed before.
#[tactic(auto, using(crate::proofs::Sending::fails_second))]
pub fn send_both<CB: Callbacks>(
    first: &Screen,
    second: &Screen,
    remote: &mut Parser<CB>,
) -> Result<(), Error>
    requires { SameSize second.now.page first.now.page }
    ensures shows { OnOk result (IsSteady (display first.now) → IsSteady (display second.now) → IsPlainParser remote.old →
        SamePictureSize (display first.now) (display remote.old.screen) → ShowsScreen second.now remote.new) }
    ensures only { IfErr result (IsFailure remote.old) }
{
    send_redraw(first, remote)?;
    send_difference(second, first, remote)?;
    Ok(())
}

/// Sends a complete redraw, as [`send_redraw`] does, over a connection that splits it into chunks
/// of at most the lengths in `sizes`, then a final chunk with whatever remains.
///
/// # Errors
///
/// Returns [`Error::OutOfMemory`] if an allocation fails, and [`Error::Failed`] if the remote
/// terminal failed before.
pub fn send_redraw_cut<CB: Callbacks>(
    screen: &Screen,
    sizes: &[usize],
    remote: &mut Parser<CB>,
) -> Result<(), Error>
    ensures shows { OnOk result (IsSteady (display screen.now) → IsPlainParser remote.old →
        SamePictureSize (display screen.now) (display remote.old.screen) → ShowsScreen screen.now remote.new) }
    ensures only { IfErr result (IsFailure remote.old) }
{
    // Only for the proof: a call on a screen makes its invariant available.
    remote.screen().size();
    let text = screen.contents_formatted()?;
    send_cut(text.as_bytes(), sizes, remote)?;
    Ok(())
}

/// Sends the diff from `prev` to `screen`, as [`send_difference`] does, over a connection that
/// splits it into chunks of at most the lengths in `sizes`, then a final chunk with whatever
/// remains.
///
/// # Errors
///
/// Returns [`Error::OutOfMemory`] if an allocation fails, and [`Error::Failed`] if the remote
/// terminal failed before.
pub fn send_difference_cut<CB: Callbacks>(
    screen: &Screen,
    prev: &Screen,
    sizes: &[usize],
    remote: &mut Parser<CB>,
) -> Result<(), Error>
    requires { SameSize screen.now.page prev.now.page }
    ensures shows { OnOk result
        (IsSteady (display screen.now) → ShowsScreen prev.now remote.old → ShowsScreen screen.now remote.new) }
    ensures only { IfErr result (IsFailure remote.old) }
{
    // Only for the proof: a call on a screen makes its invariant available.
    remote.screen().size();
    let text = screen.contents_diff(prev)?;
    send_cut(text.as_bytes(), sizes, remote)?;
    Ok(())
}

/// Sends `text` in chunks of at most the lengths in `sizes`, then whatever remains as a final
/// chunk. If parsing `text` invokes no callbacks and allocates nothing, the result does not depend
/// on how it is split.
fn send_cut<CB: Callbacks>(
    text: &[u8],
    sizes: &[usize],
    remote: &mut Parser<CB>,
) -> Result<(), Error>
    ensures reads { OnOk result (Processes remote.old (processing text.now (Ok tt)) remote.new) }
    ensures only { IfErr result (IsFailure remote.old) }
{
    laws::quiet_pieces::<CB>();
    let mut rest = text;
    for size in sizes {
        let count = rest.len().min(*size);
        remote.process(&rest[..count])?;
        rest = &rest[count..];
    }
    remote.process(rest)?;
    Ok(())
}

/// Sends a redraw of the first screen to a remote terminal of the same size and then, for each
/// later screen, the diff from the previous screen.
///
/// If the remote terminal was plain and the display of each screen is steady (see [`send_redraw`]
/// for both terms), the terminal has the same display as the last screen after the call.
///
/// # Errors
///
/// Returns [`Error::OutOfMemory`] if an allocation fails, and [`Error::Failed`] if the remote
/// terminal failed before.
pub fn follow<CB: Callbacks>(
    first: &Screen,
    nexts: &[Screen],
    remote: &mut Parser<CB>,
) -> Result<(), Error>
    requires { AllByRecursion (λ next. SameSize next.page first.now.page) nexts.now }
    ensures shows { OnOk result (AllByRecursion (λ screen. IsSteady (display screen)) (first.now ∷ nexts.now) →
        IsPlainParser remote.old → SamePictureSize (display first.now) (display remote.old.screen) →
        ShowsScreen (last_screen first.now nexts.now) remote.new) }
    ensures only { IfErr result (IsFailure remote.old) }
{
    laws::chain::<CB>();
    // Only for the proof: a call on a screen makes its invariant available.
    remote.screen().size();
    first.size();
    let text = first.contents_formatted()?;
    remote.process(text.as_bytes())?;
    let mut prev = first;
    for next in nexts {
        send_next(next, prev, remote)?;
        prev = next;
    }
    Ok(())
}

/// Sends the diff from the previous screen `prev` to `screen`.
fn send_next<CB: Callbacks>(
    screen: &Screen,
    prev: &Screen,
    remote: &mut Parser<CB>,
) -> Result<(), Error>
    requires { SameSize screen.now.page prev.now.page }
    ensures sends { OnOk result (SendsNext screen.now prev.now remote.old remote.new) }
    ensures only { IfErr result (IsFailure remote.old) }
{
    // Only for the proof: a call on a screen makes its invariant available.
    screen.size();
    let text = screen.contents_diff(prev)?;
    remote.process(text.as_bytes())?;
    Ok(())
}
