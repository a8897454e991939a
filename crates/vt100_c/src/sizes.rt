//! Resizing screens, scrolling their displays back, and erasing their scrollback.

ghost use Rattle.vt100_c.specs.Calls.{OnSource};
ghost use Rattle.vt100_c.specs.Sizes.{ChangesScreen, Clears, ResizesMirror, ResizesParser, ResizesScreen};
ghost use Rattle.vt100_c.specs.Sizes.{ResizesSource, ScrollsBack, SetsScreenSize, SetsSize};

use crate::event_log::Events;
use crate::handle::Handle;
use crate::lifecycle::size_of;
use crate::object::Source;
use crate::status::{BAD_ARGUMENT, NO_OBJECT, OK, OUT_OF_MEMORY, WRONG_KIND, answered};
use std::alloc::Global;
use std::num::NonZeroU16;
use vt_mirror::Mirror;
use vt100::{Parser, Screen};

/// Resizes the screen of a parser, a saved screen or a mirror. For a parser,
/// rows that scroll off and are not kept are reported as events.
///
/// # Errors
///
/// Returns `NO_OBJECT` if the handle is empty, `BAD_ARGUMENT` if `rows` or
/// `cols` is 0, `WRONG_KIND` if the handle holds a capture, or `OUT_OF_MEMORY`
/// if an allocation fails. On error, nothing is changed.
#[unsafe(no_mangle)]
pub extern "C" fn vt100_set_size(alloc: Global, handle: &mut Handle, rows: u16, cols: u16) -> u8
    ensures { OnSource (SetsSize rows cols) handle.old.held result handle.new.held }
{
    if !handle.is_full() {
        return NO_OBJECT;
    }
    let mut object = handle.take_out(alloc);
    let status = set_size(&mut object.source, rows, cols);
    handle.put_back(object);
    status
}

/// Resizes the screen of a parser or a saved screen without recording events.
///
/// # Errors
///
/// Returns `NO_OBJECT` if the handle is empty, `BAD_ARGUMENT` if `rows` or
/// `cols` is 0, `WRONG_KIND` if the handle holds neither a parser nor a saved
/// screen, or `OUT_OF_MEMORY` if an allocation fails. On error, nothing is
/// changed.
#[unsafe(no_mangle)]
pub extern "C" fn vt100_screen_set_size(
    alloc: Global,
    handle: &mut Handle,
    rows: u16,
    cols: u16,
) -> u8
    ensures { OnSource (SetsScreenSize rows cols) handle.old.held result handle.new.held }
{
    if !handle.is_full() {
        return NO_OBJECT;
    }
    let mut object = handle.take_out(alloc);
    let status = set_screen_size(&mut object.source, rows, cols);
    handle.put_back(object);
    status
}

/// Sets the scrollback offset of a parser or a saved screen, which is the number of rows by which
/// the display is scrolled back. `rows` is clamped to the number of rows in scrollback. Does
/// nothing while the alternate page is active.
///
/// # Errors
///
/// Returns `NO_OBJECT` if the handle is empty, `WRONG_KIND` if it holds neither a parser nor a
/// saved screen, or `OUT_OF_MEMORY` if an allocation fails. On error, nothing is changed.
#[unsafe(no_mangle)]
pub extern "C" fn vt100_set_scrollback(alloc: Global, handle: &mut Handle, rows: usize) -> u8
    ensures { OnSource (ChangesScreen (ScrollsBack rows)) handle.old.held result handle.new.held }
{
    if !handle.is_full() {
        return NO_OBJECT;
    }
    let mut object = handle.take_out(alloc);
    let status = set_scrollback(&mut object.source, rows);
    handle.put_back(object);
    status
}

/// Erases the scrollback of a parser or a saved screen without recording events, and displays only
/// the page. Does nothing while the alternate page is active.
///
/// # Errors
///
/// Returns `NO_OBJECT` if the handle is empty, or `WRONG_KIND` if it holds
/// neither a parser nor a saved screen.
#[unsafe(no_mangle)]
pub extern "C" fn vt100_clear_scrollback(alloc: Global, handle: &mut Handle) -> u8
    ensures { OnSource (ChangesScreen Clears) handle.old.held result handle.new.held }
{
    if !handle.is_full() {
        return NO_OBJECT;
    }
    let mut object = handle.take_out(alloc);
    let status = clear_scrollback(&mut object.source);
    handle.put_back(object);
    status
}

/// Resizes the screen of a source. Returns `BAD_ARGUMENT` if `rows` or `cols` is 0, `WRONG_KIND` if
/// the source is a capture, or `OUT_OF_MEMORY` if an allocation fails.
fn set_size(source: &mut Source, rows: u16, cols: u16) -> u8
    ensures { SetsSize rows cols source.old result source.new }
{
    let Some((some_rows, some_cols)) = size_of(rows, cols) else {
        return BAD_ARGUMENT;
    };
    resize(source, some_rows, some_cols)
}

/// Resizes the screen of a source. Returns `WRONG_KIND` if the source is a capture, or
/// `OUT_OF_MEMORY` if an allocation fails.
fn resize(source: &mut Source, rows: NonZeroU16, cols: NonZeroU16) -> u8
    ensures { ResizesSource rows.value cols.value source.old result source.new }
{
    match source {
        Source::Parser(parser) => resize_parser(parser, rows, cols),
        Source::Screen(screen) => resize_screen(screen, rows, cols),
        Source::Mirror(mirror) => resize_mirror(mirror, rows, cols),
        Source::Capture(_) => WRONG_KIND,
        Source::Charsets(_) => WRONG_KIND,
    }
}

/// Resizes the screen of a parser, and returns the status code.
fn resize_parser(parser: &mut Parser<Events>, rows: NonZeroU16, cols: NonZeroU16) -> u8
    ensures { ResizesParser rows.value cols.value parser.old result parser.new }
{
    match parser.set_size(rows, cols) {
        Ok(()) => OK,
        Err(_) => OUT_OF_MEMORY,
    }
}

/// Resizes a screen, and returns the status code.
fn resize_screen(screen: &mut Screen, rows: NonZeroU16, cols: NonZeroU16) -> u8
    ensures { ResizesScreen rows.value cols.value screen.old result screen.new }
{
    match screen.set_size(rows, cols) {
        Ok(()) => OK,
        Err(_) => OUT_OF_MEMORY,
    }
}

/// Resizes the screen of a mirror, and returns the status code.
fn resize_mirror(mirror: &mut Mirror, rows: NonZeroU16, cols: NonZeroU16) -> u8
    ensures { ResizesMirror rows.value cols.value mirror.old result mirror.new }
{
    answered(mirror.set_size(rows, cols))
}

/// Resizes the screen of a source without recording events. Returns `BAD_ARGUMENT` if `rows` or
/// `cols` is 0, `WRONG_KIND` if the source is neither a parser nor a saved screen, or
/// `OUT_OF_MEMORY` if an allocation fails.
fn set_screen_size(source: &mut Source, rows: u16, cols: u16) -> u8
    ensures { SetsScreenSize rows cols source.old result source.new }
{
    let Some((some_rows, some_cols)) = size_of(rows, cols) else {
        return BAD_ARGUMENT;
    };
    resize_own(source, some_rows, some_cols)
}

/// Resizes the screen of a source without recording events. Returns `WRONG_KIND` if the source is
/// neither a parser nor a saved screen, or `OUT_OF_MEMORY` if an allocation fails.
fn resize_own(source: &mut Source, rows: NonZeroU16, cols: NonZeroU16) -> u8
    ensures { ChangesScreen (ResizesScreen rows.value cols.value) source.old result source.new }
{
    match source {
        Source::Parser(parser) => resize_screen(parser.screen_mut(), rows, cols),
        Source::Screen(screen) => resize_screen(screen, rows, cols),
        Source::Mirror(_) => WRONG_KIND,
        Source::Capture(_) => WRONG_KIND,
        Source::Charsets(_) => WRONG_KIND,
    }
}

/// Sets the scrollback offset of a source's screen to `rows`, clamped to the number of rows in
/// scrollback. Returns `WRONG_KIND` if the source is neither a parser nor a saved screen, or
/// `OUT_OF_MEMORY` if an allocation fails.
fn set_scrollback(source: &mut Source, rows: usize) -> u8
    ensures { ChangesScreen (ScrollsBack rows) source.old result source.new }
{
    match source {
        Source::Parser(parser) => scroll_back(parser.screen_mut(), rows),
        Source::Screen(screen) => scroll_back(screen, rows),
        Source::Mirror(_) => WRONG_KIND,
        Source::Capture(_) => WRONG_KIND,
        Source::Charsets(_) => WRONG_KIND,
    }
}

/// Sets the scrollback offset of a screen to `rows`, clamped to the number of rows in scrollback.
/// Returns `OK`, or `OUT_OF_MEMORY` if an allocation fails.
fn scroll_back(screen: &mut Screen, rows: usize) -> u8
    ensures { ScrollsBack rows screen.old result screen.new }
{
    match screen.set_scrollback(rows) {
        Ok(()) => OK,
        Err(_) => OUT_OF_MEMORY,
    }
}

/// Erases the scrollback of a source. Returns `WRONG_KIND` if the source is
/// neither a parser nor a saved screen.
fn clear_scrollback(source: &mut Source) -> u8
    ensures { ChangesScreen Clears source.old result source.new }
{
    match source {
        Source::Parser(parser) => clear(parser.screen_mut()),
        Source::Screen(screen) => clear(screen),
        Source::Mirror(_) => WRONG_KIND,
        Source::Capture(_) => WRONG_KIND,
        Source::Charsets(_) => WRONG_KIND,
    }
}

/// Erases the scrollback of a screen, and returns `OK`.
fn clear(screen: &mut Screen) -> u8
    ensures { Clears screen.old result screen.new }
{
    screen.clear_scrollback();
    OK
}
