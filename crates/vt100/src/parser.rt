//! The parser, which parses input, applies it to the screen that it owns, and invokes callbacks.

ghost use Rattle.std.specs.Borrow.{sem, Lends, LendsBoth};
ghost use Rattle.std.specs.Prelude.{◌≡◌, ◌<◌, ◌↔◌, [], Err, IfOk, IsErr, IsTrue, OnErr, OnOk, false, length, take};
ghost use Rattle.vt_cells.specs.Refusals.{OnlyOutOfMemory};
ghost use Rattle.vt_cells.specs.declared.error.Error.TheVariants.{OutOfMemory};
ghost use Rattle.vt100.specs.Calls.{ParserProcesses, ParserReadsUnit};
ghost use Rattle.vt100.specs.Erasures.{CountsErasures, CountsUntilStopped};
ghost use Rattle.vt100.specs.Parser.{HasFreshScreen, stage};
ghost use Rattle.vt100.specs.contracts.parser.Parser.{the_row as parser_row};
ghost use Rattle.vt_scan.specs.Automaton.{State, start};
ghost use Rattle.vt_scan.specs.Scanner.{StandsFor, unfinished_command};
ghost use Rattle.vt_screen.specs.Pages.{calls_resized, has_size, screen_after_resize};
ghost use Rattle.vt_screen.specs.CallsOfRun.{TakesCalls};
ghost use Rattle.vt_screen.specs.contracts.screen.Screen.{the_row as screen_row};

use crate::processing;
use std::alloc::Global;
use std::marker::Model;
use std::num::NonZeroU16;
use vt_cells::Error;
use vt_scan::Scanner;
use vt_screen::screen::{new_screen, resizing};
use vt_screen::{Callbacks, Screen};

/// An in-memory terminal emulator. It parses the bytes that a program writes,
/// maintains the screen that a user would see, and passes everything that is
/// not displayed, such as titles and bells, to its callbacks.
pub struct Parser<CB: Callbacks = ()> {
    scanner: Scanner,
    screen: Screen,
    callbacks: CB,
    is_failed: bool,
    erasures: u64,
}

impl<CB: Callbacks> Model for Parser<CB> {
    ghost use Rattle.vt100.specs.Parser.{ParserValue};

    ghost Value = { ParserValue CB };

    ghost view = { λ p.
        record {
          scanner = p.scanner;
          screen = p.screen;
          callbacks = p.callbacks;
          is_failed = p.is_failed;
          erasures = p.erasures;
        } };
}

// `Drop` is implemented by hand so that dropping is a single call in callers' proofs, as for `Screen`.
impl<CB: Callbacks + Drop> Drop for Parser<CB> {
    fn drop(self) {
        let Parser {
            scanner: _,
            screen: _,
            callbacks: _,
            is_failed: _,
            erasures: _,
        } = self;
    }
}

impl Parser {
    /// The number of rows of the default screen.
    pub const DEFAULT_ROWS: u16 = 24;

    /// The number of columns of the default screen.
    pub const DEFAULT_COLS: u16 = 80;

    /// Creates a parser with a blank screen and no callbacks.
    ///
    /// Scrollback keeps the last `scrollback_capacity` rows that scroll off the
    /// top.
    ///
    /// # Errors
    ///
    /// Returns `Error::OutOfMemory` if the screen cannot be allocated.
    ///
    /// # Examples
    ///
    /// ```text
    /// let rows = NonZeroU16::new(24).unwrap();
    /// let cols = NonZeroU16::new(80).unwrap();
    /// let parser = Parser::new(rt.alloc(), rows, cols, 0)?;
    /// assert_eq!(parser.screen().size(), (rows, cols));
    /// ```
    pub fn new(
        alloc: Global,
        rows: NonZeroU16,
        cols: NonZeroU16,
        scrollback_capacity: usize,
    ) -> Result<Parser, Error>
        ensures ground { IfOk result (λ parser. StandsFor parser.scanner start) }
        ensures memory { OnlyOutOfMemory result }
        ensures shown { IfOk result
            (λ parser. HasFreshScreen rows.value cols.value scrollback_capacity parser.callbacks parser) }
    {
        Parser::new_with_callbacks(alloc, rows, cols, scrollback_capacity, ())
    }

    /// Creates a parser whose screen has 24 rows and 80 columns, without scrollback or callbacks.
    ///
    /// # Errors
    ///
    /// Returns `Error::OutOfMemory` if the screen cannot be allocated.
    pub fn default(alloc: Global) -> Result<Parser, Error>
        ensures ground { IfOk result (λ parser. StandsFor parser.scanner start) }
        ensures memory { OnlyOutOfMemory result }
        ensures shown { IfOk result (λ parser. HasFreshScreen 24 80 0 parser.callbacks parser) }
    {
        let rows = NonZeroU16::new(Parser::DEFAULT_ROWS).unwrap();
        let cols = NonZeroU16::new(Parser::DEFAULT_COLS).unwrap();
        Parser::new(alloc, rows, cols, 0)
    }
}

impl<CB: Callbacks> Parser<CB> {
    /// Creates a parser with a blank screen and the given callbacks.
    ///
    /// Scrollback keeps the last `scrollback_capacity` rows that scroll off the
    /// top. Older rows are passed to [`Callbacks::on_scroll`] as they are
    /// dropped.
    ///
    /// # Errors
    ///
    /// Returns `Error::OutOfMemory` if the screen cannot be allocated. The
    /// callbacks are then dropped.
    pub fn new_with_callbacks(
        alloc: Global,
        rows: NonZeroU16,
        cols: NonZeroU16,
        scrollback_capacity: usize,
        callbacks: CB,
    ) -> Result<Parser<CB>, Error>
    where
        CB: Drop,
        ensures ground { IfOk result (λ parser. StandsFor parser.scanner start) }
        ensures memory { OnlyOutOfMemory result }
        ensures shown { IfOk result (HasFreshScreen rows.value cols.value scrollback_capacity callbacks) }
    {
        let scanner = Scanner::new(alloc);
        let screen = new_screen(alloc, rows, cols, scrollback_capacity)?;
        Ok(Parser {
            scanner,
            screen,
            callbacks,
            is_failed: false,
            erasures: 0,
        })
    }

    /// Parses `bytes` and applies them to the screen, invoking callbacks as
    /// sequences complete.
    ///
    /// Input may be split anywhere: an incomplete character or sequence
    /// continues with the next call.
    ///
    /// # Errors
    ///
    /// Returns `Error::OutOfMemory` if an allocation fails. The steps before
    /// the failing step remain in effect; the failing step changes nothing and
    /// invokes no callbacks. From then on, the parser reads nothing and returns
    /// `Error::Failed`, but its screen can still be read.
    ///
    /// Memory is allocated only for the text of operating system commands, for
    /// rows that move into scrollback, and for the first switch to the
    /// alternate page. By the clause `quiet`, input that needs no allocation
    /// and invokes no callbacks is always read without an error. An example is
    /// a redraw on a plain terminal (in ground state, with the full scroll
    /// region, origin mode off and no scrollback displayed).
    ///
    /// # Examples
    ///
    /// ```text
    /// parser.process(b"this text is \x1b[31mRED\x1b[m")?;
    /// let redraw = parser.screen().contents_formatted()?;
    /// assert_eq!(
    ///     redraw.as_str(),
    ///     "\x1b[?25h\x1b[m\x1b[H\x1b[Jthis text is \x1b[31mRED\x1b[m",
    /// );
    /// ```
    pub fn process(&mut self, bytes: &[u8]) -> Result<(), Error>
        ensures call { ParserProcesses CB.does self.old bytes.now result self.new }
        ensures erased { IfOk result
            (λ _. CountsErasures self.old.scanner bytes.now self.old.erasures self.new.erasures) }
        ensures erased_before { result ≡ Err OutOfMemory → CountsUntilStopped CB.does
            self.old.scanner (stage self.old) self.old.erasures bytes.now (stage self.new) self.new.erasures }
    {
        if self.is_failed {
            return Err(Error::Failed);
        }
        match processing::process(
            &mut self.scanner,
            &mut self.screen,
            &mut self.callbacks,
            &mut self.erasures,
            bytes,
        ) {
            Ok(()) => Ok(()),
            Err(_) => {
                self.is_failed = true;
                Err(Error::OutOfMemory)
            }
        }
    }

    /// Parses the first unit of `bytes`, in which only the last byte can invoke callbacks (clause
    /// `call`: `last`), and returns the unit's length in bytes. `bytes` must not be empty.
    ///
    /// A unit is a run of text that fits on the cursor's row, one character, a control function, a
    /// complete or partial sequence, or bytes of a control string (such as an operating system
    /// command). The C library uses this function so that it can stop at the byte that invoked a
    /// callback.
    ///
    /// # Errors
    ///
    /// Returns the errors of [`process`](Parser::process), along with the number of bytes read
    /// before the byte that required the failed allocation, or 0 if the parser had already failed.
    #[inline(always)]
    pub fn process_unit(&mut self, bytes: &[u8]) -> (usize, Result<(), Error>)
        requires { 0 < length bytes.now }
        ensures call { ParserReadsUnit CB.does self.old bytes.now result.0 result.1 self.new }
        ensures erased { IfOk result.1
            (λ _. CountsErasures self.old.scanner (take result.0 bytes.now) self.old.erasures self.new.erasures) }
        ensures erased_none { IsErr result.1
            → CountsErasures self.old.scanner [] self.old.erasures self.new.erasures }
    {
        if self.is_failed {
            return (0, Err(Error::Failed));
        }
        let (scanner, screen) = (&mut self.scanner, &mut self.screen);
        let erasures = &mut self.erasures;
        match processing::process_some(scanner, screen, &mut self.callbacks, erasures, bytes) {
            Ok(count) => (count, Ok(())),
            Err(before) => {
                self.is_failed = true;
                (before, Err(Error::OutOfMemory))
            }
        }
    }

    /// Returns the number of bytes that the parser stores for an unfinished operating system
    /// command: the bytes read after `\x1b]`, not counting C0 control characters. Returns 0 if no
    /// such command is in progress.
    ///
    /// No other unfinished input takes memory: other control strings, such as DCS, are discarded as
    /// they are read, and only a fixed amount of any other sequence is kept.
    ///
    /// The length of a command is limited only by memory. To enforce a limit, pass CAN (`\x18`) to
    /// the parser, which then dispatches the part of the command that it has read and invokes
    /// `unhandled_control` for the CAN.
    ///
    /// # Examples
    ///
    /// ```text
    /// parser.process(b"\x1b]2;a title that does not end")?;
    /// if parser.pending_len() > 16 {
    ///     parser.process(b"\x18")?;
    /// }
    /// assert_eq!(parser.pending_len(), 0);
    /// ```
    #[inline]
    pub fn pending_len(&self) -> usize
        ensures held { result ≡ length (unfinished_command self.now.scanner.kind self.now.scanner.text) }
        ensures collected { (state : State) → StandsFor self.now.scanner state
            → result ≡ length (unfinished_command state.kind state.collected) }
    {
        self.scanner.pending_len()
    }

    /// Returns whether the parser is in ground state: no escape sequence, control string or character
    /// is half read. The parser then parses further bytes as a new parser does, whose screen and
    /// callbacks are the current ones ([`laws::ground`](crate::laws::ground)).
    ///
    /// A parser that has run out of memory may or may not be in ground state. It reads nothing more.
    ///
    /// # Examples
    ///
    /// ```text
    /// parser.process(b"text \x1b[31")?;
    /// assert!(!parser.is_ground());
    /// parser.process(b"m")?;
    /// assert!(parser.is_ground());
    /// ```
    #[inline]
    pub fn is_ground(&self) -> bool
        ensures start { IsTrue result ↔ StandsFor self.now.scanner start }
        ensures state { (state : State) → StandsFor self.now.scanner state → IsTrue result ↔ (state ≡ start) }
    {
        self.scanner.is_ground()
    }

    /// Returns how often the input has asked to erase scrollback: the number of RIS (`\x1bc`) and
    /// ED 3 (`\x1b[3J` or `\x1b[?3J`) sequences that the parser has read, even if scrollback was
    /// empty, or if ED 3 had no effect because the alternate page was displayed. Calls of
    /// [`Screen::clear_scrollback`] are not counted.
    ///
    /// A caller that copies rows from scrollback can compare the count before and after a call of
    /// [`process`](Parser::process) to find out whether its copies are outdated. The count stays at
    /// `u64::MAX` when it has reached it.
    ///
    /// # Examples
    ///
    /// ```text
    /// parser.process(b"text\x1b[2J")?;
    /// assert_eq!(parser.scrollback_erasures(), 0);
    /// parser.process(b"\x1b[3J\x1bc")?;
    /// assert_eq!(parser.scrollback_erasures(), 2);
    /// ```
    #[inline]
    pub fn scrollback_erasures(&self) -> u64
        ensures { result ≡ self.now.erasures }
    {
        self.erasures
    }

    /// Resizes both pages of the screen, as [`Screen::set_size`] does. Rows
    /// that scroll off the top of a page and are not kept are passed to
    /// [`Callbacks::on_scroll`]: first the rows of the main page, then the rows
    /// of the alternate page, oldest first.
    ///
    /// A parser that has run out of memory can still be resized.
    ///
    /// # Errors
    ///
    /// Returns `Error::OutOfMemory` if an allocation fails. On error, nothing
    /// is changed and no callbacks are invoked. A resize to the current size
    /// cannot fail.
    pub fn set_size(&mut self, rows: NonZeroU16, cols: NonZeroU16) -> Result<(), Error>
        ensures ok { OnOk result (self.new
            ≡ record self.old
            { screen = screen_after_resize rows.value cols.value self.old.screen; callbacks = self.new.callbacks }) }
        ensures called { OnOk result (TakesCalls CB.does self.old.callbacks
            (calls_resized rows.value cols.value self.old.screen) self.new.callbacks) }
        ensures err { OnErr result (self.new ≡ self.old) }
        ensures grows { IsErr result → has_size rows.value cols.value self.old.screen ≡ false }
        ensures memory { OnlyOutOfMemory result }
    {
        resizing::set_size_with_cb(&mut self.screen, &mut self.callbacks, rows, cols)?;
        Ok(())
    }

    /// Returns a reference to the screen.
    ///
    /// The clause `stands` states that the parser's scanner represents at least
    /// one state of the automaton.
    #[inline]
    pub fn screen(&self) -> &Screen
        ensures value { result.now ≡ self.now.screen }
        ensures stands { ∥ ((state : State) × StandsFor self.now.scanner state) ∥₁ }
    {
        // Only for the proof: a scanner always represents some state.
        self.scanner.stands();
        &self.screen
    }

    /// Returns a mutable reference to the screen.
    #[inline]
    pub fn screen_mut(&mut self) -> &mut Screen
        ensures* writes_back { sem 𝓛 (Lends (parser_row CB.row ⟦<CB as Callbacks>⟧)
            screen_row self.entry result (λ w. record self.old { screen = w })) }
        ensures value { result.now ≡ self.old.screen }
    {
        &mut self.screen
    }

    /// Returns a reference to the callbacks.
    #[inline]
    pub fn callbacks(&self) -> &CB
        ensures { result.now ≡ self.now.callbacks }
    {
        &self.callbacks
    }

    /// Returns a mutable reference to the callbacks.
    #[inline]
    pub fn callbacks_mut(&mut self) -> &mut CB
        ensures* writes_back { sem 𝓛 (Lends (parser_row CB.row ⟦<CB as Callbacks>⟧)
            CB.row self.entry result (λ w. record self.old { callbacks = w })) }
        ensures value { result.now ≡ self.old.callbacks }
    {
        &mut self.callbacks
    }

    /// Returns mutable references to the screen and the callbacks. Changes made
    /// through them do not affect the rest of the parser, including whether it
    /// has failed.
    #[inline]
    pub fn screen_and_callbacks_mut(&mut self) -> (&mut Screen, &mut CB)
        ensures* writes_back { sem 𝓛 (LendsBoth (parser_row CB.row ⟦<CB as Callbacks>⟧) screen_row CB.row
            self.entry result (λ screen callbacks. record self.old { screen = screen; callbacks = callbacks })) }
        ensures screen { result.0.now ≡ self.old.screen }
        ensures callbacks { result.1.now ≡ self.old.callbacks }
    {
        (&mut self.screen, &mut self.callbacks)
    }
}
