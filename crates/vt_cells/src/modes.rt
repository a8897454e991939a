//! Mouse reporting modes and cursor styles.

/// The mouse events that the terminal reports (xterm, DEC private modes 9, 1000, 1002 and 1003).
#[derive(Clone, Copy, PartialEq, Eq, Debug, Default)]
pub enum MouseProtocolMode {
    /// Mouse events are not reported.
    #[default]
    None,

    /// Button presses are reported (mode 9).
    Press,

    /// Button presses and releases are reported (mode 1000).
    PressRelease,

    /// Button presses, button releases, and motion while a button is held down are reported (mode
    /// 1002).
    ButtonMotion,

    /// Button presses, button releases and all motion are reported (mode 1003).
    AnyMotion,
}

/// The encoding of reported mouse events (xterm, DEC private modes 1005 and 1006).
#[derive(Clone, Copy, PartialEq, Eq, Debug, Default)]
pub enum MouseProtocolEncoding {
    /// The button and the coordinates are encoded as one byte each.
    #[default]
    Default,

    /// The button and the coordinates are encoded as one UTF-8 character each (mode 1005).
    Utf8,

    /// The button and the coordinates are encoded as decimal parameters of a control sequence (mode
    /// 1006).
    Sgr,
}

/// The cursor style (DECSCUSR, parameters 0 to 6).
#[derive(Clone, Copy, PartialEq, Eq, Debug, Default)]
pub enum CursorStyle {
    /// The terminal's default cursor (DECSCUSR 0).
    #[default]
    Default,

    /// A blinking block (DECSCUSR 1).
    BlinkBlock,

    /// A steady block (DECSCUSR 2).
    SteadyBlock,

    /// A blinking underline (DECSCUSR 3).
    BlinkUnderline,

    /// A steady underline (DECSCUSR 4).
    SteadyUnderline,

    /// A blinking vertical bar (DECSCUSR 5).
    BlinkVerticalBar,

    /// A steady vertical bar (DECSCUSR 6).
    SteadyVerticalBar,
}
