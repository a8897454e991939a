//! Control sequences in the form in which they are passed to callbacks.

ghost use Rattle.vt100.specs.Internals.{report_of};

use vt_scan::Parameters;
use vt_screen::{Callbacks, Screen};

/// A control sequence in the form in which it is passed to callbacks. Of its private marker and its
/// intermediate bytes, only the first two are stored.
#[derive(Clone, Copy)]
pub struct Sequence<'a> {
    /// The private marker or the first intermediate byte, if there is one.
    pub first: Option<u8>,

    /// The intermediate byte after `first`, if there is one.
    pub second: Option<u8>,

    /// The parameter groups.
    pub parameters: &'a Parameters,

    /// The final byte.
    pub byte: u8,
}

impl<'a> Sequence<'a> {
    /// Reports to the callbacks that the sequence, or a part of it, is
    /// unhandled.
    ///
    /// This function is never inlined, because it builds a table of the groups,
    /// which no other code path needs.
    #[inline(never)]
    pub fn report<CB: Callbacks>(self, screen: &mut Screen, callbacks: &mut CB)
        ensures { CB.does (report_of self.entry) callbacks.old screen.old callbacks.new screen.new }
    {
        let byte = char::from(self.byte);
        let groups = self.parameters.groups();
        callbacks.unhandled_csi(screen, self.first, self.second, groups.as_slice(), byte);
    }
}
