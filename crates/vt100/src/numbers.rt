//! Access to the parameters and intermediate bytes of a control sequence.

ghost use Rattle.std.specs.Prelude.{◌≡◌, ◌<◌};
ghost use Rattle.vt_screen.specs.Controls.{intermediate_at, number_or};

use vt_scan::Parameters;

/// Returns the first number of parameter group `i`, or `default` if that number is 0 or missing.
#[inline(always)]
pub fn number_or(default: u16, parameters: &Parameters, i: usize) -> u16
    ensures value { result ≡ number_or default i parameters.now.groups }
    ensures positive { 0 < default → 0 < result }
{
    let number = parameters.number(i);
    if number == 0 {
        return default;
    }
    number
}

/// Returns the intermediate byte at index `i`, or `None` if there is none.
#[inline(always)]
pub fn intermediate_at(intermediates: &[u8], i: usize) -> Option<u8>
    ensures { result ≡ intermediate_at i intermediates.now }
{
    intermediates.get(i).copied()
}
