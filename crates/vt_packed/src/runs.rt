//! Runs of items with equal styles.

ghost use Rattle.std.specs.Prelude.{◌≡◌, ◌≤◌, length, vec_capacity};
ghost use Rattle.vt_packed.specs.Internals.{pushed};
ghost use Rattle.vt_packed.specs.Items.{style_of};
ghost use Rattle.vt_packed.specs.Packed.{extends};

use vt_cells::Attrs;

/// A run of neighboring items that have the same attributes and are all wide glyphs, or all not.
#[derive(Clone, Copy, Debug)]
pub struct Run {
    /// The attributes of the items.
    pub attrs: Attrs,
    /// Whether the items are wide glyphs.
    pub wide: bool,
    /// The number of items, at least 1.
    pub count: u16,
}

/// Returns whether an item with the given style is added to the run before it: the styles are
/// equal, and the run is not full.
#[inline]
pub fn is_extended(run: &Run, attrs: &Attrs, wide: bool) -> bool
    ensures { result ≡ extends (style_of attrs.now wide) run.now }
{
    run.count < u16::MAX && run.wide == wide && run.attrs.is_same(attrs)
}

/// Adds an item with the given style after the items of `runs`. Memory for its run must already be
/// reserved.
#[inline]
pub fn push_style(runs: &mut Vec<Run>, attrs: Attrs, wide: bool)
    requires { length (pushed runs.old.items (style_of attrs wide)) ≤ vec_capacity runs.old }
    ensures runs { runs.new.items ≡ pushed runs.old.items (style_of attrs wide) }
    ensures capacity { vec_capacity runs.new ≡ vec_capacity runs.old }
{
    let run = Run {
        attrs,
        wide,
        count: 1,
    };
    let len = runs.len();
    if len == 0 {
        runs.push_reserved(run);
        return;
    }
    if is_extended(&runs[len - 1], &attrs, wide) {
        runs[len - 1].count += 1;
        return;
    }
    runs.push_reserved(run);
}
