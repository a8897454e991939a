//! Theorems about every terminal that obeys a few laws: it displays a picture after it has read the
//! picture's portable redraw, or a portable diff to it. `specs/Laws.antt` lists the laws, and
//! `specs/BlackBox.antt` defines the terminals.
#![tactic(auto)]

pub mod laws;
