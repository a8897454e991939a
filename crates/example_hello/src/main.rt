//! Parses text as a terminal does, and writes the escape sequences that display it on another
//! terminal.
#![tactic(auto)]

use std::num::NonZeroU16;
use vt100::{Color, Error, Parser};

fn main(rt: HostRuntime) -> Result<(), Error> {
    let (rows, cols) = (NonZeroU16::new(24).unwrap(), NonZeroU16::new(80).unwrap());
    let mut parser = Parser::new(rt.alloc(), rows, cols, 0)?;
    parser.process(b"this text is \x1b[31mRED\x1b[m")?;
    if let Some(cell) = parser.screen().cell(0, 13) {
        let is_red = cell.fgcolor() == Color::Idx(1);
        let _ = println!(rt; "{} is red: {is_red}", cell.contents());
    }
    let before = parser.screen().clone()?;
    parser.process(b"\x1b[3D\x1b[32mGREEN")?;
    let screen = parser.screen();
    let update = if screen.is_sized_as(&before) {
        screen.contents_diff(&before)?
    } else {
        screen.contents_formatted()?
    };
    let _ = println!(rt; "{}", screen.contents_formatted()?);
    let _ = println!(rt; "{update}");
    Ok(())
}
