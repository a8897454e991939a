//! The record of a call, in the format that C reads: the kind of the call in
//! one byte, two numbers of four bytes each, the length of the text in eight
//! bytes, and the text. Numbers are little-endian.

ghost use Rattle.std.specs.Prelude.{◌≡◌, ◌+◌, ◌<◌, ◌≤◌, ◌++◌, IfOk, OnErr, OnOk};
ghost use Rattle.std.specs.Prelude.{◌-◌, ◌*◌, ◌^◌, ◌∷◌, [], false, length, map, min, string_bytes, take};
ghost use Rattle.std.specs.Prelude.{vec_capacity, vec_len};
ghost use Rattle.std.specs.Int.{w32, to_le_bytes};
ghost use Rattle.std.specs.List.{flat_map};
ghost use Rattle.vt100_c.specs.Records.{bit_of, group_of, is_wanted, kind_of, number_of, part_of};
ghost use Rattle.vt100_c.specs.Records.{record_of, record_with, without_text};
ghost use Rattle.vt_rows.specs.Plain.{plain_text};
ghost use Rattle.vt_grid.specs.Internals.{AreRows};
ghost use Rattle.vt_rows.specs.Row.{IsRow, trimmed_row};
ghost use Rattle.vt_screen.specs.Calls as calls;
ghost use Rattle.vt_screen.specs.Meanings.{call_of};

use std::alloc::{AllocError, Global};
use vt_rows::capture::trimmed;
use vt_rows::{Row, plain};
use vt100::Call;
use vt100::capture::RowContents;

/// The number of bytes in a record before its text.
pub(crate) const HEAD_LEN: usize = 17;

/// The kind number of a call to `on_scroll`, which reports a dropped row.
pub(crate) const ON_SCROLL: u8 = 12;

/// Returns whether bit `kind` of `wanted` is set.
pub(crate) fn is_wanted(wanted: u16, kind: u8) -> bool
    requires { kind < 16 }
    ensures { result ≡ is_wanted wanted kind }
{
    (wanted >> kind) % 2 == 1
}

/// Returns whether rows are recorded without their text, that is, whether bit 13 of `wanted` is
/// set.
pub(crate) fn is_bare(wanted: u16) -> bool
    ensures { result ≡ is_wanted wanted without_text }
{
    is_wanted(wanted, 13)
}

/// Returns the number of bytes that the cells of a row take in the log's copy of the row, which
/// omits the default blanks at the end.
pub(crate) fn cells_size(row: &RowContents<'_>) -> usize
    ensures { result ≡ min (length (trimmed_row row.now).cells * 40) (2 ^ 64 - 1) }
{
    trimmed(row).cells().len().saturating_mul(40)
}

/// Returns the kind number of a call, as stored in its record.
pub(crate) fn kind_of(call: Call<'_>) -> u8
    ensures kind { result ≡ kind_of (call_of call.entry) }
    ensures few { result < 16 }
{
    match call {
        Call::AudibleBell => 0,
        Call::VisualBell => 1,
        Call::Resize(_) => 2,
        Call::SetWindowIconName(_) => 3,
        Call::SetWindowTitle(_) => 4,
        Call::CopyToClipboard(_, _) => 5,
        Call::PasteFromClipboard(_) => 6,
        Call::UnhandledChar(_) => 7,
        Call::UnhandledControl(_) => 8,
        Call::UnhandledEscape(_, _, _) => 9,
        Call::UnhandledCsi(_, _, _, _) => 10,
        Call::UnhandledOsc(_) => 11,
    }
}

/// Appends the record of a call to `records`.
///
/// # Errors
///
/// Returns an error if an allocation fails. On error, the records are unchanged.
pub(crate) fn write_call(
    alloc: Global,
    records: &mut Vec<u8>,
    call: Call<'_>,
) -> Result<(), AllocError>
    ensures ok { OnOk result (records.new.items ≡ records.old.items ++ record_of false (call_of call.entry)) }
    ensures err { OnErr result (records.new.items ≡ records.old.items) }
{
    match call {
        Call::AudibleBell => write(records, 0, 0, 0, &[]),
        Call::VisualBell => write(records, 1, 0, 0, &[]),
        Call::Resize((rows, cols)) => write(records, 2, u32::from(rows), u32::from(cols), &[]),
        Call::SetWindowIconName(name) => write(records, 3, 0, 0, name),
        Call::SetWindowTitle(title) => write(records, 4, 0, 0, title),
        Call::CopyToClipboard(kind, text) => {
            let text = parts(alloc, &[kind, text])?;
            write(records, 5, 0, 0, text.as_slice())
        }
        Call::PasteFromClipboard(kind) => write(records, 6, 0, 0, kind),
        Call::UnhandledChar(code) => write(records, 7, u32::from(code), 0, &[]),
        Call::UnhandledControl(byte) => write(records, 8, u32::from(byte), 0, &[]),
        Call::UnhandledEscape(first, second, byte) => {
            write(records, 9, number(first), number(second), &[byte])
        }
        Call::UnhandledCsi(first, second, groups, code) => {
            let text = code_and_groups(alloc, code, groups)?;
            write(records, 10, number(first), number(second), text.as_slice())
        }
        Call::UnhandledOsc(texts) => {
            let text = parts(alloc, texts)?;
            write(records, 11, 0, 0, text.as_slice())
        }
    }
}

/// Appends the record of a row to `records`, with its plain text unless `is_bare` is true.
///
/// # Errors
///
/// Returns an error if an allocation fails. On error, the records are unchanged.
pub(crate) fn write_row(
    alloc: Global,
    records: &mut Vec<u8>,
    row: &RowContents<'_>,
    alternate: bool,
    is_bare: bool,
) -> Result<(), AllocError>
    ensures ok { OnOk result
        (records.new.items ≡ records.old.items ++ record_of is_bare (calls.OnScroll row.now alternate)) }
    ensures err { OnErr result (records.new.items ≡ records.old.items) }
{
    if is_bare {
        let (first, second) = (bit(alternate), bit(row.wrapped()));
        return write(records, ON_SCROLL, first, second, &[]);
    }
    let text = text_of(alloc, row)?;
    write(
        records,
        ON_SCROLL,
        bit(alternate),
        bit(row.wrapped()),
        text.as_bytes(),
    )
}

/// Returns a copy of a row without the default blanks at its end.
///
/// # Errors
///
/// Returns an error if an allocation fails.
fn kept_row(alloc: Global, row: &RowContents<'_>) -> Result<Row, AllocError>
    ensures copy { IfOk result (λ copy. copy ≡ trimmed_row row.now) }
    ensures sound { IfOk result (λ copy. IsRow (length copy.cells) copy) }
{
    let kept = trimmed(row);
    // Only for the proof: this establishes that a borrowed row is valid.
    let _ = kept.cells();
    match Row::trimmed_copy(alloc, row.cells(), row.wrapped()) {
        Ok(copy) => Ok(copy),
        Err(_) => Err(AllocError),
    }
}

/// Stores a copy of `row` at index `count` of `rows`. The default blanks at the end of the row are
/// not copied. If a row is already stored there, it is overwritten and its memory is reused.
///
/// # Errors
///
/// Returns an error if an allocation fails. On error, the rows are unchanged.
pub(crate) fn hold_row(
    alloc: Global,
    rows: &mut Vec<Row>,
    count: usize,
    row: &RowContents<'_>,
) -> Result<(), AllocError>
    requires inside { count ≤ length rows.old.items }
    requires sound { AreRows rows.old.items }
    ensures first { take count rows.new.items ≡ take count rows.old.items }
    ensures inside { count ≤ length rows.new.items }
    ensures row { OnOk result (take (count + 1) rows.new.items ≡ take count rows.old.items ++ trimmed_row row.now ∷ []) }
    ensures more { OnOk result (count < length rows.new.items) }
    ensures sound { AreRows rows.new.items }
{
    if count < rows.len() {
        return replace(&mut rows[count], row);
    }
    let kept = kept_row(alloc, row)?;
    rows.reserve(1)?;
    let _ = rows.push(kept);
    Ok(())
}

/// Turns the row `place` into a copy of `row` without the default blanks at its
/// end. The memory of `place` is reused.
///
/// # Errors
///
/// Returns an error if more memory is needed and the allocation fails. On
/// error, the row is unchanged.
fn replace(place: &mut Row, row: &RowContents<'_>) -> Result<(), AllocError>
    requires { IsRow (length place.old.cells) place.old }
    ensures ok { OnOk result (place.new ≡ trimmed_row row.now) }
    ensures err { OnErr result (place.new ≡ place.old) }
    ensures sound { IsRow (length place.new.cells) place.new }
{
    let kept = trimmed(row);
    // Only for the proof: this establishes that a borrowed row is valid.
    let _ = kept.cells();
    match place.leave_for(row.cells(), row.wrapped(), &mut ()) {
        Ok(()) => Ok(()),
        Err(_) => Err(AllocError),
    }
}

/// Returns the plain text of a row.
///
/// # Errors
///
/// Returns an error if an allocation fails.
pub(crate) fn text_of(alloc: Global, row: &RowContents<'_>) -> Result<String, AllocError>
    ensures { IfOk result
        (λ text. string_bytes text ≡ plain_text 0 (length row.now.cells) row.now.cells) }
{
    let mut text = String::new(alloc);
    let cells = row.cells();
    match plain::write_contents(&mut text, cells, 0, cells.len()) {
        Ok(()) => Ok(text),
        Err(_) => Err(AllocError),
    }
}

/// Appends a record with the given kind, numbers and text to `records`.
///
/// # Errors
///
/// Returns an error if an allocation fails. On error, the records are unchanged.
fn write(
    records: &mut Vec<u8>,
    kind: u8,
    first: u32,
    second: u32,
    text: &[u8],
) -> Result<(), AllocError>
    ensures ok { OnOk result (records.new.items ≡ records.old.items ++ record_with kind first second text.now) }
    ensures err { OnErr result (records.new.items ≡ records.old.items) }
{
    records.reserve(HEAD_LEN + text.len())?;
    put(records, &[kind]);
    put(records, &first.to_le_bytes());
    put(records, &second.to_le_bytes());
    put(records, &(text.len() as u64).to_le_bytes());
    put(records, text);
    Ok(())
}

/// Appends `bytes` to `records`, which must have enough spare capacity.
fn put(records: &mut Vec<u8>, bytes: &[u8])
    requires { vec_len records.old + length bytes.now ≤ vec_capacity records.old }
    ensures items { records.new.items ≡ records.old.items ++ bytes.now }
    ensures len { vec_len records.new ≡ vec_len records.old + length bytes.now }
    ensures capacity { vec_capacity records.old ≤ vec_capacity records.new }
{
    let _ = records.extend_from_slice(bytes);
}

/// Returns the concatenation of `texts`, each preceded by its length in bytes as an eight-byte
/// little-endian number.
///
/// # Errors
///
/// Returns an error if an allocation fails.
fn parts(alloc: Global, texts: &[&[u8]]) -> Result<Vec<u8>, AllocError>
    ensures { IfOk result (λ joined. joined.items ≡ flat_map part_of (map (λ text. text.now) texts.now)) }
{
    let mut joined = Vec::new(alloc);
    for text in texts {
        joined.extend_from_slice(&(text.len() as u64).to_le_bytes())?;
        joined.extend_from_slice(text)?;
    }
    Ok(joined)
}

/// Returns the code point of the character `code` in four bytes, followed by the groups. Each group
/// consists of its length, as an eight-byte number, and its numbers in two bytes each. All numbers
/// are little-endian.
///
/// # Errors
///
/// Returns an error if an allocation fails.
fn code_and_groups(alloc: Global, code: char, groups: &[&[u16]]) -> Result<Vec<u8>, AllocError>
    ensures { IfOk result (λ joined. joined.items
        ≡ to_le_bytes w32 code ++ flat_map group_of (map (λ group. group.now) groups.now)) }
{
    let mut joined = Vec::new(alloc);
    joined.extend_from_slice(&u32::from(code).to_le_bytes())?;
    for group in groups {
        write_group(&mut joined, group)?;
    }
    Ok(joined)
}

/// Appends a group to `joined`: its length, as an eight-byte number, and then its numbers in two
/// bytes each. All numbers are little-endian.
///
/// # Errors
///
/// Returns an error if an allocation fails.
fn write_group(joined: &mut Vec<u8>, group: &[u16]) -> Result<(), AllocError>
    ensures { OnOk result (joined.new.items ≡ joined.old.items ++ group_of group.now) }
{
    joined.extend_from_slice(&(group.len() as u64).to_le_bytes())?;
    for number in group {
        joined.extend_from_slice(&number.to_le_bytes())?;
    }
    Ok(())
}

/// Returns the value of an optional byte, or 256 for `None`.
fn number(byte: Option<u8>) -> u32
    ensures { result ≡ number_of byte }
{
    match byte {
        Some(byte) => u32::from(byte),
        None => 256,
    }
}

/// Returns 1 if `test` is true, otherwise 0.
fn bit(test: bool) -> u32
    ensures { result ≡ bit_of test }
{
    if test { 1 } else { 0 }
}
