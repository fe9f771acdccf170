ghost use Rattle.std.specs.Prelude.{◌≡◌, ◌<◌, ◌≤◌, ◌^◌};
ghost use Rattle.std.specs.Char.{is_ascii_digit};
ghost use Rattle.std.specs.List.{list_all};
ghost use Rattle.dsql_scan.specs.Numbers.{are_digits, without_sign, signed_number, plain_number};
ghost use Rattle.dsql_scan.specs.Table.{signed_cell, signed_cell_of, unsigned_cell, unsigned_cell_of, unsigned_cell_of_int};

use crate::cell::Cell;
use crate::fault::ScanFault;

/// Returns true if a text is one ASCII digit or more, and nothing else.
fn are_digits(text: &[u8]) -> bool
    ensures { result ≡ are_digits text.now }
{
    !text.is_empty() && has_only_digits(text)
}

fn has_only_digits(text: &[u8]) -> bool
    ensures { result ≡ list_all is_ascii_digit text.now }
{
    text.iter().all(|byte| byte.is_ascii_digit())
}

/// Returns what follows a text's sign, or the whole text if it has none.
fn without_sign(text: &[u8]) -> &[u8]
    ensures { result.now ≡ without_sign text.now }
{
    match text {
        [b'+' | b'-', rest @ ..] => rest,
        _ => text,
    }
}

/// Returns a number as a cell of the signed width that has this greatest number.
pub(crate) fn signed_cell(number: i64, greatest: u64) -> Result<Cell, ScanFault>
    ensures { result ≡ signed_cell greatest number }
{
    // The least number of a width is one further from zero than the greatest.
    let size = if number < 0 { -(number + 1) } else { number };
    if size as u64 <= greatest {
        Ok(Cell::Int(number))
    } else {
        Err(ScanFault::OutOfRange)
    }
}

/// Returns a number as a cell of the unsigned width that has this greatest number.
fn unsigned_cell(number: u64, greatest: u64) -> Result<Cell, ScanFault>
    ensures { result ≡ unsigned_cell greatest number }
{
    if number <= greatest {
        Ok(Cell::Uint(number))
    } else {
        Err(ScanFault::OutOfRange)
    }
}

/// Returns a number that may be below zero as a cell of an unsigned width.
pub(crate) fn unsigned_cell_of_int(number: i64, greatest: u64) -> Result<Cell, ScanFault>
    ensures { result ≡ unsigned_cell_of_int greatest number }
{
    if number < 0 {
        return Err(ScanFault::NotANumber);
    }
    unsigned_cell(number as u64, greatest)
}

/// Returns the number that a text spells, as a cell of a signed width. Its digits stand after a plus, a minus
/// or no sign.
pub(crate) fn signed_text(text: &str, greatest: u64) -> Result<Cell, ScanFault>
    requires { greatest < 2 ^ 63 }
    ensures { result ≡ signed_cell_of greatest (signed_number text.now) }
{
    if !are_digits(without_sign(text.as_bytes())) {
        return Err(ScanFault::NotANumber);
    }
    match text.parse() {
        Ok(number) => signed_cell(number, greatest),
        Err(_) => Err(ScanFault::OutOfRange),
    }
}

/// Returns the number that bytes spell as a text, as a cell of a signed width.
pub(crate) fn signed_bytes(bytes: &[u8], greatest: u64) -> Result<Cell, ScanFault>
    requires { greatest < 2 ^ 63 }
    ensures { result ≡ signed_cell_of greatest (signed_number bytes.now) }
{
    match str::from_utf8(bytes) {
        Ok(text) => signed_text(text, greatest),
        Err(_) => Err(ScanFault::NotANumber),
    }
}

/// Returns the number that a text spells, as a cell of an unsigned width. Its digits have no sign.
pub(crate) fn unsigned_text(text: &str, greatest: u64) -> Result<Cell, ScanFault>
    ensures { result ≡ unsigned_cell_of greatest (plain_number text.now) }
{
    if !are_digits(text.as_bytes()) {
        return Err(ScanFault::NotANumber);
    }
    match text.parse() {
        Ok(number) => unsigned_cell(number, greatest),
        Err(_) => Err(ScanFault::OutOfRange),
    }
}

/// Returns the number that bytes spell as a text, as a cell of an unsigned width.
pub(crate) fn unsigned_bytes(bytes: &[u8], greatest: u64) -> Result<Cell, ScanFault>
    ensures { result ≡ unsigned_cell_of greatest (plain_number bytes.now) }
{
    match str::from_utf8(bytes) {
        Ok(text) => unsigned_text(text, greatest),
        Err(_) => Err(ScanFault::NotANumber),
    }
}
