ghost use Rattle.std.specs.Prelude.{◌≡◌, ◌<◌, ◌^◌, false, Ok, Err, IfOk, MatchResult};
ghost use Rattle.std.specs.Fmt.{signed_decimal};
ghost use Rattle.dsql_scan.specs.Table.{scan_of, decoded, text_of, bytes_of, truth_of, truth_cell, signed_of, unsigned_of, time_of, any_of, takes_null, is_nil};
ghost use Rattle.dsql_scan.specs.Answers.{IsScan, may_take_memory};

use crate::cell::Cell;
use crate::dest::{Dest, Kind};
use crate::fault::ScanFault;
use crate::number::{
    signed_bytes, signed_cell, signed_text, unsigned_bytes, unsigned_cell_of_int, unsigned_text,
};
use crate::truth::{number_truth, truth_in_bytes, truth_in_text, truth_word};
use dsql_value::{Bin, Memory, Txt, Value};
use itoa::Buffer;
use std::alloc::Global;

/// Returns what a driver's value becomes in a destination, or why it is refused, by this table. In specs/ the
/// definition `scan_of` is the table. After Go's `Rows.Scan`.
///
/// | from  | text            | bytes       | bool         | signed      | unsigned    | time        | any    |
/// |-------|-----------------|-------------|--------------|-------------|-------------|-------------|--------|
/// | Nil   | FromNull        | null        | FromNull     | FromNull    | FromNull    | FromNull    | null   |
/// | Int   | decimal text    | its bytes   | 0, 1         | the number  | the number  | Unsupported | itself |
/// | Bool  | `true`, `false` | its bytes   | itself       | NotANumber  | NotANumber  | Unsupported | itself |
/// | Text  | itself          | its bytes   | its spelling | its number  | its number  | Unsupported | itself |
/// | Bytes | itself          | itself      | as its text  | as its text | as its text | Unsupported | itself |
/// | Time  | Unsupported     | Unsupported | NotABool     | NotANumber  | NotANumber  | itself      | itself |
///
/// - True is spelled `1 t T TRUE true True`, and false `0 f F FALSE false False`.
/// - For a bool, any other text is `NotABool`, and so is any number except 0 and 1.
/// - For a signed destination, a number is spelled by one ASCII digit or more after a `+`, a `-` or no sign.
/// - For an unsigned destination, a number is spelled by one ASCII digit or more without a sign.
/// - Any other text is `NotANumber`, and so is a number below zero for an unsigned destination.
/// - A number that the width doesn't hold is `OutOfRange`, however long its text is.
/// - Bytes that aren't UTF-8 are `NotUtf8` for a text. They spell neither a number nor a truth.
/// - A Null destination takes nil as null.
/// - It takes anything else as the destination inside it does, and a fault names that inner destination.
///
/// Only a cell that has a text or bytes in it takes memory, so only such a cell may be refused as `Memory`.
pub fn scan(alloc: Global, value: &Value, dest: Dest) -> Result<Cell, ScanFault>
    ensures answer { IsScan result (scan_of value.now dest) }
    ensures without_memory { may_take_memory dest ≡ false → result ≡ scan_of value.now dest }
{
    if takes_null(dest) && is_nil(value) {
        return Ok(Cell::Null);
    }
    match dest {
        Dest::Text | Dest::NullText => scan_text(alloc, value),
        Dest::Bytes => scan_bytes(alloc, value),
        Dest::Bool | Dest::NullBool => scan_truth(value),
        Dest::I8 => scan_signed(value, Dest::I8, i8::MAX as u64),
        Dest::I16 | Dest::NullI16 => scan_signed(value, Dest::I16, i16::MAX as u64),
        Dest::I32 | Dest::NullI32 => scan_signed(value, Dest::I32, i32::MAX as u64),
        Dest::I64 | Dest::NullI64 => scan_signed(value, Dest::I64, i64::MAX as u64),
        Dest::U8 | Dest::NullU8 => scan_unsigned(value, Dest::U8, u8::MAX as u64),
        Dest::U16 => scan_unsigned(value, Dest::U16, u16::MAX as u64),
        Dest::U32 => scan_unsigned(value, Dest::U32, u32::MAX as u64),
        Dest::U64 => scan_unsigned(value, Dest::U64, u64::MAX),
        Dest::Time | Dest::NullTime => scan_time(value),
        Dest::Any => scan_any(value),
    }
}

fn takes_null(dest: Dest) -> bool
    ensures { result ≡ takes_null dest }
{
    matches!(
        dest,
        Dest::NullText
            | Dest::NullI64
            | Dest::NullI32
            | Dest::NullI16
            | Dest::NullU8
            | Dest::NullBool
            | Dest::NullTime
    )
}

fn is_nil(value: &Value) -> bool
    ensures { result ≡ is_nil value.now }
{
    matches!(value, Value::Nil)
}

/// Returns the decimal text of a number.
fn decimal(alloc: Global, number: i64) -> Result<Txt, Memory>
    ensures { IfOk result (λ t. t ≡ signed_decimal number) }
{
    Txt::copy_of(alloc, Buffer::new().format(number))
}

fn scan_text(alloc: Global, value: &Value) -> Result<Cell, ScanFault>
    ensures { IsScan result (text_of value.now) }
{
    match value {
        Value::Nil => Err(ScanFault::FromNull(Dest::Text)),
        Value::Int(number) => text_cell(decimal(alloc, *number)),
        Value::Bool(truth) => text_cell(Txt::copy_of(alloc, truth_word(*truth))),
        Value::Bytes(bytes) => decoded(alloc, bytes.as_slice()),
        Value::Text(text) => text_cell(text.copy()),
        Value::Time(_) => Err(ScanFault::Unsupported {
            from: Kind::Time,
            dest: Dest::Text,
        }),
    }
}

/// Returns bytes as a cell with their text.
fn decoded(alloc: Global, bytes: &[u8]) -> Result<Cell, ScanFault>
    ensures { IsScan result (decoded bytes.now) }
{
    match str::from_utf8(bytes) {
        Ok(text) => text_cell(Txt::copy_of(alloc, text)),
        Err(_) => Err(ScanFault::NotUtf8),
    }
}

/// Returns a text as a cell, or fails with `Memory` if there was no memory for the text.
fn text_cell(text: Result<Txt, Memory>) -> Result<Cell, ScanFault>
    ensures { MatchResult text (λ t. result ≡ Ok (Cell.Text t)) (λ _. result ≡ Err ScanFault.Memory) }
{
    match text {
        Ok(text) => Ok(Cell::Text(text)),
        Err(Memory) => Err(ScanFault::Memory),
    }
}

fn scan_bytes(alloc: Global, value: &Value) -> Result<Cell, ScanFault>
    ensures { IsScan result (bytes_of value.now) }
{
    let bytes = match value {
        Value::Nil => return Ok(Cell::Null),
        Value::Int(number) => Vec::from_slice(alloc, Buffer::new().format(*number).as_bytes()),
        Value::Bool(truth) => Vec::from_slice(alloc, truth_word(*truth).as_bytes()),
        Value::Bytes(bytes) => Vec::from_slice(alloc, bytes.as_slice()),
        Value::Text(text) => Vec::from_slice(alloc, text.as_str().as_bytes()),
        Value::Time(_) => {
            return Err(ScanFault::Unsupported {
                from: Kind::Time,
                dest: Dest::Bytes,
            });
        }
    };
    match bytes {
        Ok(bytes) => Ok(Cell::Bytes(Bin::new(bytes))),
        Err(_) => Err(ScanFault::Memory),
    }
}

fn truth_cell(truth: Option<bool>) -> Result<Cell, ScanFault>
    ensures { result ≡ truth_cell truth }
{
    match truth {
        Some(truth) => Ok(Cell::Bool(truth)),
        None => Err(ScanFault::NotABool),
    }
}

fn scan_truth(value: &Value) -> Result<Cell, ScanFault>
    ensures { result ≡ truth_of value.now }
{
    match value {
        Value::Nil => Err(ScanFault::FromNull(Dest::Bool)),
        Value::Int(number) => truth_cell(number_truth(*number)),
        Value::Bool(truth) => Ok(Cell::Bool(*truth)),
        Value::Bytes(bytes) => truth_cell(truth_in_bytes(bytes.as_slice())),
        Value::Text(text) => truth_cell(truth_in_text(text.as_str())),
        Value::Time(_) => Err(ScanFault::NotABool),
    }
}

fn scan_signed(value: &Value, dest: Dest, greatest: u64) -> Result<Cell, ScanFault>
    requires { greatest < 2 ^ 63 }
    ensures { result ≡ signed_of dest greatest value.now }
{
    match value {
        Value::Nil => Err(ScanFault::FromNull(dest)),
        Value::Int(number) => signed_cell(*number, greatest),
        Value::Bytes(bytes) => signed_bytes(bytes.as_slice(), greatest),
        Value::Text(text) => signed_text(text.as_str(), greatest),
        Value::Bool(_) | Value::Time(_) => Err(ScanFault::NotANumber),
    }
}

fn scan_unsigned(value: &Value, dest: Dest, greatest: u64) -> Result<Cell, ScanFault>
    ensures { result ≡ unsigned_of dest greatest value.now }
{
    match value {
        Value::Nil => Err(ScanFault::FromNull(dest)),
        Value::Int(number) => unsigned_cell_of_int(*number, greatest),
        Value::Bytes(bytes) => unsigned_bytes(bytes.as_slice(), greatest),
        Value::Text(text) => unsigned_text(text.as_str(), greatest),
        Value::Bool(_) | Value::Time(_) => Err(ScanFault::NotANumber),
    }
}

fn scan_time(value: &Value) -> Result<Cell, ScanFault>
    ensures { result ≡ time_of value.now }
{
    let from = match value {
        Value::Time(moment) => return Ok(Cell::Time(*moment)),
        Value::Nil => return Err(ScanFault::FromNull(Dest::Time)),
        Value::Int(_) => Kind::Int,
        Value::Bool(_) => Kind::Bool,
        Value::Bytes(_) => Kind::Bytes,
        Value::Text(_) => Kind::Text,
    };
    Err(ScanFault::Unsupported {
        from,
        dest: Dest::Time,
    })
}

fn scan_any(value: &Value) -> Result<Cell, ScanFault>
    ensures { IsScan result (any_of value.now) }
{
    match value {
        Value::Nil => Ok(Cell::Null),
        Value::Int(number) => Ok(Cell::Int(*number)),
        Value::Bool(truth) => Ok(Cell::Bool(*truth)),
        Value::Bytes(bytes) => match bytes.clone() {
            Ok(bytes) => Ok(Cell::Bytes(bytes)),
            Err(_) => Err(ScanFault::Memory),
        },
        Value::Text(text) => text_cell(text.copy()),
        Value::Time(moment) => Ok(Cell::Time(*moment)),
    }
}
