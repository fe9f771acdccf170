//! Reads what stands at a place of a line's array. Places are counted from 0.
ghost use Rattle.std.specs.Prelude.{◌≡◌, option_map};
ghost use Rattle.serde_json.specs.View.{view, items_view};
ghost use Rattle.dsql_script_forms.specs.Outcomes.{IsShaped};
ghost use Rattle.dsql_script_event_lines.specs.Parts as part;

use dsql_history::Txt;
use dsql_script_forms::LineFault;
use serde_json::Value;
use std::alloc::Global;

/// Returns the number of 64 bits at this place, or `None`.
pub fn natural_at(line: &Value, place: usize) -> Option<u64>
    ensures { result ≡ part.natural_at place (view line.now) }
{
    line.get(place).and_then(Value::as_u64)
}

/// Returns the number of 32 bits at this place, or `None`.
pub fn number_at(line: &Value, place: usize) -> Option<u32>
    ensures { result ≡ part.number_at place (view line.now) }
{
    u32::try_from(natural_at(line, place)?).ok()
}

/// Returns the number of 8 bits at this place, or `None`.
pub fn byte_at(line: &Value, place: usize) -> Option<u8>
    ensures { result ≡ part.byte_at place (view line.now) }
{
    u8::try_from(natural_at(line, place)?).ok()
}

/// Returns the signed number of 64 bits at this place, or `None`.
pub fn integer_at(line: &Value, place: usize) -> Option<i64>
    ensures { result ≡ part.integer_at place (view line.now) }
{
    line.get(place).and_then(Value::as_i64)
}

/// Returns the signed number of 32 bits at this place, or `None`.
pub fn short_at(line: &Value, place: usize) -> Option<i32>
    ensures { result ≡ part.short_at place (view line.now) }
{
    i32::try_from(integer_at(line, place)?).ok()
}

/// Returns the truth value at this place, or `None`.
pub fn truth_at(line: &Value, place: usize) -> Option<bool>
    ensures { result ≡ part.truth_at place (view line.now) }
{
    line.get(place).and_then(Value::as_bool)
}

/// Returns the text at this place, or `None`.
pub fn text_at(line: &Value, place: usize) -> Option<&str>
    ensures { option_map (λ text. text.now) result ≡ part.text_at place (view line.now) }
{
    match line.get(place) {
        Some(Value::String(text)) => Some(text.as_str()),
        _ => None,
    }
}

/// Returns a copy of the text at this place. Fails with `BadShape` if there is none.
pub fn copy_at(alloc: Global, line: &Value, place: usize) -> Result<Txt, LineFault>
    ensures { IsShaped result (part.text_at place (view line.now)) }
{
    let text = text_at(line, place).ok_or(LineFault::BadShape)?;
    Ok(Txt::new(String::from_str(alloc, text)?))
}

/// Returns the items of the array at this place, or `None`.
pub fn items_at(line: &Value, place: usize) -> Option<&[Value]>
    ensures { option_map (λ items. items_view items.now) result
        ≡ part.items_at place (view line.now) }
{
    match line.get(place) {
        Some(Value::Array(items)) => Some(items.as_slice()),
        _ => None,
    }
}
