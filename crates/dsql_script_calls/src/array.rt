//! Reads the array of a line, and the text of an array that holds nothing else.
ghost use Rattle.std.specs.Prelude.{◌≡◌, ◌≢◌, Ok, Err, IfOk, IfErr, Some, IfSome};
ghost use Rattle.serde_json.specs.Data as value;
ghost use Rattle.serde_json.specs.Find.{as_str};
ghost use Rattle.serde_json.specs.Read.{read};
ghost use Rattle.serde_json.specs.View.{view, items_view};
ghost use Rattle.dsql_script_forms.specs.Outcomes.{IsShaped, IsReading};
ghost use Rattle.dsql_script_calls.specs.ScriptTexts.{only_item, only_text, text_in};
ghost use Rattle.std.specs.List.{list_all};
ghost use Rattle.json.specs.Run.{is_plain};

use dsql_history::Txt;
use dsql_script_forms::LineFault;
use serde_json::Value;
use std::alloc::Global;

/// Reads the array of a line. Fails with `BadJson` if it isn't JSON.
pub fn read_array(alloc: Global, array: &str) -> Result<Value, LineFault>
    ensures ok { IfOk result (λ v. read array.now ≡ Some (view v)) }
    ensures err { IfErr result (λ f. f ≢ LineFault.Memory
        → (f ≡ LineFault.BadJson) × (read array.now ≡ None)) }
{
    match Value::from_str(alloc, array) {
        Ok(value) => Ok(value),
        Err(e) if e.is_memory() => Err(LineFault::Memory),
        Err(_) => Err(LineFault::BadJson),
    }
}

/// Reads the text of an array that holds nothing else.
pub fn read_text(alloc: Global, array: &str) -> Result<Txt, LineFault>
    ensures { IsReading result (text_in array.now) }
{
    let value = read_array(alloc, array)?;
    read_only_text(&value)
}

/// Reads the text of a value that is an array of this text alone.
fn read_only_text(array: &Value) -> Result<Txt, LineFault>
    ensures { IsShaped result (only_text (view array.now)) }
{
    let Value::Array(items) = array else {
        return Err(LineFault::BadShape);
    };
    read_only_item(items.as_slice())
}

/// Reads the text of items that are one text alone.
fn read_only_item(items: &[Value]) -> Result<Txt, LineFault>
    ensures { IsShaped result (only_item (items_view items.now)) }
{
    if items.len() != 1 {
        return Err(LineFault::BadShape);
    }
    read_string(&items[0])
}

/// Reads a value that is a text.
fn read_string(value: &Value) -> Result<Txt, LineFault>
    ensures { IsShaped result (as_str (view value.now)) }
{
    match value {
        Value::String(text) => Ok(Txt::new(text.clone()?)),
        _ => Err(LineFault::BadShape),
    }
}

/// Returns the text of an array that holds only that text, if it stands there without escapes. Returns `None`
/// otherwise.
pub fn lone_text(array: &str) -> Option<&str>
    ensures { IfSome result (λ text. read array.now
        ≡ Some (value.array (value.item (value.string text.now) value.no_items))) }
{
    let inside = array.strip_prefix('[')?.strip_suffix(']')?;
    let text = inside.strip_prefix('"')?.strip_suffix('"')?;
    if is_plain(text.as_bytes()) {
        Some(text)
    } else {
        None
    }
}

/// Returns whether each byte stands for itself in a JSON string.
fn is_plain(bytes: &[u8]) -> bool
    ensures { result ≡ list_all is_plain bytes.now }
{
    bytes.iter().all(|byte| is_plain_byte(*byte))
}

fn is_plain_byte(byte: u8) -> bool
    ensures { result ≡ is_plain byte }
{
    byte >= b' ' && byte != b'"' && byte != b'\\'
}
