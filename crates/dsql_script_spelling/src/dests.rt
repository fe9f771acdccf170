//! The words for the destinations of a row, as reports and scripts spell them.
ghost use Rattle.std.specs.Prelude.{◌≡◌, string_bytes, IfOk};
ghost use Rattle.dsql_script_spelling.specs.Dests.{dest_word, dests_word};

use dsql_scan::Dest;
use std::alloc::{AllocError, Global};

/// Returns the word for a destination.
fn word_of(dest: Dest) -> &'static str
    ensures { result.now ≡ dest_word dest }
{
    match dest {
        Dest::Text => "text",
        Dest::Bytes => "bytes",
        Dest::Bool => "bool",
        Dest::I8 => "i8",
        Dest::I16 => "i16",
        Dest::I32 => "i32",
        Dest::I64 => "i64",
        Dest::U8 => "u8",
        Dest::U16 => "u16",
        Dest::U32 => "u32",
        Dest::U64 => "u64",
        Dest::Time => "time",
        Dest::Any => "any",
        Dest::NullText => "null:text",
        Dest::NullI64 => "null:i64",
        Dest::NullI32 => "null:i32",
        Dest::NullI16 => "null:i16",
        Dest::NullU8 => "null:u8",
        Dest::NullBool => "null:bool",
        Dest::NullTime => "null:time",
    }
}

/// Returns the word for destinations: their words in order, with commas between them.
pub fn dests_word(alloc: Global, dests: &[Dest]) -> Result<String, AllocError>
    ensures { IfOk result (λ s. string_bytes s ≡ dests_word dests.now) }
{
    let mut words = Vec::new(alloc);
    for dest in dests {
        words.push(word_of(*dest))?;
    }
    words.join(alloc, ",")
}
