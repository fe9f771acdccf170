//! The words for the destinations of a row.
ghost use Rattle.std.specs.Prelude.{◌≡◌, ◌==◌, map, IfOk};
ghost use Rattle.std.specs.List.{slice_split};
ghost use Rattle.dsql_script_spelling.specs.Dests.{number_dest, other_dest, null_dest, dest_of, dests_of_words, comma, dests_of};
ghost use Rattle.dsql_script_forms.specs.Outcomes.{IsShaped};

use crate::fault::LineFault;
use dsql_scan::{Dest, Dests};
use dsql_value::Items;
use std::alloc::{AllocError, Global};

/// Reads the destinations that a word names, at least one.
pub fn read_dests(alloc: Global, word: &str) -> Result<Dests, LineFault>
    ensures { IsShaped result (dests_of word.now) }
{
    let words = split_words(alloc, word)?;
    read_each(alloc, &words)
}

/// Splits a text into words at its commas.
fn split_words<'a>(alloc: Global, text: &'a str) -> Result<Vec<&'a str>, AllocError>
    ensures { IfOk result (λ words. map (λ w. w.now) words.items
        ≡ slice_split (λ byte. byte == comma) text.now) }
{
    text.split(',').collect(alloc)
}

/// Reads the destination that each word names.
fn read_each(alloc: Global, words: &[&str]) -> Result<Dests, LineFault>
    ensures { IsShaped result (dests_of_words (map (λ w. w.now) words.now)) }
{
    let mut dests = Vec::new(alloc);
    for word in words {
        dests.push(dest_of(word).ok_or(LineFault::BadShape)?)?;
    }
    Ok(Items::new(dests))
}

/// Returns the destination that a word names.
fn dest_of(word: &str) -> Option<Dest>
    ensures { result ≡ dest_of word.now }
{
    number_dest(word).or(other_dest(word).or(null_dest(word)))
}

fn number_dest(word: &str) -> Option<Dest>
    ensures { result ≡ number_dest word.now }
{
    match word {
        "i8" => Some(Dest::I8),
        "i16" => Some(Dest::I16),
        "i32" => Some(Dest::I32),
        "i64" => Some(Dest::I64),
        "u8" => Some(Dest::U8),
        "u16" => Some(Dest::U16),
        "u32" => Some(Dest::U32),
        "u64" => Some(Dest::U64),
        _ => None,
    }
}

fn other_dest(word: &str) -> Option<Dest>
    ensures { result ≡ other_dest word.now }
{
    match word {
        "text" => Some(Dest::Text),
        "bytes" => Some(Dest::Bytes),
        "bool" => Some(Dest::Bool),
        "time" => Some(Dest::Time),
        "any" => Some(Dest::Any),
        _ => None,
    }
}

fn null_dest(word: &str) -> Option<Dest>
    ensures { result ≡ null_dest word.now }
{
    match word {
        "null:text" => Some(Dest::NullText),
        "null:i64" => Some(Dest::NullI64),
        "null:i32" => Some(Dest::NullI32),
        "null:i16" => Some(Dest::NullI16),
        "null:u8" => Some(Dest::NullU8),
        "null:bool" => Some(Dest::NullBool),
        "null:time" => Some(Dest::NullTime),
        _ => None,
    }
}
