ghost use Rattle.std.specs.Prelude.{◌≡◌, ◌==◌, IfOk, map};
ghost use Rattle.std.specs.Option.{option_copied};
ghost use Rattle.std.specs.List.{slice_split, list_all};
ghost use Rattle.dsql_script_calls.specs.ScriptWords.{space, before_array, array_of, limit_of, moment_of, ordinal_of, client_of, client_number, is_name, is_database, is_name_byte};

use std::alloc::{AllocError, Global};

/// The number of clients.
const CLIENTS: u8 = 64;

/// The most bytes that a name may have after its first.
const MAX_NAME_REST: usize = 31;

/// Returns the line's text before its array, and the array if it has one.
pub fn split_array(text: &str) -> (&str, Option<&str>)
    ensures before { result.0.now ≡ before_array text.now }
    ensures array { option_copied result.1 ≡ array_of text.now }
{
    match text.find(" [") {
        Some(space) => (&text[..space], Some(&text[space + 1..])),
        None => (text, None),
    }
}

/// Returns the words of a text, which single spaces separate.
pub fn split_words<'a>(alloc: Global, text: &'a str) -> Result<Vec<&'a str>, AllocError>
    ensures { IfOk result (λ words. map (λ w. w.now) words.items
        ≡ slice_split (λ byte. byte == space) text.now) }
{
    text.split(' ').collect(alloc)
}

/// Returns the number of a limit that a word is, or `None`.
pub fn limit(word: &str) -> Option<i64>
    ensures { result ≡ limit_of word.now }
{
    if word == "0" {
        return Some(0);
    }
    let digits = word.strip_prefix('-').unwrap_or(word);
    if digits.starts_with('0') {
        return None;
    }
    // `parse` accepts a plus, but a script doesn't spell one.
    if word.starts_with('+') {
        return None;
    }
    word.parse().ok()
}

/// Returns the moment that a word is, or `None`.
pub fn moment(word: &str) -> Option<u64>
    ensures { result ≡ moment_of word.now }
{
    if word == "0" {
        return Some(0);
    }
    if word.starts_with('0') {
        return None;
    }
    // `parse` accepts a plus, but a script doesn't spell one.
    if word.starts_with('+') {
        return None;
    }
    word.parse().ok()
}

/// Returns the number of a connection, or of one of its driver calls, that a word is, or `None`. These are
/// numbered from 1.
pub fn ordinal(word: &str) -> Option<u32>
    ensures { result ≡ ordinal_of word.now }
{
    // `parse` accepts a leading zero and a plus, but a script spells neither.
    if word.starts_with('0') || word.starts_with('+') {
        return None;
    }
    word.parse().ok()
}

/// Returns the client that a word names, or `None`.
pub fn client(word: &str) -> Option<u8>
    ensures { result ≡ client_of word.now }
{
    match word.strip_prefix('c') {
        Some(digits) => client_from(digits),
        None => None,
    }
}

fn client_from(digits: &str) -> Option<u8>
    ensures { result ≡ client_number digits.now }
{
    if digits.starts_with('0') || digits.starts_with('+') {
        return None;
    }
    let Ok(client) = digits.parse() else {
        return None;
    };
    if client == 0 || client > CLIENTS {
        return None;
    }
    Some(client)
}

/// Returns whether a word may name a label or a token.
pub fn is_name(word: &str) -> bool
    ensures { result ≡ is_name word.now }
{
    match word.as_bytes() {
        [first, rest @ ..] => {
            first.is_ascii_lowercase()
                && rest.len() <= MAX_NAME_REST
                && are_name_bytes(rest)
                && !is_database(word)
        }
        [] => false,
    }
}

fn are_name_bytes(bytes: &[u8]) -> bool
    ensures { result ≡ list_all is_name_byte bytes.now }
{
    bytes.iter().all(|byte| is_name_byte(*byte))
}

fn is_name_byte(byte: u8) -> bool
    ensures { result ≡ is_name_byte byte }
{
    byte.is_ascii_lowercase() || byte.is_ascii_digit() || byte == b'_'
}

/// Returns whether a word names the database.
pub fn is_database(word: &str) -> bool
    ensures { result ≡ is_database word.now }
{
    word == "db"
}
