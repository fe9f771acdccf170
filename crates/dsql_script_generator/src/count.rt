//! The number of lines that a word asks for.
ghost use Rattle.std.specs.Prelude.{◌≡◌, ◌≢◌, ◌≤◌, ℕ, IfSome, IfNone, decimal};
ghost use Rattle.dsql_script_generator.specs.Counts.{IsCountOf, asked_count};

use itoa::Buffer;

/// The most lines that a word may ask for.
const MOST: u32 = 10_000;

/// Returns the number of lines that a word asks for, from 1 to 10,000. The word is the number's digits, without
/// a sign, a space or a leading zero. Returns `None` for any other word.
pub fn count_of(word: &str) -> Option<u32>
    ensures value { result ≡ asked_count word.now }
    ensures asked { IfSome result (IsCountOf word.now) }
    ensures other { IfNone result ((n : ℕ) → IsCountOf word.now n → ⊥) }
{
    let count = word.parse::<u32>().ok()?;
    let mut digits = Buffer::new();
    if digits.format(count) == word && 1 <= count && count <= MOST {
        Some(count)
    } else {
        None
    }
}
