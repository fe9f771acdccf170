ghost use Rattle.std.specs.Prelude.{◌≡◌, ◌≢◌, ℤ, FitsSigned, IfSome, IfNone};
ghost use Rattle.std.specs.Int.{w64};
ghost use Rattle.std.specs.Fmt.{signed_decimal};
ghost use Rattle.dsql_mem_session.specs.Number.{number_of};

use itoa::Buffer;

/// Returns the whole number that has the word as its decimal text: digits without a leading zero, after a `-`
/// if the number is negative. Returns `None` if there is no such number or it doesn't fit an i64.
pub(crate) fn number(word: &str) -> Option<i64>
    ensures value { result ≡ number_of word.now }
    ensures spelled { IfSome result (λ z. word.now ≡ signed_decimal z) }
    ensures other { IfNone result ((z : ℤ) → FitsSigned w64 z → word.now ≢ signed_decimal z) }
{
    let number = word.parse::<i64>().ok()?;
    let mut buffer = Buffer::new();
    if buffer.format(number) == word {
        Some(number)
    } else {
        None
    }
}
