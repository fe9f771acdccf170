ghost use Rattle.std.specs.Prelude.{◌≡◌};
ghost use Rattle.dsql_scan.specs.Truths.{number_truth, spelled_truth, truth_word};

/// Returns the truth that a text spells, by the spellings of Go's `strconv.ParseBool`.
pub(crate) fn truth_in_text(text: &str) -> Option<bool>
    ensures { result ≡ spelled_truth text.now }
{
    match text {
        "1" | "t" | "T" | "TRUE" | "true" | "True" => Some(true),
        "0" | "f" | "F" | "FALSE" | "false" | "False" => Some(false),
        _ => None,
    }
}

/// Returns the truth that bytes spell as a text.
pub(crate) fn truth_in_bytes(bytes: &[u8]) -> Option<bool>
    ensures { result ≡ spelled_truth bytes.now }
{
    match str::from_utf8(bytes) {
        Ok(text) => truth_in_text(text),
        Err(_) => None,
    }
}

/// Returns the truth that a number stands for.
pub(crate) fn number_truth(number: i64) -> Option<bool>
    ensures { result ≡ number_truth number }
{
    match number {
        0 => Some(false),
        1 => Some(true),
        _ => None,
    }
}

/// Returns the spelling of a truth.
pub(crate) fn truth_word(truth: bool) -> &'static str
    ensures { result.now ≡ truth_word truth }
{
    if truth { "true" } else { "false" }
}
