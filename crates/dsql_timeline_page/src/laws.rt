//! Laws of pages. Each is the contract of a function that does nothing.
ghost use Rattle.std.specs.Prelude.{◌≡◌, ℕ, List, true};
ghost use Rattle.std.specs.List.{list_all};
ghost use Rattle.dsql_timeline_page.specs.Escape.{is_harmless, escaped, read_back, shown};
ghost use Rattle.dsql_timeline_page.specs.Worked.{WorkedEscapes, WorkedBar};

/// States that an escaped text has no `<`, no `>`, no quote and no control character, so it ends neither an element
/// nor an attribute. Each text is read back from it, with a space for each control character.
pub fn escaped_texts_break_no_page()
    ensures harmless { (text : List ℕ) → list_all is_harmless (escaped text) ≡ true }
    ensures read_back { (text : List ℕ) → read_back (escaped text) ≡ shown text }
{}

/// States worked texts, escaped.
pub fn worked_escapes()
    ensures { WorkedEscapes }
{}

/// States a worked bar.
pub fn worked_bar()
    ensures { WorkedBar }
{}
