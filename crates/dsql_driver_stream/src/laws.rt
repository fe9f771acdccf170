//! What follows from the definitions of lines. Each law is the contract of a function that does nothing.
ghost use Rattle.std.specs.Prelude.{◌≡◌, ◌≢◌, ◌≤◌, ◌<◌, ◌↔◌, ℕ, List, [], ◌∷◌, ◌++◌, Some, Option, length};
ghost use Rattle.dsql_driver_stream.specs.declared.lines.TheConstants.{LONGEST};
ghost use Rattle.dsql_driver_stream.specs.Buffered.{Buffered};
ghost use Rattle.dsql_driver_stream.specs.Lines.{first_line, after_line, all_lines, ended_lines, ahead, SawTheEnd, HandsOutLine};

/// States that no bytes have no line. Any others have their first line, and then the lines of the bytes after
/// it.
pub fn lines_begin_with_the_first()
    ensures none { all_lines [] ≡ [] }
    ensures empty_lines { all_lines (10 ∷ 10 ∷ []) ≡ [] ∷ [] ∷ [] }
    ensures last { all_lines (97 ∷ 10 ∷ 98 ∷ []) ≡ (97 ∷ []) ∷ (98 ∷ []) ∷ [] }
    ensures first { (bytes : List ℕ) → bytes ≢ [] → all_lines bytes ≡ first_line bytes ∷ all_lines (after_line bytes) }
{}

/// States that a line that was handed out uncut is the first of what was ahead, and the rest of the lines are
/// ahead afterwards. It was cut exactly if the first line is longer than a line may be.
pub fn handed_out_in_order()
    ensures uncut { (unread rest line : List ℕ) → HandsOutLine unread (Some rest) line → length line ≤ LONGEST
        → all_lines unread ≡ line ∷ all_lines rest }
    ensures cut { (unread line : List ℕ) (after : Option (List ℕ)) → HandsOutLine unread after line
        → (LONGEST < length line)
        ↔ (LONGEST < length (first_line unread)) }
{}

/// States that a line that is handed out takes at least one byte off what was ahead.
pub fn each_line_takes_a_byte()
    ensures { (unread rest line : List ℕ) → HandsOutLine unread (Some rest) line → length rest < length unread }
{}

/// States that the lines of a front of the bytes that have their line feed are the first lines of all bytes.
/// After the last line feed stands the beginning of a line.
pub fn ended_lines_come_first()
    ensures none { ended_lines [] ≡ [] }
    ensures unfinished { ended_lines (97 ∷ 10 ∷ 98 ∷ []) ≡ (97 ∷ []) ∷ [] }
    ensures finished { ended_lines (97 ∷ 10 ∷ 10 ∷ []) ≡ (97 ∷ []) ∷ [] ∷ [] }
    ensures first { (front rest : List ℕ) → (more : List (List ℕ))
        × (all_lines (front ++ rest) ≡ ended_lines front ++ more) }
{}

/// States that what is ahead is what is pending followed by what is left, if the end that the reader saw is the
/// source's.
pub fn ahead_are_pending_and_left()
    ensures { (reader : Buffered) (left : List ℕ) → SawTheEnd reader (Some left) → ahead reader (Some left)
        ≡ Some (reader.pending ++ left) }
{}
