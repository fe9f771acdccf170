//! Escapes texts, so that they stay texts wherever they stand in a page.
ghost use Rattle.std.specs.Prelude.{◌≡◌, ◌++◌, OnOk};
ghost use Rattle.dsql_timeline_page.specs.Escape.{is_control, escaped_byte, escaped};

use std::alloc::AllocError;

/// Returns whether a byte is a control character of ASCII.
fn is_control(byte: u8) -> bool
    ensures { result ≡ is_control byte }
{
    byte < 32 || byte == 127
}

/// Appends a byte of a text. A mark of HTML becomes its entity, a control character a space, and any other byte stays
/// as it is.
fn append_byte(byte: u8, page: &mut Vec<u8>) -> Result<(), AllocError>
    ensures { OnOk result (page.new.items ≡ page.old.items ++ escaped_byte byte) }
{
    match byte {
        b'&' => page.extend_from_slice(b"&amp;"),
        b'<' => page.extend_from_slice(b"&lt;"),
        b'>' => page.extend_from_slice(b"&gt;"),
        b'"' => page.extend_from_slice(b"&quot;"),
        b'\'' => page.extend_from_slice(b"&#39;"),
        byte if is_control(byte) => page.extend_from_slice(b" "),
        byte => page.extend_from_slice(&[byte]),
    }
}

/// Appends a text, escaped.
#[tactic(auto, using(std::proofs::lemmas::Grind::common_steps, std::proofs::lemmas::List::flat_map_more))]
pub(crate) fn append_escaped(text: &[u8], page: &mut Vec<u8>) -> Result<(), AllocError>
    ensures { OnOk result (page.new.items ≡ page.old.items ++ escaped text.now) }
{
    for byte in text {
        append_byte(*byte, page)?;
    }
    Ok(())
}
