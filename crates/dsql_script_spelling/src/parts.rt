//! The shapes that lines, driver calls, answers and replies share.
ghost use Rattle.std.specs.Prelude.{◌≡◌, [], ◌∷◌, decimal};
ghost use Rattle.json.specs.Token.{begin_array, number as number_token, string as text_token};
ghost use Rattle.serde_json.specs.Data.{string};
ghost use Rattle.dsql_script_spelling.specs.LineValues.{worded, natural, integer};
ghost use Rattle.dsql_script_spelling.specs.Spelling.{Adds, Spells};

use json::Writer;
use std::alloc::AllocError;

/// Begins an array with its word.
pub fn begin(json: &mut Writer, word: &str) -> Result<(), AllocError>
    ensures { Adds result json.old json.new (begin_array ∷ text_token word.now ∷ []) }
{
    json.begin_array()?;
    json.string(word)
}

/// Writes the array of a word alone.
pub fn write_word(json: &mut Writer, word: &str) -> Result<(), AllocError>
    ensures { Spells result json.old json.new (worded word.now []) }
{
    begin(json, word)?;
    json.end_array()
}

/// Begins an array with its word and a number.
pub fn begin_numbered(json: &mut Writer, word: &str, n: u32) -> Result<(), AllocError>
    ensures { Adds result json.old json.new
        (begin_array ∷ text_token word.now ∷ number_token (decimal n) ∷ []) }
{
    begin(json, word)?;
    json.u64(u64::from(n))
}

/// Writes the array of a word and a number.
pub fn write_numbered(json: &mut Writer, word: &str, n: u32) -> Result<(), AllocError>
    ensures { Spells result json.old json.new (worded word.now (natural n ∷ [])) }
{
    begin_numbered(json, word, n)?;
    json.end_array()
}

/// Writes the array of a word and a text.
pub fn write_told(json: &mut Writer, word: &str, text: &str) -> Result<(), AllocError>
    ensures { Spells result json.old json.new (worded word.now (string text.now ∷ [])) }
{
    begin(json, word)?;
    json.string(text)?;
    json.end_array()
}

/// Writes an unsigned number.
pub fn write_natural(json: &mut Writer, n: u64) -> Result<(), AllocError>
    ensures { Spells result json.old json.new (natural n) }
{
    json.u64(n)
}

/// Writes a signed number.
pub fn write_integer(json: &mut Writer, n: i64) -> Result<(), AllocError>
    ensures { Spells result json.old json.new (integer n) }
{
    json.i64(n)
}
