//! The names of what a driver can do, as reports and scripts spell them.
ghost use Rattle.std.specs.Prelude.{◌≡◌, ◌++◌, map, IfOk, OnOk};
ghost use Rattle.dsql_script_spelling.specs.CapsNames.{name_if, caps_names};
ghost use Rattle.dsql_script_spelling.specs.LineValues.{texts_data};
ghost use Rattle.dsql_script_spelling.specs.Spelling.{Spells};

use dsql_driver::Caps;
use json::Writer;
use std::alloc::{AllocError, Global};

/// Appends the name if it is wanted.
fn push_if<'a>(names: &mut Vec<&'a str>, wanted: bool, name: &'a str) -> Result<(), AllocError>
    ensures { OnOk result (map (λ n. n.now) names.new.items
        ≡ map (λ n. n.now) names.old.items ++ name_if wanted name.now) }
{
    if wanted {
        names.push(name)?;
    }
    Ok(())
}

/// Returns the names of what a driver can do, in a fixed order.
pub fn caps_names(alloc: Global, caps: &Caps) -> Result<Vec<&'static str>, AllocError>
    ensures { IfOk result (λ names. map (λ n. n.now) names.items ≡ caps_names caps.now) }
{
    let mut names = Vec::new(alloc);
    push_if(&mut names, caps.fast_exec, "fast_exec")?;
    push_if(&mut names, caps.fast_query, "fast_query")?;
    push_if(&mut names, caps.begin_options, "begin_options")?;
    push_if(&mut names, caps.named, "named")?;
    push_if(&mut names, caps.pinger, "pinger")?;
    push_if(&mut names, caps.resetter, "resetter")?;
    push_if(&mut names, caps.validator, "validator")?;
    Ok(names)
}

/// Writes names as an array of strings, in order.
#[tactic(auto, using(crate::proofs::Spelled::spelled))]
fn write_names(json: &mut Writer, names: &[&str]) -> Result<(), AllocError>
    ensures { Spells result json.old json.new (texts_data (map (λ n. n.now) names.now)) }
{
    json.begin_array()?;
    for name in names {
        json.string(name)?;
    }
    json.end_array()
}

/// Writes the names of what a driver can do, in a fixed order.
pub fn write_caps(alloc: Global, json: &mut Writer, caps: &Caps) -> Result<(), AllocError>
    ensures { Spells result json.old json.new (texts_data (caps_names caps.now)) }
{
    let names = caps_names(alloc, caps)?;
    write_names(json, names.as_slice())
}
