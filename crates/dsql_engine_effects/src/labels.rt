//! The labels of rows and of transactions, each with its call.
ghost use Rattle.std.specs.Prelude.{◌≡◌, ◌+◌, ◌<◌, ◌≤◌, ℕ, Some, List, string_bytes, option_map};
ghost use Rattle.dsql_engine_effects.specs.Starts.{labelled};
ghost use Rattle.indexmap.specs.IndexMap.{get_by_text, spare};

use indexmap::IndexMap;

/// Records the call that makes a label, if it makes one, unless an earlier call has made that label.
pub fn note_label(labels: &mut IndexMap<String, u32>, label: Option<String>, call: u32)
    requires { 0 < spare labels.old }
    ensures labels { (other : List ℕ) → get_by_text labels.new other
        ≡ labelled (option_map string_bytes label) call other (get_by_text labels.old other) }
    ensures spare { spare labels.old ≤ spare labels.new + 1 }
{
    if let Some(label) = label {
        put_label(labels, label, call);
    }
}

/// Records the call of a label, unless the label has one.
fn put_label(labels: &mut IndexMap<String, u32>, label: String, call: u32)
    requires { 0 < spare labels.old }
    ensures labels { (other : List ℕ) → get_by_text labels.new other
        ≡ labelled (Some (string_bytes label)) call other (get_by_text labels.old other) }
    ensures spare { spare labels.old ≤ spare labels.new + 1 }
{
    if !labels.contains_key(label.as_str()) {
        match labels.insert(label, call) {
            Ok(_) => {}
            Err(_) => unreachable!(),
        }
    }
}
