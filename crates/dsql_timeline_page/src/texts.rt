//! Texts, one after another.
ghost use Rattle.std.specs.Prelude.{◌≡◌, ◌++◌, OnOk};
ghost use Rattle.std.specs.List.{flat_map};

use std::alloc::AllocError;

/// Appends the texts in their order.
#[tactic(auto, using(std::proofs::lemmas::Grind::common_steps, std::proofs::lemmas::List::flat_map_more))]
pub(crate) fn append_all(texts: &[&str], page: &mut Vec<u8>) -> Result<(), AllocError>
    ensures { OnOk result (page.new.items ≡ page.old.items ++ flat_map (λ t. t.now) texts.now) }
{
    for text in texts {
        page.extend_from_slice(text.as_bytes())?;
    }
    Ok(())
}
