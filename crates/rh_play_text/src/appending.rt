//! Texts, appended whole or not at all.

ghost use Rattle.std.specs.Prelude.{◌≡◌, ◌++◌, List, OnOk, ℕ};
ghost use Rattle.rh_play_text.specs.Appending.{Prints, joined};

use std::alloc::AllocError;

/// Appends the texts in turn. Where a growth was refused, the vector is as it was.
pub fn push_texts(out: &mut Vec<u8>, texts: &[&[u8]]) -> Result<(), AllocError>
    ensures { Prints out.old.items out.new.items (joined texts.now) result }
{
    let before = out.len();
    let outcome = extend(out, texts);
    if outcome.is_err() {
        out.truncate(before);
    }
    outcome
}

/// Appends the texts in turn, or, where a growth was refused, some part of them.
fn extend(out: &mut Vec<u8>, texts: &[&[u8]]) -> Result<(), AllocError>
    ensures appended { OnOk result (out.new.items ≡ out.old.items ++ joined texts.now) }
    ensures longer { (part : List ℕ) × (out.new.items ≡ out.old.items ++ part) }
{
    for text in texts {
        out.extend_from_slice(text)?;
    }
    Ok(())
}
