//! The lines of masks, and the text of a refusal.
ghost use Rattle.std.specs.Prelude.{◌≡◌, OnOk, IfOk, map, string_bytes};
ghost use Rattle.sc_commitments.specs.Matrices.{lists_in};
ghost use Rattle.sumcheck_explain.specs.Explains.{even_text, mask_line, mask_lines, mask_name};
ghost use Rattle.sumcheck_replies.specs.Lines.{Adds};

use sc_field::{Field, NoMemory};
use std::alloc::{AllocError, Global};
use sumcheck_replies::lines;

// The lines of masks, a line each.
pub(crate) fn push_masks<EF: Field>(text: &mut String, masks: &[Vec<EF>]) -> Result<(), NoMemory>
    ensures { OnOk result (Adds text.old text.new (mask_lines 0 (lists_in EF.number masks.now))) }
{
    for i in 0..masks.len() {
        push_mask(text, i, &masks[i])?;
    }
    Ok(())
}

// The line of a mask: its number and its coefficients.
fn push_mask<EF: Field>(text: &mut String, i: usize, mask: &[EF]) -> Result<(), NoMemory>
    ensures { OnOk result (Adds text.old text.new (mask_line i (map EF.number mask.now))) }
{
    push_mask_name(text, i)?;
    lines::push_values(text, mask)?;
    lines::push_end(text)?;
    Ok(())
}

// The beginning of a mask's line, up to its coefficients.
#[tactic(auto, unfolding(crate::specs::Explains::mask_name))]
fn push_mask_name(text: &mut String, i: usize) -> Result<(), AllocError>
    ensures { OnOk result (Adds text.old text.new (mask_name i)) }
{
    write!(text, "mask {i}:")
}

// A field in which two is zero.
#[tactic(auto, unfolding(crate::specs::Explains::even_text))]
pub(crate) fn even_text(alloc: Global) -> Result<String, AllocError>
    ensures { IfOk result (λ s. string_bytes s ≡ even_text) }
{
    format!(in alloc; "explain even-characteristic")
}
