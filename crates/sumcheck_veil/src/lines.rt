//! The lines of a report on masked rounds, and the texts of their refusals, of the numbers in them.
ghost use Rattle.std.specs.Prelude.{◌≡◌, OnOk, IfOk, string_bytes};
ghost use Rattle.sumcheck_replies.specs.Lines.{Adds};
ghost use Rattle.sumcheck_veil.specs.VeilLines.{carried_line, eps_line, even_text};
ghost use Rattle.sumcheck_veil.specs.VeilLines.{mask_residual_line};
ghost use Rattle.sumcheck_veil.specs.VeilLines.{mu_line, no_rounds_text, rounds_bound_text};
ghost use Rattle.sumcheck_veil.specs.VeilLines.{scaled_line, short_text};

use std::alloc::{AllocError, Global};

// The line of the masks' total.
#[tactic(auto, unfolding(crate::specs::VeilLines::mu_line))]
pub(crate) fn push_mu(text: &mut String, x: u64) -> Result<(), AllocError>
    ensures { OnOk result (Adds text.old text.new (mu_line x)) }
{
    write!(text, "mu {x}\n")
}

// The line of the combination.
#[tactic(auto, unfolding(crate::specs::VeilLines::eps_line))]
pub(crate) fn push_eps(text: &mut String, x: u64) -> Result<(), AllocError>
    ensures { OnOk result (Adds text.old text.new (eps_line x)) }
{
    write!(text, "eps {x}\n")
}

// The line of the plain residual times the combination.
#[tactic(auto, unfolding(crate::specs::VeilLines::scaled_line))]
pub(crate) fn push_scaled(text: &mut String, x: u64) -> Result<(), AllocError>
    ensures { OnOk result (Adds text.old text.new (scaled_line x)) }
{
    write!(text, "scaled {x}\n")
}

// The line of what is left of aux, times the combination.
#[tactic(auto, unfolding(crate::specs::VeilLines::carried_line))]
pub(crate) fn push_carried(text: &mut String, x: u64) -> Result<(), AllocError>
    ensures { OnOk result (Adds text.old text.new (carried_line x)) }
{
    write!(text, "carried {x}\n")
}

// The line of the masks at the challenges.
#[tactic(auto, unfolding(crate::specs::VeilLines::mask_residual_line))]
pub(crate) fn push_mask_residual(text: &mut String, x: u64) -> Result<(), AllocError>
    ensures { OnOk result (Adds text.old text.new (mask_residual_line x)) }
{
    write!(text, "mask-residual {x}\n")
}

// How many rounds there are, and how many there may be.
#[tactic(auto, unfolding(crate::specs::VeilLines::rounds_bound_text))]
pub(crate) fn rounds_bound_text(
    alloc: Global,
    rounds: usize,
    bound: usize,
) -> Result<String, AllocError>
    ensures { IfOk result (λ s. string_bytes s ≡ rounds_bound_text rounds bound) }
{
    format!(in alloc; "job-shape rounds {rounds} bound {bound}")
}

// A field in which two is zero.
#[tactic(auto, unfolding(crate::specs::VeilLines::even_text))]
pub(crate) fn even_text(alloc: Global) -> Result<String, AllocError>
    ensures { IfOk result (λ s. string_bytes s ≡ even_text) }
{
    format!(in alloc; "veil even-characteristic")
}

// How many coefficients masks have that are too short.
#[tactic(auto, unfolding(crate::specs::VeilLines::short_text))]
pub(crate) fn short_text(alloc: Global, length: usize) -> Result<String, AllocError>
    ensures { IfOk result (λ s. string_bytes s ≡ short_text length) }
{
    format!(in alloc; "veil mask-too-short {length}")
}

// No round.
#[tactic(auto, unfolding(crate::specs::VeilLines::no_rounds_text))]
pub(crate) fn no_rounds_text(alloc: Global) -> Result<String, AllocError>
    ensures { IfOk result (λ s. string_bytes s ≡ no_rounds_text) }
{
    format!(in alloc; "veil no-rounds")
}
