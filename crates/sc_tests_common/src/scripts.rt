//! Challengers from scripts.
use crate::numbers::elements;
use sc_challenger::ScriptedChallenger;
use sc_field::{Field, NoMemory};
use std::alloc::Global;

/// A challenger of these draws, and of these witnesses for its tests.
pub fn scripted<F: Field>(
    alloc: Global,
    draws: &[u64],
    good: &[&[u64]],
) -> Result<ScriptedChallenger<F>, NoMemory> {
    let mut lists = Vec::new(alloc);
    for list in good {
        lists.push(elements(alloc, list)?)?;
    }
    Ok(ScriptedChallenger::new(alloc, elements(alloc, draws)?, lists))
}
