//! What is done with rounds: they are built, or those of a proof are checked.
ghost use Rattle.sumcheck_members.specs.Modes.{CheckFits, build_or_check_form};

use sc_forms::{Form, Misread, member};
use serde_json::Value;
use std::alloc::Global;

/// What is done with rounds.
#[derive(Drop)]
pub enum BuildOrCheck<P> {
    /// They are built.
    Build,
    /// Those of a proof are checked.
    Check(P),
}

/// The word `build`, or an object whose member `check` is a proof in a form.
#[derive(Clone, Copy)]
pub struct BuildOrCheckForm<P> {
    pub proof: P,
}

impl<P: Form> Form for BuildOrCheckForm<P> {
    type Out = BuildOrCheck<P::Out>;

    ghost reads = { λ form. build_or_check_form (P.reads form.proof) };

    ghost fits = { λ form mode. CheckFits (P.fits form.proof) mode };

    fn read(&self, alloc: Global, value: &Value) -> Result<BuildOrCheck<P::Out>, Misread> {
        match value.as_str() {
            Some(name) if name == "build" => Ok(BuildOrCheck::Build),
            _ => {
                let proof = member(alloc, &self.proof, value, "check")?;
                Ok(BuildOrCheck::Check(proof))
            }
        }
    }
}
