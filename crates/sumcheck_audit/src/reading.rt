//! The job of `audit` that a JSON value describes, or the first member that is not of its form.
ghost use Rattle.std.specs.Prelude.{◌≡◌, Ok, Err, IfOk};
ghost use Rattle.serde_json.specs.View.{view};
ghost use Rattle.sumcheck_members.specs.Members.{member_name};
ghost use Rattle.sumcheck_members.specs.Elements.{sizes_of};
ghost use Rattle.sumcheck_audit.specs.Job.{JobFits, ModeFits, ProofFits, check_form};
ghost use Rattle.sumcheck_audit.specs.Job.{job_of, members_over, mode_form, proof_form, strategy_form};

use crate::job::{Job, Mode, Proof};
use sc_forms::{AtMost, Below, Form, ListOf, Misread, PairOf, is_object, member};
use sc_table::{Basis, Strategy};
use serde_json::Value;
use std::alloc::Global;
use sumcheck_members::{
    BasisForm, FieldForm, FieldName, Member, Sizes, Unread, need, need_or, read_stated,
};

// The greatest number of small-value rounds that can be named.
const MOST_SMALL: u64 = 64;

/// A proof of rounds that send two values each, over fields of these sizes.
#[derive(Clone, Copy)]
pub struct ProofForm {
    pub sizes: Sizes,
}

impl Form for ProofForm {
    type Out = Proof;

    ghost reads = { λ form. proof_form form.sizes };

    ghost fits = { λ form proof. ProofFits form.sizes proof };

    fn read(&self, alloc: Global, value: &Value) -> Result<Proof, Misread> {
        let value_sent = Below {
            bound: self.sizes.extension,
        };
        let witness = Below {
            bound: self.sizes.base,
        };
        let pairs = ListOf {
            item: PairOf { item: value_sent },
        };
        let rounds = member(alloc, &pairs, value, "rounds")?;
        let witnesses = member(alloc, &ListOf { item: witness }, value, "witnesses")?;
        Ok(Proof { rounds, witnesses })
    }
}

// No proof, or one.
#[derive(Clone, Copy)]
struct CheckForm {
    sizes: Sizes,
}

impl Form for CheckForm {
    ghost use Rattle.sumcheck_audit.specs.declared.job.Mode.TheVariants.{Check};

    type Out = Option<Proof>;

    ghost reads = { λ form. check_form form.sizes };

    ghost fits = { λ form proof. ModeFits form.sizes (Check proof) };

    fn read(&self, alloc: Global, value: &Value) -> Result<Option<Proof>, Misread> {
        if value.is_null() {
            return Ok(None);
        }
        let proof = ProofForm { sizes: self.sizes }.read(alloc, value)?;
        Ok(Some(proof))
    }
}

// How rounds are built: by the strategy's name, or for so many variables on small values.
#[derive(Clone, Copy)]
struct StrategyForm;

impl Form for StrategyForm {
    type Out = Strategy;

    ghost reads = { λ _. strategy_form };

    fn read(&self, alloc: Global, value: &Value) -> Result<Strategy, Misread> {
        match value.as_str() {
            Some(name) if name == "plain" => Ok(Strategy::Plain),
            Some(name) if name == "represented" => Ok(Strategy::Represented),
            Some(_) => Err(Misread::NotOfForm),
            None => {
                let most = AtMost { most: MOST_SMALL };
                let variables = member(alloc, &most, value, "small-value")?;
                Ok(Strategy::SmallValue {
                    variables: variables as usize,
                })
            }
        }
    }
}

#[derive(Clone, Copy)]
struct ModeForm {
    sizes: Sizes,
}

impl Form for ModeForm {
    type Out = Mode;

    ghost reads = { λ form. mode_form form.sizes };

    ghost fits = { λ form mode. ModeFits form.sizes mode };

    fn read(&self, alloc: Global, value: &Value) -> Result<Mode, Misread> {
        match (value.get("build"), value.get("check")) {
            (Some(build), None) => {
                let strategy = StrategyForm.read(alloc, build)?;
                Ok(Mode::Build(strategy))
            }
            (None, Some(check)) => {
                let proof = CheckForm { sizes: self.sizes }.read(alloc, check)?;
                Ok(Mode::Check(proof))
            }
            _ => Err(Misread::NotOfForm),
        }
    }
}

/// The job that a value describes, or its first member that is missing or not of its form. The
/// value is given up, and its table as it is read.
pub fn read_job(alloc: Global, value: Value) -> Result<Job, Unread>
    ensures job { IfOk result (λ job. job_of (view value) ≡ Ok job) }
    ensures misfit { (m : Member) → result ≡ Err (Unread.Misfit m)
        → job_of (view value) ≡ Err (member_name m) }
    ensures fits { IfOk result (λ job. JobFits (sizes_of job.stated.field) job) }
{
    if !is_object(&value) {
        return Err(Unread::Misfit(Member::named("job")));
    }
    let field = need(alloc, &FieldForm, &value, "field")?;
    read_members(alloc, value, field, field.sizes())
}

// The members after the field, which has these sizes. The mode and the basis are read first, since
// the value is given up for the others; where one of these is not of its form, it is told before
// them. A job without a basis is on values.
fn read_members(alloc: Global, value: Value, field: FieldName, sizes: Sizes) -> Result<Job, Unread>
    ensures job { IfOk result (λ job. members_over field sizes (view value) ≡ Ok job) }
    ensures misfit { (m : Member) → result ≡ Err (Unread.Misfit m)
        → members_over field sizes (view value) ≡ Err (member_name m) }
    ensures field { IfOk result (λ job. job.stated.field ≡ field) }
    ensures fits { IfOk result (λ job. JobFits sizes job) }
{
    let mode = need(alloc, &ModeForm { sizes }, &value, "mode");
    let basis = need_or(alloc, &BasisForm, &value, "basis", Basis::Evaluation);
    let stated = read_stated(alloc, value, field, sizes)?;
    Ok(Job {
        stated,
        mode: mode?,
        basis: basis?,
    })
}
