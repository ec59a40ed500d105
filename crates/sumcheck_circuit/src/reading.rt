//! The job of `circuit` that a JSON value describes, or the first member that is not of its form.
ghost use Rattle.std.specs.Prelude.{◌≡◌, ◌≢◌, All, Some, None, Ok, Err, IfOk, IsErrOf};
ghost use Rattle.serde_json.specs.View.{view};
ghost use Rattle.sumcheck_members.specs.Members.{member_name};
ghost use Rattle.sumcheck_members.specs.Elements.{sizes_of};
ghost use Rattle.sumcheck_circuit.specs.CircuitJob.{CircuitJobFits, LayerFits, circuit_job_of};
ghost use Rattle.sumcheck_circuit.specs.CircuitJob.{circuit_members_over, gate_form, gate_of};
ghost use Rattle.sumcheck_circuit.specs.CircuitJob.{layer_form, layers_given_form};

use crate::job::{CircuitJob, LayerGiven};
use sc_circuit::Gate;
use sc_forms::{AtMost, Below, Form, ListOf, ListOfLength, Misread, is_object, member};
use sc_table::Row;
use serde_json::Value;
use std::alloc::Global;
use sumcheck_members::{
    BuildOrCheckForm, ChallengerForm, FieldForm, FieldName, MOST_BITS, Member, Sizes, Unread, need,
};

// The greatest place that a gate can name.
const MOST_PLACE: u64 = 65535;

// A gate: 0 for a sum or 1 for a product, and its two places.
#[derive(Clone, Copy)]
struct GateForm;

impl Form for GateForm {
    type Out = Gate;

    ghost reads = { λ _. gate_form };

    fn read(&self, alloc: Global, value: &Value) -> Result<Gate, Misread> {
        let numbers = ListOfLength {
            item: AtMost { most: MOST_PLACE },
            length: 3,
        };
        gate_of(numbers.read(alloc, value)?.as_slice())
    }
}

// The gate that three numbers name, if they do.
fn gate_of(numbers: &[u64]) -> Result<Gate, Misread>
    ensures ok { IfOk result (λ gate. gate_of numbers.now ≡ Some gate) }
    ensures not_of_form { IsErrOf result Misread.NotOfForm → gate_of numbers.now ≡ None }
    ensures no_other { result ≢ Err Misread.NoMemory }
{
    match numbers {
        [kind, left, right] if *kind <= 1 => Ok(Gate {
            product: *kind == 1,
            left: *left as usize,
            right: *right as usize,
        }),
        _ => Err(Misread::NotOfForm),
    }
}

// What a proof sends for a layer.
#[derive(Clone, Copy)]
struct LayerForm {
    sizes: Sizes,
}

impl Form for LayerForm {
    type Out = LayerGiven;

    ghost reads = { λ form. layer_form form.sizes };

    ghost fits = { λ form layer. LayerFits form.sizes layer };

    fn read(&self, alloc: Global, value: &Value) -> Result<LayerGiven, Misread> {
        let value_sent = Below {
            bound: self.sizes.extension,
        };
        let witness = Below {
            bound: self.sizes.base,
        };
        let lists = ListOf {
            item: ListOf { item: value_sent },
        };
        let rounds = member(alloc, &lists, value, "rounds")?;
        let witnesses = member(alloc, &ListOf { item: witness }, value, "witnesses")?;
        let left = member(alloc, &value_sent, value, "left")?;
        let right = member(alloc, &value_sent, value, "right")?;
        Ok(LayerGiven {
            rounds,
            witnesses,
            left,
            right,
        })
    }
}

// A proof: what it sends for each layer.
#[derive(Clone, Copy)]
struct LayersForm {
    sizes: Sizes,
}

impl Form for LayersForm {
    type Out = Row<LayerGiven>;

    ghost reads = { λ form. layers_given_form form.sizes };

    ghost fits = { λ form layers. All (LayerFits form.sizes) layers };

    fn read(&self, alloc: Global, value: &Value) -> Result<Row<LayerGiven>, Misread> {
        let layers = ListOf {
            item: LayerForm { sizes: self.sizes },
        };
        member(alloc, &layers, value, "layers")
    }
}

/// The job of `circuit` that a value describes, or its first member that is missing or not of its
/// form. The value is given up.
pub fn read_circuit(alloc: Global, value: Value) -> Result<CircuitJob, Unread>
    ensures job { IfOk result (λ job. circuit_job_of (view value) ≡ Ok job) }
    ensures misfit { (m : Member) → result ≡ Err (Unread.Misfit m)
        → circuit_job_of (view value) ≡ Err (member_name m) }
    ensures fits { IfOk result (λ job. CircuitJobFits (sizes_of job.field) job) }
{
    if !is_object(&value) {
        return Err(Unread::Misfit(Member::named("job")));
    }
    let field = need(alloc, &FieldForm, &value, "field")?;
    read_circuit_members(alloc, &value, field, field.sizes())
}

// The members after the field, which has these sizes.
fn read_circuit_members(
    alloc: Global,
    value: &Value,
    field: FieldName,
    sizes: Sizes,
) -> Result<CircuitJob, Unread>
    ensures job { IfOk result (λ job.
        circuit_members_over field sizes (view value.now) ≡ Ok job) }
    ensures misfit { (m : Member) → result ≡ Err (Unread.Misfit m)
        → circuit_members_over field sizes (view value.now) ≡ Err (member_name m) }
    ensures field { IfOk result (λ job. job.field ≡ field) }
    ensures fits { IfOk result (λ job. CircuitJobFits sizes job) }
{
    let challenger = need(alloc, &ChallengerForm { sizes }, value, "challenger")?;
    let most = AtMost { most: MOST_BITS };
    let bits = need(alloc, &most, value, "bits")?;
    let elements = ListOf {
        item: Below { bound: sizes.base },
    };
    let inputs = need(alloc, &elements, value, "inputs")?;
    let gates = ListOf {
        item: ListOf { item: GateForm },
    };
    let layers = need(alloc, &gates, value, "layers")?;
    let outputs = need(alloc, &elements, value, "outputs")?;
    let proof = LayersForm { sizes };
    let mode = need(alloc, &BuildOrCheckForm { proof }, value, "mode")?;
    Ok(CircuitJob {
        field,
        challenger,
        bits,
        inputs,
        layers,
        outputs,
        mode,
    })
}
