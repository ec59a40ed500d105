//! What a JSON value states of a job, or the first member that is not of its form.
ghost use Rattle.std.specs.Prelude.{◌≡◌, ◌<◌, Option, Some, None, Ok, Err, IfOk};
ghost use Rattle.serde_json.specs.View.{view};
ghost use Rattle.sumcheck_members.specs.Members.{member_name};
ghost use Rattle.sumcheck_members.specs.Elements.{basis_form, field_form, order_form, sizes_of};
ghost use Rattle.sumcheck_members.specs.Stated.{ChallengerFits, ScriptFits, StatedFits};
ghost use Rattle.sumcheck_members.specs.Stated.{challenger_form, script_form, stated_over};
ghost use Rattle.sumcheck_members.specs.Rest.{rest_over, RestFits};

use crate::groups::GroupsForm;
use crate::job::{Challenger, FieldName, Group, Script, Sizes, Stated};
use crate::member::{Member, Unread, need, take};
use sc_forms::{AtMost, Below, Form, ListOf, Misread, member};
use sc_table::{Basis, Row, VariableOrder};
use serde_json::Value;
use std::alloc::Global;

// The greatest number of a point's coordinates.
const MOST_VARIABLES: u64 = 64;

/// The greatest difficulty that a job can name.
pub const MOST_BITS: u64 = 65535;

/// A field by its name.
#[derive(Clone, Copy)]
pub struct FieldForm;

impl Form for FieldForm {
    type Out = FieldName;

    ghost reads = { λ _. field_form };

    fn read(&self, _alloc: Global, value: &Value) -> Result<FieldName, Misread> {
        match value.as_str() {
            Some(name) if name == "65537" => Ok(FieldName::F65537),
            Some(name) if name == "257x2" => Ok(FieldName::F257x2),
            Some(name) if name == "16" => Ok(FieldName::F16),
            _ => Err(Misread::NotOfForm),
        }
    }
}

#[derive(Clone, Copy)]
struct ScriptForm {
    sizes: Sizes,
}

impl Form for ScriptForm {
    type Out = Script;

    ghost reads = { λ form. script_form form.sizes };

    ghost fits = { λ form script. ScriptFits form.sizes.base script };

    fn read(&self, alloc: Global, value: &Value) -> Result<Script, Misread> {
        let list = ListOf {
            item: Below {
                bound: self.sizes.base,
            },
        };
        let draws = member(alloc, &list, value, "draws")?;
        let witnesses = member(alloc, &ListOf { item: list }, value, "witnesses")?;
        Ok(Script { draws, witnesses })
    }
}

/// The hash challenger by its name, or a scripted one.
#[derive(Clone, Copy)]
pub struct ChallengerForm {
    pub sizes: Sizes,
}

impl Form for ChallengerForm {
    type Out = Challenger;

    ghost reads = { λ form. challenger_form form.sizes };

    ghost fits = { λ form challenger. ChallengerFits form.sizes.base challenger };

    fn read(&self, alloc: Global, value: &Value) -> Result<Challenger, Misread> {
        match value.as_str() {
            Some(name) if name == "hash" => Ok(Challenger::Hash),
            _ => {
                let script = ScriptForm { sizes: self.sizes }.read(alloc, value)?;
                Ok(Challenger::Scripted(script))
            }
        }
    }
}

/// Which variable a round binds, or on which side a selector stands, by its name.
#[derive(Clone, Copy)]
pub struct OrderForm;

impl Form for OrderForm {
    type Out = VariableOrder;

    ghost reads = { λ _. order_form };

    fn read(&self, _alloc: Global, value: &Value) -> Result<VariableOrder, Misread> {
        match value.as_str() {
            Some(name) if name == "prefix" => Ok(VariableOrder::Prefix),
            Some(name) if name == "suffix" => Ok(VariableOrder::Suffix),
            _ => Err(Misread::NotOfForm),
        }
    }
}

/// What the entries of a table are in the rounds on it, by its name.
#[derive(Clone, Copy)]
pub struct BasisForm;

impl Form for BasisForm {
    type Out = Basis;

    ghost reads = { λ _. basis_form };

    fn read(&self, _alloc: Global, value: &Value) -> Result<Basis, Misread> {
        match value.as_str() {
            Some(name) if name == "evaluation" => Ok(Basis::Evaluation),
            Some(name) if name == "projective" => Ok(Basis::Projective),
            _ => Err(Misread::NotOfForm),
        }
    }
}

/// What a value states whose field this is, with these sizes; or its first member, from the
/// challenger to the batching challenge, that is missing or not of its form. The value is given up,
/// and its table as it is read: so the table is read last, and where it is not of its form, it is
/// told before those that stand after it.
pub fn read_stated(
    alloc: Global,
    value: Value,
    field: FieldName,
    sizes: Sizes,
) -> Result<Stated, Unread>
    ensures stated { IfOk result (λ stated. stated_over field sizes (view value) ≡ Ok stated) }
    ensures misfit { (m : Member) → result ≡ Err (Unread.Misfit m)
        → stated_over field sizes (view value) ≡ Err (member_name m) }
    ensures field { IfOk result (λ stated. stated.field ≡ field) }
    ensures fits { IfOk result (λ stated. StatedFits sizes stated) }
{
    let challenger = ChallengerForm { sizes };
    let challenger = need(alloc, &challenger, &value, "challenger")?;
    let order = need(alloc, &OrderForm, &value, "order")?;
    let most = AtMost { most: MOST_BITS };
    let bits = need(alloc, &most, &value, "bits")?;
    let rest = read_rest(alloc, &value, sizes);
    let entries = ListOf {
        item: Below { bound: sizes.base },
    };
    let table = take(alloc, &entries, value, "table")?;
    let Rest {
        variables,
        groups,
        batching,
    } = rest?;
    Ok(Stated {
        field,
        challenger,
        order,
        bits,
        table,
        variables,
        groups,
        batching,
    })
}

// The members after the table.
#[derive(Drop)]
struct Rest {
    variables: u64,
    groups: Row<Group>,
    batching: u64,
}

// They are read in their order.
fn read_rest(alloc: Global, value: &Value, sizes: Sizes) -> Result<Rest, Unread>
    ensures rest { IfOk result (λ rest. rest_over sizes (view value.now) ≡ Ok rest) }
    ensures misfit { (m : Member) → result ≡ Err (Unread.Misfit m)
        → rest_over sizes (view value.now) ≡ Err (member_name m) }
    ensures fits { IfOk result (λ rest. RestFits sizes rest) }
{
    let most = AtMost {
        most: MOST_VARIABLES,
    };
    let variables = need(alloc, &most, value, "variables")?;
    let groups = GroupsForm {
        sizes,
        variables: variables as usize,
    };
    let groups = need(alloc, &groups, value, "groups")?;
    let challenge = Below {
        bound: sizes.extension,
    };
    let batching = need(alloc, &challenge, value, "batching")?;
    Ok(Rest {
        variables,
        groups,
        batching,
    })
}
