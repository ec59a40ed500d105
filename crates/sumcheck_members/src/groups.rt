//! The groups of claims that a JSON value describes.
ghost use Rattle.std.specs.Prelude.{◌≡◌, ◌+◌, All, length, nat_eq, nat_le, Some, None};
ghost use Rattle.sumcheck_members.specs.Groups.{equality_form, group_form, groups_form, most_statements, product_form, scalar_form, select_form, successor_form};
ghost use Rattle.sumcheck_members.specs.Statements.{EqualityFits, GroupFits, ProductFits, ScalarFits, SuccessorFits, statement_count};

use crate::job::{EqualityClaim, Group, ProductClaim, ScalarClaim, Sizes, SuccessorClaim};
use crate::reading::OrderForm;
use sc_forms::{Below, Form, ListOf, ListOfLength, Misread, member};
use sc_table::Row;
use serde_json::Value;
use std::alloc::Global;

// The greatest number of statements in a job.
const MOST_STATEMENTS: usize = 4096;

#[derive(Clone, Copy)]
struct EqualityForm {
    sizes: Sizes,
    variables: usize,
}

impl Form for EqualityForm {
    type Out = EqualityClaim;

    ghost reads = { λ form. equality_form form.sizes form.variables };

    ghost fits = { λ form claim. EqualityFits form.sizes.extension form.variables claim };

    fn read(&self, alloc: Global, value: &Value) -> Result<EqualityClaim, Misread> {
        let coordinates = ListOfLength {
            item: Below {
                bound: self.sizes.extension,
            },
            length: self.variables,
        };
        let point = member(alloc, &coordinates, value, "point")?;
        let claimed = member(
            alloc,
            &Below {
                bound: self.sizes.extension,
            },
            value,
            "value",
        )?;
        Ok(EqualityClaim {
            point,
            value: claimed,
        })
    }
}

#[derive(Clone, Copy)]
struct SuccessorForm {
    sizes: Sizes,
    variables: usize,
}

impl Form for SuccessorForm {
    type Out = SuccessorClaim;

    ghost reads = { λ form. successor_form form.sizes form.variables };

    ghost fits = { λ form claim. SuccessorFits form.sizes.extension form.variables claim };

    fn read(&self, alloc: Global, value: &Value) -> Result<SuccessorClaim, Misread> {
        let coordinates = ListOf {
            item: Below {
                bound: self.sizes.extension,
            },
        };
        let selector = member(alloc, &coordinates, value, "selector")?;
        let point = member(alloc, &coordinates, value, "point")?;
        let order = member(alloc, &OrderForm, value, "order")?;
        let claimed = member(
            alloc,
            &Below {
                bound: self.sizes.extension,
            },
            value,
            "value",
        )?;
        if !add_up(selector.len(), point.len(), self.variables) {
            return Err(Misread::NotOfForm);
        }
        Ok(SuccessorClaim {
            selector,
            point,
            order,
            value: claimed,
        })
    }
}

// Whether two lengths are together the third.
fn add_up(left: usize, right: usize, sum: usize) -> bool
    ensures { result ≡ nat_eq (left + right) sum }
{
    left <= sum && right == sum - left
}

#[derive(Clone, Copy)]
struct ScalarForm {
    sizes: Sizes,
}

impl Form for ScalarForm {
    type Out = ScalarClaim;

    ghost reads = { λ form. scalar_form form.sizes };

    ghost fits = { λ form claim. ScalarFits form.sizes claim };

    fn read(&self, alloc: Global, value: &Value) -> Result<ScalarClaim, Misread> {
        let scalar = member(
            alloc,
            &Below {
                bound: self.sizes.base,
            },
            value,
            "at",
        )?;
        let claimed = member(
            alloc,
            &Below {
                bound: self.sizes.extension,
            },
            value,
            "value",
        )?;
        Ok(ScalarClaim {
            scalar,
            value: claimed,
        })
    }
}

#[derive(Clone, Copy)]
struct ProductForm {
    sizes: Sizes,
    variables: usize,
}

impl Form for ProductForm {
    type Out = ProductClaim;

    ghost reads = { λ form. product_form form.sizes form.variables };

    ghost fits = { λ form claim. ProductFits form.sizes form.variables claim };

    fn read(&self, alloc: Global, value: &Value) -> Result<ProductClaim, Misread> {
        let coordinates = ListOfLength {
            item: Below {
                bound: self.sizes.base,
            },
            length: self.variables,
        };
        let point = member(alloc, &coordinates, value, "at")?;
        let claimed = member(
            alloc,
            &Below {
                bound: self.sizes.extension,
            },
            value,
            "value",
        )?;
        Ok(ProductClaim {
            point,
            value: claimed,
        })
    }
}

// Claims at scalars, or at direct points.
#[derive(Clone, Copy)]
struct SelectForm {
    sizes: Sizes,
    variables: usize,
}

impl Form for SelectForm {
    type Out = Group;

    ghost reads = { λ form. select_form form.sizes form.variables };

    ghost fits = { λ form group. GroupFits form.sizes form.variables group };

    fn read(&self, alloc: Global, value: &Value) -> Result<Group, Misread> {
        let products = ProductForm {
            sizes: self.sizes,
            variables: self.variables,
        };
        match (value.get("scalars"), value.get("points")) {
            (Some(scalars), None) => {
                let claims = ListOf {
                    item: ScalarForm { sizes: self.sizes },
                }
                .read(alloc, scalars)?;
                Ok(Group::Scalars(claims))
            }
            (None, Some(points)) => {
                let claims = ListOf { item: products }.read(alloc, points)?;
                Ok(Group::Products(claims))
            }
            _ => Err(Misread::NotOfForm),
        }
    }
}

// A group of claims of one kind, which stands by its name.
#[derive(Clone, Copy)]
struct GroupForm {
    sizes: Sizes,
    variables: usize,
}

impl Form for GroupForm {
    type Out = Group;

    ghost reads = { λ form. group_form form.sizes form.variables };

    ghost fits = { λ form group. GroupFits form.sizes form.variables group };

    fn read(&self, alloc: Global, value: &Value) -> Result<Group, Misread> {
        let sizes = self.sizes;
        let variables = self.variables;
        let Some(kind) = value.get("kind") else {
            return Err(Misread::NotOfForm);
        };
        match kind.as_str() {
            Some(name) if name == "eq" => {
                let item = EqualityForm { sizes, variables };
                let claims = member(alloc, &ListOf { item }, value, "claims")?;
                Ok(Group::Equality(claims))
            }
            Some(name) if name == "next" => {
                let item = SuccessorForm { sizes, variables };
                let claims = member(alloc, &ListOf { item }, value, "claims")?;
                Ok(Group::Successor(claims))
            }
            Some(name) if name == "select" => SelectForm { sizes, variables }.read(alloc, value),
            _ => Err(Misread::NotOfForm),
        }
    }
}

/// The groups of claims on tables of so many variables, with at most 4,096 claims in all.
#[derive(Clone, Copy)]
pub(crate) struct GroupsForm {
    pub(crate) sizes: Sizes,
    pub(crate) variables: usize,
}

impl Form for GroupsForm {
    type Out = Row<Group>;

    ghost reads = { λ form. groups_form form.sizes form.variables };

    ghost fits = { λ form groups. All (GroupFits form.sizes form.variables) groups };

    fn read(&self, alloc: Global, value: &Value) -> Result<Row<Group>, Misread> {
        let item = GroupForm {
            sizes: self.sizes,
            variables: self.variables,
        };
        let groups = ListOf { item }.read(alloc, value)?;
        if !are_few(groups.as_slice()) {
            return Err(Misread::NotOfForm);
        }
        Ok(groups)
    }
}

// Whether the groups have no more claims than a job may have.
fn are_few(groups: &[Group]) -> bool
    ensures { result ≡ nat_le (statement_count groups.now) most_statements }
{
    let mut room = MOST_STATEMENTS;
    for group in groups {
        let count = group.len();
        if count > room {
            return false;
        }
        room -= count;
    }
    true
}
