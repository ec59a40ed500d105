//! The polynomial that the values of a round send, by its values at the nodes.
ghost use Rattle.std.specs.Prelude.{◌≡◌, ◌+◌, ◌<◌, ◌≤◌, ◌↔◌, IsTrue, length, map, slice_index};
ghost use Rattle.std.specs.Prelude.{vec_len, IfOk};
ghost use Rattle.sc_definitions.specs.Ring.{◌*⟨◌⟩◌};
ghost use Rattle.sc_definitions.specs.Polynomials.{poly_at};
ghost use Rattle.sc_definitions.specs.Interpolation.{others, with_value_at_one, next_through, sent_through};
ghost use Rattle.sc_degree.specs.Nodes.{node_of, AreWeights, extended};

use crate::coefficients::{plus_multiple, times_line};
use sc_field::{Field, NoMemory};
use std::alloc::Global;

/// What is fixed of interpolation by the degree: a weight for each of the nodes from 0 to it.
///
/// Node i is the element number i. A round of degree d sends the values of its polynomial at node 0
/// and at the nodes from 2 to d; the value at node 1 is what the sum constraint is more than the
/// value at node 0.
#[derive(Drop)]
pub struct RoundPolyInterpolator<EF: Field> {
    // The inverse of the product of a node's differences to the others.
    weights: Vec<EF>,
    ghost some: { 2 ≤ vec_len weights },
    ghost few: { vec_len weights ≤ EF.ops.size },
    ghost are: { AreWeights EF.ops (map EF.number weights.items) },
}

impl<EF: Field> RoundPolyInterpolator<EF> {
    ghost use Rattle.sc_degree.specs.Interpolators.{degree_of};

    /// The node of a value that a round sends, by its index there: 0 for the first one, and the
    /// index plus one for each further one.
    pub fn transmitted_node(index: usize) -> EF
        requires { index + 1 < EF.ops.size }
        ensures { EF.number result ≡ node_of index }
    {
        let node = if index == 0 { 0 } else { index + 1 };
        EF::interpolation_node(node)
    }

    /// The interpolator of a degree, at least one, in time quadratic in it. The nodes from 0 to the
    /// degree are elements. `NoMemory` where there is no memory for the weights.
    pub fn new(alloc: Global, degree: usize) -> Result<Self, NoMemory>
        requires some { 1 ≤ degree }
        requires nodes { degree < EF.ops.size }
        ensures { IfOk result (λ p. degree_of p ≡ degree) }
    {
        let nodes = degree + 1;
        let mut weights = Vec::with_capacity(alloc, nodes)?;
        for node in 0..nodes {
            weights.push_reserved(weight_of(node, nodes));
        }
        Ok(RoundPolyInterpolator { weights })
    }

    /// The value at `r` of the polynomial that a round's values send under a sum constraint, which
    /// its values at the nodes 0 and 1 are in sum. There are as many values as the degree.
    ///
    /// It takes time linear in the degree and no memory, and divides by nothing, so that `r` may be
    /// a node too.
    pub fn eval(&self, evals: &[EF], sum_constraint: EF, r: EF) -> EF
        requires { length evals.now ≡ degree_of self.now }
        ensures { EF.number result ≡ next_through EF.ops (EF.number sum_constraint)
            (map EF.number evals.now) (EF.number r) }
    {
        // Over the nodes so far: the product of the differences of `r` to them, and the sum of the
        // polynomials with their values.
        let mut product = EF::ONE;
        let mut sum = EF::ZERO;
        for node in 0..self.weights.len() {
            let gap = r.sub(EF::interpolation_node(node));
            let share = value_at_node(evals, sum_constraint, node).mul(self.weights[node]);
            sum = sum.mul(gap).add(share.mul(product));
            product = product.mul(gap);
        }
        sum
    }

    /// The coefficients of the polynomial that a round's values send under a sum constraint, the
    /// constant first: one more than the degree. There are as many values as the degree. It takes
    /// time quadratic in it. `NoMemory` where there is no memory for the coefficients.
    pub fn coefficients(
        &self,
        alloc: Global,
        evals: &[EF],
        sum_constraint: EF,
    ) -> Result<Vec<EF>, NoMemory>
        requires { length evals.now ≡ degree_of self.now }
        ensures { IfOk result (λ v. map EF.number v.items
            ≡ sent_through EF.ops (EF.number sum_constraint) (map EF.number evals.now)) }
    {
        // Over the nodes so far, as in `eval`, but as polynomials.
        let mut product = Vec::with_capacity(alloc, 1)?;
        product.push_reserved(EF::ONE);
        let mut sum = Vec::new(alloc);
        for node in 0..self.weights.len() {
            let at = EF::interpolation_node(node);
            let share = value_at_node(evals, sum_constraint, node).mul(self.weights[node]);
            let moved = times_line(alloc, &sum, at)?;
            sum = plus_multiple(alloc, &moved, &product, share)?;
            product = times_line(alloc, &product, at)?;
        }
        Ok(sum)
    }

    /// A round's values with further ones up to a length: those of the polynomial that they send
    /// under a sum constraint, at the nodes after the degree. `NoMemory` where there is no memory
    /// for them.
    pub fn extend_evals(
        &self,
        alloc: Global,
        evals: &[EF],
        sum_constraint: EF,
        target_len: usize,
    ) -> Result<Vec<EF>, NoMemory>
        requires width { length evals.now ≡ degree_of self.now }
        requires longer { degree_of self.now ≤ target_len }
        requires nodes { target_len < EF.ops.size }
        ensures { IfOk result (λ v. map EF.number v.items
            ≡ extended EF.ops (EF.number sum_constraint) (map EF.number evals.now) target_len) }
    {
        let mut values = Vec::with_capacity(alloc, target_len)?;
        for value in evals {
            values.push_reserved(*value);
        }
        for index in evals.len()..target_len {
            let node = EF::interpolation_node(index + 1);
            values.push_reserved(self.eval(evals, sum_constraint, node));
        }
        Ok(values)
    }
}

/// Whether the nodes from 0 to a degree are different elements: whether the field has as many.
pub fn nodes_distinct<EF: Field>(degree: usize) -> bool
    ensures { IsTrue result ↔ degree < EF.ops.size }
{
    (degree as u64) < EF::size()
}

// The inverse of the product of the differences of a node to the others of so many nodes.
fn weight_of<EF: Field>(node: usize, nodes: usize) -> EF
    requires within { node < nodes }
    requires few { nodes ≤ EF.ops.size }
    ensures { EF.number result *⟨ EF.ops ⟩ poly_at EF.ops (others EF.ops node nodes) node ≡ 1 }
{
    let at = EF::interpolation_node(node);
    let mut product = EF::ONE;
    for other in 0..nodes {
        if other != node {
            product = product.mul(at.sub(EF::interpolation_node(other)));
        }
    }
    match product.inverse() {
        Some(weight) => weight,
        None => unreachable!(),
    }
}

// The value at a node of the polynomial that a round's values send: at node 1 it is what the sum
// constraint is more than the value at node 0.
fn value_at_node<EF: Field>(evals: &[EF], sum_constraint: EF, node: usize) -> EF
    requires some { 0 < length evals.now }
    requires within { node ≤ length evals.now }
    ensures { EF.number result ≡ slice_index
        (with_value_at_one EF.ops (EF.number sum_constraint) (map EF.number evals.now)) node }
{
    match node {
        0 => evals[0],
        1 => sum_constraint.sub(evals[0]),
        _ => evals[node - 1],
    }
}
