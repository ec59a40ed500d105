//! A code of values at nodes.
ghost use Rattle.std.specs.Prelude.{◌≡◌, ◌+◌, ◌≤◌, ◌++◌, All, IfOk, OnOk, map, length};
ghost use Rattle.sc_commitments.specs.Matrices.{matrix_of, numbers_in, lists_in};
ghost use Rattle.sc_commitments.specs.Draws.{draws_from};
ghost use Rattle.sc_commitments.specs.Codes.{node_matrix, joined, values_at};

use crate::draws::{DrawElement, draw_list};
use crate::encoding::ZkEncoding;
use crate::matrix::RowMajorMatrix;
use rand_core::Rng;
use sc_field::laws::poly_at;
use sc_field::{Field, NoMemory};
use sc_memory::Row;
use std::alloc::Global;
use std::marker::PhantomData;

/// The code of a polynomial's values. The message, and the randomness after it, are the
/// coefficients, the constant first; position z of the codeword is the value at node z, which is
/// the element number z.
///
/// Messages and randomness are draws of [`DrawElement`], in their order.
#[derive(Drop)]
pub struct NodeCode<EF: Field> {
    message_len: usize,
    randomness_len: usize,
    codeword_len: usize,
    of: PhantomData<EF>,
    // there are as many nodes as positions
    ghost nodes: { codeword_len ≤ EF.ops.size },
}

impl<EF: Field> NodeCode<EF> {
    ghost use Rattle.sc_commitments.specs.NodeCodes.{lengths_of};

    /// The code of these lengths.
    ///
    /// # Conditions
    ///
    /// A codeword is no longer than the field has elements.
    pub fn new(message_len: usize, randomness_len: usize, codeword_len: usize) -> Self
        requires { codeword_len ≤ EF.ops.size }
        ensures { lengths_of result ≡ (message_len, randomness_len, codeword_len) }
    {
        NodeCode {
            message_len,
            randomness_len,
            codeword_len,
            of: PhantomData,
        }
    }
}

impl<EF: DrawElement> ZkEncoding<EF> for NodeCode<EF> {
    ghost message_length = { λ c. c.message_len };

    ghost randomness_length = { λ c. c.randomness_len };

    ghost codeword_length = { λ c. c.codeword_len };

    ghost encoded = { λ c messages randomness. node_matrix EF.ops c.codeword_len messages
        randomness };

    ghost message_from = { λ c s. draws_from EF.ops.size c.message_len s };

    ghost randomness_from = { λ c s. draws_from EF.ops.size c.randomness_len s };

    fn message_len(&self) -> usize {
        self.message_len
    }

    fn randomness_len(&self) -> usize {
        self.randomness_len
    }

    fn codeword_len(&self) -> usize {
        self.codeword_len
    }

    fn sample_message<G: Rng>(&self, alloc: Global, rng: &mut G) -> Result<Vec<EF>, NoMemory> {
        draw_list(alloc, self.message_len, rng)
    }

    fn sample_randomness<G: Rng>(&self, alloc: Global, rng: &mut G) -> Result<Vec<EF>, NoMemory> {
        draw_list(alloc, self.randomness_len, rng)
    }

    fn encode_batch_with_randomness(
        &self,
        alloc: Global,
        messages: &[Vec<EF>],
        randomness: &[Vec<EF>],
    ) -> Result<RowMajorMatrix<EF>, NoMemory> {
        let polynomials = joined_lists(alloc, messages, randomness)?;
        let mut values = Vec::new(alloc);
        for z in 0..self.codeword_len {
            push_values(&mut values, &polynomials, EF::interpolation_node(z))?;
        }
        Ok(RowMajorMatrix {
            values: Row::new(values),
            width: messages.len(),
        })
    }
}

// Each message with its randomness after it.
fn joined_lists<EF: Field>(
    alloc: Global,
    messages: &[Vec<EF>],
    randomness: &[Vec<EF>],
) -> Result<Vec<Vec<EF>>, NoMemory>
    requires { length messages.now ≡ length randomness.now }
    ensures { IfOk result (λ v. lists_in EF.number v.items
        ≡ joined (lists_in EF.number messages.now) (lists_in EF.number randomness.now)) }
{
    let mut lists = Vec::new(alloc);
    for j in 0..messages.len() {
        let mut list = Vec::from_slice(alloc, &messages[j])?;
        list.extend_from_slice(&randomness[j])?;
        lists.push(list)?;
    }
    Ok(lists)
}

// Appends the values of polynomials at a node, each by its coefficients.
fn push_values<EF: Field>(
    values: &mut Vec<EF>,
    polynomials: &[Vec<EF>],
    node: EF,
) -> Result<(), NoMemory>
    ensures { OnOk result (numbers_in EF.number values.new ≡ numbers_in EF.number values.old
        ++ values_at EF.ops (lists_in EF.number polynomials.now) (EF.number node)) }
{
    for coefficients in polynomials {
        values.push(poly_at(coefficients, node))?;
    }
    Ok(())
}
