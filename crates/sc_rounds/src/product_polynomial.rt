//! A table and its weights, on which rounds are played.
ghost use Rattle.std.specs.Prelude.{◌≡◌, ◌≢◌, ◌⊎◌, ℕ, Err, suc, ◌+◌, ◌<◌, ◌≤◌, ◌^◌, [], ◌∷◌, ◌++◌, IsOk, IfOk, IfErr, OnOk, OnErr, length, map, vec_capacity};
ghost use Rattle.sc_definitions.specs.Ring.{◌+⟨◌⟩◌, ◌*⟨◌⟩◌};
ghost use Rattle.sc_definitions.specs.Tables.{evaluation, projective, prefix, IsOffered, entries, value_in, sum_below, inner_product};
ghost use Rattle.sc_definitions.specs.Offers.{IsOffered-prop};
ghost use Rattle.sc_table.specs.Polys.{variables_of, table_of};
ghost use Rattle.sc_table.specs.Strategy.{basis_of, order_of};
ghost use Rattle.sc_constraints.specs.Constraints.{constraint_arity, constraint_challenge, constraint_power, constraint_statements};
ghost use Rattle.sc_statements.specs.Batches.{gathered, AddsBatch};

use sc_challenger::Challenger;
use sc_constraints::Constraint;
use sc_field::{ExtensionField, Field, IntoTranscriptField, NoMemory};
use sc_table::{Basis, Point, Poly, RoundMessage, VariableOrder};
use sc_transcript::{ProverTranscript, SumcheckData, SumcheckError};
use std::alloc::Global;
use std::marker::PhantomData;

/// A table of evaluations and a table of weights, of as many variables, with what the entries of
/// both are and the order in which rounds bind the variables. In the projective basis both tables
/// are of coefficients, and the first variable is bound first.
#[derive(Drop)]
pub struct ProductPolynomial<F, EF> {
    basis: Basis,
    order: VariableOrder,
    evals: Poly<EF>,
    weights: Poly<EF>,
    of: PhantomData<F>,
    pub ghost same: { variables_of evals ≡ variables_of weights },
    pub ghost offered: { IsOffered (basis_of basis) (order_of order) } by { IsOffered-prop (basis_of basis) (order_of order) },
}

impl<F: Field, EF: ExtensionField<F>> ProductPolynomial<F, EF> {
    ghost use Rattle.sc_transcript.specs.Data.{wire_in, spare_in};
    ghost use Rattle.sc_transcript.specs.Drivers.{Continues, HasRoundLeft, HasRoom};
    ghost use Rattle.sc_transcript.specs.Transcripts.{driver_in};
    ghost use Rattle.sc_rounds.specs.Products.{
      variables_in,
      basis_in,
      order_in,
      evals_in,
      weights_in,
      sum_in,
      pair_message,
      BindsPair,
    };
    ghost use Rattle.sc_rounds.specs.ProverStates.{setting_on, prover_state_on};
    ghost use Rattle.sc_transcript.specs.Batches.{Moves, MovesHonestly, CountsOne, TakesItsRoom};

    /// The pair of these tables of values, which have as many variables.
    pub fn new_unpacked(order: VariableOrder, evals: Poly<EF>, weights: Poly<EF>) -> Self
        requires { variables_of evals ≡ variables_of weights }
        ensures variables { variables_in result ≡ variables_of evals }
        ensures basis { basis_in result ≡ evaluation }
        ensures order { order_in result ≡ order_of order }
        ensures evals { evals_in EF.number result ≡ table_of EF.number evals }
        ensures weights { weights_in EF.number result ≡ table_of EF.number weights }
    {
        ProductPolynomial {
            basis: Basis::Evaluation,
            order,
            evals,
            weights,
            of: PhantomData,
        }
    }

    /// The pair of these tables of coefficients, which have as many variables. Its rounds bind the
    /// first variable that is left.
    pub fn new_projective(evals: Poly<EF>, weights: Poly<EF>) -> Self
        requires { variables_of evals ≡ variables_of weights }
        ensures variables { variables_in result ≡ variables_of evals }
        ensures basis { basis_in result ≡ projective }
        ensures order { order_in result ≡ prefix }
        ensures evals { evals_in EF.number result ≡ table_of EF.number evals }
        ensures weights { weights_in EF.number result ≡ table_of EF.number weights }
    {
        ProductPolynomial {
            basis: Basis::Projective,
            order: VariableOrder::Prefix,
            evals,
            weights,
            of: PhantomData,
        }
    }

    /// The pair of these tables, which have as many variables, in a basis that is offered with this
    /// order, as [`Basis::is_offered`] tests.
    pub fn new_in(basis: Basis, order: VariableOrder, evals: Poly<EF>, weights: Poly<EF>) -> Self
        requires same { variables_of evals ≡ variables_of weights }
        requires offered { IsOffered (basis_of basis) (order_of order) }
        ensures variables { variables_in result ≡ variables_of evals }
        ensures basis { basis_in result ≡ basis_of basis }
        ensures order { order_in result ≡ order_of order }
        ensures evals { evals_in EF.number result ≡ table_of EF.number evals }
        ensures weights { weights_in EF.number result ≡ table_of EF.number weights }
    {
        ProductPolynomial {
            basis,
            order,
            evals,
            weights,
            of: PhantomData,
        }
    }

    /// What the entries of both tables are.
    pub fn basis(&self) -> Basis
        ensures { basis_of result ≡ basis_in self.now }
    {
        self.basis
    }

    /// The order in which rounds bind the variables.
    pub fn order(&self) -> VariableOrder
        ensures { order_of result ≡ order_in self.now }
    {
        self.order
    }

    /// How many variables are left.
    pub fn num_variables(&self) -> usize
        ensures { result ≡ variables_in self.now }
    {
        self.evals.num_variables()
    }

    /// The value of the table of evaluations alone, in the pair's basis, at a point of as many
    /// coordinates as variables are left.
    pub fn eval(&self, point: &Point<EF>) -> EF
        requires { length point.now ≡ variables_in self.now }
        ensures { EF.number result ≡ value_in (basis_in self.now) EF.ops (evals_in EF.number self.now) (map EF.number point.now) }
    {
        self.basis
            .eval_slice::<EF, EF>(self.evals.as_slice(), point.as_slice())
    }

    /// The evaluations, row 0 first.
    pub fn evals_view(&self) -> &[EF]
        ensures numbers { entries EF.number result.now ≡ evals_in EF.number self.now }
        ensures size { length result.now ≡ 2 ^ variables_in self.now }
    {
        self.evals.as_slice()
    }

    /// The evaluations, in memory of their own.
    pub fn evals(&self, alloc: Global) -> Result<Poly<EF>, NoMemory>
        ensures variables { IfOk result (λ p. variables_of p ≡ variables_in self.now) }
        ensures table { IfOk result (λ p. table_of EF.number p ≡ evals_in EF.number self.now) }
    {
        self.evals.copy(alloc)
    }

    /// The weights, in memory of their own.
    pub fn weights(&self, alloc: Global) -> Result<Poly<EF>, NoMemory>
        ensures variables { IfOk result (λ p. variables_of p ≡ variables_in self.now) }
        ensures table { IfOk result (λ p. table_of EF.number p ≡ weights_in EF.number self.now) }
    {
        self.weights.copy(alloc)
    }

    /// The sum over all rows of evaluation times weight. It takes no memory.
    pub fn dot_product(&self) -> EF
        ensures { EF.number result ≡ sum_in EF.ops EF.number self.now }
    {
        dot::<EF, EF>(self.evals.as_slice(), self.weights.as_slice())
    }

    /// Adds the batch of a constraint on as many variables: its weights to the weights, and its
    /// claim to the sum. The evaluations stay.
    ///
    /// The weights are added to in their place: no memory is taken, and `NoMemory` never comes.
    pub fn combine(
        &mut self,
        alloc: Global,
        sum: &mut EF,
        constraint: &Constraint<F, EF>,
    ) -> Result<(), NoMemory>
        requires { constraint_arity constraint.now ≡ variables_in self.old }
        ensures variables { variables_in self.new ≡ variables_in self.old }
        ensures basis { basis_in self.new ≡ basis_in self.old }
        ensures order { order_in self.new ≡ order_in self.old }
        ensures evals { evals_in EF.number self.new ≡ evals_in EF.number self.old }
        ensures added { AddsBatch EF.ops (variables_in self.old) (constraint_challenge EF.number constraint.now) (constraint_power constraint.now)
            (constraint_statements (λ x. EF.embedding (F.number x)) EF.number constraint.now)
            (gathered (weights_in EF.number self.old) (EF.number sum.old)) (gathered (weights_in EF.number self.new) (EF.number sum.new)) }
        ensures answered { IsOk result }
    {
        constraint.combine(alloc, &mut self.weights, sum)
    }

    // The order, the evaluations and the weights.
    pub(crate) fn into_tables(self) -> (VariableOrder, Poly<EF>, Poly<EF>)
        ensures order { order_of result.0 ≡ order_in self }
        ensures variables { variables_of result.1 ≡ variables_in self }
        ensures same { variables_of result.2 ≡ variables_in self }
        ensures evals { table_of EF.number result.1 ≡ evals_in EF.number self }
        ensures weights { table_of EF.number result.2 ≡ weights_in EF.number self }
    {
        let ProductPolynomial {
            basis: _,
            order,
            evals,
            weights,
            of: _,
        } = self;
        (order, evals, weights)
    }

    // Adds as many values as there are rows to the weights, row by row. The evaluations stay.
    pub(crate) fn add_weights(&mut self, delta: &[EF])
        requires { length delta.now ≡ 2 ^ variables_in self.old }
        ensures variables { variables_in self.new ≡ variables_in self.old }
        ensures basis { basis_in self.new ≡ basis_in self.old }
        ensures order { order_in self.new ≡ order_in self.old }
        ensures evals { evals_in EF.number self.new ≡ evals_in EF.number self.old }
        ensures weights { (b : ℕ) → b < 2 ^ variables_in self.old
            → weights_in EF.number self.new b ≡ weights_in EF.number self.old b +⟨ EF.ops ⟩ entries EF.number delta.now b }
    {
        add_entries(self.weights.as_mut_slice(), delta);
    }

    // The sum over all rows of evaluation times another weight.
    pub(crate) fn dot_with(&self, weights: &[EF]) -> EF
        requires { length weights.now ≡ 2 ^ variables_in self.now }
        ensures { EF.number result ≡ inner_product EF.ops (variables_in self.now) (evals_in EF.number self.now) (entries EF.number weights.now) }
    {
        dot::<EF, EF>(self.evals.as_slice(), weights)
    }

    /// Plays a round: appends the message of the two tables to the data, which is what an honest
    /// prover sends of them, binds both at its challenge, and moves the sum to the sent
    /// polynomial's value there, which is the sum of the bound tables. A variable is left, the
    /// transcript has a round left, and `sum` is [`ProductPolynomial::dot_product`].
    ///
    /// The refusals are those of [`SumcheckData::observe_and_sample`], and leave the pair, the data
    /// and the sum as they were.
    pub fn round<C: Challenger<F>>(
        &mut self,
        sumcheck_data: &mut SumcheckData<F, EF>,
        transcript: &mut ProverTranscript<'_, C, F, EF>,
        sum: &mut EF,
    ) -> Result<EF, SumcheckError>
        requires variables { 0 < variables_in self.old }
        requires left { HasRoundLeft (driver_in transcript.old) }
        requires sum { EF.number sum.old ≡ sum_in EF.ops EF.number self.old }
        ensures continues { Continues (driver_in transcript.old) (driver_in transcript.new) }
        ensures basis { basis_in self.new ≡ basis_in self.old }
        ensures order { order_in self.new ≡ order_in self.old }
        ensures sum { EF.number sum.new ≡ sum_in EF.ops EF.number self.new }
        ensures counts { CountsOne (driver_in transcript.old) (driver_in transcript.new) result }

        // The message that is sent is the honest message of the tables before, and the value of a
        // bound table is theirs with the challenge placed.
        ensures round { MovesHonestly EF.number (setting_on EF.extension EF.ops self.old transcript.old)
            (prover_state_on EF.number EF.number self.old sum.old transcript.old sumcheck_data.old)
            (prover_state_on EF.number EF.number self.new sum.new transcript.new sumcheck_data.new) (driver_in transcript.old).played result }
        ensures kept { OnErr result ((self.new ≡ self.old) × (sum.new ≡ sum.old)) }
        ensures has_room { 1 ≤ spare_in sumcheck_data.old → HasRoom EF.DEGREE (driver_in transcript.old) → result ≢ Err SumcheckError.NoMemory }
        ensures room { TakesItsRoom EF.DEGREE (driver_in transcript.old) (driver_in transcript.new) (spare_in sumcheck_data.old) (spare_in sumcheck_data.new) result }
    {
        self.round_in::<F, EF, C>(sumcheck_data, transcript, sum)
    }

    // The same round in the transcript of a field that the entries' field represents: only the
    // images of the two values and of the challenge are in it.
    pub(crate) fn round_in<G: Field, EG: ExtensionField<G>, C: Challenger<G>>(
        &mut self,
        sumcheck_data: &mut SumcheckData<G, EG>,
        transcript: &mut ProverTranscript<'_, C, G, EG>,
        sum: &mut EF,
    ) -> Result<EG, SumcheckError>
    where
        EF: IntoTranscriptField<EG>,
        requires variables { 0 < variables_in self.old }
        requires left { HasRoundLeft (driver_in transcript.old) }
        requires sum { EF.number sum.old ≡ sum_in EF.ops EF.number self.old }
        ensures continues { Continues (driver_in transcript.old) (driver_in transcript.new) }
        ensures basis { basis_in self.new ≡ basis_in self.old }
        ensures order { order_in self.new ≡ order_in self.old }
        ensures sum { EF.number sum.new ≡ sum_in EF.ops EF.number self.new }
        ensures counts { CountsOne (driver_in transcript.old) (driver_in transcript.new) result }
        ensures round { Moves EG.number (setting_on EG.extension EG.ops self.old transcript.old)
            (prover_state_on (λ x. EF.to_number (EF.number x)) EG.number self.old sum.old transcript.old sumcheck_data.old)
            (prover_state_on (λ x. EF.to_number (EF.number x)) EG.number self.new sum.new transcript.new sumcheck_data.new) (driver_in transcript.old).played result }
        ensures kept { OnErr result ((self.new ≡ self.old) × (sum.new ≡ sum.old)) }
        ensures has_room { 1 ≤ spare_in sumcheck_data.old → HasRoom EG.DEGREE (driver_in transcript.old) → result ≢ Err SumcheckError.NoMemory }
        ensures room { TakesItsRoom EG.DEGREE (driver_in transcript.old) (driver_in transcript.new) (spare_in sumcheck_data.old) (spare_in sumcheck_data.new) result }
    {
        let message = self.measure();
        let c_a = message.c_a.into_transcript();
        let c_inf = message.c_inf.into_transcript();
        let drawn = match sumcheck_data.observe_and_sample(transcript, c_a, c_inf) {
            Ok(drawn) => drawn,
            Err(error) => return Err(error),
        };
        let r = EF::from_element(drawn);
        self.bind(r);
        *sum = self.basis.reduce_claim(message.c_a, message.c_inf, r, *sum);
        Ok(drawn)
    }

    // The message of a round. A variable is left.
    pub(crate) fn measure(&self) -> RoundMessage<EF>
        requires { 0 < variables_in self.now }
        ensures { EF.number result.c_a ∷ EF.number result.c_inf ∷ []
            ≡ pair_message EF.ops EF.number self.now }
    {
        let (evals, weights) = (self.evals.as_slice(), self.weights.as_slice());
        self.basis
            .sumcheck_coefficients::<EF, EF>(self.order, evals, weights)
    }

    // Binds the variable that comes next.
    pub(crate) fn bind(&mut self, r: EF)
        requires { 0 < variables_in self.old }
        ensures { BindsPair EF.ops EF.number (EF.number r) self.old self.new }
    {
        self.basis.fix_var::<EF, EF>(self.order, &mut self.evals, r);
        self.basis
            .fix_var::<EF, EF>(self.order, &mut self.weights, r);
    }

    // Binds the variable that comes next, and gives the message of the round that binds the one
    // after it: in one pass over tables of values, and in two over tables of coefficients.
    pub(crate) fn bind_and_measure(&mut self, r: EF) -> RoundMessage<EF>
        requires { 1 < variables_in self.old }
        ensures bound { BindsPair EF.ops EF.number (EF.number r) self.old self.new }
        ensures message { EF.number result.c_a ∷ EF.number result.c_inf ∷ []
            ≡ pair_message EF.ops EF.number self.new }
    {
        match self.basis {
            Basis::Evaluation => self.bind_and_measure_values(r),
            Basis::Projective => {
                self.bind(r);
                self.measure()
            }
        }
    }

    // Both in one pass over tables of values.
    fn bind_and_measure_values(&mut self, r: EF) -> RoundMessage<EF>
        requires two { 1 < variables_in self.old }
        requires values { basis_in self.old ≡ evaluation }
        ensures bound { BindsPair EF.ops EF.number (EF.number r) self.old self.new }
        ensures message { EF.number result.c_a ∷ EF.number result.c_inf ∷ []
            ≡ pair_message EF.ops EF.number self.new }
    {
        let ProductPolynomial {
            basis: _,
            order,
            evals,
            weights,
            of: _,
        } = self;
        order.fold_and_round_coefficients::<EF, EF>(evals, weights, r)
    }

    // The weights times a value. The evaluations stay.
    pub(crate) fn scale_weights(&mut self, scale: EF)
        ensures variables { variables_in self.new ≡ variables_in self.old }
        ensures basis { basis_in self.new ≡ basis_in self.old }
        ensures order { order_in self.new ≡ order_in self.old }
        ensures evals { evals_in EF.number self.new ≡ evals_in EF.number self.old }
        ensures weights { (b : ℕ) → b < 2 ^ variables_in self.old
            → weights_in EF.number self.new b
            ≡ weights_in EF.number self.old b *⟨ EF.ops ⟩ EF.number scale }
    {
        scale_entries(self.weights.as_mut_slice(), scale);
    }
}

// The sum of the products of the entries of two lists of one length, of which the right one holds
// images in a representation.
pub(crate) fn dot<EF: Field, R: IntoTranscriptField<EF>>(left: &[EF], right: &[R]) -> EF
    requires { length left.now ≡ length right.now }
    ensures { EF.number result ≡ sum_below EF.ops (length left.now) (λ b. entries EF.number left.now b *⟨ EF.ops ⟩ entries (λ x. R.to_number (R.number x)) right.now b) }
{
    let mut sum = EF::ZERO;
    for i in 0..left.len() {
        sum = sum.add(left[i].mul(right[i].into_transcript()));
    }
    sum
}

// Adds the values to the totals, entry by entry.
fn add_entries<EF: Field>(totals: &mut [EF], values: &[EF])
    requires { length totals.old ≡ length values.now }
    ensures { (b : ℕ) → b < length values.now
        → entries EF.number totals.new b ≡ entries EF.number totals.old b +⟨ EF.ops ⟩ entries EF.number values.now b }
{
    for i in 0..totals.len() {
        totals[i] = totals[i].add(values[i]);
    }
}

// Multiplies each entry by the scale.
fn scale_entries<EF: Field>(values: &mut [EF], scale: EF)
    ensures { (b : ℕ) → b < length values.old
        → entries EF.number values.new b
        ≡ entries EF.number values.old b *⟨ EF.ops ⟩ EF.number scale }
{
    for i in 0..values.len() {
        values[i] = values[i].mul(scale);
    }
}
