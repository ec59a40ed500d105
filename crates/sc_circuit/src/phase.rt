//! The three tables of a half of a layer's rounds.
ghost use Rattle.std.specs.Prelude.{◌≡◌, ℕ, ◌+◌, ◌-◌, ◌<◌, ◌≤◌, ◌^◌};
ghost use Rattle.std.specs.Prelude.{All, IfOk, length, map, vec_len};
ghost use Rattle.sc_definitions.specs.Ring.{◌+⟨◌⟩◌, ◌-⟨◌⟩◌, ◌*⟨◌⟩◌};
ghost use Rattle.sc_definitions.specs.Tables.{sum_below, entries, bound};
ghost use Rattle.sc_circuit_definitions.specs.LayerPhases.{row_sum};
ghost use Rattle.sc_circuit.specs.Rows.{phase_of, phase_bound};

use crate::rows::{clear, zeros};
use crate::walk::{add_first_shares, add_second_shares};
use sc_circuit_definitions::Gate;
use sc_field::Field;
use sc_memory::NoMemory;
use sc_table::{add_equality, eval_slice};
use std::alloc::Global;

// Three tables of one length, of whose rows the first 2^left stand: the values below, what they are
// multiplied by, and what is added. Beside them is room for the equality weights of the challenges
// of the first half.
#[derive(Drop)]
pub(crate) struct PhaseTables<EF> {
    values: Vec<EF>,
    factors: Vec<EF>,
    rests: Vec<EF>,
    points: Vec<EF>,
    variables: usize,
    left: usize,
    ghost few: { variables ≤ 8 },
    ghost within: { left ≤ variables },
    ghost values_size: { vec_len values ≡ 2 ^ variables },
    ghost factors_size: { vec_len factors ≡ 2 ^ variables },
    ghost rests_size: { vec_len rests ≡ 2 ^ variables },
    ghost points_size: { vec_len points ≡ 2 ^ variables },
}

impl<EF: Field> PhaseTables<EF> {
    ghost use Rattle.sc_circuit_definitions.specs.LayerRounds.{gate_tables};
    ghost use Rattle.sc_circuit_definitions.specs.LayerPhases.{first_phase, second_phase};
    ghost use Rattle.sc_circuit_definitions.specs.LayerPhases.{phase_at_next};
    ghost use Rattle.sc_circuit.specs.Phases.{phase_in, SameRows};

    // Tables of rows of so many variables.
    pub(crate) fn new(alloc: Global, variables: usize) -> Result<Self, NoMemory>
        requires { variables ≤ 8 }
        ensures { IfOk result (λ p. p.variables ≡ variables) }
    {
        let rows = 1 << variables;
        let values = zeros(alloc, rows)?;
        let factors = zeros(alloc, rows)?;
        let rests = zeros(alloc, rows)?;
        let points = zeros(alloc, rows)?;
        Ok(PhaseTables {
            values,
            factors,
            rests,
            points,
            variables,
            left: variables,
        })
    }

    // How many variables a half has.
    pub(crate) fn variables(&self) -> usize
        ensures { result ≡ self.now.variables }
    {
        self.variables
    }

    // Begins the first half, by one walk over the gates.
    pub(crate) fn begin_first(&mut self, gates: &[Gate], weights: &[EF], below: &[EF])
        requires weights { length gates.now ≤ length weights.now }
        requires below { length below.now ≡ 2 ^ self.old.variables }
        requires left { All (λ gate. gate.left < 2 ^ self.old.variables) gates.now }
        requires right { All (λ gate. gate.right < 2 ^ self.old.variables) gates.now }
        ensures variables { self.new.variables ≡ self.old.variables }
        ensures left { self.new.left ≡ self.old.variables }
        ensures rows { SameRows (2 ^ self.old.variables) (phase_in EF.number self.new)
            (first_phase EF.ops (gate_tables EF.ops self.old.variables
            (entries EF.number weights.now) (entries EF.number below.now) gates.now)) }
    {
        self.begin(below);
        add_first_shares(
            self.factors.as_mut_slice(),
            self.rests.as_mut_slice(),
            gates,
            weights,
            below,
        );
    }

    // Begins the second half, after the challenges of the first one, by one walk over the gates.
    pub(crate) fn begin_second(
        &mut self,
        gates: &[Gate],
        weights: &[EF],
        below: &[EF],
        challenges: &[EF],
    )
        requires weights { length gates.now ≤ length weights.now }
        requires below { length below.now ≡ 2 ^ self.old.variables }
        requires challenges { length challenges.now ≡ self.old.variables }
        requires left { All (λ gate. gate.left < 2 ^ self.old.variables) gates.now }
        requires right { All (λ gate. gate.right < 2 ^ self.old.variables) gates.now }
        ensures variables { self.new.variables ≡ self.old.variables }
        ensures left { self.new.left ≡ self.old.variables }
        ensures rows { SameRows (2 ^ self.old.variables) (phase_in EF.number self.new)
            (second_phase EF.ops (gate_tables EF.ops self.old.variables
            (entries EF.number weights.now) (entries EF.number below.now) gates.now)
            (map EF.number challenges.now)) }
    {
        self.begin(below);
        clear(self.points.as_mut_slice());
        add_equality(self.points.as_mut_slice(), challenges, EF::ONE);
        let value = eval_slice::<EF, EF>(below, challenges);
        add_second_shares(
            self.factors.as_mut_slice(),
            self.rests.as_mut_slice(),
            gates,
            weights,
            self.points.as_slice(),
            value,
        );
    }

    // All rows stand: the values below, and nothing in the others.
    fn begin(&mut self, below: &[EF])
        requires { length below.now ≡ 2 ^ self.old.variables }
        ensures variables { self.new.variables ≡ self.old.variables }
        ensures left { self.new.left ≡ self.old.variables }
        ensures values { self.new.values.items ≡ below.now }
        ensures factors { (b : ℕ) → b < 2 ^ self.old.variables
            → entries EF.number self.new.factors.items b ≡ 0 }
        ensures rests { (b : ℕ) → b < 2 ^ self.old.variables
            → entries EF.number self.new.rests.items b ≡ 0 }
    {
        self.values.as_mut_slice().copy_from_slice(below);
        clear(self.factors.as_mut_slice());
        clear(self.rests.as_mut_slice());
        self.left = self.variables;
    }

    // Binds the next variable at `r`, in place.
    pub(crate) fn bind(&mut self, r: EF)
        requires { 0 < self.old.left }
        ensures variables { self.new.variables ≡ self.old.variables }
        ensures left { self.new.left + 1 ≡ self.old.left }
        ensures rows { SameRows (2 ^ self.new.left) (phase_in EF.number self.new)
            (phase_at_next EF.ops self.new.left (EF.number r) (phase_in EF.number self.old)) }
    {
        self.left -= 1;
        let half = 1 << self.left;
        bind_next(self.values.as_mut_slice(), half, r);
        bind_next(self.factors.as_mut_slice(), half, r);
        bind_next(self.rests.as_mut_slice(), half, r);
    }

    // What the rounds sum with the next variable at `x`.
    pub(crate) fn sum_at(&self, x: EF) -> EF
        requires { 0 < self.now.left }
        ensures { EF.number result ≡ sum_below EF.ops (2 ^ (self.now.left - 1))
            (row_sum EF.ops (phase_at_next EF.ops (self.now.left - 1) (EF.number x)
            (phase_in EF.number self.now))) }
    {
        let half = 1 << (self.left - 1);
        sum_rows(
            self.values.as_slice(),
            self.factors.as_slice(),
            self.rests.as_slice(),
            half,
            x,
        )
    }
}

// The sum over so many rows, with the next variable at `x`, of factor times value and of the rest.
fn sum_rows<EF: Field>(values: &[EF], factors: &[EF], rests: &[EF], half: usize, x: EF) -> EF
    requires values { half + half ≤ length values.now }
    requires factors { half + half ≤ length factors.now }
    requires rests { half + half ≤ length rests.now }
    ensures { EF.number result ≡ sum_below EF.ops half (row_sum EF.ops
        (phase_bound EF.ops half (EF.number x)
        (phase_of EF.number values.now factors.now rests.now))) }
{
    let mut sum = EF::ZERO;
    for b in 0..half {
        let value = line_at(values[b], values[half + b], x);
        let factor = line_at(factors[b], factors[half + b], x);
        let rest = line_at(rests[b], rests[half + b], x);
        sum = sum.add(factor.mul(value).add(rest));
    }
    sum
}

// Binds the first variable at `r`, in place: so many rows become lo + (hi - lo) r over the rows
// that are as many further on.
fn bind_next<EF: Field>(rows: &mut [EF], half: usize, r: EF)
    requires { half + half ≤ length rows.old }
    ensures { (b : ℕ) → b < half → entries EF.number rows.new b
        ≡ bound EF.ops half (EF.number r) (entries EF.number rows.old) b }
{
    for b in 0..half {
        let (low, high) = (rows[b], rows[half + b]);
        rows[b] = line_at(low, high, r);
    }
}

// The value at `x` of the line from a value at 0 to one at 1.
fn line_at<EF: Field>(low: EF, high: EF, x: EF) -> EF
    ensures { EF.number result ≡ EF.number low
        +⟨ EF.ops ⟩ (EF.number high -⟨ EF.ops ⟩ EF.number low) *⟨ EF.ops ⟩ EF.number x }
{
    low.add(high.sub(low).mul(x))
}
