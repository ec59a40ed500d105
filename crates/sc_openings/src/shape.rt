//! Whether tables, the claims on them and the difficulty fit.
ghost use Rattle.std.specs.Prelude.{◌≡◌, ℕ, ◌≤◌, ◌^◌, None, IfOk, OnOk, length, map};
ghost use Rattle.sc_challenger.specs.Parties.{Party};
ghost use Rattle.sc_openings.specs.OpeningsJobs.{fields, claim_in, claimed_in, case_of};
ghost use Rattle.sc_openings.specs.OpeningsJobs.{AreFieldsOf};
ghost use Rattle.sc_openings.specs.Shapes.{or_later, fault_in, first_fault, tables_fault};
ghost use Rattle.sc_openings.specs.Shapes.{length_fault};
ghost use Rattle.sc_openings.specs.Shapes.{name_fault, arity_fault, difficulty_fault, shape_fault};

use crate::claim::OpeningClaim;
use crate::error::MergeError;
use sc_field::{ExtensionField, Field};

// The most variables.
const MOST_VARIABLES: usize = 16;

// Tables and claims on them that fit, and the difficulty of rounds on them.
#[derive(Drop)]
pub(crate) struct FittingClaims<'a, F: Field, EF: ExtensionField<F>> {
    pub(crate) num_variables: usize,
    pub(crate) tables: &'a [Vec<F>],
    pub(crate) claims: &'a [OpeningClaim<EF>],
    pub(crate) pow_bits: usize,
    // It says nothing but which fields the claims are over, so that contracts need not say it
    // again.
    ghost over: { AreFieldsOf F.number EF.number EF.embedding EF.extension },
    ghost some: { 1 ≤ length tables.now },
    ghost fits: { shape_fault num_variables (map (λ t. length t.items) tables.now)
        (map (claim_in EF.number) claims.now) ≡ None },
}

impl<'a, F: Field, EF: ExtensionField<F>> FittingClaims<'a, F, EF> {
    ghost use Rattle.sc_openings.specs.FittingClaims.{case_by};

    // These claims on these tables at a difficulty, unless a table, a claim or the point of one
    // does not fit, or the difficulty is above this bound. There is one table or more.
    pub(crate) fn of(
        num_variables: usize,
        tables: &'a [Vec<F>],
        claims: &'a [OpeningClaim<EF>],
        pow_bits: usize,
        max_bits: usize,
    ) -> Result<Self, MergeError>
        requires some { 1 ≤ length tables.now }
        ensures case { IfOk result (λ c. (p : Party) → case_by c p
            ≡ case_of (fields F.ops EF.ops EF.embedding EF.extension)
            (claimed_in F.number EF.number num_variables tables.now claims.now) pow_bits p) }
        ensures fault { fault_in result ≡ or_later (shape_fault num_variables
            (map (λ t. length t.items) tables.now) (map (claim_in EF.number) claims.now))
            (difficulty_fault pow_bits max_bits) }
        ensures difficulty { OnOk result (pow_bits ≤ max_bits) }
    {
        check_tables(num_variables, tables)?;
        check_names(tables.len(), claims)?;
        check_arities(num_variables, claims)?;
        if pow_bits > max_bits {
            return Err(MergeError::Difficulty {
                bits: pow_bits,
                bound: max_bits,
            });
        }
        Ok(FittingClaims {
            num_variables,
            tables,
            claims,
            pow_bits,
        })
    }
}

// Refuses tables of another length than that of so many variables, or too many variables.
fn check_tables<F: Field>(num_variables: usize, tables: &[Vec<F>]) -> Result<(), MergeError>
    requires { 1 ≤ length tables.now }
    ensures { fault_in result
        ≡ tables_fault num_variables (map (λ t. length t.items) tables.now) }
{
    if num_variables > MOST_VARIABLES {
        return Err(MergeError::TableLength {
            table: 0,
            len: tables[0].len(),
        });
    }
    check_lengths(1 << num_variables, tables)
}

// Refuses tables of another length than this one.
fn check_lengths<F: Field>(rows: usize, tables: &[Vec<F>]) -> Result<(), MergeError>
    ensures { (n : ℕ) → rows ≡ 2 ^ n → fault_in result
        ≡ first_fault (length_fault n) 0 (map (λ t. length t.items) tables.now) }
{
    for table in 0..tables.len() {
        let len = tables[table].len();
        if len != rows {
            return Err(MergeError::TableLength { table, len });
        }
    }
    Ok(())
}

// Refuses claims that name none of so many tables.
fn check_names<EF: Field>(tables: usize, claims: &[OpeningClaim<EF>]) -> Result<(), MergeError>
    ensures { fault_in result
        ≡ first_fault (name_fault tables) 0 (map (claim_in EF.number) claims.now) }
{
    for claim in 0..claims.len() {
        let table = claims[claim].table;
        if table >= tables {
            return Err(MergeError::ClaimTable { claim, table });
        }
    }
    Ok(())
}

// Refuses claims whose points have another number of coordinates.
fn check_arities<EF: Field>(
    num_variables: usize,
    claims: &[OpeningClaim<EF>],
) -> Result<(), MergeError>
    ensures { fault_in result
        ≡ first_fault (arity_fault num_variables) 0 (map (claim_in EF.number) claims.now) }
{
    for claim in 0..claims.len() {
        let actual = claims[claim].point.num_variables();
        if actual != num_variables {
            return Err(MergeError::ClaimArity {
                claim,
                expected: num_variables,
                actual,
            });
        }
    }
    Ok(())
}
