//! A job over tables in memory.
use sc_table::{Basis, Strategy, VariableOrder};

/// The numbers of the two values that a round sends.
#[repr(C)]
#[derive(Clone, Copy, Debug, PartialEq, Eq)]
pub struct RoundNumbers {
    /// That of the value at 0, or in the projective basis at 1.
    pub first: u32,
    /// That of the leading coefficient, of the square of the variable.
    pub leading: u32,
}

/// Where challenges come from.
#[derive(Clone, Copy, Debug)]
pub enum Draws<'a> {
    /// They are handed in: draw number d, counted from 0, is entry number d, and 0 past the end. No
    /// witness passes a test.
    Script(&'a [u32]),
    /// They are drawn from the digests of what was observed.
    Hash,
}

/// What is done with a table.
#[derive(Clone, Copy, Debug)]
pub enum TableMode<'a> {
    /// Its rounds are built, by a strategy.
    Build(Strategy),
    /// These rounds are checked, with a witness for each of them at a difficulty and none without
    /// one.
    Check {
        rounds: &'a [RoundNumbers],
        witnesses: &'a [u32],
    },
}

/// A table, values that are claimed of it at points, and what is done. Elements stand by their
/// numbers: those of the table, of draws and of witnesses are in the base field, and all others in
/// the extension.
#[derive(Clone, Copy, Debug)]
pub struct TableJob<'a> {
    /// The table, row 0 first; the first variable belongs to the highest bit of a row.
    pub table: &'a [u32],
    /// How many coordinates a point has, which is how many variables the table has.
    pub variables: usize,
    /// The points, one for each value, one after another, in each the coordinate of the highest row
    /// bit first.
    pub points: &'a [u32],
    /// The value that is claimed at each point.
    pub values: &'a [u32],
    /// The element whose powers batch the claims.
    pub batching: u32,
    /// Which variable a round binds.
    pub order: VariableOrder,
    /// What the entries of the table and of the claims' weights are.
    pub basis: Basis,
    /// The difficulty of each round's test in bits, or 0 for no test.
    pub bits: usize,
    /// Where challenges come from.
    pub draws: Draws<'a>,
    /// What is done.
    pub mode: TableMode<'a>,
}
