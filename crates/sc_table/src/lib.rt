//! Tables of a field's elements, their values at points, and what a round of the sumcheck protocol
//! sends and how it binds them.
//!
//! A table of n variables has 2^n entries. Coordinate 1 of a point belongs to the highest bit of a
//! row, and coordinate n to the lowest. Contracts speak of elements by their numbers, as `sc_field`
//! gives them.
#![tactic(auto)]

mod blocks;
mod fused;
mod lagrange;
mod laws;
mod point;
mod poly;
mod projective;
mod slices;
mod split_eq;
mod strategy;
mod sums;

pub use blocks::{
    BLOCK_COORDINATES, add_equality, block_weights, eval_blocks, eval_slice, fits_in_blocks,
    joined_block_weights,
};
pub use fused::{fold_and_round_coefficients_prefix, fold_and_round_coefficients_suffix};
pub use lagrange::{extrapolate_01inf, lagrange_weights_01inf, lagrange_weights_01inf_multi};
pub use laws::strategy_laws;
pub use point::Point;
pub use poly::Poly;
pub use projective::{eval_slice_projective, fix_prefix_var_slice_projective};
pub use sc_memory::Row;
pub use slices::{fix_prefix_var_slice, fix_suffix_var_slice};
pub use split_eq::SplitEq;
pub use strategy::{
    Basis, RoundMessage, Strategy, VariableOrder, sumcheck_coefficients_prefix,
    sumcheck_coefficients_prefix_projective, sumcheck_coefficients_suffix,
};
pub use sums::{add_scaled, dot_slices};
