//! Small-value rounds: the first rounds of a build, whose messages are read off grids. A grid has
//! sums over the table of small values as it is, at the digits 0, 1 and infinity of the variables
//! that were bound before.
//!
//! Each claim costs one pass over the table, or a few. Of the extension nothing as long as the table
//! is made before the grids are read off, but for many claims, whose weights are then added up first.
#![tactic(auto)]

mod batch;
mod claims;
mod grid;
mod next_point;
mod point;
mod together;

pub use batch::{MOST_ROUNDS, SvoBatch};
pub use claims::SvoClaim;
pub use grid::{Grid, Grids};
pub use point::SvoPoint;
pub use sc_partials::{EqPartials, EqSvoPartials, NextPartials, NextSvoPartials};
