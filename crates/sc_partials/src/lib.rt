//! The partial tables that small-value rounds read, and the sums that their grids are made of.
//!
//! A partial table has, for each row of the variables that a round keeps, the sum of a table over
//! all others, under the weights of a point there: the equality weights, or the three parts of the
//! successor weights. What a partial table adds to a grid is added up here as well, at the digits
//! 0, 1 and infinity of the variables that were bound before.
#![tactic(auto)]

mod next_partials;
mod partials;
mod products;
mod staged;
mod sums;

pub use next_partials::{NextPartials, NextSvoPartials, push_next_partials};
pub use partials::{EqPartials, EqSvoPartials, push_partials};
pub use sums::{Sums, add_products, empty_sums};
