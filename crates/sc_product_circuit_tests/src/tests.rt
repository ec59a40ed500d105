//! Rounds of higher degree: products of tables, and layered circuits.
mod circuits;
mod products;
