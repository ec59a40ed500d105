//! Shapes, their seeds, and both drivers, by figures by hand and from a script that is no part of
//! this.
mod drivers;
mod shapes;
