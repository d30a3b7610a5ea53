//! Tests of the field, of polynomials, of rows and of interpolation: values from outside.
//!
//! They run the public calls of `field_elements`, `pet_poly`, `field_rows`, `pet_field`, `field_transform`, `field_values` and
//! `pet_interp`, as a caller sees them. They stand apart because the gate proves a crate that has tests twice, once alone and once
//! whole with its tests: here the second time is the tests' own. `fixtures` is what several of them share. No program uses this
//! crate.
#![tactic(auto)]

mod fixtures;

pub use fixtures::{digest, has_product_and_inverse, words};

#[cfg(test)]
mod field_tests;
#[cfg(test)]
mod interp_tests;
#[cfg(test)]
mod model_tests;
#[cfg(test)]
mod poly_tests;
#[cfg(test)]
mod rows_tests;
#[cfg(test)]
mod tables_tests;
#[cfg(test)]
mod transform_tests;
#[cfg(test)]
mod values_tests;
