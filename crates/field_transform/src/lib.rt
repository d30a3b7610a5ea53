//! The values of all columns of a block of rows at the points of a coset of small numbers, by the additive fast Fourier
//! transform, over any field of characteristic two whose points add up as their numbers do (`Subspaces`).
//!
//! The subspaces are those of the points of the numbers below 2^j (Cantor 1989; von zur Gathen and Gerhard 1996). `hats` of
//! `specs/Basis.antt` are their polynomials, each 0 on its subspace and 1 at the point of 2^j; products of those below a level are a
//! basis of the polynomials of degree below 2^level (Lin, Chung and Han 2014). `convert` takes the columns of rows, as coefficients
//! of powers, to coefficients in that basis (Gao and Mateer 2010), and leaves out rows that are known to be zero; `values_at_coset`
//! takes these to the values at the points of as many numbers as are asked for, up to 2^level, from a multiple of 2^level on.
//! One conversion serves for all cosets. `values` does both. Rows stand one after another and may have any width: each step
//! goes along whole rows, so that each factor is prepared once for all columns. What is promised is the value of each column
//! at each point, and how many products are made, to the product (`specs/Steps.antt`). Nothing here takes memory.
#![tactic(auto)]

mod butterflies;
mod conversion;
mod element;
mod subspaces;
mod transform;
mod words;

pub use subspaces::Subspaces;
pub use transform::{convert, values, values_at_coset};
