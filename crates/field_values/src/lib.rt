//! The values of all stripes that blocks keep, at many points at once.
//!
//! `AllValues` is a field that gives them, row after row. Any lawful field may do so point after point, by Horner's rule over
//! rows. A field that has the constants of `field_transform` does so by the additive fast Fourier transform, under the same contract,
//! where that makes no more products, its buffers are small and there is memory for them: `side_by_side` lays the stripes out for
//! it, as columns of rows, each behind its end filled up with zeros.
#![tactic(auto)]

mod all_values;
mod cosets;
mod transformed;
mod wide;

pub use all_values::AllValues;
pub use wide::side_by_side;
