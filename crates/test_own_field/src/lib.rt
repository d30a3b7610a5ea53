//! A field of one's own, from its definition to a coded stripe: an example that runs.
//!
//! `AesField` is the field of 256 elements of the Advanced Encryption Standard (FIPS 197), whose modulus is another than that of the
//! byte profile. `meaning` says what it is; with its laws it is a `Field`, and interpolation (`words_through`) takes it. `OwnField` has 65,536
//! elements, by another modulus than the packets' field. It has `impl Field` alone too, and by the wrapper `ByElements` its packets are
//! made, received, stored and made again. No program uses this crate.
#![tactic(auto)]

mod aes_field;
mod own_field;
mod stripe;

pub use aes_field::AesField;
pub use own_field::OwnField;
pub use stripe::words_through;

#[cfg(test)]
mod aes_tests;
#[cfg(test)]
mod own_tests;
