//! Finite fields: the trait `Field`, and the field of 65,536 elements.
//!
//! A field codes as `Coding` of `specs/Field.antt` says: operations, the point of each number, and each element as a row
//! of bytes. The laws of a coding are a member of the trait, so a type has an `impl` only with them proved. `Gf16Plain` is
//! the binary field of `specs/BinaryField.antt` of degree 16 with the modulus 0x1100B, which `Gf16Plain::meaning` says in
//! public: its product is defined by a relation, and not by the loop that computes it. `multiply_modulo` and
//! `invert_modulo` do that work for any modulus of degree 1 to 31, so another binary field is an instance of them and of
//! the lemmas in `specs/laws/`. `mul` and `inv` count one step each, and no other call counts any. No call takes memory.
#![tactic(auto)]

mod field;
mod gf16;
mod residues;

pub use field::Field;
pub use gf16::Gf16Plain;
pub use residues::{invert_modulo, multiply_modulo};
