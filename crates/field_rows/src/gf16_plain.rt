//! The field of 65,536 elements without tables has rows as any field does.

use crate::rows::Rows;
use field_elements::Gf16Plain;

impl Rows for Gf16Plain {
    type Factor = u16;

    ghost element_of = { λ a. a };

    fn prepare(&self, x: u16) -> u16 {
        x
    }

    fn element(&self, factor: &u16) -> u16 {
        *factor
    }
}
