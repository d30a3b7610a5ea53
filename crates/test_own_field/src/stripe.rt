//! A stripe of two words over the field: its values, and the words again from any two of them.
ghost use Rattle.std.specs.Prelude.{◌≢◌, ◌<◌, ◌∷◌, []};
ghost use Rattle.pet_interp.specs.Points.{IsOnlyThrough};

use crate::AesField;
use field_elements::Field;
use pet_base::Steps;
use pet_interp::interpolate;
use std::sync::ledger::Ledger;

/// The words of a stripe from two of its values, each with its place.
pub fn words_through<L: Ledger>(first: (u8, u8), second: (u8, u8), steps: &mut Steps<L>) -> [u8; 2]
    requires other { first.0 ≢ second.0 }
    ensures { IsOnlyThrough ⟦<AesField as Field>⟧.is_element ⟦<AesField as Field>⟧.coding.ops
        (first ∷ second ∷ []) result }
{
    let mut words = [0, 0];
    interpolate(&AesField, &[first, second], &mut words, steps);
    words
}
