//! The field of 256 elements has the transform, for up to 128 points at once.
ghost use Rattle.std.specs.Prelude.{◌≡◌, ◌<◌};
ghost use Rattle.gf8.specs.Constants;
ghost use Rattle.gf8.specs.laws.Gf8Subspaces.{gf8_subspaces};

use crate::products::ByteProducts;
use crate::tables::Gf8Tables;
use field_transform::Subspaces;
use field_vectors::{add_multiple_row, butterfly_row, multiply_row};
use pet_base::Steps;
use std::sync::ledger::Ledger;

/// The factors by level, as `specs/Constants.antt` has them.
const FACTORS: [u8; 7] = [6, 18, 31, 78, 159, 93, 135];

/// The inverses of these factors.
const INVERSES: [u8; 7] = [122, 192, 42, 69, 162, 14, 176];

/// The factor of a level.
#[tactic(auto, unfolding(crate::specs::Constants::factor))]
fn gf8_factor(level: u32) -> u8
    requires { level < 7 }
    ensures { result ≡ Constants.factor level }
{
    FACTORS[level as usize]
}

/// The inverse of that factor.
#[tactic(auto, unfolding(crate::specs::Constants::inverse))]
fn gf8_inverse(level: u32) -> u8
    requires { level < 7 }
    ensures { result ≡ Constants.inverse level }
{
    INVERSES[level as usize]
}

impl Subspaces for Gf8Tables {
    const LEVELS: u32 = 8;

    ghost LEVELS = { 8 };

    ghost factor = { Constants.factor };

    ghost inverse = { Constants.inverse };

    fn factor_of(&self, level: u32) -> u8 {
        gf8_factor(level)
    }

    fn inverse_of(&self, level: u32) -> u8 {
        gf8_inverse(level)
    }

    fn multiply_row<L: Ledger>(&self, by: u8, row: &mut [u8], steps: &mut Steps<L>) {
        multiply_row(&ByteProducts::new(by), row, steps);
    }

    fn add_multiple_row<L: Ledger>(
        &self,
        by: u8,
        other: &[u8],
        into: &mut [u8],
        steps: &mut Steps<L>,
    ) {
        add_multiple_row(&ByteProducts::new(by), other, into, steps);
    }

    fn butterfly_row<L: Ledger>(
        &self,
        by: u8,
        low: &mut [u8],
        high: &mut [u8],
        steps: &mut Steps<L>,
    ) {
        butterfly_row(&ByteProducts::new(by), low, high, steps);
    }

    ghost subspaces = { gf8_subspaces };
}
