//! Runs of layers.
ghost use Rattle.std.specs.Prelude.{◌≡◌};

use layer_split::Run;

/// A run of this layer, of so many bytes from this offset on.
pub fn run(layer: u8, at: u64, len: u32) -> Run
    ensures { result ≡ record { layer = layer; at = at; len = len } }
{
    Run { layer, at, len }
}
