//! Buffers that the tests share.
ghost use Rattle.std.specs.Prelude.{◌≡◌, vec_len, IfOk};
ghost use Rattle.pet_base.specs.declared.limits.TheConstants.{MAX_ENTRY};

use pet_base::MAX_ENTRY;
use std::alloc::{AllocError, Global};

/// Room for the longest datagram.
pub fn room(alloc: Global) -> Result<Vec<u8>, AllocError>
    ensures { IfOk result (λ room. vec_len room ≡ MAX_ENTRY) }
{
    vec![in alloc; 0u8; usize::from(MAX_ENTRY)]
}

/// A datagram of so many bytes.
#[cfg(test)]
pub(crate) fn long(alloc: Global, length: usize) -> Result<Vec<u8>, AllocError> {
    vec![in alloc; 7u8; length]
}
