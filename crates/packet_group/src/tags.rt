//! The tags of the frames of a group's packets.
ghost use Rattle.std.specs.Prelude.{◌≡◌, ℕ, None, IfOk, slice_index_or};

use pet_base::NoMemory;
use std::alloc::Global;

/// Room for the tags of so many packets, none of which is there.
pub(crate) fn no_tags(alloc: Global, packets: u16) -> Result<Vec<Option<[u8; 16]>>, NoMemory>
    ensures { IfOk result (λ tags. (number : ℕ) → slice_index_or tags.items number None ≡ None) }
{
    let mut tags = Vec::new(alloc);
    tags.reserve_exact(usize::from(packets))?;
    for _ in 0..packets {
        tags.push(None)?;
    }
    Ok(tags)
}

/// The tag of this number, where it is there.
pub fn tag_in(tags: &[Option<[u8; 16]>], number: u16) -> Option<[u8; 16]>
    ensures { result ≡ slice_index_or tags.now number None }
{
    let at = usize::from(number);
    if at < tags.len() { tags[at] } else { None }
}
