//! What a receiver left: the layers text and the store.

/// The least numbers of packets that show the layers of the example stream's one group.
const COUNTS: [u32; 3] = [2, 3, 5];

/// The bytes before an entry's layer: arrival, group, layer, length.
const ENTRY_HEAD: usize = 13;

/// Whether the layers text has, each once, exactly the layers whose counts the packets of the store reach.
pub fn agree(layers: &[u8], store: &[u8]) -> bool {
    let Some(kept) = kept_in(store) else {
        return false;
    };
    let mut rest = layers;
    for (layer, count) in (0u8..).zip(COUNTS) {
        if count <= kept {
            match after_entry(rest, layer) {
                Some(after) => rest = after,
                None => return false,
            }
        }
    }
    rest.is_empty()
}

/// How many packets the store has, which stands after its mark and its session.
fn kept_in(store: &[u8]) -> Option<u32> {
    Some(u32::from_be_bytes(*store.get(12..)?.first_chunk()?))
}

/// What comes after the first entry of the text, which is of this layer of group 0.
fn after_entry(text: &[u8], layer: u8) -> Option<&[u8]> {
    let (head, rest) = text.split_at_checked(ENTRY_HEAD)?;
    if head[4..9] != [0, 0, 0, 0, layer] {
        return None;
    }
    let length = u32::from_be_bytes(*head[9..].first_chunk()?);
    rest.get(length as usize..)
}
