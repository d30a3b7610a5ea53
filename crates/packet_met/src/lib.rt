//! Which packets of a session were met, which layers these show, and the layers text that a receiver writes of them.
//!
//! `specs/Met.antt` says it of a session and a list of datagrams, with no word of payloads or buffers: the pairs met, the layers
//! shown, the layers text and the printed counts. `specs/LayersText.antt` says it of what is kept, whatever was received,
//! `specs/Steps.antt` what the work costs, and `specs/FewestStripes.antt` that the packets of a group carry the fewest stripes.
//! `specs/MetStore.antt` is the store of what was met.
//!
//! The laws in `specs/laws/` tie the two: where each frame of the session's number is one of the session's packets, exactly the
//! packets that were met are kept (`KeptIsMet`, `PacketMore`, `AllDatagrams`), the layers text is the session's (`PacketText`,
//! `DatagramMore`, `AllDatagrams`), and the counts are those of the packets met (`CountsAreMet`). The packets of every session
//! carry the fewest stripes (`FewestStripesLaws`). The store of what is kept is that of the packets met, in whatever order they came
//! (`FramesAreMet`, `StoreLaws`), and two sets that are joined have what the one or the other has met (`JoinedAreMet`, `SetOfPairs`).
//! What is kept exactly of some pairs, at any limit, has their store (`ExactlyKept`), and stays so with a packet more
//! (`GivenPacket`), whose verdict shows what is newly shown by the pairs; so does a union (`JoinedShown`).
//!
//! `put_shown` puts the records of the layers that an arrival shows.
#![tactic(auto)]

mod records;

pub use records::put_shown;
