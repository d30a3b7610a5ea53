//! The command words.
ghost use Rattle.std.specs.Prelude.{◌≡◌, ◌↔◌, [], ◌∷◌, Err, None, Some, IfOk};
ghost use Rattle.pet_text.specs.declared.words.Command.TheVariants.{Plan, Check, Merge, Video, Wrap, Migrate, Replay};
ghost use Rattle.pet_text.specs.Words.{texts_of, end_of, session_of, id_of, plain_number, if_formed, send_of, bsend_of, receive_of, breceive_of, relay_of, unwrap_of, sample_of, repair_of, command_of};
ghost use Rattle.pet_text.specs.inside.Reading.{Reads};

use crate::end::{End, own_end, read_end};
use crate::files::{are_receive_files, are_relay_files, are_send_files, is_other, same};
use crate::name::Name;
use crate::numbers::read_plain;
use crate::session::{read_id, read_session};
use pet_base::MAX_SAMPLE_GROUPS;
use std::alloc::{AllocError, Global};

/// A command, with what its words name.
#[derive(Drop, Debug)]
pub enum Command {
    /// Prints the plan of a stream's groups.
    Plan {
        /// The file of the stream.
        stream: Name,
        /// The file of the priority.
        priority: Name,
    },
    /// Checks that listed stripe lengths are those of a plan of the fewest stripes.
    Check {
        /// The file of the stream.
        stream: Name,
        /// The file of the priority.
        priority: Name,
        /// The file of the listed lengths.
        plan: Name,
    },
    /// Sends the packets of the session that a stream and a priority are.
    Send {
        /// The file of the stream.
        stream: Name,
        /// The file of the priority.
        priority: Name,
        /// Where the datagrams go to.
        to: End,
    },
    /// Sends the packets of the byte profile of the session that a stream and a priority are.
    Bsend {
        /// The file of the stream.
        stream: Name,
        /// The file of the priority.
        priority: Name,
        /// Where the datagrams go to.
        to: End,
    },
    /// Reads the datagrams of a session, writes its layers as they are shown, and keeps its packets in a store.
    Receive {
        /// Where the datagrams come from.
        from: End,
        /// The number of the session.
        session: [u8; 8],
        /// The file that the layers are written to.
        layers: Name,
        /// The file of the store, which differs from that of the layers.
        store: Name,
    },
    /// Merges two stores of one session, which may be one file, into the store of all packets of both.
    Merge {
        /// The file of the first store.
        first: Name,
        /// The file of the second store.
        second: Name,
        /// The file that the merged store is written to, which differs from both.
        out: Name,
    },
    /// Writes the video that can be shown of a store.
    Video {
        /// The file of the store.
        store: Name,
        /// The file that the video is written to, which differs from that of the store.
        out: Name,
    },
    /// Writes the video of an id that a system stream has.
    Unwrap {
        /// The file of the system stream.
        file: Name,
        /// The id, from E0 to EF.
        id: u8,
        /// The file that the video is written to, which differs from that of the system stream.
        out: Name,
    },
    /// Writes a system stream that has a video.
    Wrap {
        /// The file of the video.
        file: Name,
        /// The file that the system stream is written to, which differs from that of the video.
        out: Name,
    },
    /// Writes the packets of a store of the first version as a store of today.
    Migrate {
        /// The file of the store.
        store: Name,
        /// The file that the new store is written to, which differs from that of the old one.
        out: Name,
    },
    /// Prints what a script's events show to several receivers of a session, and what these then keep.
    Replay {
        /// The file of the stream.
        stream: Name,
        /// The file of the priority.
        priority: Name,
        /// The file of the script.
        script: Name,
    },
    /// Prints the summary of a session that is made of a number, and of its packets received.
    Sample {
        /// The number that the stream is made of.
        seed: u64,
        /// How many groups the stream has, from 1 to 100.
        groups: u32,
    },
    /// Sends all packets of the groups of which a store shows every layer.
    Repair {
        /// The file of the store.
        store: Name,
        /// Where the datagrams go to; a file differs from that of the store.
        to: End,
    },
    /// Reads the datagrams of a session of the byte profile, and writes its layers as they are shown.
    Breceive {
        /// Where the datagrams come from.
        from: End,
        /// The number of the session.
        session: [u8; 8],
        /// The file that the layers are written to.
        layers: Name,
    },
    /// Sends on the datagrams of a session, and with the last layer of a group its other packets.
    Relay {
        /// Where the datagrams come from.
        from: End,
        /// The number of the session.
        session: [u8; 8],
        /// Where they go to, not both are addresses, and a file differs from one that is read.
        to: End,
    },
}

/// Why there is no command.
#[derive(Clone, Copy, Debug, PartialEq, Eq)]
pub enum WordsFault {
    /// The words have the form of no command.
    Usage,
    /// There was no memory for a name.
    NoMemory,
}

impl From<AllocError> for WordsFault {
    ghost use Rattle.pet_text.specs.declared.words.WordsFault.TheVariants.{NoMemory};

    ghost from_gives = { λ _ fault. fault ≡ NoMemory };

    fn from(_e: AllocError) -> WordsFault {
        WordsFault::NoMemory
    }
}

/// A command, or why there is none.
type Read = Result<Command, WordsFault>;

/// Reads the words of a command, without the program's name: exactly those that have a form.
pub fn read_words(alloc: Global, words: &[String]) -> Result<Command, WordsFault>
    ensures usage { (result ≡ Err WordsFault.Usage) ↔ (command_of (texts_of words.now) ≡ None) }
    ensures command { IfOk result (λ command. command_of (texts_of words.now) ≡ Some command) }
{
    read_command(alloc, words)
}

/// The same, as one relation.
fn read_command(alloc: Global, words: &[String]) -> Read
    ensures { Reads result (command_of (texts_of words.now)) }
{
    match words {
        [word, first, second] => {
            two_words(alloc, word.as_str(), first.as_str(), second.as_str())
        }
        [word, first, second, third] => three_words(
            alloc,
            word.as_str(),
            first.as_str(),
            second.as_str(),
            third.as_str(),
        ),
        [word, first, second, third, fourth] => four_words(
            alloc,
            word.as_str(),
            first.as_str(),
            second.as_str(),
            third.as_str(),
            fourth.as_str(),
        ),
        _ => Err(WordsFault::Usage),
    }
}

/// A command with two words behind its own.
fn two_words(alloc: Global, word: &str, first: &str, second: &str) -> Read
    ensures { Reads result (command_of (word.now ∷ first.now ∷ second.now ∷ [])) }
{
    if same(word, "plan") {
        plan_words(alloc, first, second)
    } else if same(word, "video") {
        video_words(alloc, first, second)
    } else if same(word, "wrap") {
        wrap_words(alloc, first, second)
    } else if same(word, "migrate") {
        migrate_words(alloc, first, second)
    } else if same(word, "sample") {
        sample_words(alloc, first, second)
    } else if same(word, "repair") {
        repair_words(alloc, first, second)
    } else {
        Err(WordsFault::Usage)
    }
}

/// A command with three words behind its own.
fn three_words(alloc: Global, word: &str, first: &str, second: &str, third: &str) -> Read
    ensures { Reads result (command_of (word.now ∷ first.now ∷ second.now ∷ third.now ∷ [])) }
{
    if same(word, "check") {
        check_words(alloc, first, second, third)
    } else if same(word, "send") {
        send_words(alloc, first, second, third)
    } else if same(word, "bsend") {
        bsend_words(alloc, first, second, third)
    } else if same(word, "merge") {
        merge_words(alloc, first, second, third)
    } else if same(word, "unwrap") {
        unwrap_words(alloc, first, second, third)
    } else if same(word, "replay") {
        replay_words(alloc, first, second, third)
    } else if same(word, "breceive") {
        breceive_words(alloc, first, second, third)
    } else if same(word, "relay") {
        relay_words(alloc, first, second, third)
    } else {
        Err(WordsFault::Usage)
    }
}

/// A command with four words behind its own.
fn four_words(
    alloc: Global,
    word: &str,
    first: &str,
    second: &str,
    third: &str,
    fourth: &str,
) -> Read
    ensures { Reads result (command_of (word.now ∷ first.now ∷ second.now ∷ third.now ∷ fourth.now ∷ [])) }
{
    if same(word, "receive") {
        receive_words(alloc, first, second, third, fourth)
    } else {
        Err(WordsFault::Usage)
    }
}

/// The words behind `plan`.
fn plan_words(alloc: Global, stream: &str, priority: &str) -> Read
    ensures { Reads result (if_formed (Some (Plan stream.now priority.now))) }
{
    if stream.is_empty() || priority.is_empty() {
        return Err(WordsFault::Usage);
    }
    let stream = Name::new(alloc, stream)?;
    let priority = Name::new(alloc, priority)?;
    Ok(Command::Plan { stream, priority })
}

/// The words behind `check`.
fn check_words(alloc: Global, stream: &str, priority: &str, plan: &str) -> Read
    ensures { Reads result (if_formed (Some (Check stream.now priority.now plan.now))) }
{
    if stream.is_empty() || priority.is_empty() || plan.is_empty() {
        return Err(WordsFault::Usage);
    }
    let stream = Name::new(alloc, stream)?;
    let priority = Name::new(alloc, priority)?;
    let plan = Name::new(alloc, plan)?;
    Ok(Command::Check {
        stream,
        priority,
        plan,
    })
}

/// The words behind `replay`.
fn replay_words(alloc: Global, stream: &str, priority: &str, script: &str) -> Read
    ensures { Reads result (if_formed (Some (Replay stream.now priority.now script.now))) }
{
    if stream.is_empty() || priority.is_empty() || script.is_empty() {
        return Err(WordsFault::Usage);
    }
    let stream = Name::new(alloc, stream)?;
    let priority = Name::new(alloc, priority)?;
    let script = Name::new(alloc, script)?;
    Ok(Command::Replay {
        stream,
        priority,
        script,
    })
}

/// The words behind `send`.
fn send_words(alloc: Global, stream: &str, priority: &str, to: &str) -> Read
    ensures { Reads result (if_formed (send_of stream.now priority.now (end_of 1 to.now))) }
{
    let Some(to) = read_end(to, 1) else {
        return Err(WordsFault::Usage);
    };
    if !are_send_files(stream, priority, to) {
        return Err(WordsFault::Usage);
    }
    let stream = Name::new(alloc, stream)?;
    let priority = Name::new(alloc, priority)?;
    let to = own_end(alloc, to)?;
    Ok(Command::Send {
        stream,
        priority,
        to,
    })
}

/// The words behind `bsend`.
fn bsend_words(alloc: Global, stream: &str, priority: &str, to: &str) -> Read
    ensures { Reads result (if_formed (bsend_of stream.now priority.now (end_of 1 to.now))) }
{
    let Some(to) = read_end(to, 1) else {
        return Err(WordsFault::Usage);
    };
    if !are_send_files(stream, priority, to) {
        return Err(WordsFault::Usage);
    }
    let stream = Name::new(alloc, stream)?;
    let priority = Name::new(alloc, priority)?;
    let to = own_end(alloc, to)?;
    Ok(Command::Bsend {
        stream,
        priority,
        to,
    })
}

/// The words behind `receive`.
fn receive_words(alloc: Global, from: &str, session: &str, layers: &str, store: &str) -> Read
    ensures { Reads result (if_formed (receive_of (end_of 0 from.now) (session_of session.now) layers.now store.now)) }
{
    let Some(from) = read_end(from, 0) else {
        return Err(WordsFault::Usage);
    };
    let Some(session) = read_session(session) else {
        return Err(WordsFault::Usage);
    };
    if !are_receive_files(from, layers, store) {
        return Err(WordsFault::Usage);
    }
    let from = own_end(alloc, from)?;
    let layers = Name::new(alloc, layers)?;
    let store = Name::new(alloc, store)?;
    Ok(Command::Receive {
        from,
        session,
        layers,
        store,
    })
}

/// The words behind `breceive`.
fn breceive_words(alloc: Global, from: &str, session: &str, layers: &str) -> Read
    ensures { Reads result (if_formed (breceive_of (end_of 0 from.now) (session_of session.now) layers.now)) }
{
    let Some(from) = read_end(from, 0) else {
        return Err(WordsFault::Usage);
    };
    let Some(session) = read_session(session) else {
        return Err(WordsFault::Usage);
    };
    if layers.is_empty() || !is_other(layers, from) {
        return Err(WordsFault::Usage);
    }
    let from = own_end(alloc, from)?;
    let layers = Name::new(alloc, layers)?;
    Ok(Command::Breceive {
        from,
        session,
        layers,
    })
}

/// The words behind `relay`.
fn relay_words(alloc: Global, from: &str, session: &str, to: &str) -> Read
    ensures { Reads result (if_formed (relay_of (end_of 0 from.now) (session_of session.now) (end_of 1 to.now))) }
{
    let Some(from) = read_end(from, 0) else {
        return Err(WordsFault::Usage);
    };
    let Some(session) = read_session(session) else {
        return Err(WordsFault::Usage);
    };
    let Some(to) = read_end(to, 1) else {
        return Err(WordsFault::Usage);
    };
    if !are_relay_files(from, to) {
        return Err(WordsFault::Usage);
    }
    let from = own_end(alloc, from)?;
    let to = own_end(alloc, to)?;
    Ok(Command::Relay { from, session, to })
}

/// The words behind `merge`.
fn merge_words(alloc: Global, first: &str, second: &str, out: &str) -> Read
    ensures { Reads result (if_formed (Some (Merge first.now second.now out.now))) }
{
    if first.is_empty() || second.is_empty() || out.is_empty() {
        return Err(WordsFault::Usage);
    }
    if same(out, first) || same(out, second) {
        return Err(WordsFault::Usage);
    }
    let first = Name::new(alloc, first)?;
    let second = Name::new(alloc, second)?;
    let out = Name::new(alloc, out)?;
    Ok(Command::Merge { first, second, out })
}

/// The words behind `video`.
fn video_words(alloc: Global, store: &str, out: &str) -> Read
    ensures { Reads result (if_formed (Some (Video store.now out.now))) }
{
    if store.is_empty() || out.is_empty() || same(out, store) {
        return Err(WordsFault::Usage);
    }
    let store = Name::new(alloc, store)?;
    let out = Name::new(alloc, out)?;
    Ok(Command::Video { store, out })
}

/// The words behind `wrap`.
fn wrap_words(alloc: Global, file: &str, out: &str) -> Read
    ensures { Reads result (if_formed (Some (Wrap file.now out.now))) }
{
    if file.is_empty() || out.is_empty() || same(out, file) {
        return Err(WordsFault::Usage);
    }
    let file = Name::new(alloc, file)?;
    let out = Name::new(alloc, out)?;
    Ok(Command::Wrap { file, out })
}

/// The words behind `migrate`.
fn migrate_words(alloc: Global, store: &str, out: &str) -> Read
    ensures { Reads result (if_formed (Some (Migrate store.now out.now))) }
{
    if store.is_empty() || out.is_empty() || same(out, store) {
        return Err(WordsFault::Usage);
    }
    let store = Name::new(alloc, store)?;
    let out = Name::new(alloc, out)?;
    Ok(Command::Migrate { store, out })
}

/// The words behind `unwrap`.
fn unwrap_words(alloc: Global, file: &str, id: &str, out: &str) -> Read
    ensures { Reads result (if_formed (unwrap_of file.now (id_of id.now) out.now)) }
{
    let Some(id) = read_id(id) else {
        return Err(WordsFault::Usage);
    };
    if id < 0xE0 || id > 0xEF {
        return Err(WordsFault::Usage);
    }
    if file.is_empty() || out.is_empty() || same(out, file) {
        return Err(WordsFault::Usage);
    }
    let file = Name::new(alloc, file)?;
    let out = Name::new(alloc, out)?;
    Ok(Command::Unwrap { file, id, out })
}

/// The words behind `sample`.
fn sample_words(alloc: Global, seed: &str, groups: &str) -> Read
    ensures { Reads result (if_formed (sample_of (plain_number seed.now) (plain_number groups.now))) }
{
    let Some(seed) = read_plain(seed) else {
        return Err(WordsFault::Usage);
    };
    let Some(groups) = read_plain(groups) else {
        return Err(WordsFault::Usage);
    };
    if groups < 1 || groups > u64::from(MAX_SAMPLE_GROUPS) {
        return Err(WordsFault::Usage);
    }
    let groups = groups as u32;
    Ok(Command::Sample { seed, groups })
}

/// The words behind `repair`.
fn repair_words(alloc: Global, store: &str, to: &str) -> Read
    ensures { Reads result (if_formed (repair_of store.now (end_of 1 to.now))) }
{
    let Some(to) = read_end(to, 1) else {
        return Err(WordsFault::Usage);
    };
    if store.is_empty() || !is_other(store, to) {
        return Err(WordsFault::Usage);
    }
    let store = Name::new(alloc, store)?;
    let to = own_end(alloc, to)?;
    Ok(Command::Repair { store, to })
}
