//! A keeper over a real file whose user tells what was acknowledged.
use packet_frame::read_frame;
use pet_base::{Got, Link, MAX_DATAGRAMS, MAX_ENTRY, MAX_PACKETS, MAX_SESSION, Steps};
use pet_ends::UdpLink;
use pet_field::Gf16Tables;
use pet_keep::{FileDisk, Keeper};
use pet_receive::{Receiver, Verdict};
use pet_text::{End, KeepWords};
use std::alloc::AllocError;
use std::io;
use std::sync::ledger::Ledger;

/// Keeps what comes by the link of FROM in JOURNAL. It prints `has GROUP NUMBER` of each packet that the journal has, then `bound
/// PORT`, and then `kept GROUP NUMBER` of each packet once it is acknowledged. It answers whether nothing failed.
pub fn tell_kept<L: Ledger>(
    rt: &HostRuntime,
    words: &KeepWords,
    steps: &mut Steps<L>,
) -> io::Result<bool> {
    let End::Udp(address) = &words.from else {
        return Ok(false);
    };
    let Ok(field) = Gf16Tables::new(rt.alloc()) else {
        return Err(AllocError.into());
    };
    let disk = FileDisk::new(rt, words.journal.as_str());
    match Keeper::start(rt.alloc(), &field, words.session, disk, MAX_SESSION, steps) {
        Ok(mut keeper) => {
            tell_journal(rt, keeper.receiver())?;
            keep_link(rt, address.as_str(), &mut keeper, steps)
        }
        Err(_) => Ok(false),
    }
}

/// Prints the packets that the journal has.
fn tell_journal(rt: &HostRuntime, receiver: &Receiver<'_, Gf16Tables>) -> io::Result<()> {
    for group in 0..receiver.groups().unwrap_or(0) {
        for number in 0..MAX_PACKETS {
            if receiver.has(group, number) {
                println!(rt; "has {group} {number}")?;
            }
        }
    }
    Ok(())
}

/// Receives at the address until it is quiet there, and tells of each packet.
fn keep_link<L: Ledger>(
    rt: &HostRuntime,
    address: &str,
    keeper: &mut Keeper<'_, Gf16Tables, FileDisk<'_, HostRuntime>>,
    steps: &mut Steps<L>,
) -> io::Result<bool> {
    let mut link = UdpLink::new(rt.alloc(), rt, rt.stderr());
    let Ok(port) = link.bind(address) else {
        return Ok(false);
    };
    println!(rt; "bound {port}")?;
    let mut buffer = vec![in rt.alloc(); 0u8; usize::from(MAX_ENTRY)]?;
    for turn in 0..MAX_DATAGRAMS {
        match link.next(&mut buffer) {
            Ok(Got::Datagram(count)) => {
                if !tell_datagram(rt, &buffer[..count], keeper, steps)? {
                    return Ok(false);
                }
            }
            Ok(Got::Quiet) => return Ok(true),
            Err(_) => return Ok(false),
        }
    }
    Ok(true)
}

/// Hands over a datagram, and prints its group and its number where it is acknowledged.
fn tell_datagram<L: Ledger>(
    rt: &HostRuntime,
    datagram: &[u8],
    keeper: &mut Keeper<'_, Gf16Tables, FileDisk<'_, HostRuntime>>,
    steps: &mut Steps<L>,
) -> io::Result<bool> {
    match keeper.accept(datagram, steps) {
        Ok(Verdict::Kept(_)) => {
            if let Ok(frame) = read_frame(datagram) {
                println!(rt; "kept {} {}", frame.header.group, frame.number)?;
            }
            Ok(true)
        }
        Ok(_) => Ok(true),
        Err(_) => Ok(false),
    }
}
