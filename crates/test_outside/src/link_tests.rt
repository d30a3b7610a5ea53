//! Datagrams over the loopback of this machine: what is sent arrives, and what fails.
ghost use Rattle.std.specs.Prelude.{◌≤◌, length};
ghost use Rattle.pet_base.specs.declared.limits.TheConstants.{MAX_ENTRY};

use crate::buffers::long;
use crate::room;
use pet_base::{Failed, Got, Link};
use pet_ends::UdpLink;
use std::alloc::Global;
use std::io::Stderr;
use std::test::Fail;
use std::time::{Duration, Instant};

/// The most bytes of a datagram that IPv4 has room for, beside its header and that of UDP.
const LONGEST: usize = 65_507;

/// A link that receives at a port of this host that the system chose, and one that sends to it. None where the machine
/// does not have this host.
fn pair<'a>(
    net: &'a HostRuntime,
    alloc: Global,
    host: &str,
) -> Result<
    Option<
        (
            UdpLink<'a, HostRuntime, Stderr>,
            UdpLink<'a, HostRuntime, Stderr>,
        ),
    >,
    Fail,
> {
    let (mut near, mut far) = (
        UdpLink::new(alloc, net, net.stderr()),
        UdpLink::new(alloc, net, net.stderr()),
    );
    let Ok(port) = near.bind(&format!(in alloc; "{host}:0")?) else {
        return Ok(None);
    };
    let aimed = far.aim(&format!(in alloc; "{host}:{port}")?);
    Ok(aimed.ok().map(|()| (near, far)))
}

/// Sends the datagrams, and says whether they come in their order, byte by byte.
fn arrive(
    near: &mut UdpLink<'_, HostRuntime, Stderr>,
    far: &mut UdpLink<'_, HostRuntime, Stderr>,
    datagrams: &[Vec<u8>],
    room: &mut [u8],
) -> bool
    requires { MAX_ENTRY ≤ length room.old }
{
    for datagram in datagrams {
        if far.send(datagram).is_err() {
            return false;
        }
    }
    for datagram in datagrams {
        match near.next(room) {
            Ok(Got::Datagram(count)) if room[..count] == datagram[..] => {}
            _ => return false,
        }
    }
    true
}

/// Whether datagrams of several lengths arrive at a port of this host, or none where the machine does not have it.
fn carries(net: &HostRuntime, alloc: Global, host: &str) -> Result<Option<bool>, Fail> {
    let mut room = room(alloc)?;
    let datagrams = vec![in alloc;
        Vec::from_slice(alloc, b"abc")?,
        Vec::new(alloc),
        long(alloc, LONGEST)?,
        Vec::from_slice(alloc, b"d")?,
    ]?;
    let Some((mut near, mut far)) = pair(net, alloc, host)? else {
        return Ok(None);
    };
    Ok(Some(arrive(&mut near, &mut far, &datagrams, &mut room)))
}

#[test]
fn datagrams_arrive_whole_and_in_order(rt: HostRuntime) -> Result<(), Fail> {
    for host in ["127.0.0.1", "localhost"] {
        assert_eq!(rt; carries(&rt, rt.alloc(), host)?, Some(true), "{host}");
    }
    assert!(rt; carries(&rt, rt.alloc(), "[::1]")? != Some(false));
    Ok(())
}

/// How often datagrams are sent, and how many each time: together far more than the system keeps for a socket, each time less.
const ROUNDS: u16 = 250;

const EACH_ROUND: u16 = 40;

/// The bytes of each of these datagrams, a common length.
const COMMON: usize = 1001;

/// Sends the datagrams of a round, each with its number in front.
fn send_round(
    far: &mut UdpLink<'_, HostRuntime, Stderr>,
    round: u16,
    datagram: &mut Vec<u8>,
) -> bool {
    for place in 0..EACH_ROUND {
        let number = round.wrapping_mul(EACH_ROUND).wrapping_add(place);
        if let Some(front) = datagram.first_chunk_mut() {
            *front = number.to_be_bytes();
        }
        if far.send(datagram).is_err() {
            return false;
        }
    }
    true
}

/// Whether the datagram of this number comes next.
fn comes(near: &mut UdpLink<'_, HostRuntime, Stderr>, number: u16, room: &mut [u8]) -> bool
    requires { MAX_ENTRY ≤ length room.old }
{
    near.next(room) == Ok(Got::Datagram(COMMON)) && room.starts_with(&number.to_be_bytes())
}

/// Sends round after round, and takes one datagram after each; then takes the others. Says whether all came in their order.
fn keeps_up(
    near: &mut UdpLink<'_, HostRuntime, Stderr>,
    far: &mut UdpLink<'_, HostRuntime, Stderr>,
    datagram: &mut Vec<u8>,
    room: &mut [u8],
) -> bool
    requires { MAX_ENTRY ≤ length room.old }
{
    for round in 0..ROUNDS {
        if !send_round(far, round, datagram) || !comes(near, round, room) {
            return false;
        }
    }
    for number in ROUNDS..ROUNDS * EACH_ROUND {
        if !comes(near, number, room) {
            return false;
        }
    }
    true
}

#[test]
fn no_datagram_is_lost_while_others_wait(rt: HostRuntime) -> Result<(), Fail> {
    let mut room = room(rt.alloc())?;
    let mut datagram = long(rt.alloc(), COMMON)?;
    let Some((mut near, mut far)) = pair(&rt, rt.alloc(), "127.0.0.1")? else {
        return Err(Failed.into());
    };
    assert!(rt; keeps_up(&mut near, &mut far, &mut datagram, &mut room));
    Ok(())
}

/// Whether what came at one port does not come at the next.
fn begins_anew(
    near: &mut UdpLink<'_, HostRuntime, Stderr>,
    far: &mut UdpLink<'_, HostRuntime, Stderr>,
    room: &mut [u8],
) -> bool
    requires { MAX_ENTRY ≤ length room.old }
{
    far.send(b"a").is_ok()
        && far.send(b"b").is_ok()
        && near.next(room) == Ok(Got::Datagram(1))
        && near.bind("127.0.0.1:0").is_ok()
        && near.next(room) == Ok(Got::Quiet)
}

#[test]
fn a_link_that_is_bound_again_has_nothing_of_before(rt: HostRuntime) -> Result<(), Fail> {
    let mut room = room(rt.alloc())?;
    let Some((mut near, mut far)) = pair(&rt, rt.alloc(), "127.0.0.1")? else {
        return Err(Failed.into());
    };
    assert!(rt; begins_anew(&mut near, &mut far, &mut room));
    Ok(())
}

/// Whether nothing comes.
fn is_quiet(link: &mut UdpLink<'_, HostRuntime, Stderr>, room: &mut [u8]) -> bool
    requires { MAX_ENTRY ≤ length room.old }
{
    link.bind("127.0.0.1:0").is_ok() && link.next(room) == Ok(Got::Quiet)
}

#[test]
fn it_is_quiet_after_three_seconds(rt: HostRuntime) -> Result<(), Fail> {
    let mut room = room(rt.alloc())?;
    let mut link = UdpLink::new(rt.alloc(), &rt, rt.stderr());
    let start = Instant::now(&rt)?;
    assert!(rt; is_quiet(&mut link, &mut room));
    assert!(rt; start.elapsed(&rt)? >= Duration::from_secs(3));
    Ok(())
}

#[test]
fn all_machines_of_a_network_are_sent_to(rt: HostRuntime) -> Result<(), Fail> {
    let mut link = UdpLink::new(rt.alloc(), &rt, rt.stderr());
    let aimed = link.aim("127.255.255.255:9").is_ok();
    assert!(rt; aimed && link.send(b"abc").is_ok());
    Ok(())
}

#[test]
fn an_interface_is_named_in_an_address(rt: HostRuntime) -> Result<(), Fail> {
    let mut link = UdpLink::new(rt.alloc(), &rt, rt.stderr());
    assert!(rt; link.aim("[fe80::1%no_interface]:9").is_err());
    assert!(rt; link.aim("[ff02::1%lo]:9").is_ok() || link.bind("[::1]:0").is_err());
    Ok(())
}

/// An address of no machine, no port, a port that is no number of 16 bits, and none of the forms.
static UNBOUND: [&str; 5] = ["192.0.2.1:0", "127.0.0.1", "127.0.0.1:65536", ":", ""];

static UNAIMED: [&str; 4] = ["127.0.0.1", "127.0.0.1:65536", "[::1]", ""];

/// The first of these addresses at which the link can receive.
fn first_bound(link: &mut UdpLink<'_, HostRuntime, Stderr>, addresses: &[&str]) -> Option<usize> {
    for row in 0..addresses.len() {
        if link.bind(addresses[row]).is_ok() {
            return Some(row);
        }
    }
    None
}

/// The first of these addresses to which it can send.
fn first_aimed(link: &mut UdpLink<'_, HostRuntime, Stderr>, addresses: &[&str]) -> Option<usize> {
    for row in 0..addresses.len() {
        if link.aim(addresses[row]).is_ok() {
            return Some(row);
        }
    }
    None
}

/// Whether a port in use cannot be bound again.
fn refuses_a_port_in_use(net: &HostRuntime, alloc: Global) -> Result<bool, Fail> {
    let mut first = UdpLink::new(alloc, net, net.stderr());
    let port = first.bind("127.0.0.1:0")?;
    let taken = format!(in alloc; "127.0.0.1:{port}")?;
    Ok(UdpLink::new(alloc, net, net.stderr()).bind(&taken).is_err())
}

#[test]
fn an_address_that_cannot_be_used_is_a_failure(rt: HostRuntime) -> Result<(), Fail> {
    let mut link = UdpLink::new(rt.alloc(), &rt, rt.stderr());
    assert!(rt; refuses_a_port_in_use(&rt, rt.alloc())?);
    assert_eq!(rt; first_bound(&mut link, &UNBOUND), None);
    assert_eq!(rt; first_aimed(&mut link, &UNAIMED), None);
    Ok(())
}

/// Whether the link is no end that receives, and does not send what is too long.
fn refuses_both(
    far: &mut UdpLink<'_, HostRuntime, Stderr>,
    too_long: &[u8],
    room: &mut [u8],
) -> bool
    requires { MAX_ENTRY ≤ length room.old }
{
    far.next(room).is_err() && far.send(too_long).is_err()
}

/// Whether three datagrams are sent.
fn sends_three(far: &mut UdpLink<'_, HostRuntime, Stderr>) -> bool {
    far.send(b"abc").is_ok() && far.send(b"abc").is_ok() && far.send(b"abc").is_ok()
}

#[test]
fn a_side_that_is_not_ready_fails_and_an_end_that_nobody_has_does_not(
    rt: HostRuntime,
) -> Result<(), Fail> {
    let mut room = room(rt.alloc())?;
    let too_long = long(rt.alloc(), LONGEST + 1)?;
    let Some((near, mut far)) = pair(&rt, rt.alloc(), "127.0.0.1")? else {
        return Err(Failed.into());
    };
    assert!(rt; refuses_both(&mut far, &too_long, &mut room));
    assert!(rt;
        UdpLink::new(rt.alloc(), &rt, rt.stderr())
            .send(b"abc")
            .is_err()
    );
    drop(near);
    assert!(rt; sends_three(&mut far));
    Ok(())
}
