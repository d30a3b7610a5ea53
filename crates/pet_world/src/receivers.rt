//! The receivers of a world, one of them at a time.
ghost use Rattle.std.specs.Prelude.{◌≡◌, ◌≢◌, ◌<◌, ◌≤◌, ◌++◌, length, map, All, IfOk, IfErr, OnOk, OnErr, slice_get, slice_set, Some};
ghost use Rattle.pet_base.specs.declared.limits.TheConstants.{MAX_PACKETS};
ghost use Rattle.packet_verdicts.specs.KeptSet.{IsKeptSet, empty_set};
ghost use Rattle.pet_receive.specs.Arrivals.{kept_set, ReceiverState};
ghost use Rattle.pet_world.specs.inside.Receivers.{Accepts, Takes, CannotTake, Reopens, CannotReopen};

use field_rows::Rows;
use packet_verdicts::{Absorb, Verdict};
use pet_base::{NoMemory, Steps};
use pet_receive::Receiver;
use std::alloc::Global;
use std::mem;
use std::sync::ledger::Ledger;
use store_merge::{read_store, write_store};
use store_text::BadStore;

/// So many receivers of a session that have kept nothing.
pub(crate) fn empty_receivers<'f, F: Rows>(
    alloc: Global,
    f: &'f F,
    session: [u8; 8],
    limit: u64,
    many: u8,
) -> Result<Vec<Receiver<'f, F>>, NoMemory>
    requires width { F.coding.width ≡ 2 }
    requires points { MAX_PACKETS ≤ F.COUNT }
    ensures many { IfOk result (λ all. length all.items ≡ many) }
    ensures empty { IfOk result (λ all. All (λ r. kept_set r ≡ empty_set session limit) all.items) }
{
    let mut all = Vec::new(alloc);
    for index in 0..many {
        all.push(Receiver::new(alloc, f, session, limit))?;
    }
    Ok(all)
}

/// Hands a datagram to one of the receivers.
pub(crate) fn accept_at<F: Rows, L: Ledger>(
    receivers: &mut [Receiver<'_, F>],
    here: usize,
    datagram: &[u8],
    steps: &mut Steps<L>,
) -> Result<Verdict, NoMemory>
    requires { here < length receivers.old }
    ensures accepts { IfOk result (λ verdict. Accepts receivers.old here datagram.now verdict
        receivers.new steps.old steps.new) }
    ensures err { OnErr result (receivers.new ≡ receivers.old) }
{
    receivers[here].accept(datagram, steps)
}

/// Has one of the receivers take in what another has kept. The empty receiver stands in its place meanwhile.
pub(crate) fn absorb_at<'f, F: Rows, L: Ledger>(
    receivers: &mut [Receiver<'f, F>],
    empty: Receiver<'f, F>,
    here: usize,
    there: usize,
    steps: &mut Steps<L>,
) -> Result<Vec<(u32, u8)>, Absorb>
    requires here { here < length receivers.old }
    requires there { there < length receivers.old }
    requires apart { here ≢ there }
    ensures takes { IfOk result (λ shown. Takes receivers.old here there
        (map (λ s. (s.0, s.1)) shown.items) receivers.new steps.old steps.new) }
    ensures refused { IfErr result (λ fault. fault ≢ Absorb.NoMemory
        → CannotTake receivers.old here there fault) }
    ensures err { OnErr result (receivers.new ≡ receivers.old) }
{
    let mut mine = exchange(receivers, here, empty);
    let taken = mine.absorb(&receivers[there], steps);
    drop(exchange(receivers, here, mine));
    taken
}

/// Writes the store of one of the receivers, and puts what is read of it in its place.
pub(crate) fn reopen_at<'f, F: Rows, L: Ledger>(
    alloc: Global,
    f: &'f F,
    receivers: &mut [Receiver<'f, F>],
    here: usize,
    limit: u64,
    steps: &mut Steps<L>,
) -> Result<(), BadStore>
    requires here { here < length receivers.old }
    requires width { F.coding.width ≡ 2 }
    requires points { MAX_PACKETS ≤ F.COUNT }
    ensures reopens { OnOk result (Reopens receivers.old here limit receivers.new steps.old steps.new) }
    ensures refused { IfErr result (λ fault. fault ≢ BadStore.NoMemory
        → CannotReopen receivers.old here limit fault) }
    ensures err { OnErr result (receivers.new ≡ receivers.old) }
{
    let mut text = Vec::new(alloc);
    if let Err(none) = write_store(&receivers[here], &mut text) {
        return Err(BadStore::from(none));
    }
    match read_store(alloc, f, &text, limit, steps) {
        Ok(again) => {
            drop(exchange(receivers, here, again));
            Ok(())
        }
        Err(fault) => Err(fault),
    }
}

/// Puts an item in the place of another, and answers that.
pub(crate) fn exchange<T>(items: &mut [T], at: usize, item: T) -> T
    requires { at < length items.old }
    ensures found { slice_get items.old at ≡ Some result }
    ensures put { items.new ≡ slice_set items.old at item }
{
    mem::replace(&mut items[at], item)
}
