//! The plan of worked tables, the bounds of a table, and small tables against a slow search.
use crate::sizes::{Sizes, sized};
use std::alloc::{AllocError, Global};
use stripe_plan::{
    OldTable, Table, TableFault, bound, count, datagram_length, next_start, stripes,
};
use test_script::first_wrong;

/// The lengths and needs of layers, and packets, with the words, the stripes of their plan, the bound and the counts.
type Worked = (Sizes, u16, u32, u32, u32, (u16, u16, u16));

static WORKED: [Worked; 9] = [
    (&[(20, 10), (6, 20), (0, 20)], 20, 13, 2, 2, (10, 3, 1)),
    (&[(10, 4), (20, 8), (39, 16)], 16, 35, 5, 6, (4, 8, 16)),
    (&[(46, 2), (7, 3), (15, 5)], 6, 35, 15, 16, (2, 3, 5)),
    (&[(20, 2), (0, 3), (0, 5)], 6, 10, 5, 5, (2, 1, 1)),
    (&[(46, 8), (7, 2), (15, 5)], 8, 35, 7, 7, (8, 2, 5)),
    (&[(46, 2), (14, 3), (8, 4)], 6, 34, 15, 16, (2, 3, 4)),
    (&[(10, 10), (0, 1), (10, 10)], 10, 10, 1, 2, (10, 1, 10)),
    (
        &[(20_000, 60), (30_000, 80), (22_000, 95)],
        100,
        36_000,
        471,
        471,
        (60, 80, 95),
    ),
    // datagrams of 64,999 bytes, the longest that there are
    (
        &[(64_940, 1), (0, 1), (0, 1)],
        1,
        32_470,
        32_470,
        32_470,
        (1, 1, 1),
    ),
];

/// Whether a table has the numbers of this row.
fn has_numbers(table: &Table, row: &Worked) -> bool {
    table.layers().len() == 3
        && table.packets() == row.1
        && table.words() == row.2
        && stripes(table) == row.3
        && bound(table) == row.4
        && u64::from(datagram_length(table)) == 59 + 2 * u64::from(row.3)
        && (count(table, 0), count(table, 1), count(table, 2)) == row.5
}

/// Whether the layers of a row have a table with its numbers.
fn is_worked(alloc: Global, row: &Worked) -> Result<bool, AllocError> {
    let layers = sized(alloc, row.0)?;
    match Table::new(row.1, &layers) {
        Ok(table) => Ok(has_numbers(&table, row)),
        Err(_) => Ok(false),
    }
}

#[test]
fn has_the_numbers_of_worked_tables(rt: HostRuntime) {
    assert_eq!(rt;
        first_wrong(&WORKED, |row| is_worked(rt.alloc(), row)),
        None
    );
}

/// Packets and layers, and the end of each stripe of their plan.
type Planned = (u16, Sizes, &'static [u32]);

static PLANNED: [Planned; 4] = [
    (16, &[(10, 4), (20, 8), (40, 16)], &[4, 8, 16, 32, 35]),
    (8, &[(6, 8), (6, 2)], &[3, 5, 6]),
    (8, &[(46, 8), (7, 2), (15, 5)], &[8, 16, 23, 25, 27, 32, 35]),
    (16, &[(0, 4)], &[]),
];

/// Whether the stripes of a table's plan end so, from each start to the next.
fn has_ends(table: &Table, ends: &[u32]) -> bool {
    let words = table.words();
    let mut at = 0;
    for end in ends {
        if at >= words {
            return false;
        }
        at = next_start(table, at);
        if at != *end {
            return false;
        }
    }
    at == words
}

/// Whether these are the stripes of a table's plan as it goes over them.
fn has_stripes(table: &Table, ends: &[u32]) -> bool {
    let mut start = 0;
    let mut plan = table.plan();
    for end in ends {
        let Some((first, length)) = plan.next() else {
            return false;
        };
        if first != start || start.saturating_add(u32::from(length)) != *end {
            return false;
        }
        start = *end;
    }
    plan.next().is_none()
}

/// Whether the table of a row is planned so.
fn is_planned(alloc: Global, row: &Planned) -> Result<bool, AllocError> {
    let layers = sized(alloc, row.1)?;
    match Table::new(row.0, &layers) {
        Ok(table) => Ok(has_ends(&table, row.2) && has_stripes(&table, row.2)),
        Err(_) => Ok(false),
    }
}

#[test]
fn goes_over_the_stripes(rt: HostRuntime) {
    assert_eq!(rt;
        first_wrong(&PLANNED, |row| is_planned(rt.alloc(), row)),
        None
    );
}

/// Packets and layers, and why there is no such table and none of the first version.
type Refused = (u16, Sizes, Option<TableFault>, Option<TableFault>);

const FEW: Sizes = &[(1, 2), (1, 0)];

const MANY: Sizes = &[(0, 4_096); 33];

static REFUSED: [Refused; 12] = [
    (0, FEW, Some(TableFault::Packets), Some(TableFault::Packets)),
    (
        4_097,
        MANY,
        Some(TableFault::Packets),
        Some(TableFault::Packets),
    ),
    (
        4_096,
        &[],
        Some(TableFault::Layers),
        Some(TableFault::Layers),
    ),
    (
        4_096,
        MANY,
        Some(TableFault::Layers),
        Some(TableFault::Layers),
    ),
    (4_096, &[(0, 4_096); 32], None, None),
    (2, FEW, Some(TableFault::Need), Some(TableFault::Need)),
    (
        2,
        &[(1, 2), (1, 3)],
        Some(TableFault::Need),
        Some(TableFault::Need),
    ),
    (
        1,
        &[(4_194_304, 1), (1, 1)],
        Some(TableFault::Sum),
        Some(TableFault::Sum),
    ),
    (
        1,
        &[(4_194_304, 1), (0, 1)],
        Some(TableFault::Wide),
        Some(TableFault::Wide),
    ),
    // tags of 8 bytes less in the first version: three words more fit there
    (1, &[(64_940, 1), (0, 1), (0, 1)], None, None),
    (
        1,
        &[(64_942, 1), (0, 1), (0, 1)],
        Some(TableFault::Wide),
        None,
    ),
    (
        1,
        &[(64_950, 1), (0, 1), (0, 1)],
        Some(TableFault::Wide),
        Some(TableFault::Wide),
    ),
];

/// Whether the layers of a row are refused so.
fn is_refused(alloc: Global, row: &Refused) -> Result<bool, AllocError> {
    let layers = sized(alloc, row.1)?;
    Ok(Table::new(row.0, &layers).err() == row.2 && OldTable::new(row.0, &layers).err() == row.3)
}

#[test]
fn refuses_by_the_first_broken_bound(rt: HostRuntime) {
    assert_eq!(rt;
        first_wrong(&REFUSED, |row| is_refused(rt.alloc(), row)),
        None
    );
}

/// Whether a copy of the table is the same.
fn is_copied(table: &Table) -> bool {
    match table.clone() {
        Ok(copy) => copy == *table,
        Err(_) => false,
    }
}

/// Layers of a table of the first version, its stripes, and whether it is a table too.
type Old = (Sizes, u32, bool);

static OLD: [Old; 2] = [
    (&[(64_940, 1), (0, 1), (0, 1)], 32_470, true),
    (&[(64_948, 1), (0, 1), (0, 1)], 32_474, false),
];

/// Whether there is a table too, and with the same packets and layers, exactly where that is told.
fn is_kept(old: &OldTable, is_told: bool) -> bool {
    match old.table() {
        Some(table) => {
            is_told
                && table.packets() == old.packets()
                && table.layers() == old.layers()
                && is_copied(&table)
        }
        None => !is_told,
    }
}

/// Whether the layers of a row have a table of the first version with so many stripes.
fn is_old(alloc: Global, row: &Old) -> Result<bool, AllocError> {
    let layers = sized(alloc, row.0)?;
    match OldTable::new(1, &layers) {
        Ok(old) => Ok(old.stripes() == row.1 && is_kept(&old, row.2)),
        Err(_) => Ok(false),
    }
}

#[test]
fn has_eight_bytes_more_in_frames_of_the_first_version(rt: HostRuntime) {
    assert_eq!(rt; first_wrong(&OLD, |row| is_old(rt.alloc(), row)), None);
}

/// How many stripes the words have, one from each set bit of `cuts` on, or the words' number and one more where a stripe
/// is longer than the need of one of its words.
fn cut(needs: &[u16], cuts: u32) -> u32 {
    let (mut rest, mut found) = (cuts, 0u32);
    let (mut size, mut least) = (0u16, 0u16);
    for need in needs {
        if rest % 2 == 1 {
            found = found.saturating_add(1);
            (size, least) = (0, *need);
        }
        rest /= 2;
        size = size.saturating_add(1);
        least = least.min(*need);
        if least < size {
            return 7;
        }
    }
    found
}

/// The fewest stripes that six words of these needs can have.
fn fewest(needs: &[u16]) -> u32 {
    let mut fewest = 7;
    for rest in 0..32u32 {
        fewest = fewest.min(cut(needs, 2 * rest + 1));
    }
    fewest
}

/// Layers of six words, and the need of each word.
type Searched = (Sizes, &'static [u16]);

static SEARCHED: [Searched; 8] = [
    (&[(4, 2), (4, 3), (4, 4)], &[2, 2, 3, 3, 4, 4]),
    (&[(2, 1), (6, 3), (4, 6)], &[1, 3, 3, 3, 6, 6]),
    (&[(6, 2), (2, 4), (4, 4)], &[2, 2, 2, 4, 4, 4]),
    (&[(9, 3), (0, 3), (1, 6)], &[3, 3, 3, 3, 3, 6]),
    (&[(2, 4), (8, 4), (2, 5)], &[4, 4, 4, 4, 4, 5]),
    (&[(4, 1), (4, 2), (3, 6)], &[1, 1, 2, 2, 6, 6]),
    (&[(0, 1), (2, 2), (10, 5)], &[2, 5, 5, 5, 5, 5]),
    (&[(1, 6), (1, 6), (8, 6)], &[6, 6, 6, 6, 6, 6]),
];

/// Whether the plan of a row has as few stripes as the search finds.
fn has_fewest(alloc: Global, row: &Searched) -> Result<bool, AllocError> {
    let layers = sized(alloc, row.0)?;
    match Table::new(6, &layers) {
        Ok(table) => Ok(table.words() == 6 && stripes(&table) == fewest(row.1)),
        Err(_) => Ok(false),
    }
}

#[test]
fn has_as_few_stripes_as_a_search_over_all_partitions(rt: HostRuntime) {
    assert_eq!(rt;
        first_wrong(&SEARCHED, |row| has_fewest(rt.alloc(), row)),
        None
    );
}
