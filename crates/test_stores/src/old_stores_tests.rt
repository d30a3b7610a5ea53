//! Stores of the first version, taken into the form of today. Another program made the tags.
use crate::shelf::Shelf;
use test_script::wrong_rows;

#[test]
fn answers_of_old_stores(rt: HostRuntime) {
    let mut shelf = Shelf::new(rt.alloc());
    assert_eq!(rt;
        wrong_rows(OLD_STORES, &mut shelf).as_slice(),
        [].as_slice()
    );
}

static OLD_STORES: &str = "
-- an old store, and one of no packet
put old @old
$ migrate_store 1000 old
= Ok(6)
long out 578
$ write_store 1000 @packet:0 @packet:1 @packet:2 @packet:3 @packet:4 @packet:5
= 578
same out store
put empty @old_empty
$ migrate_store 1000 empty
= Ok(0)
long out 32
$ write_store 1000
= 32
same out store

-- a store of today
$ migrate_store 1000 old
put new =out
$ migrate_store 1000 new
= Err(AlreadyNew)
put new 50545332
$ migrate_store 1000 new
= Err(AlreadyNew)

-- each length below the whole
$ migrate_store 1000 old 0 1
= Err(At(0, Cut))
$ migrate_store 1000 old 1 2
= Err(At(1, Cut))
$ migrate_store 1000 old 2 3
= Err(At(2, Cut))
$ migrate_store 1000 old 3 4
= Err(At(3, Cut))
$ migrate_store 1000 old 4 5
= Err(At(4, Cut))
$ migrate_store 1000 old 5 6
= Err(At(5, Cut))
$ migrate_store 1000 old 6 7
= Err(At(6, Cut))
$ migrate_store 1000 old 7 8
= Err(At(7, Cut))
$ migrate_store 1000 old 8 9
= Err(At(8, Cut))
$ migrate_store 1000 old 9 10
= Err(At(9, Cut))
$ migrate_store 1000 old 10 11
= Err(At(10, Cut))
$ migrate_store 1000 old 11 12
= Err(At(11, Cut))
$ migrate_store 1000 old 12 13
= Err(At(12, Cut))
$ migrate_store 1000 old 13 14
= Err(At(13, Cut))
$ migrate_store 1000 old 14 15
= Err(At(14, Cut))
$ migrate_store 1000 old 15 16
= Err(At(15, Cut))
$ migrate_store 1000 old 16 17
= Err(At(16, Cut))
$ migrate_store 1000 old 17 18
= Err(At(17, Cut))
$ migrate_store 1000 old 18 19
= Err(At(18, Cut))
$ migrate_store 1000 old 19 20
= Err(At(19, Cut))
$ migrate_store 1000 old 20 21
= Err(At(20, Cut))
$ migrate_store 1000 old 21 22
= Err(At(21, Cut))
$ migrate_store 1000 old 22 23
= Err(At(22, Cut))
$ migrate_store 1000 old 23 24
= Err(At(23, Cut))
$ migrate_store 1000 old 24 107
= Err(At(16, Cut))
$ migrate_store 1000 old 107 190
= Err(At(99, Cut))
$ migrate_store 1000 old 190 273
= Err(At(182, Cut))
$ migrate_store 1000 old 273 356
= Err(At(265, Cut))
$ migrate_store 1000 old 356 439
= Err(At(348, Cut))
$ migrate_store 1000 old 439 522
= Err(At(431, Cut))

-- changed stores
put t =old
set t 0 50455354
$ migrate_store 1000 t
= Err(At(0, Magic))
put t =old
set t 60 ff
$ migrate_store 1000 t
= Err(At(16, Frame))
put t =old
set t 4 a4
$ migrate_store 1000 t
= Err(At(16, Session))
put t =old
set t 15 05
$ migrate_store 1000 t
= Err(At(431, Rest))
put t =old
set t 15 07
$ migrate_store 1000 t
= Err(At(514, Cut))
put t =old
set t 521 00
$ migrate_store 1000 t
= Err(At(514, Tag))

-- a packet twice, and one as of two groups
cut old 16 99
put packet
put t =old
set t 99 =packet
$ migrate_store 1000 t
= Err(At(99, Order))
cut old 99 174
put packet
set packet 17 02
put t =old
set t 99 =packet c1ec6782ab0ba301
$ migrate_store 1000 t
= Err(At(99, Clash))

-- by both costs
$ migrate_store 485 old
= Err(At(16, Full))
$ migrate_store 486 old
= Err(Full(0))
$ migrate_store 533 old
= Err(Full(0))
$ migrate_store 534 old
= Ok(6)

-- a packet too wide
put wide @old_wide
$ migrate_store 100000 wide
= Err(TooWide(0))
$ migrate_store 64999 wide
= Err(TooWide(0))
-- three groups of 1, 10 and 1 packets, of 41 bytes each, and of 49 today: with the second there are 539, with the third 588
put three 50455453 a5ac9461b03bcf36 00000003 0029 50455431 a5ac9461b03bcf36 00000003 00000000 0001 0000 01 000000020001 0000 7ad8fd4486478ab6 0029 50455431 a5ac9461b03bcf36 00000003 00000001 000a 0000 01 000000020001 0001 e271824d962dcba2 0029 50455431 a5ac9461b03bcf36 00000003 00000002 0001 0000 01 000000020001 0002 cf790e5f230f1ea2 1acb5f7f7adfa541
$ migrate_store 491 three
= Err(At(102, Full))
$ migrate_store 500 three
= Err(Full(1))
$ migrate_store 539 three
= Err(Full(2))
$ migrate_store 588 three
= Ok(3)
";
