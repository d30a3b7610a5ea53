//! Stores of the example session and of one of two groups, written, read, merged, split and shown. Another program made the tags.
use crate::shelf::Shelf;
use test_script::wrong_rows;

#[test]
fn answers_of_stores(rt: HostRuntime) {
    let mut shelf = Shelf::new(rt.alloc());
    assert_eq!(rt; wrong_rows(STORES, &mut shelf).as_slice(), [].as_slice());
}

static STORES: &str = "
-- packets of the example session: 2 with another word at its end, 1 and 0 as of two groups, 0 with a bit of its payload changed
put changed @packet:2
set changed 74 e4f1ce8548ce0490d131dad835b90616d6
put one @packet:1
set one 17 02
set one 75 1d87979061cf0aa16249731f5169ccbd
put zero @packet:0
set zero 17 02
set zero 75 d15facb9e9b7ee7ecd5eeb05bca92a17
put flipped @packet:0
set flipped 45 01

-- packets 0 to 3 of two groups, g and h, and the last with another payload
put g0 0031 50455432 a5ac9461b03bcf36 00000002 00000000 0004 0000 01 000000040002 1000 d755f7f081dae753250b14be7e2eea5f
put g1 0031 50455432 a5ac9461b03bcf36 00000002 00000000 0004 0001 01 000000040002 1001 c89d49d7740131d8c6463e30aba3cb1c
put g2 0031 50455432 a5ac9461b03bcf36 00000002 00000000 0004 0002 01 000000040002 1002 ae4868ea5aec03d7ed14928eacfc23aa
put g3 0031 50455432 a5ac9461b03bcf36 00000002 00000000 0004 0003 01 000000040002 1003 a093c6e1389aa168d9f54c22ff596af5
put h0 0031 50455432 a5ac9461b03bcf36 00000002 00000001 0004 0000 01 000000040002 2000 267f1a140523361ca4d99bbbdba8bf44
put h1 0031 50455432 a5ac9461b03bcf36 00000002 00000001 0004 0001 01 000000040002 2001 ee106ad7d3e0f4cd31b18fe37a8f3f7d
put h2 0031 50455432 a5ac9461b03bcf36 00000002 00000001 0004 0002 01 000000040002 2002 8200ca42140745791e2d47f7debebf93
put h3 0031 50455432 a5ac9461b03bcf36 00000002 00000001 0004 0003 01 000000040002 2003 3fcd46879a9fc4d8dd20eec2df42e98e
put h4 0031 50455432 a5ac9461b03bcf36 00000002 00000001 0004 0003 01 000000040002 2103 39c835a4285d09b00fcafe7b3300f84d

-- stores of the example session, and of no packet
put none 50545332 a5ac9461b03bcf36 00000000 ccdb3b0a733bd5312e79ffe67cc10daa
put other_session 50545332 a5ac9461b03bcf37 00000000 0a053c7174324e1e48a9cfaad0a1126c
put all 50545332 a5ac9461b03bcf36 00000006 @packet:0 @packet:1 @packet:2 @packet:3 @packet:4 @packet:5 2b37bd5edcaa9be46358d867177c77d2
put one_two 50545332 a5ac9461b03bcf36 00000002 @packet:1 @packet:2 9090df044921d6f391c8b9f5ea17dd74
put two_five 50545332 a5ac9461b03bcf36 00000002 @packet:2 @packet:5 4ffe1b3405c1d8c8a26256d3ba20341f
put one_two_five 50545332 a5ac9461b03bcf36 00000003 @packet:1 @packet:2 @packet:5 a6fbdc8e7461ddc05f716a9f3e1c0c4a
put changed_five 50545332 a5ac9461b03bcf36 00000002 =changed @packet:5 b8071f066f8e72c0224f483f4fe4f527
put two_one_falling 50545332 a5ac9461b03bcf36 00000002 @packet:2 @packet:1 9e58c63dd8d9f9517c7ea57fec2b3bc3
put damaged 50545332 a5ac9461b03bcf36 00000002 @packet:1 @packet:2 00000000000000000000000000000000

-- stores of the session of two groups
put two_zero 50545332 a5ac9461b03bcf36 00000002 =g0 =g2 9bc9036f8e7c6f05eeea6748d0595005
put two_one 50545332 a5ac9461b03bcf36 00000001 =h3 0dc3f8a4d03a2ed71c8d6e29d3f60a91
put two_both 50545332 a5ac9461b03bcf36 00000002 =g1 =h3 cf9ea152d055af95d3838ca8573ee6d0
put two_changed 50545332 a5ac9461b03bcf36 00000002 =g1 =h4 90d3d256454f754629b0bf8b5697c0ff
put two_zero_one 50545332 a5ac9461b03bcf36 00000003 =g0 =g2 =h3 b8652b2f42d86dd450eb35df71c8db5a
put two_union 50545332 a5ac9461b03bcf36 00000004 =g0 =g1 =g2 =h3 75f9ffcb964e0c4a9fc5097dbfc4260e
put two_rising 50545332 a5ac9461b03bcf36 00000004 =g1 =g3 =h0 =h2 04ba32d2329aee4d62addc51e29c94ea

-- what is written
$ write_store 1000
= 32
same store none
$ write_store 1000 @packet:3 @packet:3 @packet:0 @packet:4 @packet:5 @packet:1 @packet:2
= 578
same store all
$ write_store 1000 @packet:2 @packet:1 @packet:2
= 214
same store one_two
$ write_store 392 =h2 =g3 =h0 =g1 =g3
= 236
same store two_rising
$ write_store 392 =g1 =g3 =h0 =h2
= 236
same store two_rising
$ write_store 392 =h3 =g1 =h4
= 134
same store two_both
$ write_store 392 =h3 =g2 =g1 =g0
= 236
same store two_union

-- what is merged
$ merge_stores 1000 one_two two_five
= Ok(())
same out one_two_five
$ merge_stores 1000 two_five one_two
= Ok(())
same out one_two_five
$ merge_stores 1000 one_two one_two
= Ok(())
same out one_two
$ merge_stores 1000 none two_five
= Ok(())
same out two_five
$ merge_stores 1000 none other_session
= Err(OtherSession)
is out
$ merge_stores 1000 one_two changed_five
= Err(Clash(0, 2))
is out
$ merge_stores 1000 damaged damaged
= Err(First(198, Tag))
is out
$ merge_stores 1000 one_two damaged
= Err(Second(198, Tag))
is out
$ merge_stores 1000 one_two two_one_falling
= Err(Second(107, Order))
is out
$ merge_stores 391 two_zero two_one
= Err(Full(1))
is out
$ merge_stores 392 two_zero two_one
= Ok(())
same out two_zero_one
$ merge_stores 391 two_one two_zero
= Err(Full(0))
is out
$ merge_stores 392 two_one two_zero
= Ok(())
same out two_zero_one
$ merge_stores 391 two_zero two_both
= Err(Second(67, Full))
is out
$ merge_stores 392 two_zero two_both
= Ok(())
same out two_union
$ merge_stores 392 two_both two_zero
= Ok(())
same out two_union
$ merge_stores 392 two_both two_changed
= Err(Clash(1, 3))
is out
$ merge_stores 392 two_changed two_zero_one
= Err(Clash(1, 3))
is out

-- merged stores of any packets are the store of all of these
$ sets 013 0234 4320310
$ sets 45 14 4154
$ sets 024 012 210420
$ sets 1345 2345 54325431
$ sets 01234 045 54043210
$ sets 2 125 5212
$ sets 035 0134 4310530
$ sets 123 4 4321
$ sets 0145 02 205410
$ sets 34 1345 543143
$ sets 02345 01235 5321054320
$ sets 15 25 5251
$ sets 012 034 430210
$ sets 235 123 321532
$ sets 04 01 1040
$ sets 1245 345 5435421
$ sets 0134 0235 53204310
$ sets - 15 51
$ sets 025 0124 4210520
$ sets 13 23 3231
$ sets 01235 0 053210
$ sets 24 1245 542142
$ sets 0345 0135 53105430
$ sets 1234 5 54321
$ sets 01 024 42010
$ sets 35 13 3153
$ sets 023 012345 543210320
$ sets 145 245 542541
$ sets 0124 035 5304210
$ sets 2345 1234 43215432

-- a receiver of a group has its packets alone
$ split_group two_union
= Some([[[true, true, true, false], [false, false, false, false]], [[false, false, false, false], [false, false, false, true]]])

-- the video of what has come
put no_run 0033 50455432a5ac9461b03bcf360000000100000000000100000100000004000100000001fb6f1aa696062bd50757b68b7691e32a
$ assemble 1000
= Err(NoTable)
is video
$ assemble 1000 @packet:0 @packet:4
= Ok(1)
is video 000001b31122000001b83300000100000844000001b7
$ assemble 1000 @packet:0 @packet:4 @packet:5
= Ok(2)
is video 000001b31122000001b8330000010000084400000100001055000001b7
$ assemble 1000 @packet:0 @packet:4 @packet:5 @packet:1 @packet:2 @packet:3
= Ok(3)
is video @stream
$ assemble 1000 =no_run
= Err(BadTable)
is video

-- a store is written to a file, read again, and written again
$ write_store_file 536870912
= Ok(())
same store none
$ read_store_file store again
= true 0 Ok(())
same again none
$ write_store_file 536870912 @packet:3 @packet:3 @packet:0 @packet:4 @packet:5 @packet:1 @packet:2
= Ok(())
same store all
$ read_store_file store again
= true 6 Ok(())
same again all
$ write_store_file 536870912 @packet:2 @packet:1 @packet:2
= Ok(())
same store one_two
$ read_store_file store again
= true 2 Ok(())
same again one_two

-- why a file has no store
$ read_store_file missing again
= Err(Failed)
put file
$ read_store_file file again
= Err(At(0, Cut))
put file 000000000000000000000000000000000000000000000000
$ read_store_file file again
= Err(At(24, Cut))
put file 0000000000000000000000000000000000000000000000000000000000000000
$ read_store_file file again
= Err(At(0, Magic))

-- stores, whole and wrong
put t 50545332 a5ac9461b03bcf36 00000000 ccdb3b0a733bd5312e79ffe67cc10daa
$ read_store 0 t
= Ok(0)
put t 50545332 a5ac9461b03bcf36 00000006 @packet:0 @packet:1 @packet:2 @packet:3 @packet:4 @packet:5 2b37bd5edcaa9be46358d867177c77d2
$ read_store 534 t
= Ok(6)
put t 50545332 a5ac9461b03bcf36 00000006 @packet:0 @packet:1 @packet:2 @packet:3 @packet:4 @packet:5 2b37bd5edcaa9be46358d867177c77d3
$ read_store 534 t
= Err(At(562, Tag))
put t 50545332 a5ac9461b03bcf36 00000001 @packet:0 040fbd620146f0065c7aa8989e65a011
$ read_store 534 t
= Ok(1)
-- the group takes 534 bytes
put t 50545332 a5ac9461b03bcf36 00000001 @packet:0 040fbd620146f0065c7aa8989e65a011
$ read_store 533 t
= Err(At(16, Full))
put t 50545332 a5ac9461b03bcf36 00000002 @packet:1 @packet:0 423088e3e53107e9e8f5af03a7527080
$ read_store 534 t
= Err(At(107, Order))
put t 50545332 a5ac9461b03bcf36 00000002 @packet:0 @packet:0 63e24a5b95f477011f0f1c04bc81462e
$ read_store 534 t
= Err(At(107, Order))
-- also of another number of groups
put t 50545332 a5ac9461b03bcf36 00000002 @packet:1 =zero 1ce6e5dd4d325bf532e0ed8590c02057
$ read_store 534 t
= Err(At(107, Order))
put t 50545332 a5ac9461b03bcf36 00000002 @packet:0 =one 19e900fd39398911068744e01f9dd8f5
$ read_store 534 t
= Err(At(107, Clash))
put t 50545332 a4ac9461b03bcf36 00000001 @packet:0 a9a8d919b656fb4a3b7e3eb10b5b065e
$ read_store 534 t
= Err(At(16, Session))
put t 50545332 a5ac9461b03bcf36 00000001 =flipped 825c6a444eddfcb4ff1d5d696c28f0a1
$ read_store 534 t
= Err(At(16, Frame))
put t 50545332 a5ac9461b03bcf36 00000001 @packet:0 @packet:1 245038de277de5246ba9c09484bfdc29
$ read_store 534 t
= Err(At(107, Rest))
put t 50545332 a5ac9461b03bcf36 00000000 @packet:0 b293f554abf4bf65d3840a63eae010f4
$ read_store 534 t
= Err(At(16, Rest))
put t 50545332 a5ac9461b03bcf36 00000002 @packet:0 4f517979de9f1a8288f6ad780a698052
$ read_store 534 t
= Err(At(107, Cut))
-- all before the tag is right, and then it is looked at
put t 50545332 a5ac9461b03bcf36 00000000 00000000000000000000000000000000
$ read_store 0 t
= Err(At(16, Tag))
put t 50545332 a5ac9461b03bcf36 00000000 @packet:0 00000000000000000000000000000000
$ read_store 534 t
= Err(At(16, Rest))

-- each front of a store
$ read_store 534 all 0 1
= Err(At(0, Cut))
$ read_store 534 all 1 2
= Err(At(1, Cut))
$ read_store 534 all 2 3
= Err(At(2, Cut))
$ read_store 534 all 3 4
= Err(At(3, Cut))
$ read_store 534 all 4 5
= Err(At(4, Cut))
$ read_store 534 all 5 6
= Err(At(5, Cut))
$ read_store 534 all 6 7
= Err(At(6, Cut))
$ read_store 534 all 7 8
= Err(At(7, Cut))
$ read_store 534 all 8 9
= Err(At(8, Cut))
$ read_store 534 all 9 10
= Err(At(9, Cut))
$ read_store 534 all 10 11
= Err(At(10, Cut))
$ read_store 534 all 11 12
= Err(At(11, Cut))
$ read_store 534 all 12 13
= Err(At(12, Cut))
$ read_store 534 all 13 14
= Err(At(13, Cut))
$ read_store 534 all 14 15
= Err(At(14, Cut))
$ read_store 534 all 15 16
= Err(At(15, Cut))
$ read_store 534 all 16 17
= Err(At(16, Cut))
$ read_store 534 all 17 18
= Err(At(17, Cut))
$ read_store 534 all 18 19
= Err(At(18, Cut))
$ read_store 534 all 19 20
= Err(At(19, Cut))
$ read_store 534 all 20 21
= Err(At(20, Cut))
$ read_store 534 all 21 22
= Err(At(21, Cut))
$ read_store 534 all 22 23
= Err(At(22, Cut))
$ read_store 534 all 23 24
= Err(At(23, Cut))
$ read_store 534 all 24 25
= Err(At(24, Cut))
$ read_store 534 all 25 26
= Err(At(25, Cut))
$ read_store 534 all 26 27
= Err(At(26, Cut))
$ read_store 534 all 27 28
= Err(At(27, Cut))
$ read_store 534 all 28 29
= Err(At(28, Cut))
$ read_store 534 all 29 30
= Err(At(29, Cut))
$ read_store 534 all 30 31
= Err(At(30, Cut))
$ read_store 534 all 31 32
= Err(At(31, Cut))
$ read_store 534 all 32 123
= Err(At(16, Cut))
$ read_store 534 all 123 214
= Err(At(107, Cut))
$ read_store 534 all 214 305
= Err(At(198, Cut))
$ read_store 534 all 305 396
= Err(At(289, Cut))
$ read_store 534 all 396 487
= Err(At(380, Cut))
$ read_store 534 all 487 578
= Err(At(471, Cut))

-- a store of the first version
put older 50455453303132333435363700000000615461674f663136427974657358595a
$ read_store 534 older 24 25
= Err(At(24, Cut))
$ read_store 534 older 31 32
= Err(At(31, Cut))
$ read_store 534 older
= Err(At(0, Magic))
";
