//! `merge` of stores that were made outside.
use crate::shelf::Shelf;
use test_script::wrong_rows;

#[test]
fn answers_of_merge(rt: HostRuntime) {
    let mut shelf = Shelf::new(rt.alloc());
    assert_eq!(rt; wrong_rows(MERGED, &mut shelf).as_slice(), [].as_slice());
}

static MERGED: &str = "
-- packet 2 of the example session with another payload and a right tag
put changed 0059 50455432 a5ac9461b03bcf36 00000001 00000000 0006 0002 03 0000002e00020000000700030000000f0005 00090000120104071e0000080366112267b80001084401b7452b026dfce5 591e0ca727c59376106dd443b54bccc1

-- stores, the bytes of each, files that are none, and a store with the tag of another
put nothing 50545332 a5ac9461b03bcf36 00000000 ccdb3b0a733bd5312e79ffe67cc10daa
long nothing 32
put one_two 50545332 a5ac9461b03bcf36 00000002 @packet:1 @packet:2 9090df044921d6f391c8b9f5ea17dd74
long one_two 214
put two_five 50545332 a5ac9461b03bcf36 00000002 @packet:2 @packet:5 4ffe1b3405c1d8c8a26256d3ba20341f
put three 50545332 a5ac9461b03bcf36 00000003 @packet:1 @packet:2 @packet:5 a6fbdc8e7461ddc05f716a9f3e1c0c4a
long three 305
put whole 50545332 a5ac9461b03bcf36 00000006 @packet:0 @packet:1 @packet:2 @packet:3 @packet:4 @packet:5 2b37bd5edcaa9be46358d867177c77d2
long whole 578
put of_changed 50545332 a5ac9461b03bcf36 00000001 =changed 581519afa4b343d800c847d6d0155240
put other_nothing 50545332 0001020304050607 00000000 00b51c1e18f67199a7565f1c0e547404
put long 504554532e2e2e2e2e2e2e2e2e2e2e2e2e2e2e2e2e2e2e2e2e2e2e2e2e2e2e2e
put short 504554532e2e2e2e2e2e2e2e2e2e2e2e2e2e2e2e2e2e2e2e
put untagged 50545332 a5ac9461b03bcf36 00000002 @packet:1 @packet:2 00b51c1e18f67199a7565f1c0e547404

-- either order
$ merge one_two two_five o1
= Done(3)
is o1 =three
$ merge two_five one_two o2
= Done(3)
is o2 =three
$ merge one_two one_two o3
= Done(2)
is o3 =one_two
$ merge nothing whole o4
= Done(6)
is o4 =whole
$ merge whole nothing o5
= Done(6)
is o5 =whole
$ merge two_five whole o6
= Done(6)
is o6 =whole
$ merge whole two_five o7
= Done(6)
is o7 =whole

-- stores that are bad or cannot be joined, and files that are missing
$ merge one_two other_nothing o8
= OtherSession
no o8
$ merge one_two of_changed o9
= Clash(0, 2)
no o9
$ merge long one_two o10
= BadFirst(0, Magic)
no o10
$ merge short one_two o11
= BadFirst(24, Cut)
no o11
$ merge one_two long o12
= BadSecond(0, Magic)
no o12
$ merge one_two untagged o13
= BadSecond(198, Tag)
no o13
$ merge long missing o14
= BadFirst(0, Magic)
no o14
$ merge one_two missing o15
= PlaceFault
no o15
$ merge missing long o16
= PlaceFault
no o16

-- the first store is entered, taken whole, and ends
fail place 0
$ merge one_two two_five o17
= PlaceFault
no o17
fail place 1
$ merge one_two two_five o18
= PlaceFault
no o18
fail place 2
$ merge one_two two_five o19
= PlaceFault
no o19
-- the second
fail place 3
$ merge one_two two_five o20
= PlaceFault
no o20
fail place 4
$ merge one_two two_five o21
= PlaceFault
no o21
fail place 5
$ merge one_two two_five o22
= PlaceFault
no o22
-- OUT is made, and its head, three packets and tag are put
fail place 6
$ merge one_two two_five o23
= PlaceFault
no o23
fail place 7
$ merge one_two two_five o24
= PlaceFault
is o24
fail place 8
$ merge one_two two_five o25
= PlaceFault
is o25 50545332 a5ac9461b03bcf36 00000003
fail place 9
$ merge one_two two_five o26
= PlaceFault
is o26 50545332 a5ac9461b03bcf36 00000003 @packet:1
fail place 10
$ merge one_two two_five o27
= PlaceFault
is o27 50545332 a5ac9461b03bcf36 00000003 @packet:1 @packet:2
fail place 11
$ merge one_two two_five o28
= PlaceFault
is o28 50545332 a5ac9461b03bcf36 00000003 @packet:1 @packet:2 @packet:5
-- there are no more calls of the place
fail place 12
$ merge one_two two_five o29
= Done(3)
is o29 =three
";
