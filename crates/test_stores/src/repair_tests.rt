//! Encoders of groups that were kept, `repair` and `relay` of packets that were made outside.
use crate::shelf::Shelf;
use test_script::wrong_rows;

#[test]
fn answers_of_repair(rt: HostRuntime) {
    let mut shelf = Shelf::new(rt.alloc());
    assert_eq!(rt; wrong_rows(REPAIRED, &mut shelf).as_slice(), [].as_slice());
}

static REPAIRED: &str = "
-- packet 5 of the example session with another lowest bit of its first word, and a right tag
put forged @packet:5
set forged 45 0015000012010a0733000014077f1122feb80001084401b75477eb400e9afb8fdd862d19f5e9e09b3f68e20d4aec

-- stores, and one with the tag of another
put all 50545332 a5ac9461b03bcf36 00000006 @packet:0 @packet:1 @packet:2 @packet:3 @packet:4 @packet:5 2b37bd5edcaa9be46358d867177c77d2
put five 50545332 a5ac9461b03bcf36 00000005 @packet:0 @packet:1 @packet:3 @packet:4 @packet:5 9b9348fce87487396c2fc07a22de8b74
put one_forged 50545332 a5ac9461b03bcf36 00000005 @packet:0 @packet:1 @packet:3 @packet:4 =forged d3a1bc891fe1f641e76a5862e9314b6d
put two 50545332 a5ac9461b03bcf36 00000002 @packet:2 @packet:5 4ffe1b3405c1d8c8a26256d3ba20341f
put bad 50545332 a5ac9461b03bcf36 00000002 @packet:2 @packet:5 9b9348fce87487396c2fc07a22de8b74

-- packets 5 and 2 of a session with needs 1 and 2, whose words of stripe 0 differ, and their store
put w5 0039 50455432 a5ac9461b03bcf36 00000001 00000000 0006 0005 02 000000020001000000040002 00010305 1bdbae9a9059cdd0e95542deb60716bc
put w2 0039 50455432 a5ac9461b03bcf36 00000001 00000000 0006 0002 02 000000020001000000040002 00020302 b4ade17f999b2dd7d90855b4519c33b9
put w 50545332 a5ac9461b03bcf36 00000002 =w2 =w5 78998c19ea25f9434984930209e2c7b7

-- of how many groups a receiver of these packets was told, and why a group has no encoder
$ encoder_of 1000
= 0 Err(NotOpen)
$ encoder_of 1000 @packet:4
= 1 Err(NotShown(0))
$ encoder_of 1000 @packet:4 @packet:1
= 1 Err(NotShown(1))
$ encoder_of 1000 @packet:4 @packet:1 @packet:0 @packet:2
= 1 Err(NotShown(2))

-- the first packet that is unlike
$ encoder_of 1000 @packet:0 @packet:1 @packet:3 @packet:4 @packet:5
= 1 Ok(None)
$ encoder_of 1000 @packet:5 @packet:4 @packet:3 @packet:2 @packet:1 @packet:0
= 1 Ok(None)
$ encoder_of 1000 @packet:0 @packet:1 @packet:3 @packet:4 =forged
= 1 Ok(Some(5))
$ encoder_of 1000 @packet:3 @packet:1 @packet:0 @packet:4 =forged
= 1 Ok(Some(5))
$ encoder_of 1000 @packet:0 @packet:1 @packet:2 @packet:3 @packet:4 =forged
= 1 Ok(Some(5))
-- the first that came is the one that is taken
$ encoder_of 1000 =w5 =w2
= 1 Ok(Some(2))
$ encoder_of 1000 =w2 =w5
= 1 Ok(Some(5))

-- to a file: a packet that lacks, none that lacks, too few, a forged one, a store that is refused
$ repair five file:t0
= Done { groups: 1, datagrams: 6 }
is t0 @packet:0 @packet:1 @packet:2 @packet:3 @packet:4 @packet:5
$ repair all file:t1
= Done { groups: 1, datagrams: 6 }
is t1 @packet:0 @packet:1 @packet:2 @packet:3 @packet:4 @packet:5
$ repair two file:t2
= Done { groups: 0, datagrams: 0 }
is t2
$ repair one_forged file:t3
= Unlike(0, 5)
is t3
$ repair bad file:t4
= BadStore(198, Tag)
no t4
-- a store's packets come by their numbers
$ repair w file:t8
= Unlike(0, 5)
is t8
-- the store cannot be entered, TO not be made, and the first packet not be put
fail place 0
$ repair five file:t5
= PlaceFault
no t5
fail place 3
$ repair five file:t6
= PlaceFault
no t6
fail place 4
$ repair five file:t7
= PlaceFault
is t7

-- to an address; and the link fails at its second datagram: the first was sent
$ repair five udp:x:1
= Done { groups: 1, datagrams: 6 } sent 6
is sent @packet:0 @packet:1 @packet:2 @packet:3 @packet:4 @packet:5
fail link 2
$ repair five udp:x:1
= LinkFault sent 1
is sent @packet:0

-- a relay to a file: a group whose last packet is made again before it comes, and one that is made again where it does not come; a
-- packet thrice, and too few of a group; none; a forged one
put from @packet:3 @packet:3 @packet:0 @packet:4 @packet:5 @packet:1 @packet:2
$ relay file:from a5ac9461b03bcf36 file:r0
= Done { read: 7, sent: 6 }
is r0 @packet:3 @packet:0 @packet:4 @packet:5 @packet:1 @packet:2
put from @packet:0 @packet:2 @packet:3 @packet:4 @packet:5
$ relay file:from a5ac9461b03bcf36 file:r1
= Done { read: 5, sent: 6 }
is r1 @packet:0 @packet:2 @packet:3 @packet:4 @packet:5 @packet:1
put from @packet:5 @packet:5 @packet:5 @packet:2
$ relay file:from a5ac9461b03bcf36 file:r2
= Incomplete { read: 4, sent: 2 }
is r2 @packet:5 @packet:2
put from
$ relay file:from a5ac9461b03bcf36 file:r3
= Incomplete { read: 0, sent: 0 }
is r3
put from @packet:0 @packet:1 @packet:3 @packet:4 =forged
$ relay file:from a5ac9461b03bcf36 file:r4
= Unlike(0, 5)
is r4 @packet:0 @packet:1 @packet:3 @packet:4 =forged
-- by the order in which they came, and not by their numbers
put from =w5 =w2
$ relay file:from a5ac9461b03bcf36 file:r8
= Unlike(0, 2)
is r8 =w5 =w2
put from =w2 =w5
$ relay file:from a5ac9461b03bcf36 file:r9
= Unlike(0, 5)
is r9 =w2 =w5
-- FROM cannot be entered, TO not be made, and the second packet not be put
put from @packet:3 @packet:3 @packet:0 @packet:4 @packet:5 @packet:1 @packet:2
fail place 0
$ relay file:from a5ac9461b03bcf36 file:r5
= PlaceFault
no r5
put from @packet:3 @packet:3 @packet:0 @packet:4 @packet:5 @packet:1 @packet:2
fail place 1
$ relay file:from a5ac9461b03bcf36 file:r6
= PlaceFault
no r6
put from @packet:3 @packet:3 @packet:0 @packet:4 @packet:5 @packet:1 @packet:2
fail place 9
$ relay file:from a5ac9461b03bcf36 file:r7
= PlaceFault
is r7 @packet:3
";
