//! `receive` of datagrams that were made outside: from files, and by links.
use crate::shelf::Shelf;
use test_script::wrong_rows;

#[test]
fn answers_of_receive(rt: HostRuntime) {
    let mut shelf = Shelf::new(rt.alloc());
    assert_eq!(rt; wrong_rows(RECEIVED, &mut shelf).as_slice(), [].as_slice());
}

static RECEIVED: &str = "
-- packets: of another session, 0 and 1 of a session of one group and one layer, 1 and 3 of the words 5 and 7, and 5 of the example with
-- a bit flipped
put another 0033 50455432 1011121314151617 00000001 00000000 0002 0000 01 000000030001 abcdef00 70450910305d5b2b84c7f0db63526d82
put first0 0033 50455432 0001020304050607 00000001 00000000 0002 0000 01 000000030001 abcdef00 0b258fd734d4c7af7268f7f9f159c4c2
put first1 0033 50455432 0001020304050607 00000001 00000000 0002 0001 01 000000030001 abcdef00 3a1b6506d17588d0260f80ed45e09de1
put words1 0031 50455432 0001020304050607 00000001 00000000 0004 0001 01 000000040002 0002 7517fe6796d6d15a9f9369be076350b8
put words3 0031 50455432 0001020304050607 00000001 00000000 0004 0003 01 000000040002 000c b383844fe8e8e1b9143ec0b0b17bea1c
put flipped 0059 50455432 a5ac9461b03bcf36 00000001 00000000 0006 0005 03 0000002e00020000000700030000000f0005 0014010012010a0733000014077f1122feb80001084401b75477eb400e9a 0a1b834dcfa03e4fd8980417465db1b9

-- datagram files
put first =another =first1 =first0
put words =words3 =words3 =words1
put none
put all @packet:3 @packet:3 @packet:0 @packet:4 @packet:5 @packet:1 @packet:2
put repeated @packet:5 @packet:5 @packet:5 @packet:2
put mixed =another =flipped 0000 @packet:5 @packet:2
put byte 00

-- the layers and the store that each leaves
put first_layers 00000002000000000000000003abcdef
put words_layers 0000000300000000000000000400050007
put layer0 00000000000000002e0000000400000000120100000007020000000f0000000004000001b31122000001b83300000100000844000001b7
put all_layers 00000003 =layer0 00000004 00000000010000000700000100001055 00000006 00000000020000000f000001000018660000010000187777
put first_store 50545332 0001020304050607 00000002 =first0 =first1 d7f26a75d6b62518200c1b34396b4aea
put words_store 50545332 0001020304050607 00000002 =words1 =words3 248b06a95b27d566444326fa4c4c0836
put empty_store 50545332 0001020304050607 00000000 00b51c1e18f67199a7565f1c0e547404
put two_five 50545332 a5ac9461b03bcf36 00000002 @packet:2 @packet:5 4ffe1b3405c1d8c8a26256d3ba20341f
put whole 50545332 a5ac9461b03bcf36 00000006 @packet:0 @packet:1 @packet:2 @packet:3 @packet:4 @packet:5 2b37bd5edcaa9be46358d867177c77d2

-- short files of datagrams
$ receive file:first 0001020304050607 c1 d1
= Done(Totals { read: 3, kept: 2, shown: 1 })
is c1 =first_layers
is d1 =first_store
$ receive file:words 0001020304050607 c2 d2
= Done(Totals { read: 3, kept: 2, shown: 1 })
is c2 =words_layers
is d2 =words_store
$ receive file:none 0001020304050607 c3 d3
= Incomplete(Totals { read: 0, kept: 0, shown: 0 })
is c3
is d3 =empty_store
$ receive file:byte 0001020304050607 c4 d4
= Incomplete(Totals { read: 1, kept: 0, shown: 0 })
is c4
is d4 =empty_store

-- the file is missing
$ receive file:missing 0001020304050607 c5 d5
= PlaceFault
no c5
no d5
-- it is entered, and LAYERS made
fail place 0
$ receive file:first 0001020304050607 c6 d6
= PlaceFault
no c6
no d6
fail place 1
$ receive file:first 0001020304050607 c7 d7
= PlaceFault
no c7
no d7
-- the length and the packet of the first entry, which is refused
fail place 2
$ receive file:first 0001020304050607 c8 d8
= PlaceFault
is c8
no d8
fail place 3
$ receive file:first 0001020304050607 c9 d9
= PlaceFault
is c9
no d9
-- the second, which shows the layer: the head of its record, and its bytes
fail place 4
$ receive file:first 0001020304050607 c10 d10
= PlaceFault
is c10
no d10
fail place 5
$ receive file:first 0001020304050607 c11 d11
= PlaceFault
is c11
no d11
fail place 6
$ receive file:first 0001020304050607 c12 d12
= PlaceFault
is c12
no d12
fail place 7
$ receive file:first 0001020304050607 c13 d13
= PlaceFault
is c13 00000002000000000000000003
no d13
-- the third, and the end
fail place 8
$ receive file:first 0001020304050607 c14 d14
= PlaceFault
is c14 =first_layers
no d14
fail place 9
$ receive file:first 0001020304050607 c15 d15
= PlaceFault
is c15 =first_layers
no d15
fail place 10
$ receive file:first 0001020304050607 c16 d16
= PlaceFault
is c16 =first_layers
no d16
-- STORE is made, and its head, two packets and tag are put
fail place 11
$ receive file:first 0001020304050607 c17 d17
= PlaceFault
is c17 =first_layers
no d17
fail place 12
$ receive file:first 0001020304050607 c18 d18
= PlaceFault
is c18 =first_layers
is d18
fail place 13
$ receive file:first 0001020304050607 c19 d19
= PlaceFault
is c19 =first_layers
is d19 50545332 0001020304050607 00000002
fail place 14
$ receive file:first 0001020304050607 c20 d20
= PlaceFault
is c20 =first_layers
is d20 50545332 0001020304050607 00000002 =first0
fail place 15
$ receive file:first 0001020304050607 c21 d21
= PlaceFault
is c21 =first_layers
is d21 50545332 0001020304050607 00000002 =first0 =first1
-- the second put of LAYERS, of seven packets
fail place 9
$ receive file:all a5ac9461b03bcf36 c0 d0
= PlaceFault
is c0 00000003 00000000 00 0000002e
no d0
-- there are no more calls of the place, and none of the output
fail place 16
$ receive file:first 0001020304050607 c22 d22
= Done(Totals { read: 3, kept: 2, shown: 1 })
is c22 =first_layers
is d22 =first_store
fail out 0
$ receive file:first 0001020304050607 c23 d23
= Done(Totals { read: 3, kept: 2, shown: 1 })
is c23 =first_layers
is d23 =first_store

-- the example session, and two lists of the same two packets of it, which have one store
$ receive file:all a5ac9461b03bcf36 c24 d24
= Done(Totals { read: 7, kept: 6, shown: 3 })
is c24 =all_layers
is d24 =whole
$ receive file:repeated a5ac9461b03bcf36 c25 d25
= Incomplete(Totals { read: 4, kept: 2, shown: 1 })
is c25 00000004 =layer0
is d25 =two_five
$ receive file:mixed a5ac9461b03bcf36 c26 d26
= Incomplete(Totals { read: 5, kept: 2, shown: 1 })
is c26 00000005 =layer0
is d26 =two_five

-- by a link
-- the example session
hear @packet:3 @packet:3 @packet:0 @packet:4 @packet:5 @packet:1 @packet:2
$ receive udp:x:1 a5ac9461b03bcf36 c27 d27
> bound 40000
= Done(Totals { read: 7, kept: 6, shown: 3 })
is c27 =all_layers
is d27 =whole
-- the address
hear =another =first1 =first0
fail link 0
$ receive udp:x:1 0001020304050607 c28 d28
= LinkFault
no c28
no d28
-- the datagrams, of which the second shows the layer, and the end
fail link 1
$ receive udp:x:1 0001020304050607 c29 d29
> bound 40000
= LinkFault
is c29
no d29
fail link 2
$ receive udp:x:1 0001020304050607 c30 d30
> bound 40000
= LinkFault
is c30
no d30
fail link 3
$ receive udp:x:1 0001020304050607 c31 d31
> bound 40000
= LinkFault
is c31 =first_layers
no d31
fail link 4
$ receive udp:x:1 0001020304050607 c32 d32
> bound 40000
= LinkFault
is c32 =first_layers
no d32
-- there are no more calls
fail link 5
$ receive udp:x:1 0001020304050607 c33 d33
> bound 40000
= Done(Totals { read: 3, kept: 2, shown: 1 })
is c33 =first_layers
is d33 =first_store
-- LAYERS is made, behind the line of the port
fail place 0
$ receive udp:x:1 0001020304050607 c34 d34
> bound 40000
= PlaceFault
no c34
no d34
-- the head of the record, and its bytes
fail place 1
$ receive udp:x:1 0001020304050607 c35 d35
> bound 40000
= PlaceFault
is c35
no d35
fail place 2
$ receive udp:x:1 0001020304050607 c36 d36
> bound 40000
= PlaceFault
is c36 00000002000000000000000003
no d36
-- STORE is made, and its head, two packets and tag are put
fail place 3
$ receive udp:x:1 0001020304050607 c37 d37
> bound 40000
= PlaceFault
is c37 =first_layers
no d37
fail place 4
$ receive udp:x:1 0001020304050607 c38 d38
> bound 40000
= PlaceFault
is c38 =first_layers
is d38
fail place 5
$ receive udp:x:1 0001020304050607 c39 d39
> bound 40000
= PlaceFault
is c39 =first_layers
is d39 50545332 0001020304050607 00000002
fail place 6
$ receive udp:x:1 0001020304050607 c40 d40
> bound 40000
= PlaceFault
is c40 =first_layers
is d40 50545332 0001020304050607 00000002 =first0
fail place 7
$ receive udp:x:1 0001020304050607 c41 d41
> bound 40000
= PlaceFault
is c41 =first_layers
is d41 50545332 0001020304050607 00000002 =first0 =first1
-- there are no more calls of the place
fail place 8
$ receive udp:x:1 0001020304050607 c42 d42
> bound 40000
= Done(Totals { read: 3, kept: 2, shown: 1 })
is c42 =first_layers
is d42 =first_store
-- the line of the port, before LAYERS is made; nothing is printed behind it
fail out 0
$ receive udp:x:1 0001020304050607 c43 d43
= OutFault
no c43
no d43
fail out 1
$ receive udp:x:1 0001020304050607 c44 d44
> bound 40000
= Done(Totals { read: 3, kept: 2, shown: 1 })
is c44 =first_layers
is d44 =first_store

-- each layer is put, in two, before the next datagram is asked for; a link is asked for nothing once
-- it was quiet: an entry of no byte
hear @packet:3 @packet:3 @packet:0 @packet:4 @packet:5 @packet:1 @packet:2
$ receive udp:x:1 a5ac9461b03bcf36 q0 r0
> bound 40000
= Done(Totals { read: 7, kept: 6, shown: 3 })
asked 8 at [3, 3, 4, 4, 6, 6, 8, 8, 8, 8, 8, 8, 8, 8]
is q0 =all_layers
is r0 =whole
hear =another =first1 =first0 0000 @packet:3 @packet:3 @packet:0 @packet:4 @packet:5 @packet:1 @packet:2
$ receive udp:x:1 0001020304050607 q1 r1
> bound 40000
= Done(Totals { read: 3, kept: 2, shown: 1 })
asked 4 at [2, 2, 4, 4, 4, 4]
is q1 =first_layers
is r1 =first_store

-- the second put of the example session fails: the head of its first record is there
fail place 9
$ receive file:all a5ac9461b03bcf36 e0 f0
= PlaceFault
is e0 00000003 00000000 00 0000002e
no f0
hear @packet:3 @packet:3 @packet:0 @packet:4 @packet:5 @packet:1 @packet:2
fail place 2
$ receive udp:x:1 a5ac9461b03bcf36 e1 f1
> bound 40000
= PlaceFault
is e1 00000003 00000000 00 0000002e
no f1

-- two groups of six packets, whose layers 1 and 2 have no byte: a group shows them by its first packet, and layer 0 by its second
put g0 0045 50455432 895ad4c0a13de41c 00000002 00000000 0006 0000 03 000000140002000000000003000000000005 000000000b00b8010100 c640f8ae0e2349718cf1d658b18725c4
put g1 0045 50455432 895ad4c0a13de41c 00000002 00000000 0006 0001 03 000000140002000000000003000000000005 000100000b01b8010108 87a42456d436a79793acbebbbf8e2909
put g2 0045 50455432 895ad4c0a13de41c 00000002 00000000 0006 0002 03 000000140002000000000003000000000005 000200000b02b8010110 600b2f101b387b0e2e2521f3df0363b5
put g3 0045 50455432 895ad4c0a13de41c 00000002 00000000 0006 0003 03 000000140002000000000003000000000005 000300000b03b8010118 bd0f464764fc81f3375eb2f874c4c0f7
put g4 0045 50455432 895ad4c0a13de41c 00000002 00000000 0006 0004 03 000000140002000000000003000000000005 000400000b04b8010120 dbe86dbda46c331a1769aec3a1ebc697
put g5 0045 50455432 895ad4c0a13de41c 00000002 00000000 0006 0005 03 000000140002000000000003000000000005 000500000b05b8010128 5802731aa75870fb254744a5f81888dc
put h0 0045 50455432 895ad4c0a13de41c 00000002 00000001 0006 0000 03 000000140002000000000003000000000005 000000000b00b8020100 cd970ad0b6bc5680417ed160904a9d2e
put h1 0045 50455432 895ad4c0a13de41c 00000002 00000001 0006 0001 03 000000140002000000000003000000000005 000100000b01b8020108 d5d8304ccbce46702bac796abf8a7b91
put h2 0045 50455432 895ad4c0a13de41c 00000002 00000001 0006 0002 03 000000140002000000000003000000000005 000200000b02b8020110 455cca3000368c041715e85af230581d
put h3 0045 50455432 895ad4c0a13de41c 00000002 00000001 0006 0003 03 000000140002000000000003000000000005 000300000b03b8020118 885140ae1c2cc1b65846a0a5727a516b
put h4 0045 50455432 895ad4c0a13de41c 00000002 00000001 0006 0004 03 000000140002000000000003000000000005 000400000b04b8020120 1f0b571edd403507fe6cbd675999c2ac
put h5 0045 50455432 895ad4c0a13de41c 00000002 00000001 0006 0005 03 000000140002000000000003000000000005 000500000b05b8020128 3f9bf79e0f54fb6c8250387dcff7818b
put layer_g 00000000 00 00000014 00000001000000000b000001b801000001000008
put layer_h 00000001 00 00000014 00000001000000000b000001b802000001000008
put twelve =g0 =g1 =g2 =g3 =g4 =g5 =h0 =h1 =h2 =h3 =h4 =h5
$ receive file:twelve 895ad4c0a13de41c l_twelve s_twelve
= Done(Totals { read: 12, kept: 12, shown: 6 })
is l_twelve 00000001 00000000 01 00000000 00000001 00000000 02 00000000 00000002 =layer_g 00000007 00000001 01 00000000 00000007 00000001 02 00000000 00000008 =layer_h
long l_twelve 118
is s_twelve 50545332 895ad4c0a13de41c 0000000c =g0 =g1 =g2 =g3 =g4 =g5 =h0 =h1 =h2 =h3 =h4 =h5 dfedcdd035d7f98a37a02b17220961ef
long s_twelve 884
put rising =g0 =g1 =h0 =h1
$ receive file:rising 895ad4c0a13de41c l_rising s_rising
= Done(Totals { read: 4, kept: 4, shown: 6 })
is l_rising 00000001 00000000 01 00000000 00000001 00000000 02 00000000 00000002 =layer_g 00000003 00000001 01 00000000 00000003 00000001 02 00000000 00000004 =layer_h
is s_rising 50545332 895ad4c0a13de41c 00000004 =g0 =g1 =h0 =h1 c2c15c0b41a4a6bcfb6264a4f0b0974d
put mingled =g0 =h0 =g1 =h1
$ receive file:mingled 895ad4c0a13de41c l_mingled s_mingled
= Done(Totals { read: 4, kept: 4, shown: 6 })
is l_mingled 00000001 00000000 01 00000000 00000001 00000000 02 00000000 00000002 00000001 01 00000000 00000002 00000001 02 00000000 00000003 =layer_g 00000004 =layer_h
same s_mingled s_rising
";
