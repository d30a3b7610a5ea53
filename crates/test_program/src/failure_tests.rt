//! In each command each call of a file, of the link or of the output fails in its turn, alone and with each behind it: the status is
//! that of the object, nothing is asked for behind the failure, and what was written, sent and printed is a front of what the whole run
//! writes, sends and prints. Records, tags and the wrapped stream were made outside.
use crate::terminal::Terminal;
use test_script::wrong_rows;

#[test]
fn leaves_fronts_of_streams(rt: HostRuntime) {
    let mut terminal = Terminal::new(rt.alloc());
    assert_eq!(rt; wrong_rows(FILES, &mut terminal).as_slice(), [].as_slice());
    assert_eq!(rt;
        wrong_rows(OF_STREAMS, &mut terminal).as_slice(),
        [].as_slice()
    );
}

#[test]
fn leaves_fronts_of_datagrams(rt: HostRuntime) {
    let mut terminal = Terminal::new(rt.alloc());
    assert_eq!(rt; wrong_rows(FILES, &mut terminal).as_slice(), [].as_slice());
    assert_eq!(rt;
        wrong_rows(OF_DATAGRAMS, &mut terminal).as_slice(),
        [].as_slice()
    );
}

#[test]
fn leaves_fronts_of_stores(rt: HostRuntime) {
    let mut terminal = Terminal::new(rt.alloc());
    assert_eq!(rt; wrong_rows(FILES, &mut terminal).as_slice(), [].as_slice());
    assert_eq!(rt;
        wrong_rows(OF_STORES, &mut terminal).as_slice(),
        [].as_slice()
    );
}

static FILES: &str = r#"
example
put p @plan
put a 50545332a5ac9461b03bcf3600000000ccdb3b0a733bd5312e79ffe67cc10daa
put q @packet:0 @packet:1 @packet:2 @packet:3 @packet:4 @packet:5
put y @byte:0 @byte:1 @byte:2 @byte:3 @byte:4 @byte:5
put b 50545332 a5ac9461b03bcf36 00000006 =q 2b37bd5edcaa9be46358d867177c77d2
put g 50545332 a5ac9461b03bcf36 00000002 @packet:0 @packet:3 d548c2aeddb15010516f8eeca28d7f08
put h 50545332 a5ac9461b03bcf36 00000004 @packet:1 @packet:2 @packet:4 @packet:5 a8ec1e8b4f32b6f92efc5b980034c860
put m @old
> give A 0 0
put e
put w 000001ba2100010001800003000001e0002d0f000001b31122000001b8330000010000084400000100001055000001000018660000010000187777000001b7000001b9
put k 0000000200000000000000002e0000000400000000120100000007020000000f0000000004000001b31122000001b83300000100000844000001b700000003000000000100000007000001000010550000000500000000020000000f000001000018660000010000187777
hear @packet:0 @packet:1 @packet:2 @packet:3 @packet:4 @packet:5
"#;

static OF_STREAMS: &str = r#"
-- what reads a stream
$ plan s f
+ @plan
= 0
made
each place
each link 0
each out 1
$ check s f p
> least 1
= 0
made
each place
each link 0
each out 1
$ send s f file:d
> session a5ac9461b03bcf36 groups 1 datagrams 6
= 0
is d =q
made d
each place
each link 0
each out 1
back
$ send s f udp:x:1
> session a5ac9461b03bcf36 groups 1 datagrams 6
= 0 sent 6
sent @packet:0 @packet:1 @packet:2 @packet:3 @packet:4 @packet:5
made
each place
each link 7
each out 1
$ replay s f e
> store A datagrams 1 digest 450cceadebe045f4
= 0
made
each place
each link 0
each out 1
$ bsend s f file:d
> session a5ac9461b03bcf36 groups 1 datagrams 6
= 0
is d =y
made d
each place
each link 0
each out 1
back
$ bsend s f udp:x:1
> session a5ac9461b03bcf36 groups 1 datagrams 6
= 0 sent 6
sent @byte:0 @byte:1 @byte:2 @byte:3 @byte:4 @byte:5
made
each place
each link 7
each out 1
"#;

static OF_DATAGRAMS: &str = r#"
-- what receives
$ receive file:q a5ac9461b03bcf36 l t
> read 6 kept 6 shown 3
= 0
is l =k
is t =b
made l t
each place
each link 0
each out 1
back
$ receive udp:x:1 a5ac9461b03bcf36 l t
> bound 40000
> read 6 kept 6 shown 3
= 0
is l =k
is t =b
made l t
each place
each link 8
each out 2
back
$ breceive file:y a5ac9461b03bcf36 l
> read 6 kept 6 shown 3
= 0
is l =k
made l
each place
each link 0
each out 1
back
$ breceive file:q a5ac9461b03bcf36 l
> read 6 kept 0 shown 0
> fault incomplete
= 12
is l
made l
each place
each link 0
each out 1
back
$ relay file:q a5ac9461b03bcf36 file:o
> read 6 sent 6
= 0
is o =q
made o
each place
each link 0
each out 1
back
$ relay udp:x:1 a5ac9461b03bcf36 file:o
> bound 40000
> read 6 sent 6
= 0
is o =q
made o
each place
each link 8
each out 2
back
$ relay file:q a5ac9461b03bcf36 udp:x:1
> read 6 sent 6
= 0 sent 6
sent @packet:0 @packet:1 @packet:2 @packet:3 @packet:4 @packet:5
made
each place
each link 7
each out 1
"#;

static OF_STORES: &str = r#"
-- what reads a store, of no packet and of some, or a system stream
$ merge a a o
> merged 0
= 0
is o =a
made o
each place
each link 0
each out 1
back
$ merge g h o
> merged 6
= 0
is o =b
made o
each place
each link 0
each out 1
back
$ video a o
> video 0
= 0
is o
made o
each place
each link 0
each out 1
back
$ video b o
> video 44
= 0
is o @stream
made o
each place
each link 0
each out 1
back
$ migrate m o
> migrated 6
= 0
is o =b
made o
each place
each link 0
each out 1
back
$ repair a file:o
> repaired 0 datagrams 0
= 0
is o
made o
each place
each link 0
each out 1
back
$ repair b file:o
> repaired 1 datagrams 6
= 0
is o =q
made o
each place
each link 0
each out 1
back
$ repair b udp:x:1
> repaired 1 datagrams 6
= 0 sent 6
sent @packet:0 @packet:1 @packet:2 @packet:3 @packet:4 @packet:5
made
each place
each link 7
each out 1
$ wrap s o
> wrapped 67
= 0
is o =w
made o
each place
each link 0
each out 1
back
$ unwrap w e0 o
> unwrapped 44
= 0
is o @stream
made o
each place
each link 0
each out 1
back
$ unwrap s e0 o
> fault system NotUnit 0 179
= 24
is o
made o
each place
each link 0
each out 0
back
"#;
