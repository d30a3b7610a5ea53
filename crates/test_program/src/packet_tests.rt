//! Runs of `migrate`, `relay` and `repair`, and of those that make packets again a forged one.
use crate::terminal::Terminal;
use test_script::wrong_rows;

#[test]
fn makes_packets_again(rt: HostRuntime) {
    let mut terminal = Terminal::new(rt.alloc());
    assert_eq!(rt; wrong_rows(RUNS, &mut terminal).as_slice(), [].as_slice());
}

static RUNS: &str = r#"
-- migrate
example
put a @old
put b @old_empty
$ send s f file:d
> session a5ac9461b03bcf36 groups 1 datagrams 6
= 0
$ receive file:d a5ac9461b03bcf36 l t
> read 6 kept 6 shown 3
= 0
$ migrate a n
> migrated 6
= 0
$ migrate n o
> fault version
= 18
$ migrate b m
> migrated 0
= 0
$ video b o
> fault store 1 Cut 24
= 9
$ merge t a o
> fault store 2 Magic 0
= 9
$ migrate s o
> fault store 1 Magic 0
= 9
$ migrate missing o
> fault place
= 3
same n t
is m 50545332a5ac9461b03bcf3600000000ccdb3b0a733bd5312e79ffe67cc10daa
no o

-- a store of one packet, whose datagram would be too long today
example
put w @old_wide
$ migrate w o
> fault wide 0
= 20
no o
new
put s @old_empty
fail out 0
$ migrate s d
= 5
has d

-- relay
example
put a @packet:3 @packet:3 @packet:0 @packet:4 @packet:5 @packet:1 @packet:2
put b @packet:5 @packet:5 @packet:5 @packet:2
put c @packet:0 @packet:1 @packet:3 @packet:4 005950455432a5ac9461b03bcf36000000010000000000060005030000002e00020000000700030000000f00050015000012010a0733000014077f1122feb80001084401b75477eb400e9afb8fdd862d19f5e9e09b3f68e20d4aec
$ relay file:a a5ac9461b03bcf36 file:o
> read 7 sent 6
= 0
$ relay file:b a5ac9461b03bcf36 file:n
> read 4 sent 2
> fault incomplete
= 12
$ relay file:c a5ac9461b03bcf36 file:m
> fault unlike 0 5
= 21
$ receive file:c a5ac9461b03bcf36 l t
> read 5 kept 5 shown 3
= 0
$ repair t file:e
> fault unlike 0 5
= 21
put g 0039 50455432 a5ac9461b03bcf36 00000001 00000000 0006 0005 02 000000020001000000040002 00010305 1bdbae9a9059cdd0e95542deb60716bc
put h 0039 50455432 a5ac9461b03bcf36 00000001 00000000 0006 0002 02 000000020001000000040002 00020302 b4ade17f999b2dd7d90855b4519c33b9
put k =g =h
$ relay file:k a5ac9461b03bcf36 file:q
> fault unlike 0 2
= 21
put t 50545332 a5ac9461b03bcf36 00000002 =h =g 78998c19ea25f9434984930209e2c7b7
$ repair t file:u
> fault unlike 0 5
= 21
$ relay file:a 0001020304050607 file:i
> read 7 sent 0
> fault incomplete
= 12
$ relay file:missing a5ac9461b03bcf36 file:j
> fault place
= 3
long o 546
is o @packet:3 @packet:0 @packet:4 @packet:5 @packet:1 @packet:2
long n 182
is n @packet:5 @packet:2
same m c
same q k
is e
is u
is i
no j
new
put s 003350455432a5ac9461b03bcf360000000100000000000100000100000004000100000001fb6f1aa696062bd50757b68b7691e32a
$ relay file:s a5ac9461b03bcf36 udp:x:1
> read 1 sent 1
= 0 sent 1
no d
new
$ relay udp:x:0 a5ac9461b03bcf36 file:d
> bound 40000
> read 0 sent 0
> fault incomplete
= 12
has d
back
fail link 0
$ relay udp:x:1 a5ac9461b03bcf36 file:d
> fault link
= 4
no d
new
put s 003350455432a5ac9461b03bcf360000000100000000000100000100000004000100000001fb6f1aa696062bd50757b68b7691e32a
fail link 0
$ relay file:s a5ac9461b03bcf36 udp:x:1
> fault link
= 4
no d
new
fail out 0
$ relay udp:x:1 a5ac9461b03bcf36 file:d
= 5
no d
new
put s 003350455432a5ac9461b03bcf360000000100000000000100000100000004000100000001fb6f1aa696062bd50757b68b7691e32a
fail out 0
$ relay file:s a5ac9461b03bcf36 file:d
= 5
has d

-- repair
example
put q @packet:4 @packet:0 @packet:5 @packet:1 @packet:3
put r @packet:5 @packet:2
$ send s f file:d
> session a5ac9461b03bcf36 groups 1 datagrams 6
= 0
$ receive file:q a5ac9461b03bcf36 l t
> read 5 kept 5 shown 3
= 0
$ receive file:r a5ac9461b03bcf36 k u
> read 2 kept 2 shown 1
> fault incomplete
= 12
$ repair t file:o
> repaired 1 datagrams 6
= 0
$ repair u file:n
> repaired 0 datagrams 0
= 0
$ repair s file:m
> fault store 1 Magic 0
= 9
$ repair missing file:m
> fault place
= 3
long o 546
same o d
is n
no m
new
put s 50545332a5ac9461b03bcf3600000000ccdb3b0a733bd5312e79ffe67cc10daa
fail link 1
$ repair s udp:x:1
> repaired 0 datagrams 0
= 0
no d
back
fail out 0
$ repair s file:d
= 5
has d
"#;
