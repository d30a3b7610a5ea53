//! Runs of `breceive` and `bsend`. What they make of their ends is tested in `test_bytes`.
use crate::terminal::Terminal;
use test_script::wrong_rows;

#[test]
fn runs_in_the_byte_profile(rt: HostRuntime) {
    let mut terminal = Terminal::new(rt.alloc());
    assert_eq!(rt; wrong_rows(RUNS, &mut terminal).as_slice(), [].as_slice());
}

static RUNS: &str = r#"
-- breceive
example
put a @byte:3 @byte:3 @byte:0 @byte:4 @byte:5 @byte:1 @byte:2
put b @byte:5 @byte:5 @byte:5 @byte:2
$ breceive file:a a5ac9461b03bcf36 l
> read 7 kept 6 shown 3
= 0
$ breceive file:b a5ac9461b03bcf36 m
> read 4 kept 2 shown 1
> fault incomplete
= 12
$ breceive file:a 0001020304050607 n
> read 7 kept 0 shown 0
> fault incomplete
= 12
$ send s f file:d
> session a5ac9461b03bcf36 groups 1 datagrams 6
= 0
$ breceive file:d a5ac9461b03bcf36 n
> read 6 kept 0 shown 0
> fault incomplete
= 12
$ breceive file:missing a5ac9461b03bcf36 o
> fault place
= 3
long l 107
long m 59
long n 0
no o
new
$ breceive udp:x:1 a5ac9461b03bcf36 d
> bound 40000
> read 0 kept 0 shown 0
> fault incomplete
= 12
has d
back
fail link 1
$ breceive udp:x:1 a5ac9461b03bcf36 d
> bound 40000
> fault link
= 4
has d
back
fail link 0
$ breceive udp:x:1 a5ac9461b03bcf36 d
> fault link
= 4
no d
back
fail out 0
$ breceive udp:x:1 a5ac9461b03bcf36 d
= 5
no d
back
fail out 1
$ breceive udp:x:1 a5ac9461b03bcf36 d
> bound 40000
= 5
has d
new
put s
fail out 0
$ breceive file:s a5ac9461b03bcf36 d
= 5
has d

-- bsend
example
$ bsend s f file:d
> session a5ac9461b03bcf36 groups 1 datagrams 6
= 0
$ breceive file:d a5ac9461b03bcf36 l
> read 6 kept 6 shown 3
= 0
long d 540
is d @byte:0 @byte:1 @byte:2 @byte:3 @byte:4 @byte:5
example
$ bsend s f udp:x:1
> session a5ac9461b03bcf36 groups 1 datagrams 6
= 0 sent 6
no d
new
put s @stream
> packets = 256
> [[layer]]
> name = "a"
> kinds = ["head", "I", "P", "B"]
> need = 2
put f
$ bsend s f file:d
> fault plan ManyPackets 256
= 8
no d
new
put s @stream
> packets = 255
> [[layer]]
> name = "a"
> kinds = ["head", "I", "P", "B"]
> need = 2
put f
$ bsend s f file:d
> session 5b341af2f74ca41f groups 1 datagrams 255
= 0
has d
new
put s
> packets = 256
> [[layer]]
> name = "a"
> kinds = ["head", "I", "P", "B"]
> need = 2
put f
$ bsend s f file:d
> fault stream Empty 0
= 6
no d
example
$ bsend missing f file:d
> fault place
= 3
no d
back
fail link 0
$ bsend s f udp:x:1
> fault link
= 4
no d
"#;
