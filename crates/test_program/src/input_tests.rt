//! Files that fail where they end, a link that is quiet once, and streams that end too soon.
use crate::terminal::Terminal;
use test_script::wrong_rows;

#[test]
fn stops_where_its_input_does(rt: HostRuntime) {
    let mut terminal = Terminal::new(rt.alloc());
    assert_eq!(rt; wrong_rows(INPUTS, &mut terminal).as_slice(), [].as_slice());
}

static INPUTS: &str = r#"
-- a file that fails behind some whole entries, with every call from there on: what is written has all that these give
example
put k 0000000200000000000000002e0000000400000000120100000007020000000f0000000004000001b31122000001b83300000100000844000001b700000003000000000100000007000001000010550000000500000000020000000f000001000018660000010000187777
put q @packet:0 @packet:1 @packet:2 @packet:3 @packet:4 @packet:5
given breaks
put i
$ receive file:i a5ac9461b03bcf36 l t
> fault place
= 3
cut k 0 0
is l
back
put i @packet:0
$ receive file:i a5ac9461b03bcf36 l t
> fault place
= 3
cut k 0 0
is l
back
put i @packet:0 @packet:1
$ receive file:i a5ac9461b03bcf36 l t
> fault place
= 3
cut k 0 59
is l
back
put i @packet:0 @packet:1 @packet:2
$ receive file:i a5ac9461b03bcf36 l t
> fault place
= 3
cut k 0 79
is l
back
put i @packet:0 @packet:1 @packet:2 @packet:3
$ receive file:i a5ac9461b03bcf36 l t
> fault place
= 3
cut k 0 79
is l
back
put i @packet:0 @packet:1 @packet:2 @packet:3 @packet:4
$ receive file:i a5ac9461b03bcf36 l t
> fault place
= 3
cut k 0 107
is l
back
put i @packet:0 @packet:1 @packet:2 @packet:3 @packet:4 @packet:5
$ receive file:i a5ac9461b03bcf36 l t
> fault place
= 3
cut k 0 107
is l
back

put i
$ breceive file:i a5ac9461b03bcf36 l
> fault place
= 3
cut k 0 0
is l
back
put i @byte:0
$ breceive file:i a5ac9461b03bcf36 l
> fault place
= 3
cut k 0 0
is l
back
put i @byte:0 @byte:1
$ breceive file:i a5ac9461b03bcf36 l
> fault place
= 3
cut k 0 59
is l
back
put i @byte:0 @byte:1 @byte:2
$ breceive file:i a5ac9461b03bcf36 l
> fault place
= 3
cut k 0 79
is l
back
put i @byte:0 @byte:1 @byte:2 @byte:3
$ breceive file:i a5ac9461b03bcf36 l
> fault place
= 3
cut k 0 79
is l
back
put i @byte:0 @byte:1 @byte:2 @byte:3 @byte:4
$ breceive file:i a5ac9461b03bcf36 l
> fault place
= 3
cut k 0 107
is l
back
put i @byte:0 @byte:1 @byte:2 @byte:3 @byte:4 @byte:5
$ breceive file:i a5ac9461b03bcf36 l
> fault place
= 3
cut k 0 107
is l
back

-- the fifth packet shows the last layer, and the sixth is sent with it
put i
$ relay file:i a5ac9461b03bcf36 file:l
> fault place
= 3
cut q 0 0
is l
back
put i @packet:0
$ relay file:i a5ac9461b03bcf36 file:l
> fault place
= 3
cut q 0 91
is l
back
put i @packet:0 @packet:1
$ relay file:i a5ac9461b03bcf36 file:l
> fault place
= 3
cut q 0 182
is l
back
put i @packet:0 @packet:1 @packet:2
$ relay file:i a5ac9461b03bcf36 file:l
> fault place
= 3
cut q 0 273
is l
back
put i @packet:0 @packet:1 @packet:2 @packet:3
$ relay file:i a5ac9461b03bcf36 file:l
> fault place
= 3
cut q 0 364
is l
back
put i @packet:0 @packet:1 @packet:2 @packet:3 @packet:4
$ relay file:i a5ac9461b03bcf36 file:l
> fault place
= 3
cut q 0 546
is l
back
put i @packet:0 @packet:1 @packet:2 @packet:3 @packet:4 @packet:5
$ relay file:i a5ac9461b03bcf36 file:l
> fault place
= 3
cut q 0 546
is l
back

-- a link is asked for nothing more once it was quiet, behind three packets
example
given quiet 4
hear @packet:0 @packet:1 @packet:2 @packet:3 @packet:4 @packet:5
$ receive udp:x:1 a5ac9461b03bcf36 l t
> bound 40000
> read 3 kept 3 shown 2
> fault incomplete
= 12
asked 4
$ relay udp:x:1 a5ac9461b03bcf36 file:o
> bound 40000
> read 3 sent 3
> fault incomplete
= 12
asked 4
hear @byte:0 @byte:1 @byte:2 @byte:3 @byte:4 @byte:5
$ breceive udp:x:1 a5ac9461b03bcf36 l
> bound 40000
> read 3 kept 3 shown 2
> fault incomplete
= 12
asked 4

-- the stream cut at each length: it has no head, or ends before a picture's type, or is planned
example
cut s 0 0
put z
$ plan z f
> fault stream Empty 0
= 6
cut s 0 1
put z
$ plan z f
> fault stream NoHead 1
= 6
cut s 0 2
put z
$ plan z f
> fault stream NoHead 2
= 6
cut s 0 3
put z
$ plan z f
> fault stream NoHead 2
= 6
fronts 4 14
cut s 0 15
put z
$ plan z f
> fault stream ShortPicture 11
= 6
cut s 0 16
put z
$ plan z f
> fault stream ShortPicture 11
= 6
fronts 17 21
cut s 0 22
put z
$ plan z f
> fault stream ShortPicture 18
= 6
cut s 0 23
put z
$ plan z f
> fault stream ShortPicture 18
= 6
fronts 24 28
cut s 0 29
put z
$ plan z f
> fault stream ShortPicture 25
= 6
cut s 0 30
put z
$ plan z f
> fault stream ShortPicture 25
= 6
fronts 31 35
cut s 0 36
put z
$ plan z f
> fault stream ShortPicture 32
= 6
cut s 0 37
put z
$ plan z f
> fault stream ShortPicture 32
= 6
fronts 38 44
"#;
