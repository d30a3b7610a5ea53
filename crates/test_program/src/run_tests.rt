//! Runs over files in memory and links, of the first commands. Session numbers were made outside.
use crate::terminal::Terminal;
use test_script::wrong_rows;

#[test]
fn runs(rt: HostRuntime) {
    let mut terminal = Terminal::new(rt.alloc());
    assert_eq!(rt; wrong_rows(RUNS, &mut terminal).as_slice(), [].as_slice());
}

static RUNS: &str = r#"
-- each status that the example session comes to

example
put p @plan
$ plan s f
+ @plan
= 0
no d
back
$ check s f p
> least 1
= 0
no d
back
$ send s f file:d
> session a5ac9461b03bcf36 groups 1 datagrams 6
= 0
has d
example
$ receive file:p 0001020304050607 l t
> read 0 kept 0 shown 0
> fault incomplete
= 12
no d
back
$ receive file:a 0001020304050607 l t
> fault place
= 3
no d
back
$ merge p p o
> fault store 1 Cut 0
= 9
no d
back
$ check s f p
> fault plan Lines 0
= 8
no d
example
> lengths 2x12
put p
$ check s f p
> fault least 0
= 16
no d
example
> lengths 2x11 1x1 3x1 1x1 5x1 3x1
put p
$ check s f p
> fault least 0
= 16
no d
example
> lengths 2x012
put p
$ check s f p
> fault plan Text 1
= 8
no d

-- a file is judged before the next is read
new
> packets = 4097
put f
$ plan missing f
> fault priority MissingKey
= 7
no d
new
> packets = 4097
put f
put p
$ check missing f p
> fault priority MissingKey
= 7
no d
new
> packets = 4097
put f
$ send missing f file:d
> fault priority MissingKey
= 7
no d
new
put f @priorities
$ plan missing f
> fault place
= 3
no d
new
put s
put f @priorities
$ check s f missing
> fault stream Empty 0
= 6
no d
back
$ send s f file:d
> fault stream Empty 0
= 6
no d
new
put s
$ send s missing file:d
> fault place
= 3
no d

-- by a link
example
fail link 9
$ receive udp:x:1 0001020304050607 l t
> bound 40000
> read 0 kept 0 shown 0
> fault incomplete
= 12
no d
back
fail link 0
$ receive udp:x:1 0001020304050607 l t
> fault link
= 4
no d
back
fail link 1
$ receive udp:x:1 0001020304050607 l t
> bound 40000
> fault link
= 4
no d
back
fail link 9
$ send s f udp:x:1
> session a5ac9461b03bcf36 groups 1 datagrams 6
= 0 sent 6
no d
back
fail link 0
$ send s f udp:x:1
> fault link
= 4
no d
back
fail link 3
$ send s f udp:x:1
> fault link
= 4 sent 2
no d

-- nothing is printed behind a failure of the output
back
fail out 0
$ plan s f
= 5
no d
example
put p @plan
fail out 0
$ check s f p
= 5
no d
example
fail out 0
$ send s f file:d
= 5
has d
back
fail out 0
$ receive file:p 0001020304050607 l d
= 5
has d
back
fail out 0
$ receive udp:x:1 0001020304050607 l d
= 5
no d
back
fail out 1
$ receive udp:x:1 0001020304050607 l d
> bound 40000
= 5
has d
new
put s 50545332a5ac9461b03bcf3600000000ccdb3b0a733bd5312e79ffe67cc10daa
fail out 0
$ merge s s d
= 5
has d
back
fail out 0
$ video s d
= 5
has d
example
fail out 1
$ receive file:p 0001020304050607 l t
> read 0 kept 0 shown 0
= 12
no d
back
fail out 0
$ plan s
= 1
no d

-- two groups that are sent and received, and their store joined with itself and shown
new
put s 000001b801000001000008000001b802000001000008
put f @priorities
$ send s f file:d
> session 895ad4c0a13de41c groups 2 datagrams 12
= 0
$ receive file:d 895ad4c0a13de41c l t
> read 12 kept 12 shown 6
= 0
$ merge t t o
> merged 12
= 0
$ video o v
> video 22
= 0
$ repair t file:r
> repaired 2 datagrams 12
= 0
same r d
is l 00000001 00000000 01 00000000 00000001 00000000 02 00000000 00000002 00000000 00 00000014 00000001000000000b 000001b801000001000008 00000007 00000001 01 00000000 00000007 00000001 02 00000000 00000008 00000001 00 00000014 00000001000000000b 000001b802000001000008
long l 118
long t 884
same o t
is v 000001b801000001000008000001b802000001000008

-- a layer 0 that is received, and tells no run
example
put d 003350455432a5ac9461b03bcf360000000100000000000100000100000004000100000001fb6f1aa696062bd50757b68b7691e32a
$ receive file:d a5ac9461b03bcf36 l t
> read 1 kept 1 shown 1
= 0
$ video t v
> fault table 0
= 15
is v
"#;
