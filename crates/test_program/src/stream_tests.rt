//! Runs of `wrap`, `unwrap` and `replay`. The digests were made by another program, by the formats.
use crate::terminal::Terminal;
use test_script::wrong_rows;

#[test]
fn runs_streams_and_scripts(rt: HostRuntime) {
    let mut terminal = Terminal::new(rt.alloc());
    assert_eq!(rt; wrong_rows(RUNS, &mut terminal).as_slice(), [].as_slice());
}

static RUNS: &str = r#"
-- wrap and unwrap
example
$ wrap s m
> wrapped 67
= 0
$ unwrap m e0 v
> unwrapped 44
= 0
$ unwrap m e1 n
> fault system NoVideo 0
= 24
$ unwrap s e0 w
> fault system NotUnit 0 179
= 24
$ unwrap missing e0 x
> fault place
= 3
$ wrap missing x
> fault place
= 3
is v @stream
is n
is w
no x
example
fail out 0
$ wrap s d
= 5
has d
back
$ wrap s d
> wrapped 67
= 0
has d

-- replay
example
> give A 0 0
> give B 0 1
> join A B
> reopen A
> join A B
put p
$ replay s f p
> event 3 receiver A group 0 layer 0 bytes 46 digest 194afb7a279a5b89
> store A datagrams 2 digest e58b8d2bd15ccb4d
> store B datagrams 1 digest 259dc66123b8ca42
= 0
no d
example
> give A 0 0
> give B 0 1
> join A B
> reopen A
> join A B
> give A 1 0
put p
$ replay s f p
> fault script 6
= 14
no d
example
> give A 0 0
> give A 0 2
> give A 0 4
> give B 0 1
> give B 0 3
> give B 0 5
> join A B
put p 6a6f696e20422041
$ replay s f p
> event 2 receiver A group 0 layer 0 bytes 46 digest 194afb7a279a5b89
> event 3 receiver A group 0 layer 1 bytes 7 digest 7c7e3a71fbb29a56
> event 5 receiver B group 0 layer 0 bytes 46 digest 194afb7a279a5b89
> event 6 receiver B group 0 layer 1 bytes 7 digest 7c7e3a71fbb29a56
> event 7 receiver A group 0 layer 2 bytes 15 digest 39b122c6c92737b7
> event 8 receiver B group 0 layer 2 bytes 15 digest 39b122c6c92737b7
> store A datagrams 6 digest 6bc800feb400be80
> store B datagrams 6 digest 6bc800feb400be80
= 0
no d
example
$ replay s f p
= 0
no d
back
$ replay s f missing
> fault place
= 3
no d

-- a bad plan comes before a missing script
new
put s 000001b801000001000008 @ones:140000
put f @priorities
$ replay s f missing
> fault plan TooWide 0
= 8
"#;
