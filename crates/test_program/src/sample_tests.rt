//! Runs of `sample`, which asks for no file and no link. The digests were made by another program, by the formats.
use crate::terminal::Terminal;
use test_script::wrong_rows;

#[test]
fn makes_a_sample(rt: HostRuntime) {
    let mut terminal = Terminal::new(rt.alloc());
    assert_eq!(rt; wrong_rows(SAMPLE, &mut terminal).as_slice(), [].as_slice());
}

#[test]
fn asks_for_no_file_and_no_link(rt: HostRuntime) {
    let mut terminal = Terminal::new(rt.alloc());
    assert_eq!(rt; wrong_rows(ASKS, &mut terminal).as_slice(), [].as_slice());
}

static SAMPLE: &str = r#"
-- sample
example
$ sample 1 4
> stream 287844 5444ccf08ae36683
> session f7e45f2bc1f8b346
> packets 100 datagram 1001
> arrivals 384
> layer 0 first 60 last 348
> layer 1 first 80 last 368
> layer 2 first 95 last 383
> store 385184 5965dead3a0fa3a4
> video 287844 5444ccf08ae36683
= 0
no d
"#;

static ASKS: &str = r#"
$ sample 1 1
begins 0 stream 
made
each place 0
each link 0
each out 1
"#;
