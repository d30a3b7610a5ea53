//! The lines of commands and of statuses, each as it stands.
use crate::terminal::Terminal;
use test_script::wrong_rows;

#[test]
fn prints_lines(rt: HostRuntime) {
    let mut terminal = Terminal::new(rt.alloc());
    assert_eq!(rt; wrong_rows(LINES, &mut terminal).as_slice(), [].as_slice());
}

static LINES: &str = r#"
-- lines
line bound 40000 => bound 40000
line receive 4294967295 2 1 => read 4294967295 kept 2 shown 1
line send 4294967295 4294967295 a5ac9461b03bcf36 => session a5ac9461b03bcf36 groups 4294967295 datagrams 4294967295
line least 3 => least 3
line merged 7 => merged 7
line migrated 6 => migrated 6
line repaired 1 6 => repaired 1 datagrams 6
line relay 7 6 => read 7 sent 6
line unwrapped 44 => unwrapped 44
line wrapped 67 => wrapped 67
line video 18446744073709551615 => video 18446744073709551615
line shown 18446744073709551615 0 4294967295 255 4294967295 5965dead3a0fa3a4 => event 18446744073709551615 receiver A group 4294967295 layer 255 bytes 4294967295 digest 5965dead3a0fa3a4
line shown 3 7 0 0 46 f7e45f2bc1f8b346 => event 3 receiver H group 0 layer 0 bytes 46 digest f7e45f2bc1f8b346
line store 0 4294967295 5444ccf08ae36683 => store A datagrams 4294967295 digest 5444ccf08ae36683
line store 7 1 5965dead3a0fa3a4 => store H datagrams 1 digest 5965dead3a0fa3a4

-- the statuses by their places in the table, with their numbers and lines
status 0 0
status 1 12 fault incomplete
status 2 4 fault link
status 3 6 fault stream PictureType 4 5
status 4 6 fault stream TooLong 268435456
status 5 6 fault stream Empty 0
status 6 7 fault priority KindTwice
status 7 8 fault plan TooManyGroups 65535
status 8 8 fault plan Lines 2
status 9 9 fault store 1 Cut 24
status 10 9 fault store 2 Session 18446744073709551615
status 11 10 fault session
status 12 11 fault clash 3 65535
status 13 15 fault table 65534
status 14 16 fault least 0
status 15 17 fault changed 0
status 16 19 fault full 4294967295
status 17 18 fault version
status 18 20 fault wide 65534
status 19 21 fault unlike 65534 4095
status 20 14 fault script 0
status 21 14 fault script 18446744073709551615
status 22 24 fault system NotUnit 18446744073709551615 184
status 23 24 fault system NoStart 7
status 24 24 fault system Cut 63
status 25 24 fault system NoVideo 0
status 26 24 fault system TooLong 268435456
"#;
