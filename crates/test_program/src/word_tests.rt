//! The words of each command, and words of no form, each also in a run.
use crate::terminal::Terminal;
use test_script::wrong_rows;

#[test]
fn reads_words(rt: HostRuntime) {
    let mut terminal = Terminal::new(rt.alloc());
    assert_eq!(rt; wrong_rows(WORDS, &mut terminal).as_slice(), [].as_slice());
}

static WORDS: &str = r#"
example
-- words of no form
usage 
usage plan s
usage plan s ''
usage Plan s f
usage check s f
usage send s f d
usage send s f file:s
usage send s f file:f
usage send s f file:
usage receive file:a 0123 l t
usage receive a 0001020304050607 l t
usage receive file:a 0001020304050607 a t
usage receive file:a 0001020304050607 l a
usage receive file:a 0001020304050607 l l
usage receive file:a 0001020304050607 l
usage receive file:a 000102030405060G l t
usage receive udp:x 0001020304050607 l t
usage send s f udp:x:0
usage merge a b a
usage merge a b b
usage video a a
usage replay s f
usage sample 01 4
usage sample 1 0
usage sample 1 101
usage sample 18446744073709551616 4
usage 
usage plan s
usage receive file:a 0123 l t
usage receive file:a A5AC9461B03BCF36 l t
usage receive file: a5ac9461b03bcf36 l t
usage receive file:a 0001020304050607 l
usage receive file:a 0001020304050607 '' t
usage receive file:a 0001020304050607 l ''
usage receive file:a 0001020304050607 l l
usage receive file:a 0001020304050607 a t
usage receive file:a 0001020304050607 l a
usage receive file:a 0001020304050607 l t u
usage merge a b
usage merge a b a
usage merge a b b
usage merge '' b c
usage merge a '' c
usage merge a b ''
usage merge a b c d
usage plan s ''
usage video t
usage video '' o
usage video t ''
usage video t t
usage video t o p
usage PLAN s f
usage send s f
usage send s f d
usage send s f file:
usage send s f file:s
usage send s f file:f
usage send s f udp:x:0
usage receive udp:x:1 0001020304050607 l l
usage breceive file:a 0001020304050607
usage breceive file:a 0001020304050607 l t
usage breceive file:a 0001020304050607 a
usage breceive file:a 0001020304050607 ''
usage breceive file:a 0123 l
usage breceive a 0001020304050607 l
usage breceive udp:x 0001020304050607 l
usage bsend s f
usage bsend s f d
usage bsend s f file:s
usage bsend s f file:f
usage bsend '' f file:d
usage bsend s f udp:x:0
usage migrate a
usage migrate a a
usage migrate '' n
usage migrate a ''
usage migrate a n o
usage relay file:a 0001020304050607
usage relay file:a 0001020304050607 file:o p
usage relay file:a 0001020304050607 file:a
usage relay udp:x:1 0001020304050607 udp:y:2
usage relay udp:x:1 0001020304050607 udp:x:1
usage relay file:a 0123 file:o
usage relay a 0001020304050607 file:o
usage relay file:a 0001020304050607 o
usage relay file:a 0001020304050607 udp:x:0
usage relay udp:x 0001020304050607 file:o
usage repair t
usage repair t o
usage repair t file:t
usage repair t file:
usage repair '' file:o
usage repair t udp:x:0
usage repair t file:o p
usage unwrap m e0
usage unwrap m o
usage unwrap m e0 m
usage unwrap '' e0 o
usage unwrap m e0 ''
usage unwrap m E0 o
usage unwrap m eF o
usage unwrap m eg o
usage unwrap m e o
usage unwrap m e00 o
usage unwrap m d0 o
usage wrap v v
usage wrap '' o
usage wrap v e0 o
usage replay '' f e
usage replay s '' e
usage replay s f ''
usage replay s f e o
usage sample 1
usage sample 1 4 o
usage sample '' 4
usage sample 1 ''
usage sample 00 4
usage sample +1 4
usage sample -1 4
usage sample 1_ 4
usage sample 0x1 4
usage sample 1 04
usage sample 1 +4
usage sample 1 4294967297
usage sample 1 18446744073709551617

-- words that are no address, neither to send to nor to receive at
usage send s f udp:
usage receive udp: 0001020304050607 l t
usage send s f udp:x
usage receive udp:x 0001020304050607 l t
usage send s f udp:x:
usage receive udp:x: 0001020304050607 l t
usage send s f udp::1
usage receive udp::1 0001020304050607 l t
usage send s f udp:1
usage receive udp:1 0001020304050607 l t
usage send s f udp:x:65536
usage receive udp:x:65536 0001020304050607 l t
usage send s f udp:x:01
usage receive udp:x:01 0001020304050607 l t
usage send s f udp:x:00
usage receive udp:x:00 0001020304050607 l t
usage send s f udp:x:+1
usage receive udp:x:+1 0001020304050607 l t
usage send s f udp:x:-1
usage receive udp:x:-1 0001020304050607 l t
usage send s f udp:x:_1
usage receive udp:x:_1 0001020304050607 l t
usage send s f udp:x:1_
usage receive udp:x:1_ 0001020304050607 l t
usage send s f udp:x:1a
usage receive udp:x:1a 0001020304050607 l t
usage send s f udp:x:99999
usage receive udp:x:99999 0001020304050607 l t
usage send s f udp:x:100000
usage receive udp:x:100000 0001020304050607 l t
usage send s f UDP:x:1
usage receive UDP:x:1 0001020304050607 l t
usage send s f udp:x:18446744073709551617
usage receive udp:x:18446744073709551617 0001020304050607 l t
usage send s f file:
usage receive file: 0001020304050607 l t

-- the words of each command
? receive file:a 0001020304050607 b c => Receive { from: File(Name { text: "a" }), session: [0, 1, 2, 3, 4, 5, 6, 7], layers: Name { text: "b" }, store: Name { text: "c" } }
? receive file:a 0123456789abcdef l t => Receive { from: File(Name { text: "a" }), session: [1, 35, 69, 103, 137, 171, 205, 239], layers: Name { text: "l" }, store: Name { text: "t" } }
? plan s f => Plan { stream: Name { text: "s" }, priority: Name { text: "f" } }
? check s f p => Check { stream: Name { text: "s" }, priority: Name { text: "f" }, plan: Name { text: "p" } }
? send s f file:d => Send { stream: Name { text: "s" }, priority: Name { text: "f" }, to: File(Name { text: "d" }) }
? merge a b c => Merge { first: Name { text: "a" }, second: Name { text: "b" }, out: Name { text: "c" } }
? merge a a c => Merge { first: Name { text: "a" }, second: Name { text: "a" }, out: Name { text: "c" } }
? video t o => Video { store: Name { text: "t" }, out: Name { text: "o" } }
? migrate t o => Migrate { store: Name { text: "t" }, out: Name { text: "o" } }
? bsend s f file:d => Bsend { stream: Name { text: "s" }, priority: Name { text: "f" }, to: File(Name { text: "d" }) }
? breceive udp:x:1 0001020304050607 l => Breceive { from: Udp(Name { text: "x:1" }), session: [0, 1, 2, 3, 4, 5, 6, 7], layers: Name { text: "l" } }
? relay udp:x:1 0001020304050607 file:d => Relay { from: Udp(Name { text: "x:1" }), session: [0, 1, 2, 3, 4, 5, 6, 7], to: File(Name { text: "d" }) }
? unwrap m e0 o => Unwrap { file: Name { text: "m" }, id: 224, out: Name { text: "o" } }
? wrap v o => Wrap { file: Name { text: "v" }, out: Name { text: "o" } }
? replay s f f => Replay { stream: Name { text: "s" }, priority: Name { text: "f" }, script: Name { text: "f" } }
? sample 0 1 => Sample { seed: 0, groups: 1 }
? repair t file:o => Repair { store: Name { text: "t" }, to: File(Name { text: "o" }) }
? repair x:1 udp:x:1 => Repair { store: Name { text: "x:1" }, to: Udp(Name { text: "x:1" }) }
? send s f udp:x:1 => Send { stream: Name { text: "s" }, priority: Name { text: "f" }, to: Udp(Name { text: "x:1" }) }
? receive udp:x:1 0001020304050607 x:1 t => Receive { from: Udp(Name { text: "x:1" }), session: [0, 1, 2, 3, 4, 5, 6, 7], layers: Name { text: "x:1" }, store: Name { text: "t" } }
? send s f udp:127.0.0.1:65535 => Send { stream: Name { text: "s" }, priority: Name { text: "f" }, to: Udp(Name { text: "127.0.0.1:65535" }) }
? receive udp:127.0.0.1:65535 0001020304050607 x:1 t => Receive { from: Udp(Name { text: "127.0.0.1:65535" }), session: [0, 1, 2, 3, 4, 5, 6, 7], layers: Name { text: "x:1" }, store: Name { text: "t" } }
? send s f udp:[::1]:9 => Send { stream: Name { text: "s" }, priority: Name { text: "f" }, to: Udp(Name { text: "[::1]:9" }) }
? receive udp:[::1]:9 0001020304050607 x:1 t => Receive { from: Udp(Name { text: "[::1]:9" }), session: [0, 1, 2, 3, 4, 5, 6, 7], layers: Name { text: "x:1" }, store: Name { text: "t" } }
? send s f udp:::1:9 => Send { stream: Name { text: "s" }, priority: Name { text: "f" }, to: Udp(Name { text: "::1:9" }) }
? receive udp:::1:9 0001020304050607 x:1 t => Receive { from: Udp(Name { text: "::1:9" }), session: [0, 1, 2, 3, 4, 5, 6, 7], layers: Name { text: "x:1" }, store: Name { text: "t" } }
? send s f udp::::9 => Send { stream: Name { text: "s" }, priority: Name { text: "f" }, to: Udp(Name { text: ":::9" }) }
? receive udp::::9 0001020304050607 x:1 t => Receive { from: Udp(Name { text: ":::9" }), session: [0, 1, 2, 3, 4, 5, 6, 7], layers: Name { text: "x:1" }, store: Name { text: "t" } }
? send s f udp:a_b:10 => Send { stream: Name { text: "s" }, priority: Name { text: "f" }, to: Udp(Name { text: "a b:10" }) }
? receive udp:a_b:10 0001020304050607 x:1 t => Receive { from: Udp(Name { text: "a b:10" }), session: [0, 1, 2, 3, 4, 5, 6, 7], layers: Name { text: "x:1" }, store: Name { text: "t" } }
? send s f udp:udp:x:1 => Send { stream: Name { text: "s" }, priority: Name { text: "f" }, to: Udp(Name { text: "udp:x:1" }) }
? receive udp:udp:x:1 0001020304050607 x:1 t => Receive { from: Udp(Name { text: "udp:x:1" }), session: [0, 1, 2, 3, 4, 5, 6, 7], layers: Name { text: "x:1" }, store: Name { text: "t" } }
? receive udp:x:0 0001020304050607 l t => Receive { from: Udp(Name { text: "x:0" }), session: [0, 1, 2, 3, 4, 5, 6, 7], layers: Name { text: "l" }, store: Name { text: "t" } }
? unwrap m e0 o => Unwrap { file: Name { text: "m" }, id: 224, out: Name { text: "o" } }
? unwrap m e9 o => Unwrap { file: Name { text: "m" }, id: 233, out: Name { text: "o" } }
? unwrap m ea o => Unwrap { file: Name { text: "m" }, id: 234, out: Name { text: "o" } }
? unwrap m ef o => Unwrap { file: Name { text: "m" }, id: 239, out: Name { text: "o" } }
? sample 0 1 => Sample { seed: 0, groups: 1 }
? sample 10 100 => Sample { seed: 10, groups: 100 }
? sample 18446744073709551615 99 => Sample { seed: 18446744073709551615, groups: 99 }

-- the words of pet-keep
keep file:q 0001020304050607 j t => KeepWords { from: File(Name { text: "q" }), session: [0, 1, 2, 3, 4, 5, 6, 7], journal: Name { text: "j" }, store: Name { text: "t" } }
keep file:q 0001020304050607 j => Usage
"#;
