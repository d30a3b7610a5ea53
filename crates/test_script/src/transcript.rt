//! Transcripts, and what carries out their rows.
use arrayvec::ArrayVec;
use pet_base::NoMemory;

/// How many wrong rows of a transcript are told.
pub const MOST_WRONG: usize = 10;

/// What carries out the rows of a transcript, one after the other.
pub trait Rows {
    /// Whether this row is right.
    fn row(&mut self, verb: &str, about: &str) -> Result<bool, NoMemory>;
}

/// The first rows that are wrong, each with its line, up to ten of them. Empty lines, and those that begin with `--`, are no rows.
pub fn wrong_rows<'t, R: Rows>(
    transcript: &'t str,
    rows: &mut R,
) -> ArrayVec<(usize, &'t str), MOST_WRONG> {
    let mut wrong = ArrayVec::new();
    for (at, line) in transcript.lines().enumerate() {
        if !is_right(line, rows) && wrong.try_push((at, line)).is_err() {
            break;
        }
    }
    wrong
}

/// Whether this line is no row, or a right one.
fn is_right<R: Rows>(line: &str, rows: &mut R) -> bool {
    if line.is_empty() || line.starts_with("--") {
        return true;
    }
    let (verb, about) = line.split_once(' ').unwrap_or((line, ""));
    rows.row(verb, about).unwrap_or(false)
}
