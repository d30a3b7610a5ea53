//! The words of a program.
ghost use Rattle.std.specs.Prelude.{◌≡◌, ◌↔◌};
ghost use Rattle.std.specs.declared.io.ErrorKind.TheVariants.{OutOfMemory};

use std::alloc::Global;
use std::env;
use std::env::Env;
use std::io::ErrorKind;

/// Why there are no words.
#[derive(Clone, Copy, Debug, PartialEq, Eq)]
pub enum NoWords {
    /// A word is no UTF-8 text.
    NotText,
    /// No memory was found.
    NoMemory,
}

/// The words after the program's name.
pub fn words<R: Env + Alloc<A = Global>>(machine: &R) -> Result<Vec<String>, NoWords> {
    let mut words = Vec::new(machine.alloc());
    let all = match env::args(machine) {
        Ok(all) => all,
        Err(e) => return Err(no_words(e.kind())),
    };
    for word in all.skip(1) {
        if words.push(word).is_err() {
            return Err(NoWords::NoMemory);
        }
    }
    Ok(words)
}

/// Why the words could not be read.
fn no_words(kind: ErrorKind) -> NoWords
    ensures { (result ≡ NoWords.NoMemory) ↔ (kind ≡ OutOfMemory) }
{
    match kind {
        ErrorKind::OutOfMemory => NoWords::NoMemory,
        _ => NoWords::NotText,
    }
}
