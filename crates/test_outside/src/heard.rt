//! What stands for standard error in a test.
use std::alloc::Global;
use std::cell::RefCell;
use std::fmt::Display;
use std::io;
use std::io::Write;

/// Keeps all that is printed to it.
#[derive(Drop)]
pub struct Heard {
    text: RefCell<Vec<u8>>,
}

impl Heard {
    /// Nothing was printed.
    pub fn new(alloc: Global) -> Heard {
        Heard {
            text: RefCell::new(Vec::new(alloc)),
        }
    }

    /// Whether this text was printed and nothing else, since it was asked last.
    pub fn is(&self, text: &str) -> bool {
        match self.text.try_borrow_mut() {
            Ok(mut heard) => {
                let same = heard.as_slice() == text.as_bytes();
                heard.clear();
                same
            }
            Err(_) => false,
        }
    }
}

impl Eprint for Heard {
    fn eprint<D: Display + Drop>(&self, value: D) -> io::Result<()> {
        let mut text = self.text.try_borrow_mut()?;
        write!(text, "{value}")
    }

    fn eprintln<D: Display + Drop>(&self, value: D) -> io::Result<()> {
        let mut text = self.text.try_borrow_mut()?;
        writeln!(text, "{value}")
    }
}
