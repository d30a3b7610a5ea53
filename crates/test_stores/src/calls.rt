//! The calls of the libraries of stores, by their words.
use crate::hearing::{hear, merge, read, read_bytes, unlike};
use crate::shelf::{Shelf, Told, number, word};
use crate::splitting::kept_each;
use pet_base::{NoMemory, Steps};
use std::alloc::Global;
use std::sync::ledger::Ledger;
use store_merge::migrate_store;
use test_script::packets;

impl Shelf {
    /// Makes the call of these words.
    pub(crate) fn call<L: Ledger>(&mut self, words: &[String], steps: &mut Steps<L>) -> Told {
        match word(words, 0) {
            "write_store" | "assemble" | "write_store_file" | "encoder_of" => {
                self.hear(words, steps)
            }
            "read_store" | "migrate_store" => self.take(words, steps),
            "read_store_file" => read(
                self.alloc,
                word(words, 1),
                word(words, 2),
                &mut self.desk.place,
                steps,
            ),
            "merge_stores" => self.merge(words, steps),
            "sets" => self.join(words, steps),
            "split_group" => {
                let store = self.desk.bytes_of(word(words, 1))?;
                let kept = kept_each(self.alloc, &store, steps).ok();
                Ok(format!(in self.alloc; "{kept:?}")?)
            }
            _ => self.run(words, steps),
        }
    }

    /// Hands packets to a receiver, as in `write_store LIMIT PACKETS`.
    fn hear<L: Ledger>(&mut self, words: &[String], steps: &mut Steps<L>) -> Told {
        let mut entries = Vec::new(self.alloc);
        for packet in words.get(2..).unwrap_or(&[]) {
            entries.push(self.desk.taken(packet.as_str())?)?;
        }
        let limit = number(words, 1);
        match word(words, 0) {
            "encoder_of" => unlike(self.alloc, limit, &entries, steps),
            what => hear(
                self.alloc,
                (what, limit),
                &entries,
                &mut self.desk.place,
                steps,
            ),
        }
    }

    /// Takes a store, as in `read_store LIMIT NAME`, or each front of it from one length on and below another, as in
    /// `read_store LIMIT NAME FROM TO`: all are to come to the same.
    fn take<L: Ledger>(&mut self, words: &[String], steps: &mut Steps<L>) -> Told {
        let bytes = self.desk.bytes_of(word(words, 2))?;
        if words.len() == 3 {
            return self.take_bytes(words, &bytes, steps);
        }
        let mut first = String::new(self.alloc);
        for length in number(words, 3)..number(words, 4) {
            let Some(front) = bytes.get(..length as usize) else {
                return Ok(String::from_str(self.alloc, "wrong")?);
            };
            let answer = self.take_bytes(words, front, steps)?;
            if length > number(words, 3) && answer != first {
                return Ok(String::from_str(self.alloc, "wrong")?);
            }
            first = answer;
        }
        Ok(first)
    }

    /// What these bytes come to as a store of today, or as one of the first version, which is migrated to a file `out`: where it is
    /// refused, nothing is to be appended.
    fn take_bytes<L: Ledger>(
        &mut self,
        words: &[String],
        bytes: &[u8],
        steps: &mut Steps<L>,
    ) -> Told {
        let limit = number(words, 1);
        if word(words, 0) == "read_store" {
            return read_bytes(self.alloc, bytes, limit, steps);
        }
        let mut into = Vec::from_slice(self.alloc, b"front")?;
        let answer = migrate_store(bytes, limit, &mut into);
        if answer.is_err() && into.as_slice() != b"front".as_slice() {
            return Ok(String::from_str(self.alloc, "wrong")?);
        }
        let store = into.strip_prefix(b"front".as_slice()).unwrap_or(&[]);
        self.desk.place.add("out", store)?;
        Ok(format!(in self.alloc; "{answer:?}")?)
    }

    /// Merges two stores to a file `out`, as in `merge_stores LIMIT NAME NAME`.
    fn merge<L: Ledger>(&mut self, words: &[String], steps: &mut Steps<L>) -> Told {
        let mut into = Vec::new(self.alloc);
        let mine = self.desk.bytes_of(word(words, 2))?;
        let theirs = self.desk.bytes_of(word(words, 3))?;
        let both = (mine.as_slice(), theirs.as_slice());
        let answer = merge(self.alloc, both, number(words, 1), &mut into, steps)?;
        self.desk.place.add("out", &into)?;
        Ok(answer)
    }

    /// Merges the stores of two sets of packets of the example session, each packet a digit, as in `sets 03 45 5430`: it is to be the
    /// store of a receiver that the third set has come to.
    fn join<L: Ledger>(&mut self, words: &[String], steps: &mut Steps<L>) -> Told {
        let alloc = self.alloc;
        let mut stores = [Vec::new(alloc), Vec::new(alloc), Vec::new(alloc)];
        for at in 0..3usize {
            let entries = entries_of(alloc, word(words, at + 1))?;
            let place = &mut self.desk.place;
            hear(alloc, ("write_store", 1_000), &entries, place, steps)?;
            stores[at].extend_from_slice(place.bytes_of("store").unwrap_or(&[]))?;
        }
        let mut into = Vec::new(alloc);
        let both = (stores[0].as_slice(), stores[1].as_slice());
        let answer = merge(alloc, both, 1_000, &mut into, steps)?;
        if into != stores[2] {
            return Ok(String::from_str(alloc, "wrong")?);
        }
        Ok(answer)
    }
}

/// The entries of the packets of these digits.
fn entries_of(alloc: Global, digits: &str) -> Result<Vec<Vec<u8>>, NoMemory> {
    let packets = packets();
    let mut entries = Vec::new(alloc);
    for digit in digits.bytes() {
        if let Some(packet) = packets.get(usize::from(digit.wrapping_sub(b'0'))) {
            entries.push(Vec::from_slice(alloc, packet)?)?;
        }
    }
    Ok(entries)
}
