//! Tries what no contract speaks of, on this machine: the row calls of the field against single products, the programs `pet` and
//! `pet-keep` over UDP and files, and a keeper that is ended at any moment.
//!
//! With no words it makes all trials, and starts itself as both programs. With the word `time` it times the row calls. With the word
//! `kept` and those of `pet-keep` it is a keeper that tells what it has acknowledged, for `tools/kill-keep`. With `agree LAYERS STORE`
//! it looks whether two files that a receiver left agree. With words that begin with an address or a datagram file it is
//! `pet-keep`, and with others `pet`.
#![tactic(auto)]

mod calls;
mod coding;
mod compare;
mod group;
mod left;
mod transform;
mod trials;
mod witness;

ghost use Rattle.std.specs.Prelude.{◌≡◌, ◌<◌};

use crate::compare::compare_rows;
use crate::left::agree;
use crate::trials::trials_come_out;
use crate::witness::tell_kept;
use pet_base::Steps;
use pet_text::read_keep_words;
use program_start::words;
use std::marker::Brand;
use std::process::ExitCode;
use std::sync::ledger::{Blank, Ledger};
use std::{fs, io};

/// What the program is to do.
#[derive(Clone, Copy, Drop)]
enum Task<'w> {
    /// All trials.
    Try,
    /// To time the row calls.
    Time,
    /// To be a keeper, with these words of `pet-keep`, that tells what it has acknowledged.
    Tell(&'w [String]),
    /// To look whether this layers text and this store agree.
    Agree(&'w str, &'w str),
    /// To be `pet-keep`.
    Keep,
    /// To be `pet`.
    Pet,
}

fn main(rt: HostRuntime) -> io::Result<ExitCode> {
    match words(&rt) {
        Ok(words) => run(&rt, task_of(&words)),
        Err(_) => Ok(ExitCode::FAILURE),
    }
}

/// What the words ask for.
fn task_of(words: &[String]) -> Task<'_> {
    let Some((first, rest)) = words.split_first() else {
        return Task::Try;
    };
    match (first.as_str(), rest) {
        ("time", []) => Task::Time,
        ("kept", words) => Task::Tell(words),
        ("agree", [layers, store]) => Task::Agree(layers.as_str(), store.as_str()),
        (from, _) if from.starts_with("file:") || from.starts_with("udp:") => Task::Keep,
        _ => Task::Pet,
    }
}

/// Does the task, and gives the status.
fn run(rt: &HostRuntime, task: Task<'_>) -> io::Result<ExitCode> {
    let code = match task {
        Task::Keep => pet_keep::start_words(rt, rt.stdout()).0.code(),
        Task::Pet => pet_tool::start_words(rt, rt.stdout()).0.code(),
        task => u8::from(!comes_out::<Brand>(rt, task, Blank::new(1))?),
    };
    Ok(ExitCode::from(code))
}

/// Does a task of the trials, whose steps are counted by this blank. It answers whether it comes out.
fn comes_out<L: Ledger>(rt: &HostRuntime, task: Task<'_>, blank: Blank) -> io::Result<bool>
    requires name { blank.name ≡ L.name }
    requires parts { blank.parts ≡ L.parts }
    requires some { 0 < blank.parts }
{
    let mut steps = Steps::<L>::new(blank);
    match task {
        Task::Tell(words) => keeps(rt, words, &mut steps),
        Task::Agree(layers, store) => Ok(agree(&fs::read(rt, layers)?, &fs::read(rt, store)?)),
        Task::Time => {
            compare_rows(rt, true, &mut steps)?;
            Ok(true)
        }
        _ => {
            compare_rows(rt, false, &mut steps)?;
            trials_come_out(rt)
        }
    }
}

/// Keeps what comes, with the words of `pet-keep`.
fn keeps<L: Ledger>(rt: &HostRuntime, words: &[String], steps: &mut Steps<L>) -> io::Result<bool> {
    match read_keep_words(rt.alloc(), words) {
        Ok(words) => tell_kept(rt, &words, steps),
        Err(_) => Ok(false),
    }
}
