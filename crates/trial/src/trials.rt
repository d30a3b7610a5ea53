//! The trials of the file `trials`: a shell runs its lines, and what they print is compared with what stands below them.
//!
//! The file has parts, parted by empty lines: first what the shell runs before each line, and then the trials. A trial has a line that
//! tells what it shows, and then lines that begin with `$ `, below each of them what is printed. `PORT` stands for a port that is in use.
use std::net::UdpSocket;
use std::process::{Command, Output};
use std::{env, fs, io};

/// What stands before a line that the shell runs.
const PROMPT: &str = "\n$ ";

/// Makes the trials, up to one that does not come out, and prints a line for each that does.
pub fn trials_come_out(rt: &HostRuntime) -> io::Result<bool> {
    let user = UdpSocket::bind(rt, "127.0.0.1:0")?;
    let port = user.local_addr()?.port();
    let text = trials(rt, port)?;
    match text.split_once("\n\n") {
        Some((front, trials)) => all_come_out(rt, front, trials),
        None => Ok(false),
    }
}

/// The text of the trials, where this port is in use.
fn trials(rt: &HostRuntime, port: u16) -> io::Result<String> {
    let text = fs::read_to_string(rt, "trials")?;
    let port = port.to_string(rt.alloc())?;
    Ok(text.replace(rt.alloc(), "PORT", &port)?)
}

/// Makes these trials, with this text before each line of the shell.
fn all_come_out(rt: &HostRuntime, front: &str, trials: &str) -> io::Result<bool> {
    for trial in trials.split("\n\n") {
        if !comes_out(rt, front, trial)? {
            return Ok(false);
        }
    }
    Ok(true)
}

/// Makes a trial, and prints its line where it comes out.
fn comes_out(rt: &HostRuntime, front: &str, trial: &str) -> io::Result<bool> {
    let mut steps = trial.split(PROMPT);
    let Some(title) = steps.next() else {
        return Ok(false);
    };
    for step in steps {
        if !is_so(rt, front, step)? {
            return Ok(false);
        }
    }
    println!(rt; "{title}")?;
    Ok(true)
}

/// Whether a line prints what stands below it. Else it is said what it prints.
fn is_so(rt: &HostRuntime, front: &str, step: &str) -> io::Result<bool> {
    let (line, told) = step.split_once('\n').unwrap_or((step, ""));
    let printed = printed_by(rt, front, line)?;
    let is_so = begin_so(&printed, told);
    if !is_so {
        eprintln!(rt; "$ {line}\n{printed}")?;
    }
    Ok(is_so)
}

/// What the shell prints at a line.
fn printed_by(rt: &HostRuntime, front: &str, line: &str) -> io::Result<String> {
    let program = env::current_exe(rt)?;
    let output = shell(rt, &["-c", front, program.as_str(), line])?;
    Ok(String::from_utf8_lossy(rt.alloc(), &output.stdout)?)
}

/// The shell with these words, once it has ended.
fn shell(rt: &HostRuntime, words: &[&str]) -> io::Result<Output> {
    let mut shell = Command::new(rt.alloc(), "/bin/sh")?;
    for word in words {
        shell.arg(*word)?;
    }
    shell.output(rt)
}

/// Whether the lines that are printed begin as those that are told, one by one.
fn begin_so(printed: &str, told: &str) -> bool {
    let mut lines = printed.lines();
    for line in told.lines() {
        match lines.next() {
            Some(found) if found.starts_with(line) => {}
            _ => return false,
        }
    }
    lines.next().is_none()
}
