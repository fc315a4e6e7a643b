// Moisture readings from standard input, one to a line, and on standard output what the window of the last ones tells after each. Figures
// and refusals are those that `window` gives.
#![tactic(auto)]

mod answer;
mod content;

use crate::content::Content;
use std::error::Error;
use std::io::{Print, Read};
use std::{fmt, io};
use window::begin::begin;
use window::steady::is_steady;
use window::update::update;
use window::window::Window;

// Why the program ends before the input does.
#[derive(Clone, Copy, Debug, PartialEq, Eq)]
enum Fault {
    Input,
    Output,
}

impl fmt::Display for Fault {
    fn fmt<W: fmt::Write>(&self, f: &mut fmt::Formatter<W>) -> fmt::Result {
        f.write_str(match self {
            Fault::Input => "standard input could not be read",
            Fault::Output => "standard output could not be written",
        })
    }
}

impl Error for Fault {}

// What is kept from byte to byte: the window, the spread within which it is steady, the number of the line under way, what it says so far, and
// whether a comment has begun in it.
#[derive(Drop)]
struct Scanning {
    window: Window,
    spread: u32,
    ordinal: u64,
    content: Content,
    comment: bool,
}

impl Scanning {
    // Before the first byte. No window is begun: one of zeros refuses every reading.
    fn new() -> Scanning {
        Scanning {
            window: Window {
                length: 0,
                present: 0,
                readings: [0; 64],
            },
            spread: 0,
            ordinal: 1,
            content: Content::Blank,
            comment: false,
        }
    }

    // A reading is handed to the window.
    fn take_reading(&mut self, rt: &impl Print, reading: u32) -> io::Result<()> {
        let updated = update(self.window, reading);
        if let Ok((window, _)) = updated {
            self.window = window;
        }
        let spread = self.spread;
        let outcome = updated.map(|(window, told)| (told, is_steady(window, spread)));
        answer::say_reading(rt, self.ordinal, reading, outcome)
    }

    // A window is begun. A refusal leaves the one before, and its spread.
    fn take_window(&mut self, rt: &impl Print, length: u32, spread: u32) -> io::Result<()> {
        let begun = begin(self.window, length);
        if let Ok(window) = begun {
            self.window = window;
            self.spread = spread;
        }
        answer::say_window(rt, self.ordinal, length, spread, begun.map(|_| ()))
    }

    // What the line under way says is done.
    fn take_line(&mut self, rt: &impl Print) -> io::Result<()> {
        match self.content.after_word() {
            Content::Blank => Ok(()),
            Content::Reading(reading) => self.take_reading(rt, reading),
            Content::Window(length, spread) => self.take_window(rt, length, spread),
            _ => answer::say_unclear(rt, self.ordinal),
        }
    }

    // One byte of the input. Those of a comment only separate, and a line's end begins another line.
    fn take_byte(&mut self, rt: &impl Print, byte: u8) -> io::Result<()> {
        if byte == b'\n' {
            self.take_line(rt)?;
            self.content = Content::Blank;
            self.comment = false;
            self.ordinal = self.ordinal.saturating_add(1);
            return Ok(());
        }
        self.comment |= byte == b'#';
        let seen = if self.comment { b' ' } else { byte };
        self.content = self.content.after(seen);
        Ok(())
    }

    // Some bytes of the input.
    fn take_bytes(&mut self, rt: &impl Print, bytes: &[u8]) -> io::Result<()> {
        for byte in bytes {
            self.take_byte(rt, *byte)?;
        }
        Ok(())
    }
}

// Reads until the input is over; then the line under way is over too. Where reading fails that line may lack its end, and is left. The turns, which no
// input uses up, make it end.
fn scan(rt: &impl Print, input: &mut impl Read) -> Result<(), Fault> {
    println!(rt; "line reading sum least greatest mean steady").or(Err(Fault::Output))?;
    let mut scanning = Scanning::new();
    for _ in 0..u64::MAX {
        let mut bytes = [0u8; 4096];
        match input.read(&mut bytes) {
            Ok(0) => break,
            Ok(n) => scanning.take_bytes(rt, &bytes[..n]).or(Err(Fault::Output))?,
            Err(_) => return Err(Fault::Input),
        }
    }
    scanning.take_line(rt).or(Err(Fault::Output))
}

fn main(rt: HostRuntime) {
    if let Err(fault) = scan(&rt, &mut rt.stdin()) {
        let _ = rt.eprintln(format_args!("scans: {fault}"));
    }
}
