// The frame runner: frames from standard input, and a line for each on standard output. What it prints is decided by `texts`; what is not
// as it should be with the input or the output is told on standard error.
#![tactic(auto)]

ghost use Rattle.std.specs.Prelude.{◌≤◌, length};

use std::io::{Eprint, Print, Read};
use texts::output::{begin, next};

// Writes the texts of the bytes, one after the other, until there is no more or one cannot be written. Where the next frame begins is known
// from the last text alone.
fn run(rt: &impl Print, words: &mut [u32], bytes: &[u8]) -> std::io::Result<()> {
    let mut output = begin();
    rt.write_all(output.text.as_bytes())?;
    while output.at.is_some() {
        output = next(words, bytes, output);
        rt.write_all(output.text.as_bytes())?;
    }
    Ok(())
}

// Reads until the bytes are full, the input ends or a read fails, and gives how many were read. No `read_exact`, which tells no count at an early end.
fn read_full(input: &mut impl Read, bytes: &mut [u8]) -> usize
    ensures { result ≤ length bytes.new }
{
    let mut done = 0;
    while done < bytes.len() {
        let n = input.read(&mut bytes[done..]).unwrap_or(0);
        if n == 0 {
            break;
        }
        done += n;
    }
    done
}

// Tells whether the input was read to its end: one byte more is asked for.
fn tell_input(rt: &impl Eprint, input: &mut impl Read) {
    let mut past = [0u8; 1];
    let notice = match input.read(&mut past) {
        Ok(0) => return,
        Ok(_) => {
            "frame_runner: the input has more than 65536 bytes; those past them were not read, and a last line of 13 may be of a frame that is cut there"
        }
        Err(_) => {
            "frame_runner: the input could not be read to its end; the lines are those of what was read"
        }
    };
    let _ = rt.eprintln(notice);
}

fn main(rt: HostRuntime) {
    let mut words = [0u32; 8800];
    let mut bytes = [0u8; 65536];
    let mut input = rt.stdin();
    let n = read_full(&mut input, &mut bytes);
    tell_input(&rt, &mut input);
    if run(&rt, &mut words, &bytes[..n]).is_err() {
        let _ = rt.eprintln(
            "frame_runner: a line could not be written whole; those after it are missing",
        );
    }
}
