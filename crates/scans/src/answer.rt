// The lines of the output.
use std::io;
use window::figures::Summary;
use window::refusal::WindowRefusal;

// What a reading comes to: the figures, and whether the window is steady, or a refusal.
pub fn say_reading(
    rt: &impl Print,
    ordinal: u64,
    reading: u32,
    outcome: Result<(Summary, bool), WindowRefusal>,
) -> io::Result<()> {
    match outcome {
        Ok((told, steady)) => {
            let Summary {
                sum,
                least,
                greatest,
                mean,
            } = told;
            let steady = if steady { "yes" } else { "no" };
            println!(rt; "{ordinal} {reading} {sum} {least} {greatest} {mean} {steady}")
        }
        Err(refusal) => {
            let number = refusal.number();
            let why = match refusal {
                WindowRefusal::BadWindow => {
                    "a window is begun first, by a line such as: window 6 20"
                }
                WindowRefusal::BadReading => "a reading is from 0 to 10000, in 0.01 %",
            };
            println!(rt; "{ordinal} {reading} refused {number}: {why}")
        }
    }
}

// A window is begun, or refused.
pub fn say_window(
    rt: &impl Print,
    ordinal: u64,
    length: u32,
    spread: u32,
    outcome: Result<(), WindowRefusal>,
) -> io::Result<()> {
    match outcome {
        Ok(()) => println!(rt; "{ordinal} window {length} {spread}"),
        Err(refusal) => {
            let number = refusal.number();
            println!(rt;
                "{ordinal} window {length} {spread} refused {number}: a window has 1 to 64 readings"
            )
        }
    }
}

// A line is not understood.
pub fn say_unclear(rt: &impl Print, ordinal: u64) -> io::Result<()> {
    println!(rt;
        "{ordinal} not understood: a line is a reading such as 548, or begins a window, such as: window 6 20"
    )
}
