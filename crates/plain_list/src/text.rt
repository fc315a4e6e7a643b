// The text of a case. Bars part its sections: its name, what it counts, its items, and where two parties meet the items of each. An item is a
// letter and up to nine numbers, and ends with a semicolon.
use std::alloc::{AllocError, Global};

// As many items of a section are done at most.
pub const MOST_ITEMS: usize = 100000;

// The letter of an item that is written in another way. No event has it, so that its case is wrong.
const UNKNOWN: u8 = b'?';

// An item: its letter and its numbers, 0 where they are left out.
#[derive(Clone, Copy)]
pub struct Item {
    pub letter: u8,
    pub n: [u32; 9],
}

// An item as far as it is read: its letter, its numbers, how many of them have begun, and whether the last byte was a digit.
#[derive(Clone, Copy, Default)]
struct Reading {
    letter: Option<u8>,
    n: [u32; 9],
    begun: usize,
    digit: bool,
}

// A number after one more digit, none where it does not fit.
fn grown(x: u32, digit: u8) -> Option<u32> {
    x.checked_mul(10)?.checked_add(u32::from(digit % 16))
}

impl Reading {
    // A digit goes to the number begun, or begins the next one. It is out of place before the letter, in a tenth number, and in one that does not fit.
    fn digit(mut self, digit: u8) -> Reading {
        if !self.digit {
            self.begun = self.begun.saturating_add(1);
        }
        self.digit = true;
        let lettered = self.letter.is_some();
        let last = self.begun.saturating_sub(1);
        if let Some(place) = self.n.get_mut(last)
            && lettered
            && let Some(x) = grown(*place, digit)
        {
            *place = x;
        } else {
            self.letter = Some(UNKNOWN);
        }
        self
    }

    // A byte that is no digit: a blank, the item's letter, or its end. A second letter is out of place, and so is an end with no letter before it.
    fn other(mut self, byte: u8) -> Reading {
        self.digit = false;
        self.letter = match (byte, self.letter) {
            (0..=b' ', letter) => letter,
            (b';', letter) => letter.or(Some(UNKNOWN)),
            (_, None) => Some(byte),
            _ => Some(UNKNOWN),
        };
        self
    }

    // One more byte.
    fn read(self, byte: u8) -> Reading {
        if byte.is_ascii_digit() {
            self.digit(byte)
        } else {
            self.other(byte)
        }
    }
}

// An item from its text, none from blanks alone.
fn item_of(text: &[u8]) -> Option<Item> {
    let read = text
        .iter()
        .fold(Reading::default(), |read, byte| read.read(*byte));
    read.letter.map(|letter| Item { letter, n: read.n })
}

// The items of a section that are still to be read. Each is read from the text when it is asked for.
#[derive(Clone, Copy)]
pub struct Items<'a> {
    left: &'a [u8],
}

impl<'a> Items<'a> {
    // All the items of a section.
    pub fn of(section: &'a [u8]) -> Items<'a> {
        Items { left: section }
    }
}

impl<'a> Iterator for Items<'a> {
    type Item = Item;

    fn next(&mut self) -> Option<Item> {
        let first = self.left.split_inclusive(|byte| *byte == b';').next()?;
        self.left = &self.left[first.len()..];
        item_of(first)
    }
}

// The items of a section as a list. Each takes a byte at least.
pub fn items_of(alloc: Global, section: &[u8]) -> Result<Vec<Item>, AllocError> {
    Items::of(section).take(section.len()).collect(alloc)
}

// The sections of a case.
pub fn sections_of<'a>(alloc: Global, text: &'a [u8]) -> Result<Vec<&'a [u8]>, AllocError> {
    text.split(|byte| *byte == b'|').collect(alloc)
}

#[cfg(test)]
mod tests {
    use super::*;

    // An item has its letter and its numbers, and a section may have none.
    #[test]
    fn items_are_listed(rt: HostRuntime) -> Result<(), AllocError> {
        let items = items_of(rt.alloc(), b"c 1 20; k3 ")?;
        assert_eq!(rt; items.len(), 2);
        assert_eq!(rt; items[0].letter, b'c');
        assert_eq!(rt; items[0].n, [1, 20, 0, 0, 0, 0, 0, 0, 0]);
        assert_eq!(rt; items[1].letter, b'k');
        assert_eq!(rt; items[1].n, [3, 0, 0, 0, 0, 0, 0, 0, 0]);
        assert_eq!(rt; items_of(rt.alloc(), b"")?.len(), 0);
        Ok(())
    }

    // A bar ends a section and begins the next, and a text without one is a section.
    #[test]
    fn bars_part_sections(rt: HostRuntime) -> Result<(), AllocError> {
        let sections = sections_of(rt.alloc(), b"a|bc||d")?;
        assert_eq!(rt; sections.len(), 4);
        assert_eq!(rt; sections[0], b"a".as_slice());
        assert_eq!(rt; sections[1], b"bc".as_slice());
        assert_eq!(rt; sections[2], b"".as_slice());
        assert_eq!(rt; sections[3], b"d".as_slice());
        assert_eq!(rt; sections_of(rt.alloc(), b"")?.len(), 1);
        Ok(())
    }
}
