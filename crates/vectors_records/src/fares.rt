// Fares of either sort: in the words of a line, and as they are printed.
use framing::Refusal;
use record::Fare;
use std::fmt::Display;
use std::io;
use vector_text::words;

// At most so many fares are copied or written.
pub(crate) const MOST: usize = 1100;

// A sort of fares that lines can name.
pub(crate) trait Sort: Fare + From<u16> + Display {
    // The fare of a word; 0 where the word is not there, or is the number of no such fare.
    fn at(line: &[u8], k: usize) -> Self;
}

impl Sort for u32 {
    fn at(line: &[u8], k: usize) -> u32 {
        words::number32(line, k)
    }
}

// The word may begin with a minus sign.
impl Sort for i32 {
    fn at(line: &[u8], k: usize) -> i32 {
        let far = i64::from(words::number32(line, k));
        let value = if words::first(line, k) == b'-' {
            -far
        } else {
            far
        };
        i32::try_from(value).unwrap_or(0)
    }
}

// A fare, or the number of the refusal.
pub(crate) fn show<F: Sort>(rt: &impl Print, fare: Result<F, Refusal>) -> io::Result<()> {
    match fare {
        Ok(fare) => print!(rt; " value {fare}"),
        Err(refusal) => print!(rt; " refused {refusal}"),
    }
}
