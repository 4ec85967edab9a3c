//! What tests read of their steps.
//!
//! A test gives one text, of which each line is a step, and wants one text. So it knows nothing of what it
//! calls, and is cheap to prove.
use mpd_text::number;
use song_queue::Queue;
use std::alloc::AllocError;

/// The number of a word; 0 where there is none.
pub fn number_of(word: &str) -> u32 {
    match number(word) {
        Some(number) => number,
        None => 0,
    }
}

/// The first word of a line, and what follows.
pub fn first_word(line: &str) -> (&str, &str) {
    match line.split_once(' ') {
        Some(parts) => parts,
        None => (line, ""),
    }
}

/// The two numbers of a text; 0 for each that is not there.
pub fn two_numbers(text: &str) -> (u32, u32) {
    let (first, second) = first_word(text);
    (number_of(first), number_of(second))
}

/// Adds a text and a newline.
pub fn push_line(all: &mut String, line: &str) -> Result<(), AllocError> {
    all.push_str(line)?;
    all.push_str("\n")
}

/// The id and the priority at a position; zeros where there is no entry, since no id is 0.
pub fn entry(queue: &Queue, position: usize) -> (u32, u8) {
    match queue.get(position) {
        Some(entry) => (entry.id, entry.priority),
        None => (0, 0),
    }
}
