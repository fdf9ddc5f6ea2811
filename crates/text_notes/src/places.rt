//! Words of a line by their numbers.

ghost use Rattle.std.specs.Prelude.{◌≤◌, length};

use coll_text::Words;

/// The word of that number, from 0; an empty one where there is none.
pub(crate) fn word(line: &[u8], number: usize) -> &[u8] {
    let mut left = number;
    for word in Words::of(line) {
        if left == 0 {
            return word;
        }
        left -= 1;
    }
    &[]
}

/// The number of the last word. Each line has a word, which may be empty.
pub(crate) fn last_word(line: &[u8]) -> usize {
    let mut count = 0usize;
    for _ in Words::of(line) {
        count = count.saturating_add(1);
    }
    count.saturating_sub(1)
}

/// Where the word ends that begins at this byte.
fn word_end(line: &[u8], start: usize) -> usize
    requires { start ≤ length line.now }
    ensures least { start ≤ result }
    ensures most { result ≤ length line.now }
{
    let mut end = start;
    while end < line.len() && line[end] != b' ' {
        end += 1;
    }
    end
}

/// Where the word of that number begins and ends, from 0; the end of the line where there is none.
pub(crate) fn word_place(line: &[u8], number: usize) -> (usize, usize)
    ensures order { result.0 ≤ result.1 }
    ensures within { result.1 ≤ length line.now }
{
    let mut start = 0usize;
    let mut left = number;
    while left > 0 {
        let end = word_end(line, start);
        if end == line.len() {
            return (end, end);
        }
        start = end + 1;
        left -= 1;
    }
    (start, word_end(line, start))
}

/// The place of the first byte that may stand in no line; the end of the line where there is none.
pub(crate) fn strange_place(line: &[u8]) -> (usize, usize)
    ensures order { result.0 ≤ result.1 }
    ensures within { result.1 ≤ length line.now }
{
    for (i, b) in line.iter().enumerate() {
        if !matches!(*b, b' '..=b'~') {
            return (i, i + 1);
        }
    }
    (line.len(), line.len())
}
