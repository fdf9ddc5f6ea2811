//! The forms of the command line, and which word is wrong.

use crate::notes::note::cut_word;
use crate::notes::printable::Printable;
use coll_text::{Number, number_at, number_between};

/// A line for each form.
pub const FORMS: [&[u8]; 9] = [
    b"once: reads a description and runs it on one thread",
    b"sim X: the same in the order that the seed X chooses, X from 0 to 18446744073709551615",
    b"plan: writes the plan of a description",
    b"run W: runs a description by W workers, W from 1 to 16",
    b"trace W: the same, and writes the order of each rank's steps",
    b"large K W: runs the generated description of number K, K from 0 to 65535",
    b"check: reads a description and orders, and writes the verdict on these",
    b"steady W: runs a description by workers that find out when all is done",
    b"json W: runs a description in JSON",
];

/// The numbers that follow the first word of a form.
#[derive(Clone, Copy)]
enum Numbers {
    None,
    Seed,
    Workers,
    KeyAndWorkers,
}

/// A number of a form.
#[derive(Clone, Copy)]
enum Due {
    Nothing,
    Seed,
    Workers,
    Key,
}

/// What follows the first word of a form. None: no form has this word.
fn numbers_after(word: &str) -> Option<Numbers> {
    match word {
        "once" | "plan" | "check" => Some(Numbers::None),
        "sim" => Some(Numbers::Seed),
        "run" | "trace" | "steady" | "json" => Some(Numbers::Workers),
        "large" => Some(Numbers::KeyAndWorkers),
        _ => None,
    }
}

/// The number that is due at a place, from 0.
fn due_at(numbers: Numbers, place: usize) -> Due {
    match (numbers, place) {
        (Numbers::Seed, 0) => Due::Seed,
        (Numbers::Workers, 0) | (Numbers::KeyAndWorkers, 1) => Due::Workers,
        (Numbers::KeyAndWorkers, 0) => Due::Key,
        _ => Due::Nothing,
    }
}

/// Whether the word is such a number.
fn is_such(due: Due, word: &[u8]) -> bool {
    match due {
        Due::Nothing => false,
        Due::Seed => matches!(number_at(word), Number::Small(_)),
        Due::Workers => number_between(1, 16, word).is_some(),
        Due::Key => number_between(0, 65_535, word).is_some(),
    }
}

/// What is said of a number.
fn said_of(due: Due) -> &'static [u8] {
    match due {
        Due::Nothing => b"the last word is one too many",
        Due::Seed => b"X is from 0 to 18446744073709551615",
        Due::Workers => b"W is from 1 to 16",
        Due::Key => b"K is from 0 to 65535",
    }
}

/// Adds the words before a place, and the one there.
fn show_words(text: &mut Printable, words: &[String], last: usize) {
    for (i, word) in words.iter().enumerate() {
        if i <= last {
            if i > 0 {
                text.show(b" ");
            }
            text.show(cut_word(word.as_bytes()).as_slice());
        }
    }
}

/// What is wrong with the words after the first, which have this form: the place of a word, and what is due there.
fn wrong_number(numbers: Numbers, words: &[String]) -> (usize, Due) {
    for (i, word) in words.iter().enumerate() {
        let due = due_at(numbers, i);
        if !is_such(due, word.as_bytes()) {
            return (i, due);
        }
    }
    (words.len(), due_at(numbers, words.len()))
}

/// Which word of the command line is wrong, where they have no form.
pub fn wrong_words(words: &[String]) -> Printable {
    let mut text = Printable::new();
    let Some((first, others)) = words.split_first() else {
        text.show(b"no word is given: one of these forms is due");
        return text;
    };
    match numbers_after(first.as_str()) {
        None => {
            text.show(cut_word(first.as_bytes()).as_slice());
            text.show(b": no form begins with this word");
        }
        Some(numbers) => {
            let (place, due) = wrong_number(numbers, others);
            show_words(&mut text, words, place.saturating_add(1));
            text.show(b": ");
            text.show(said_of(due));
        }
    }
    text
}
