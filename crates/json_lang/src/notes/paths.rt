//! Places in a description in JSON.

use serde_json::Value;
use text_notes::notes::{Printable, cut_word};

/// The place of a member.
pub(crate) fn member(name: &str) -> Printable {
    cut_word(name.as_bytes())
}

/// Adds the place of a member of what stands there.
pub(crate) fn push_member(path: &mut Printable, name: &str) {
    path.show(b".");
    path.show(cut_word(name.as_bytes()).as_slice());
}

/// Adds the place of a value of the list that stands there.
pub(crate) fn push_item(path: &mut Printable, i: usize) {
    path.show(b"[");
    path.show_number(i as u64);
    path.show(b"]");
}

/// The place of a value of a list.
pub(crate) fn item_of(name: &str, i: usize) -> Printable {
    let mut path = member(name);
    push_item(&mut path, i);
    path
}

/// How many values the list of that name has; none where there is no such list.
fn count_of(value: &Value, name: &str) -> usize {
    match value.get(name) {
        Some(list) => match list.as_array() {
            Some(values) => values.len(),
            None => 0,
        },
        None => 0,
    }
}

/// The place of a word of a list, from 0.
fn word_of(name: &str, i: usize, word: Option<usize>) -> Printable {
    let mut path = item_of(name, i);
    if let Some(number) = word {
        push_item(&mut path, number);
    }
    path
}

/// The place of a word of an input's line.
fn input_word(i: usize, word: Option<usize>) -> Printable {
    let mut path = item_of("inputs", i);
    match word {
        Some(1) => push_member(&mut path, "name"),
        Some(2) => push_member(&mut path, "type"),
        Some(3) => push_member(&mut path, "rows"),
        _ => {}
    }
    path
}

/// The place of a word of a row.
fn row_word(i: usize, row: usize, word: Option<usize>) -> Printable {
    let mut path = item_of("inputs", i);
    push_member(&mut path, "rows");
    push_item(&mut path, row);
    if let Some(number) = word {
        push_item(&mut path, number);
    }
    path
}

/// The place of a word of the lines of inputs; or how many lines are left after these.
fn in_inputs(value: &Value, line: usize, word: Option<usize>) -> Result<Printable, usize> {
    let Some(inputs) = value.get("inputs") else {
        return Err(line);
    };
    let Some(inputs) = inputs.as_array() else {
        return Err(line);
    };
    let mut left = line;
    for (i, input) in inputs.iter().enumerate() {
        if left == 0 {
            return Ok(input_word(i, word));
        }
        left -= 1;
        let rows = count_of(input, "rows");
        if left < rows {
            return Ok(row_word(i, left, word));
        }
        left -= rows;
    }
    Err(left)
}

/// The place of a word of the lines after the inputs.
fn after_inputs(value: &Value, line: usize, word: Option<usize>) -> Printable {
    let steps = count_of(value, "steps");
    if line < steps {
        return word_of("steps", line, word);
    }
    let prints = count_of(value, "prints");
    if line - steps < prints {
        return item_of("prints", line - steps);
    }
    let mut path = Printable::new();
    path.show(b"the end");
    path
}

/// The place of a word of the lines after the head.
fn after_head(value: &Value, line: usize, word: Option<usize>) -> Printable {
    let groups = count_of(value, "groups");
    if line < groups {
        return word_of("groups", line, word.map(|number| number.saturating_sub(1)));
    }
    match in_inputs(value, line - groups, word) {
        Ok(path) => path,
        Err(left) => after_inputs(value, left, word),
    }
}

/// Whether `remote` is true.
fn is_remote(value: &Value) -> bool {
    match value.get("remote") {
        Some(remote) => remote.as_bool().unwrap_or(false),
        None => false,
    }
}

/// The place of a word, from 0, of a line of the line text, from 1.
pub(crate) fn path_of(value: &Value, line: u32, word: Option<usize>) -> Printable {
    let head = if is_remote(value) { 3 } else { 2 };
    match line {
        0 => Printable::new(),
        1 => member("coll"),
        2 => member("ranks"),
        3 if head == 3 => member("remote"),
        _ => after_head(value, (line as usize).saturating_sub(head + 1), word),
    }
}
