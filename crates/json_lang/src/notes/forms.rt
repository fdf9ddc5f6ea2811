//! Where a JSON value isn't of the form of a description.

use crate::notes::items::{Rule, Wrong, wrong_list, wrong_value};
use crate::notes::paths::{item_of, member, push_item, push_member};
use crate::{is_input_name, is_member_name};
use serde_json::Value;
use text_notes::notes::{FormFlaw, Printable};

/// The values of the list of that name, if there is one; or what is wrong with it.
fn list_of<'v>(value: &'v Value, name: &str) -> Result<&'v [Value], (Printable, FormFlaw)> {
    let Some(list) = value.get(name) else {
        return Ok(&[]);
    };
    match list.as_array() {
        Some(values) => Ok(values.as_slice()),
        None => Err((member(name), FormFlaw::NoList)),
    }
}

/// A member that is a whole number.
fn wrong_number(value: &Value, name: &str) -> Wrong {
    match value.get(name) {
        Some(number) => wrong_value(member(name), number, Rule::Whole),
        None => Some((member(name), FormFlaw::Missing)),
    }
}

/// `remote`
fn wrong_remote(value: &Value) -> Wrong {
    match value.get("remote") {
        Some(remote) if !remote.is_boolean() => Some((member("remote"), FormFlaw::NoTruth)),
        _ => None,
    }
}

/// Lists of a word and others.
fn wrong_lists(value: &Value, name: &str, others: Rule) -> Wrong {
    let lists = match list_of(value, name) {
        Ok(lists) => lists,
        Err(wrong) => return Some(wrong),
    };
    for (i, list) in lists.iter().enumerate() {
        let wrong = wrong_list(item_of(name, i), list, Some(Rule::Word), others);
        if wrong.is_some() {
            return wrong;
        }
    }
    None
}

/// `prints`
fn wrong_prints(value: &Value) -> Wrong {
    match value.get("prints") {
        Some(prints) => wrong_list(member("prints"), prints, None, Rule::Word),
        None => None,
    }
}

/// The place of a member of an input.
fn input_member(i: usize, name: &str) -> Printable {
    let mut path = item_of("inputs", i);
    push_member(&mut path, name);
    path
}

/// The rows of an input.
fn wrong_rows(i: usize, input: &Value) -> Wrong {
    let Some(rows) = input.get("rows") else {
        return Some((input_member(i, "rows"), FormFlaw::Missing));
    };
    let Some(rows) = rows.as_array() else {
        return Some((input_member(i, "rows"), FormFlaw::NoList));
    };
    for (r, row) in rows.iter().enumerate() {
        let mut path = input_member(i, "rows");
        push_item(&mut path, r);
        let wrong = wrong_list(path, row, None, Rule::Whole);
        if wrong.is_some() {
            return wrong;
        }
    }
    None
}

/// A word of an input.
fn wrong_word(i: usize, input: &Value, name: &str) -> Wrong {
    match input.get(name) {
        Some(word) => wrong_value(input_member(i, name), word, Rule::Word),
        None => Some((input_member(i, name), FormFlaw::Missing)),
    }
}

/// An input.
fn wrong_input(i: usize, input: &Value) -> Wrong {
    let Some(members) = input.as_object() else {
        return Some((item_of("inputs", i), FormFlaw::NoObject));
    };
    for name in members.keys() {
        if !is_input_name(name.as_str()) {
            return Some((input_member(i, name.as_str()), FormFlaw::NoMember));
        }
    }
    let name = wrong_word(i, input, "name");
    if name.is_some() {
        return name;
    }
    let ty = wrong_word(i, input, "type");
    if ty.is_some() {
        return ty;
    }
    wrong_rows(i, input)
}

/// `inputs`
fn wrong_inputs(value: &Value) -> Wrong {
    let inputs = match list_of(value, "inputs") {
        Ok(inputs) => inputs,
        Err(wrong) => return Some(wrong),
    };
    for (i, input) in inputs.iter().enumerate() {
        let wrong = wrong_input(i, input);
        if wrong.is_some() {
            return wrong;
        }
    }
    None
}

/// The names of the members.
fn wrong_members(value: &Value) -> Wrong {
    let Some(members) = value.as_object() else {
        return Some((Printable::new(), FormFlaw::NoObject));
    };
    for name in members.keys() {
        if !is_member_name(name.as_str()) {
            return Some((member(name.as_str()), FormFlaw::NoMember));
        }
    }
    None
}

/// A part of a description.
#[derive(Clone, Copy)]
enum Part {
    Members,
    Coll,
    Ranks,
    Remote,
    Groups,
    Inputs,
    Steps,
    Prints,
}

const PARTS: [Part; 8] = [
    Part::Members,
    Part::Coll,
    Part::Ranks,
    Part::Remote,
    Part::Groups,
    Part::Inputs,
    Part::Steps,
    Part::Prints,
];

/// What is wrong with a part.
fn wrong_part(value: &Value, part: Part) -> Wrong {
    match part {
        Part::Members => wrong_members(value),
        Part::Coll => wrong_number(value, "coll"),
        Part::Ranks => wrong_number(value, "ranks"),
        Part::Remote => wrong_remote(value),
        Part::Groups => wrong_lists(value, "groups", Rule::Whole),
        Part::Inputs => wrong_inputs(value),
        Part::Steps => wrong_lists(value, "steps", Rule::Item),
        Part::Prints => wrong_prints(value),
    }
}

/// The first place where a value isn't of the form, and what is wrong there.
pub(crate) fn form_flaw(value: &Value) -> (Printable, FormFlaw) {
    for part in &PARTS {
        if let Some(wrong) = wrong_part(value, *part) {
            return wrong;
        }
    }
    (Printable::new(), FormFlaw::NoObject)
}
