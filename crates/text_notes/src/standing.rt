//! Which kind of line is due after the lines before it, all of which are valid.

use crate::keys::{Key, key_of};
use crate::places::word;
use coll_shape::{MOST_GIVEN, MOST_RANKS, Version};
use coll_text::{cut, is, number_between, type_named};
use ptl_types::ElemType;

/// Which lines may come next.
#[derive(Clone, Copy)]
pub(crate) enum Due {
    Header,
    Ranks,
    First,
    AfterGroups,
    AfterInputs,
    Data { left: u32, ty: ElemType, count: u32 },
    AfterSteps,
    AfterChoices,
    AfterPrints,
    Orders,
}

/// What the lines so far say.
#[derive(Clone, Copy)]
pub(crate) struct Standing {
    pub(crate) version: Version,
    pub(crate) ranks: u32,
    pub(crate) due: Due,
    /// How many steps there are, choice steps too.
    pub(crate) steps: usize,
    /// How many order lines there are.
    pub(crate) orders: u32,
}

const NOTHING: Standing = Standing {
    version: Version::One,
    ranks: 1,
    due: Due::Header,
    steps: 0,
    orders: 0,
};

/// The data lines of an input.
fn data_due(ranks: u32, line: &[u8]) -> Due {
    Due::Data {
        left: ranks,
        ty: type_named(word(line, 2)).unwrap_or(ElemType::U8),
        count: number_between(1, MOST_GIVEN, word(line, 3)).unwrap_or(0),
    }
}

/// After a line that is neither one of the first two nor a data line.
fn after_line(standing: Standing, line: &[u8]) -> Standing {
    let more = standing.steps.saturating_add(1);
    match key_of(word(line, 0)) {
        Some(Key::Complete | Key::Group) => Standing {
            due: Due::AfterGroups,
            ..standing
        },
        Some(Key::Input) => Standing {
            due: data_due(standing.ranks, line),
            ..standing
        },
        Some(Key::Choice) => Standing {
            due: Due::AfterChoices,
            steps: more,
            ..standing
        },
        Some(Key::Print) => Standing {
            due: Due::AfterPrints,
            ..standing
        },
        Some(Key::End) => Standing {
            due: Due::Orders,
            ..standing
        },
        Some(Key::On | Key::Step(_)) | None => Standing {
            due: Due::AfterSteps,
            steps: more,
            ..standing
        },
    }
}

/// After line 1.
fn after_header(standing: Standing, line: &[u8]) -> Standing {
    let version = if is(line, b"coll 2") {
        Version::Two
    } else {
        Version::One
    };
    Standing {
        version,
        due: Due::Ranks,
        ..standing
    }
}

/// After line 2.
fn after_ranks(standing: Standing, line: &[u8]) -> Standing {
    Standing {
        ranks: number_between(1, MOST_RANKS, word(line, 1)).unwrap_or(1),
        due: Due::First,
        ..standing
    }
}

/// After a data line.
fn after_data(standing: Standing, left: u32, ty: ElemType, count: u32) -> Standing {
    let due = if left <= 1 {
        Due::AfterInputs
    } else {
        Due::Data {
            left: left - 1,
            ty,
            count,
        }
    };
    Standing { due, ..standing }
}

/// After a line.
fn after(standing: Standing, line: &[u8]) -> Standing {
    match standing.due {
        Due::Header => after_header(standing, line),
        Due::Ranks => after_ranks(standing, line),
        Due::Data { left, ty, count } => after_data(standing, left, ty, count),
        Due::Orders => Standing {
            orders: standing.orders.saturating_add(1),
            ..standing
        },
        _ => after_line(standing, line),
    }
}

/// What the lines before this one say.
pub(crate) fn standing_at(bytes: &[u8], number: u32) -> Standing {
    let mut standing = NOTHING;
    let mut rest = bytes;
    for _ in 1..number {
        let (line, Some(later)) = cut(rest, b'\n') else {
            return standing;
        };
        standing = after(standing, line);
        rest = later;
    }
    standing
}
