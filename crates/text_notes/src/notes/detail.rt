//! What stands between the two texts of a message.

ghost use Rattle.std.specs.Prelude.{◌≡◌};
ghost use Rattle.text_notes.specs.notes.Notes.{then_detail, then_operations, then_steps, then_types, then_word};

use crate::notes::printable::Printable;
use coll_lang::{op_word, type_word};
use coll_shape::{STEP_KINDS, StepKind};
use ptl_types::{AtomicOp, ElemType};

/// A number, a word or a list of words.
#[derive(Clone, Copy, Debug, PartialEq, Eq)]
pub enum Detail {
    /// Nothing.
    Nothing,
    /// This number.
    Number(u64),
    /// The word of this type.
    TypeWord(ElemType),
    /// The words of all operations.
    Operations,
    /// The words of all types.
    Types,
    /// The first words of all steps.
    Steps,
}

/// All operations.
pub const OPERATIONS: [AtomicOp; 10] = [
    AtomicOp::Min,
    AtomicOp::Max,
    AtomicOp::Sum,
    AtomicOp::Prod,
    AtomicOp::Lor,
    AtomicOp::Land,
    AtomicOp::Bor,
    AtomicOp::Band,
    AtomicOp::Lxor,
    AtomicOp::Bxor,
];

/// All types.
pub const TYPES: [ElemType; 8] = [
    ElemType::U8,
    ElemType::I8,
    ElemType::U16,
    ElemType::I16,
    ElemType::U32,
    ElemType::I32,
    ElemType::U64,
    ElemType::I64,
];

/// Adds a space and a word.
fn show_word(text: &mut Printable, word: &[u8])
    ensures { text.new ≡ then_word text.old word.now }
{
    text.show(b" ");
    text.show(word);
}

/// Adds the words of operations.
fn show_operations(text: &mut Printable, ops: &[AtomicOp])
    ensures { text.new ≡ then_operations text.old ops.now }
{
    for op in ops {
        show_word(text, op_word(*op));
    }
}

/// Adds the words of types.
fn show_types(text: &mut Printable, types: &[ElemType])
    ensures { text.new ≡ then_types text.old types.now }
{
    for ty in types {
        show_word(text, type_word(*ty));
    }
}

/// Adds the first words of steps.
fn show_steps(text: &mut Printable, kinds: &[StepKind])
    ensures { text.new ≡ then_steps text.old kinds.now }
{
    for kind in kinds {
        show_word(text, kind.word());
    }
}

/// Adds a detail.
pub(crate) fn show_detail(text: &mut Printable, detail: Detail)
    ensures { text.new ≡ then_detail text.old detail }
{
    match detail {
        Detail::Nothing => {}
        Detail::Number(n) => text.show_number(n),
        Detail::TypeWord(ty) => text.show(type_word(ty)),
        Detail::Operations => show_operations(text, &OPERATIONS),
        Detail::Types => show_types(text, &TYPES),
        Detail::Steps => show_steps(text, &STEP_KINDS),
    }
}
