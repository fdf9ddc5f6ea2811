//! A description: a shape, and the values of its inputs, or the steps of a choice text.

ghost use Rattle.std.specs.Prelude.{◌≡◌, ◌*◌, length, [], Option};
ghost use Rattle.coll_lang.specs.Language.{described};
ghost use Rattle.coll_lang.specs.Readable.{IsReadable};
ghost use Rattle.coll_lang.specs.Seen.{choices_seen};
ghost use Rattle.coll_lang.specs.States.{past};

use crate::choices::Choices;
use crate::reader::Reader;
use coll_shape::{Inputs, Shape};
use std::marker::Model;

/// What a text describes. It keeps that it is readable: its one spelling is read as it.
pub struct Description {
    pub(crate) shape: Shape,
    pub(crate) inputs: Inputs,
    pub(crate) choices: Option<Choices>,
}

impl Model for Description {
    ghost use Rattle.coll_lang.specs.Program.{Program};
    ghost use Rattle.coll_lang.specs.Readable.{IsReadable};

    ghost Value = { Program };

    ghost view = { λ d. record { shape = d.shape; inputs = d.inputs; choices = d.choices } };

    ghost invariant = { λ d. ∥ IsReadable (record { shape = d.shape; inputs = d.inputs; choices = d.choices }) ∥₁ };
}

// Written out, so that letting one go is one call: docs/DECISIONS.md, "Large types have a drop of their own".
impl Drop for Description {
    fn drop(self) {
        let Description {
            shape: _,
            inputs: _,
            choices: _,
        } = self;
    }
}

impl Description {
    /// The description that the lines say, where it is readable. It takes no memory.
    pub(crate) fn of(reader: Reader) -> Description
        requires readable { IsReadable (described (past reader)) }
        requires lists { reader.choices.items ≡ [] → length reader.given.items ≡ reader.inputs * reader.ranks }
        ensures { result ≡ described (past reader) }
    {
        if reader.choices.is_empty() {
            reader.plain()
        } else {
            reader.chosen()
        }
    }

    /// What is described, without the values of the inputs. The shape of a choice text has its ranks and nothing else.
    pub fn shape(&self) -> &Shape
        ensures shape { result.now ≡ self.now.shape }
        // This holds of every description, whichever call tells it.
        ensures readable { IsReadable self.now }
    {
        &self.shape
    }

    /// The values of the inputs.
    pub fn inputs(&self) -> &Inputs
        ensures inputs { result.now ≡ self.now.inputs }
    {
        &self.inputs
    }

    /// The steps of a choice text. `None`: it is no choice text.
    pub fn choices(&self) -> Option<&Choices>
        ensures value { choices_seen result ≡ self.now.choices }
    {
        self.choices.as_ref()
    }

    /// Both parts: the inputs are those of the shape.
    pub fn into_parts(self) -> (Shape, Inputs)
        ensures shape { result.0 ≡ self.shape }
        ensures inputs { result.1 ≡ self.inputs }
        ensures readable { IsReadable self }
    {
        let Description {
            shape,
            inputs,
            choices: _,
        } = self;
        (shape, inputs)
    }
}
