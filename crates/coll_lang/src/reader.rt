//! Line by line, what the lines so far say.

ghost use Rattle.std.specs.Prelude.{◌≡◌, ◌≤◌, length, vec_len, All};
ghost use Rattle.number_lists.specs.Numbers.{from_to};
ghost use Rattle.coll_shape.specs.declared.limits.TheConstants.{MOST_RANKS, MOST_GROUPS, MOST_BUFFERS, MOST_ELEMENTS};
ghost use Rattle.coll_lang.specs.Held.{HasMembers, IsSmall};

use crate::choices::{ChoiceStep, Choices};
use crate::description::Description;
use crate::stage::Stage;
use coll_shape::{Buffer, CollStep, Group, InputList, Inputs, Parts, RankList, Shape, Version};
use std::alloc::Global;

/// What the lines so far say.
pub struct Reader {
    /// Where its lists take memory.
    pub alloc: Global,
    /// Which lines may come next.
    pub stage: Stage,
    /// The version of the language; the first one until line 1 is taken.
    pub version: Version,
    /// How many ranks the job has; 1 until line 2 is taken.
    pub ranks: u32,
    /// All ranks.
    pub everyone: RankList,
    /// Whether `complete remote` was there.
    pub remote: bool,
    /// The groups in the order of their lines.
    pub groups: Vec<Group>,
    /// The buffers in the order of their lines.
    pub buffers: Vec<Buffer>,
    /// How many of the buffers are inputs.
    pub inputs: u32,
    /// The bytes of each data line in order.
    pub given: Vec<InputList>,
    /// The steps in order.
    pub steps: Vec<CollStep>,
    /// For each step the number of the group that it names.
    pub on: Vec<Option<u32>>,
    /// The steps of a choice text in order.
    pub choices: Vec<ChoiceStep>,
    /// The numbers of the buffers that are printed, in order.
    pub prints: Vec<u32>,
    /// The elements of all prints so far, over all ranks.
    pub printed: u64,
    ghost some_ranks: { 1 ≤ ranks },
    ghost few_ranks: { ranks ≤ MOST_RANKS },
    ghost are_all: { everyone ≡ from_to 0 ranks },
    ghost some_everyone: { 1 ≤ length everyone },
    ghost few_everyone: { length everyone ≤ MOST_RANKS },
    ghost few_groups: { vec_len groups ≤ MOST_GROUPS },
    ghost have_members: { All HasMembers groups.items },
    ghost few_buffers: { vec_len buffers ≤ MOST_BUFFERS },
    ghost few_inputs: { inputs ≤ vec_len buffers },
    ghost little_printed: { printed ≤ MOST_ELEMENTS },
    ghost are_small: { All IsSmall buffers.items },
}

// Written out, so that letting one go is one call: docs/DECISIONS.md, "Large types have a drop of their own".
impl Drop for Reader {
    fn drop(self) {
        let Reader {
            alloc: _,
            stage: _,
            version: _,
            ranks: _,
            everyone: _,
            remote: _,
            groups: _,
            buffers: _,
            inputs: _,
            given: _,
            steps: _,
            on: _,
            choices: _,
            prints: _,
            printed: _,
        } = self;
    }
}

impl Reader {
    ghost use Rattle.std.specs.Prelude.{◌*◌, []};
    ghost use Rattle.coll_lang.specs.Language.{described};
    ghost use Rattle.coll_lang.specs.Readable.{IsReadable};
    ghost use Rattle.coll_lang.specs.States.{past};

    /// The description of a text that is no choice text. It takes no memory.
    #[tactic(auto, unfolding(crate::specs::Language::described))]
    pub(crate) fn plain(self) -> Description
        requires readable { IsReadable (described (past self)) }
        requires none { self.choices.items ≡ [] }
        requires lists { length self.given.items ≡ self.inputs * self.ranks }
        ensures { result ≡ described (past self) }
    {
        let Reader {
            alloc: _,
            stage: _,
            version,
            ranks,
            everyone,
            remote,
            groups,
            buffers,
            inputs,
            given,
            steps,
            on,
            choices: _,
            prints,
            printed: _,
        } = self;
        let parts = Parts {
            version,
            ranks,
            remote,
            groups,
            buffers,
            inputs,
            steps,
            on,
            prints,
        };
        Description {
            shape: Shape::of(parts, everyone),
            inputs: Inputs::of(ranks, inputs, given),
            choices: None,
        }
    }

    /// The description of a choice text. It takes no memory.
    #[tactic(auto, unfolding(crate::specs::Language::described))]
    pub(crate) fn chosen(self) -> Description
        requires readable { IsReadable (described (past self)) }
        requires nonempty { 1 ≤ length self.choices.items }
        ensures { result ≡ described (past self) }
    {
        let Reader {
            alloc,
            stage: _,
            version,
            ranks,
            everyone,
            remote: _,
            groups: _,
            buffers: _,
            inputs: _,
            given: _,
            steps: _,
            on: _,
            choices,
            prints,
            printed: _,
        } = self;
        let parts = Parts {
            version,
            ranks,
            remote: false,
            groups: Vec::new(alloc),
            buffers: Vec::new(alloc),
            inputs: 0,
            steps: Vec::new(alloc),
            on: Vec::new(alloc),
            prints: Vec::new(alloc),
        };
        Description {
            shape: Shape::of(parts, everyone),
            inputs: Inputs::of(ranks, 0, Vec::new(alloc)),
            choices: Some(Choices::of(choices, prints)),
        }
    }
}
