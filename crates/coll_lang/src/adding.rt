//! Adding a buffer or a group after the others.

ghost use Rattle.std.specs.Prelude.{◌≡◌, ◌+◌, ◌++◌, ◌∷◌, [], vec_len, All, OnErr, OnOk, Some};
ghost use Rattle.coll_lang.specs.Held.{HasMembers, IsSmall};
ghost use Rattle.coll_lang.specs.Made.{IfMade, made_count, with_buffer};

use coll_shape::{Buffer, Group};
use std::alloc::AllocError;

/// Adds a buffer.
pub fn add_buffer(buffers: &mut Vec<Buffer>, buffer: Buffer) -> Result<(), AllocError>
    requires one { IsSmall buffer }
    requires all { All IsSmall buffers.old.items }
    ensures added { OnOk result (buffers.new.items ≡ buffers.old.items ++ buffer ∷ []) }
    ensures longer { OnOk result (vec_len buffers.new ≡ vec_len buffers.old + 1) }
    ensures same { OnErr result (vec_len buffers.new ≡ vec_len buffers.old) }
    ensures all { All IsSmall buffers.new.items }
{
    match buffers.push(buffer) {
        Ok(()) => Ok(()),
        Err(_) => Err(AllocError),
    }
}

/// Adds a group.
pub fn add_group(groups: &mut Vec<Group>, group: Group) -> Result<(), AllocError>
    requires one { HasMembers group }
    requires all { All HasMembers groups.old.items }
    ensures added { OnOk result (groups.new.items ≡ groups.old.items ++ group ∷ []) }
    ensures longer { OnOk result (vec_len groups.new ≡ vec_len groups.old + 1) }
    ensures same { OnErr result (vec_len groups.new ≡ vec_len groups.old) }
    ensures all { All HasMembers groups.new.items }
{
    match groups.push(group) {
        Ok(()) => Ok(()),
        Err(_) => Err(AllocError),
    }
}

/// Adds the buffer that a step makes, where it makes one.
pub fn add_made(buffers: &mut Vec<Buffer>, buffer: Option<Buffer>) -> Result<(), AllocError>
    requires one { IfMade buffer }
    requires all { All IsSmall buffers.old.items }
    ensures added { OnOk result (buffers.new.items ≡ with_buffer buffers.old.items buffer) }
    ensures longer { OnOk result (vec_len buffers.new ≡ vec_len buffers.old + made_count buffer) }
    ensures same { OnErr result (vec_len buffers.new ≡ vec_len buffers.old) }
    ensures all { All IsSmall buffers.new.items }
{
    match buffer {
        Some(buffer) => add_buffer(buffers, buffer),
        None => Ok(()),
    }
}
