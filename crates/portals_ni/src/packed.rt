//! How a triggered operation is kept while it waits: in the room of a put, since those with more are rare.

ghost use Rattle.std.specs.Prelude.{◌≡◌, IfOk};
ghost use Rattle.portals_ni.specs.Forms.{form_action};

use crate::posted_op::PostedOp;
use ptl_types::{
    AtomicOp, Bytes, Count, ElemType, GetArgs, Handle, NoMemory, PutArgs, TriggeredOp,
};
use std::alloc::Global;
use std::marker::Model;

/// An action. Those with two sets of arguments lie apart.
#[derive(Drop)]
enum Form {
    Sends(PutArgs),
    Asks(GetArgs),
    Combines(PutArgs, AtomicOp, ElemType),
    Adds(Handle, Count),
    Sets(Handle, Count),
    Apart(Box<TriggeredOp>),
}

/// A triggered operation's action, and the room for its bytes. Its value is that of `PostedOp`.
#[derive(Drop)]
pub struct Packed {
    form: Form,
    room: Bytes,
}

impl Model for Packed {
    ghost use Rattle.portals_ni.specs.declared.posted_op.PostedOp.{PostedOp};

    ghost Value = { PostedOp };

    ghost use Rattle.portals_ni.specs.Forms.{form_action};

    ghost view = { λ p. record { action = form_action p.form; room = p.room } };
}

/// The form of an action.
fn form_of(alloc: Global, action: TriggeredOp) -> Result<Form, NoMemory>
    ensures { IfOk result (λ f. form_action f ≡ action) }
{
    match action {
        TriggeredOp::Put(args) => Ok(Form::Sends(args)),
        TriggeredOp::Get(args) => Ok(Form::Asks(args)),
        TriggeredOp::Atomic(args, op, ty) => Ok(Form::Combines(args, op, ty)),
        TriggeredOp::Inc(ct, by) => Ok(Form::Adds(ct, by)),
        TriggeredOp::Set(ct, to) => Ok(Form::Sets(ct, to)),
        _ => match Box::new(alloc, action) {
            Ok(apart) => Ok(Form::Apart(apart)),
            Err(_) => Err(NoMemory),
        },
    }
}

/// The action of this form.
fn form_action(form: &Form) -> TriggeredOp
    ensures { result ≡ form_action form.now }
{
    match form {
        Form::Sends(args) => TriggeredOp::Put(*args),
        Form::Asks(args) => TriggeredOp::Get(*args),
        Form::Combines(args, op, ty) => TriggeredOp::Atomic(*args, *op, *ty),
        Form::Adds(ct, by) => TriggeredOp::Inc(*ct, *by),
        Form::Sets(ct, to) => TriggeredOp::Set(*ct, *to),
        Form::Apart(action) => **action,
    }
}

impl Packed {
    /// What is kept of a triggered operation. It takes memory for a fetch-atomic and a swap alone.
    pub fn new(alloc: Global, posted: PostedOp) -> Result<Packed, NoMemory>
        ensures { IfOk result (λ p. p ≡ posted) }
    {
        let PostedOp { action, room } = posted;
        let form = form_of(alloc, action)?;
        Ok(Packed { form, room })
    }

    /// The action.
    pub fn action(&self) -> TriggeredOp
        ensures { result ≡ self.now.action }
    {
        form_action(&self.form)
    }

    /// What it keeps.
    pub fn unpack(self) -> PostedOp
        ensures { result ≡ self }
    {
        let Packed { form, room } = self;
        let action = form_action(&form);
        PostedOp { action, room }
    }
}
