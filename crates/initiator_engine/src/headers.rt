//! The header of each start.

ghost use Rattle.std.specs.Prelude.{◌≡◌};
ghost use Rattle.ni_model.specs.Starts.{put_header, get_header, fetch_header, header_of, put_args, counted_on};

use ptl_types::{
    AckRequest, AtomicOp, ElemType, GetArgs, Handle, Header, MessageKind, PutArgs, Rank, SwapOp,
    TriggeredOp,
};

/// The header of a put or of an atomic operation.
fn put_header(
    rank: Rank,
    kind: MessageKind,
    args: &PutArgs,
    op: Option<AtomicOp>,
    ty: ElemType,
) -> Header
    ensures { result ≡ put_header rank kind args.now op ty }
{
    Header {
        kind,
        source: rank,
        target: args.target,
        pt: args.pt,
        match_bits: args.match_bits,
        offset: args.remote_offset,
        length: args.length,
        hdr_data: args.hdr_data,
        op,
        swap: None,
        ty,
        operand: 0,
        ack: args.ack,
        home: match args.ack {
            AckRequest::NoAck => None,
            _ => Some(args.md),
        },
        home_offset: 0,
        ok: true,
    }
}

/// The header of a get.
fn get_header(rank: Rank, args: &GetArgs) -> Header
    ensures { result ≡ get_header rank args.now }
{
    Header {
        kind: MessageKind::Get,
        source: rank,
        target: args.target,
        pt: args.pt,
        match_bits: args.match_bits,
        offset: args.remote_offset,
        length: args.length,
        hdr_data: 0,
        op: None,
        swap: None,
        ty: ElemType::U8,
        operand: 0,
        ack: AckRequest::NoAck,
        home: Some(args.md),
        home_offset: args.local_offset,
        ok: true,
    }
}

/// What a fetch-atomic or a swap does to each element.
#[derive(Clone, Copy)]
struct Change {
    kind: MessageKind,
    op: Option<AtomicOp>,
    swap: Option<SwapOp>,
    ty: ElemType,
    operand: u64,
}

/// The header of a fetch-atomic or a swap: the reply goes to the place of the get arguments, the rest is of the put arguments.
fn fetch_header(rank: Rank, back: &GetArgs, args: &PutArgs, change: Change) -> Header
    ensures { result ≡ fetch_header rank change.kind back.now args.now change.op change.swap change.ty change.operand }
{
    Header {
        kind: change.kind,
        op: change.op,
        swap: change.swap,
        ty: change.ty,
        operand: change.operand,
        hdr_data: args.hdr_data,
        target: args.target,
        pt: args.pt,
        match_bits: args.match_bits,
        offset: args.remote_offset,
        length: args.length,
        ..get_header(rank, back)
    }
}

/// The header of an action that starts an operation; none of one that counts.
pub fn header_of(rank: Rank, action: &TriggeredOp) -> Option<Header>
    ensures { result ≡ header_of rank action.now }
{
    match action {
        TriggeredOp::Put(args) => Some(put_header(
            rank,
            MessageKind::Put,
            args,
            None,
            ElemType::U8,
        )),
        TriggeredOp::Get(args) => Some(get_header(rank, args)),
        TriggeredOp::Atomic(args, op, ty) => {
            Some(put_header(rank, MessageKind::Atomic, args, Some(*op), *ty))
        }
        TriggeredOp::FetchAtomic(back, args, op, ty) => {
            let change = Change {
                kind: MessageKind::FetchAtomic,
                op: Some(*op),
                swap: None,
                ty: *ty,
                operand: 0,
            };
            Some(fetch_header(rank, back, args, change))
        }
        TriggeredOp::Swap(back, args, op, ty, operand) => {
            let change = Change {
                kind: MessageKind::Swap,
                op: None,
                swap: Some(*op),
                ty: *ty,
                operand: *operand,
            };
            Some(fetch_header(rank, back, args, change))
        }
        _ => None,
    }
}

/// The arguments of what the action sends.
pub fn put_args(action: &TriggeredOp) -> Option<PutArgs>
    ensures { result ≡ put_args action.now }
{
    match action {
        TriggeredOp::Put(args) => Some(*args),
        TriggeredOp::Atomic(args, _, _) => Some(*args),
        TriggeredOp::FetchAtomic(_, args, _, _) => Some(*args),
        TriggeredOp::Swap(_, args, _, _, _) => Some(*args),
        _ => None,
    }
}

/// The descriptor that the start counts on and tells.
pub fn counted_on(action: &TriggeredOp) -> Option<Handle>
    ensures { result ≡ counted_on action.now }
{
    match action {
        TriggeredOp::Put(args) => Some(args.md),
        TriggeredOp::Get(args) => Some(args.md),
        TriggeredOp::Atomic(args, _, _) => Some(args.md),
        TriggeredOp::FetchAtomic(_, args, _, _) => Some(args.md),
        TriggeredOp::Swap(_, args, _, _, _) => Some(args.md),
        _ => None,
    }
}
