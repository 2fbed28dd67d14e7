// The words of kinds and ops.
ghost use Rattle.std.specs.Prelude.{◌≡◌, ◌+◌, ◌≤◌, cond, not};
ghost use Rattle.history.specs.Kinds.{is_kind, kind_of, is_op, op_of, is_channel, has_width, width_limit, is_shelf, is_shelf_op, has_op, takes_value, read_can_answer, push_can_answer, can_answer, may_answer};

use crate::record::{Answer, Kind, Object, Op};
use layout::word::named;

// The words of the kinds.
const KINDS: [(&[u8], Kind); 5] = [
    (b"queue", Kind::Queue),
    (b"stack", Kind::Stack),
    (b"window", Kind::Window),
    (b"channel", Kind::Channel),
    (b"register", Kind::Register),
];

// The words of the ops.
const OPS: [(&[u8], Op); 5] = [
    (b"read", Op::Read),
    (b"push", Op::Push),
    (b"pop", Op::Pop),
    (b"peek", Op::Peek),
    (b"write", Op::Write),
];

// The kind whose word a field is.
#[tactic(auto, unfolding(crate::specs::Kinds::is_kind, crate::specs::Kinds::kind_of, layout::specs::Steps::Table::named))]
pub fn read_kind(field: &[u8]) -> Option<Kind>
    ensures { result ≡ cond (is_kind field.now) (Some (kind_of field.now)) None }
{
    named(field, &KINDS)
}

// The op whose word a field is.
#[tactic(auto, unfolding(crate::specs::Kinds::is_op, crate::specs::Kinds::op_of, layout::specs::Steps::Table::named))]
pub fn read_op(field: &[u8]) -> Option<Op>
    ensures { result ≡ cond (is_op field.now) (Some (op_of field.now)) None }
{
    named(field, &OPS)
}

// Whether the kind is a queue with a capacity.
pub fn is_channel(kind: Kind) -> bool
    ensures { result ≡ is_channel kind }
{
    kind == Kind::Channel
}

// Whether objects of the kind have a width.
pub fn has_width(kind: Kind) -> bool
    ensures { result ≡ has_width kind }
{
    matches!(kind, Kind::Window | Kind::Channel)
}

// What a width that stands with the kind must be below.
pub fn width_bound(kind: Kind) -> u64
    ensures { (result ≡ width_limit kind + 1) × (result ≤ 65) }
{
    if is_channel(kind) { 65 } else { 9 }
}

fn is_shelf(kind: Kind) -> bool
    ensures { result ≡ is_shelf kind }
{
    matches!(kind, Kind::Queue | Kind::Stack | Kind::Channel)
}

fn is_shelf_op(op: Op) -> bool
    ensures { result ≡ is_shelf_op op }
{
    matches!(op, Op::Push | Op::Pop | Op::Peek)
}

// Whether the op is one that the kind has.
pub fn has_op(kind: Kind, op: Op) -> bool
    ensures { result ≡ has_op kind op }
{
    is_shelf(kind) == is_shelf_op(op)
}

pub fn takes_value(op: Op) -> bool
    ensures { result ≡ takes_value op }
{
    matches!(op, Op::Write | Op::Push)
}

// Whether a read of an object of the kind and the width can answer so many values.
fn read_can_answer(kind: Kind, width: u8, n: u8) -> bool
    ensures { result ≡ read_can_answer kind width n }
{
    match kind {
        Kind::Window => n <= width,
        _ => n == 1,
    }
}

// Whether a push on an object of the kind can answer so many values.
fn push_can_answer(kind: Kind, n: u8) -> bool
    ensures { result ≡ push_can_answer kind n }
{
    if is_channel(kind) { n <= 1 } else { n == 0 }
}

// Whether an op of an object can answer so many values.
fn can_answer(object: Object, op: Op, n: u8) -> bool
    ensures { result ≡ can_answer object op n }
{
    match op {
        Op::Write => n == 0,
        Op::Read => read_can_answer(object.kind, object.width, n),
        Op::Push => push_can_answer(object.kind, n),
        Op::Pop | Op::Peek => n <= 1,
    }
}

// Whether an op of an object can give the answer: one that was lost, which has no value, or one of so many values.
pub fn may_answer(object: Object, op: Op, answer: Answer) -> bool
    ensures { result ≡ may_answer object op answer }
{
    if answer.lost {
        answer.count == 0
    } else {
        can_answer(object, op, answer.count)
    }
}

// Whether a value or a width stands where it belongs, and `-` elsewhere.
// Kept: no enum, since both are answers of other functions (`takes_value` or `has_width`, and `is_none`) and no caller writes `true`.
pub fn fits_dash(wanted: bool, dash: bool) -> bool
    ensures { result ≡ cond wanted (not dash) dash }
{
    wanted != dash
}
