// The fields of a line.
ghost use Rattle.std.proofs.Common.{lit<};
ghost use Rattle.std.specs.Prelude.{◌≡◌, ◌≤◌, length};
ghost use Rattle.layout.specs.Fill.{fill};
ghost use Rattle.history.specs.Kinds.{kind_word, op_word};
ghost use Rattle.history.specs.HistoryText.{answer_text};
ghost use Rattle.history_writer.specs.Steps.Lines.{field_text};

use history::record::{Answer, Kind, Op};
use layout::fields;
use layout::fill::put_bytes;
use layout::list::{list_len, put_list};
use layout::number::{number_len, put_number};

// A field of a line.
#[derive(Clone, Copy)]
pub(crate) enum Field {
    Dash,
    Number(u32),
    Kind(Kind),
    Op(Op),
    Answer(Answer),
}

// The word of a kind.
// Kept: a match gives each kind and op its word; a look-up in the tables of history::word, which read them, could find none.
#[tactic(auto, unfolding(history::specs::Kinds::kind_word))]
fn kind_word(kind: Kind) -> &'static [u8]
    ensures { (result.now ≡ kind_word kind) × (length result.now ≤ 8) }
{
    match kind {
        Kind::Register => b"register",
        Kind::Queue => b"queue",
        Kind::Stack => b"stack",
        Kind::Window => b"window",
        Kind::Channel => b"channel",
    }
}

// The word of an op.
#[tactic(auto, unfolding(history::specs::Kinds::op_word))]
fn op_word(op: Op) -> &'static [u8]
    ensures { (result.now ≡ op_word op) × (length result.now ≤ 5) }
{
    match op {
        Op::Write => b"write",
        Op::Read => b"read",
        Op::Push => b"push",
        Op::Pop => b"pop",
        Op::Peek => b"peek",
    }
}

// How many bytes an answer has.
fn answer_len(a: Answer) -> usize
    ensures { (result ≡ length (answer_text a)) × (result ≤ 704) }
{
    if a.lost {
        return 1;
    }
    list_len(a.told_values())
}

// Writes an answer into a part that has room.
fn put_answer(part: &mut [u8], a: Answer) -> usize
    requires { length (answer_text a) ≤ length part.old }
    ensures { (result ≡ length (answer_text a)) × (part.new ≡ fill (answer_text a) part.old) }
{
    if a.lost {
        return put_bytes(part, b"?");
    }
    put_list(part, a.told_values())
}

impl fields::Field for Field {
    ghost text = { field_text };

    #[tactic(auto, unfolding(crate::specs::Steps::Lines::field_text))]
    fn put(&self, part: &mut [u8]) -> usize {
        match *self {
            Field::Dash => put_bytes(part, b"-"),
            Field::Number(n) => put_number(part, n),
            Field::Kind(kind) => put_bytes(part, kind_word(kind)),
            Field::Op(op) => put_bytes(part, op_word(op)),
            Field::Answer(a) => put_answer(part, a),
        }
    }
}

impl fields::CountedField for Field {
    ghost longest = { 704 };

    #[tactic(auto, unfolding(crate::specs::Steps::Lines::field_text))]
    fn text_len(&self) -> usize {
        match *self {
            Field::Dash => 1,
            Field::Number(n) => number_len(n),
            Field::Kind(kind) => kind_word(kind).len(),
            Field::Op(op) => op_word(op).len(),
            Field::Answer(a) => answer_len(a),
        }
    }

    ghost short = { lit< tt };
}
