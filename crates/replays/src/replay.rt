// The replay of a view: the first event whose visible answer the objects do not give.
ghost use Rattle.std.specs.Prelude.{◌≡◌, not, ◌&&◌};
ghost use Rattle.criteria.specs.Check.{first_wrong};
ghost use Rattle.criteria.specs.OneLine.{is_update};
ghost use Rattle.replays.specs.Replay.{history_in, contents_in, is_visible, found_event, Ready};
ghost use Rattle.replays.specs.Steps.{sees_of};

use crate::light::LightHistory;
use history::record::{EventNo, Op, ProcessNo};
use objects::state::{EventOp, State};

// An event without its value and its answer. A silent one's answer is right whatever its object holds.
#[derive(Clone, Copy)]
pub struct Light {
    pub process: ProcessNo,
    pub object: u8,
    pub op: Op,
    pub silent: bool,
}

// Which answers are visible.
#[derive(Clone, Copy)]
pub enum Visible {
    All,
    Of(ProcessNo),
    Only(EventNo),
}

// Whether an event's answer is visible.
fn sees(who: Visible, process: ProcessNo, no: EventNo) -> bool
    ensures { result ≡ sees_of who process.0 no.0 }
{
    match who {
        Visible::All => true,
        Visible::Of(p) => process == p,
        Visible::Only(e) => no == e,
    }
}

// Whether the op can change what an object holds: whether it is an update.
pub fn changes(op: Op) -> bool
    ensures { result ≡ is_update op }
{
    matches!(op, Op::Write | Op::Push | Op::Pop)
}

// Whether the state has to be asked for an event's answer: it is visible, and not right whatever the object holds.
fn asks(who: Visible, e: Light, no: EventNo) -> bool
    ensures { result ≡ not e.silent && sees_of who e.process.0 no.0 }
{
    !e.silent && sees(who, e.process, no)
}

// The first event of the view whose visible answer the replay does not give.
// Kept: `Ready` in four contracts. A ghost field of `LightHistory` for its part on the history would ask `within` of `light_history`, which
// asks less; a struct of history and states would be built in `replay_fault` and opened in each, and the part on the view would stand in
// each contract still.
pub fn replay(
    history: &LightHistory,
    starts: [State; 16],
    view: &[u8],
    who: Visible,
) -> Option<EventNo>
    requires { Ready history.now starts view.now }
    ensures { found_event result ≡ first_wrong (history_in history.now) (is_visible (history_in history.now) who) (contents_in history.now.values starts) view.now }
{
    let mut states = starts;
    for number in view {
        let no = EventNo(*number);
        let at = usize::from(*number);
        let e = history.events[at];
        let o = usize::from(e.object);
        let event = EventOp { no, op: e.op };
        if asks(who, e, no) {
            let step = states[o].step(event);
            if !history.fits_given(&history.answers[at], &step.answer) {
                return Some(no);
            }
            states[o] = step.state;
        } else if changes(e.op) {
            states[o] = states[o].changed(event);
        }
    }
    None
}
