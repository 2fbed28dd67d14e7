// Reads histories, good and damaged, and writes a line for each: what was read, and whether it is written back as the same
// bytes; or the refusal with its line. Then writes a record into buffers of several lengths, and records that no readable text
// stands for.

#![tactic(auto)]

ghost use Rattle.std.specs.Prelude.{◌<◌};

use history::record::{
    Answer, Event, History, Kind, Object, Op, ProcessNo, Value, no_event, no_object,
};
use history_reader::read::{faulty_line, read_history};
use history_writer::write::{WriteFault, write_history};
use std::io::Write;
use std::{array, io};

// Writes a record back into a buffer with room for 2,048 bytes, and compares with the text that it was read from.
fn say_back<W: Write>(out: &mut W, h: History, text: &[u8]) -> io::Result<()> {
    let mut buffer = [b'.'; 2048];
    match write_history(&mut buffer, h) {
        Ok(n) => {
            let same = buffer.get(..n) == Some(text);
            let bytes = if same { "the same" } else { "other" };
            writeln!(out, ", written back 0 as {bytes} bytes")
        }
        Err(fault) => writeln!(out, ", written back {}", fault.number()),
    }
}

fn case<W: Write>(out: &mut W, name: &str, text: &[u8]) -> io::Result<()> {
    match read_history(text) {
        Ok(h) => {
            write!(
                out,
                "{name}: read, objects {}, events {}",
                h.declared, h.count
            )?;
            say_back(out, h, text)
        }
        Err(refusal) => {
            write!(
                out,
                "{name}: refused {}, line {}: [",
                refusal.fault.number(),
                refusal.place.line
            )?;
            out.write_all(faulty_line(text))?;
            writeln!(out, "]")
        }
    }
}

// Reads each of the texts, which have names.
fn cases<W: Write>(out: &mut W, texts: &[(&str, &[u8])]) -> io::Result<()> {
    for (name, text) in texts {
        case(out, name, text)?;
    }
    Ok(())
}

// Says what a writer answered and shows the whole buffer.
fn say_answer<W: Write>(
    out: &mut W,
    answer: Result<usize, WriteFault>,
    buffer: &[u8],
) -> io::Result<()> {
    match answer {
        Ok(n) => write!(out, ": 0, length {n}: [")?,
        Err(fault) => write!(out, ": {}, length 0: [", fault.number())?,
    }
    out.write_all(buffer)?;
    writeln!(out, "]")
}

// Writes the record of a text into the first n bytes of a buffer of 64.
fn say_written<W: Write>(out: &mut W, text: &[u8], n: usize) -> io::Result<()>
    requires { n < 65 }
{
    let Ok(h) = read_history(text) else {
        return writeln!(out, "refused");
    };
    let mut buffer = [b'.'; 64];
    let answer = write_history(&mut buffer[..n], h);
    write!(out, "write into {n}")?;
    say_answer(out, answer, &buffer)
}

// An answer with two numbers in its eight places.
fn told(count: u8, first: Value, second: Value) -> Answer {
    Answer {
        lost: false,
        count,
        values: [first, second, 0, 0, 0, 0, 0, 0],
    }
}

// A lost answer with a number in the first of its eight places.
fn lost(count: u8, first: Value) -> Answer {
    Answer {
        lost: true,
        ..told(count, first, 0)
    }
}

// A pop by this process and of this object, with this answer.
fn pop(process: u8, object: u8, answer: Answer) -> Event {
    Event {
        process: ProcessNo(process),
        object,
        op: Op::Pop,
        value: 0,
        answer,
    }
}

// What stands in the place of an event that is not used, but for the answer.
fn unused(answer: Answer) -> Event {
    Event {
        answer,
        ..no_event()
    }
}

// The record of one object and one event; `next` stands in the place of the second event, which is not used.
fn record_of(object: Object, event: Event, next: Event) -> History {
    let mut objects = [no_object(); 16];
    objects[0] = object;
    let mut events = [no_event(); 64];
    events[0] = event;
    events[1] = next;
    History {
        objects,
        declared: 1,
        events,
        count: 1,
    }
}

// The record of a queue.
fn record(event: Event, next: Event) -> History {
    let queue = Object {
        kind: Kind::Queue,
        width: 0,
    };
    record_of(queue, event, next)
}

// The record of an object of this kind and width, from which 7 was popped.
fn record_with(kind: Kind, width: u8) -> History {
    let object = Object { kind, width };
    record_of(object, pop(7, 0, told(1, 7, 0)), no_event())
}

// Writes a record into a buffer of 96.
fn say_record<W: Write>(out: &mut W, name: &str, h: History) -> io::Result<()> {
    let mut buffer = [b'.'; 96];
    let answer = write_history(&mut buffer, h);
    write!(out, "write {name}")?;
    say_answer(out, answer, &buffer)
}

// A record that a text stands for, and three that differ from it in one number and that none stands for.
fn records<W: Write>(out: &mut W) -> io::Result<()> {
    let seven = told(1, 7, 0);
    let none = no_event();
    say_record(out, "process 7", record(pop(7, 0, seven), none))?;
    say_record(out, "process 8", record(pop(8, 0, seven), none))?;
    say_record(out, "an undeclared object", record(pop(7, 1, seven), none))?;
    say_record(
        out,
        "a value in a place that is not used",
        record(pop(7, 0, told(1, 7, 1)), none),
    )
}

// A record with a lost answer; one whose lost answer has a value, one with a number in the places of a lost answer, and one with a
// lost answer in an event that is not used.
fn records_with_lost_answers<W: Write>(out: &mut W) -> io::Result<()> {
    let seven = told(1, 7, 0);
    let none = no_event();
    say_record(out, "a lost answer", record(pop(7, 0, lost(0, 0)), none))?;
    say_record(
        out,
        "a lost answer of one value",
        record(pop(7, 0, lost(1, 7)), none),
    )?;
    say_record(
        out,
        "a number beside a lost answer",
        record(pop(7, 0, lost(0, 7)), none),
    )?;
    say_record(
        out,
        "a lost answer in an event that is not used",
        record(pop(7, 0, seven), unused(lost(0, 0))),
    )
}

// A channel with the most slots, and with one more, with none, and a queue with a width.
fn records_with_channels<W: Write>(out: &mut W) -> io::Result<()> {
    say_record(out, "a channel of 64", record_with(Kind::Channel, 64))?;
    say_record(out, "a channel of 65", record_with(Kind::Channel, 65))?;
    say_record(out, "a channel of 0", record_with(Kind::Channel, 0))?;
    say_record(out, "a queue of 8", record_with(Kind::Queue, 8))
}

// Texts of line feeds alone: as many as a history may have bytes, and one more.
fn long_texts<W: Write>(out: &mut W) -> io::Result<()> {
    let longest = [b'\n'; 16384];
    case(out, "16384 bytes", &longest)?;
    let longer = [b'\n'; 16385];
    case(out, "16385 bytes", &longer)
}

// As many objects as a history may have, and one more.
const OBJECTS_TO_THE_LIMIT: [(&str, &[u8]); 2] = [
    (
        "16 objects",
        b"object kind width\n0 queue -\n1 queue -\n2 queue -\n3 queue -\n4 queue -\n5 queue -\n6 queue -\n7 queue -\n8 queue -\n9 queue -\n10 queue -\n11 queue -\n12 queue -\n13 queue -\n14 queue -\n15 queue -\nevent process object op value answer\n",
    ),
    (
        "17 objects",
        b"object kind width\n0 queue -\n1 queue -\n2 queue -\n3 queue -\n4 queue -\n5 queue -\n6 queue -\n7 queue -\n8 queue -\n9 queue -\n10 queue -\n11 queue -\n12 queue -\n13 queue -\n14 queue -\n15 queue -\n16 queue -\nevent process object op value answer\n",
    ),
];

// The byte at a place of the text of one queue and 65 events, each a push of 7. The line of event 10 begins at 215, and from there on
// each line has 16 bytes.
fn push_byte(i: usize) -> u8
    requires { i < 1095 }
{
    let first =
        b"object kind width\n0 queue -\nevent process object op value answer\n0 0 0 push 7 -\n1 0 0 push 7 -\n2 0 0 push 7 -\n3 0 0 push 7 -\n4 0 0 push 7 -\n5 0 0 push 7 -\n6 0 0 push 7 -\n7 0 0 push 7 -\n8 0 0 push 7 -\n9 0 0 push 7 -\n";
    let line = b"10 0 0 push 7 -\n";
    if i < 215 {
        return first[i];
    }
    let e = (i - 55) / 16;
    match (i - 55) % 16 {
        0 => b'0' + (e / 10) as u8,
        1 => b'0' + (e % 10) as u8,
        k => line[k],
    }
}

// The text of one queue and 65 events.
fn push_text() -> [u8; 1095] {
    array::from_fn(|i| push_byte(i))
}

// As many events as a history may have, and one more: the text of 65 events without its last line, and all of it.
fn events_to_the_limit<W: Write>(out: &mut W) -> io::Result<()> {
    let text = push_text();
    case(out, "64 events", &text[0..1079])?;
    case(out, "65 events", &text)
}

// Histories that are read, and the widths of objects.
const OF_OBJECTS: [(&str, &[u8]); 8] = [
    (
        "Q",
        b"object kind width\n0 queue -\nevent process object op value answer\n0 0 0 push 7 -\n1 1 0 pop - 7\n",
    ),
    (
        "empty history",
        b"object kind width\nevent process object op value answer\n",
    ),
    (
        "width 8",
        b"object kind width\n0 window 8\nevent process object op value answer\n0 7 0 read - 0,0,0,0,0,0,0,0\n",
    ),
    (
        "width 9",
        b"object kind width\n0 window 9\nevent process object op value answer\n",
    ),
    (
        "width 0",
        b"object kind width\n0 window 0\nevent process object op value answer\n",
    ),
    (
        "width of a register",
        b"object kind width\n0 register 1\nevent process object op value answer\n",
    ),
    (
        "width 9 of a register",
        b"object kind width\n0 register 9\nevent process object op value answer\n",
    ),
    (
        "window without a width",
        b"object kind width\n0 window -\nevent process object op value answer\n",
    ),
];

// Capacities of channels beside widths of the other kinds, and answers of pushes.
const OF_CHANNELS: [(&str, &[u8]); 8] = [
    (
        "channel of 64",
        b"object kind width\n0 channel 64\nevent process object op value answer\n0 0 0 push 5 -\n1 0 0 push 6 6\n2 1 0 pop - 5\n",
    ),
    (
        "channel of 65",
        b"object kind width\n0 channel 65\nevent process object op value answer\n",
    ),
    (
        "channel of 0",
        b"object kind width\n0 channel 0\nevent process object op value answer\n",
    ),
    (
        "channel without a width",
        b"object kind width\n0 channel -\nevent process object op value answer\n",
    ),
    (
        "width 9 of a queue",
        b"object kind width\n0 queue 9\nevent process object op value answer\n",
    ),
    (
        "width 8 of a queue",
        b"object kind width\n0 queue 8\nevent process object op value answer\n",
    ),
    (
        "two values of a push",
        b"object kind width\n0 channel 1\nevent process object op value answer\n0 0 0 push 5 5,5\n",
    ),
    (
        "value of a push on a queue",
        b"object kind width\n0 queue -\nevent process object op value answer\n0 0 0 push 5 5\n",
    ),
];

// Processes, values, objects and ops of events.
const OF_EVENTS: [(&str, &[u8]); 7] = [
    (
        "process 7",
        b"object kind width\n0 stack -\nevent process object op value answer\n0 7 0 pop - -\n",
    ),
    (
        "process 8",
        b"object kind width\n0 stack -\nevent process object op value answer\n0 8 0 pop - -\n",
    ),
    (
        "value 65535",
        b"object kind width\n0 register -\nevent process object op value answer\n0 0 0 write 65535 -\n",
    ),
    (
        "value 65536",
        b"object kind width\n0 register -\nevent process object op value answer\n0 0 0 write 65536 -\n",
    ),
    (
        "undeclared object",
        b"object kind width\n0 register -\nevent process object op value answer\n0 0 1 write 1 -\n",
    ),
    (
        "op that the kind lacks",
        b"object kind width\n0 register -\nevent process object op value answer\n0 0 0 push 1 -\n",
    ),
    (
        "value where none belongs",
        b"object kind width\n0 register -\nevent process object op value answer\n0 0 0 read 1 1\n",
    ),
];

// Answers that were lost: `?` for each op, and beside other bytes and other faults.
const OF_LOST_ANSWERS: [(&str, &[u8]); 7] = [
    (
        "lost answers of every op",
        b"object kind width\n0 register -\n1 queue -\n2 window 8\nevent process object op value answer\n0 0 0 write 1 ?\n1 0 0 read - ?\n2 1 1 push 2 ?\n3 1 1 pop - ?\n4 2 1 peek - ?\n5 2 2 read - ?\n",
    ),
    (
        "lost before a value",
        b"object kind width\n0 queue -\nevent process object op value answer\n0 0 0 pop - ?,7\n",
    ),
    (
        "lost behind a value",
        b"object kind width\n0 queue -\nevent process object op value answer\n0 0 0 pop - 7,?\n",
    ),
    (
        "lost twice",
        b"object kind width\n0 queue -\nevent process object op value answer\n0 0 0 pop - ??\n",
    ),
    (
        "lost value",
        b"object kind width\n0 queue -\nevent process object op value answer\n0 0 0 push ? -\n",
    ),
    (
        "lost answer of process 8",
        b"object kind width\n0 queue -\nevent process object op value answer\n0 8 0 pop - ?\n",
    ),
    (
        "lost answer of an op that the kind lacks",
        b"object kind width\n0 register -\nevent process object op value answer\n0 0 0 pop - ?\n",
    ),
];

// Answers, and the layout of a text.
const OF_ANSWERS_AND_LAYOUT: [(&str, &[u8]); 9] = [
    (
        "answer of two values",
        b"object kind width\n0 register -\nevent process object op value answer\n0 0 0 read - 1,2\n",
    ),
    (
        "window's answers of no value to two",
        b"object kind width\n0 window 2\nevent process object op value answer\n0 0 0 read - -\n1 0 0 read - 4\n2 0 0 read - 4,9\n",
    ),
    (
        "window's answer of three values",
        b"object kind width\n0 window 2\nevent process object op value answer\n0 0 0 read - 4,9,7\n",
    ),
    (
        "answer of nine values",
        b"object kind width\n0 window 8\nevent process object op value answer\n0 0 0 read - 1,2,3,4,5,6,7,8,9\n",
    ),
    (
        "layout before limits",
        b"object kind width\n0 register -\nevent process object op value answer\n0 8 0 write 01 -\n",
    ),
    (
        "wrong own number",
        b"object kind width\n1 register -\nevent process object op value answer\n",
    ),
    (
        "no final line feed",
        b"object kind width\nevent process object op value answer",
    ),
    (
        "no heading of the events",
        b"object kind width\n0 queue -\n",
    ),
    ("empty text", b""),
];

// One record into buffers of several lengths.
fn of_writing<W: Write>(out: &mut W) -> io::Result<()> {
    say_written(
        out,
        b"object kind width\nevent process object op value answer\n",
        54,
    )?;
    say_written(
        out,
        b"object kind width\nevent process object op value answer\n",
        55,
    )?;
    say_written(
        out,
        b"object kind width\nevent process object op value answer\n",
        64,
    )
}

fn main(rt: HostRuntime) -> io::Result<()> {
    let mut out = io::writer(&rt);
    cases(&mut out, &OF_OBJECTS)?;
    cases(&mut out, &OF_CHANNELS)?;
    cases(&mut out, &OF_EVENTS)?;
    cases(&mut out, &OF_LOST_ANSWERS)?;
    cases(&mut out, &OF_ANSWERS_AND_LAYOUT)?;
    cases(&mut out, &OBJECTS_TO_THE_LIMIT)?;
    events_to_the_limit(&mut out)?;
    long_texts(&mut out)?;
    of_writing(&mut out)?;
    records(&mut out)?;
    records_with_lost_answers(&mut out)?;
    records_with_channels(&mut out)
}
