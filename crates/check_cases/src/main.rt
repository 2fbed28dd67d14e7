// Checks a certificate text for a history text in each case, one for each answer at least, and prints the verdict's lines and, in
// brackets, the line of a text that it carries.

#![tactic(auto)]

use checker::check::carried_line;
use std::io;
use std::io::Write;
use verdict_lines::print::print_check;

// A queue: process 0 pushes 7, and process 1 pops it.
const QUEUE: &[u8] =
    b"object kind width\n0 queue -\nevent process object op value answer\n0 0 0 push 7 -\n1 1 0 pop - 7\n";

// A window of 2: process 0 writes 4 and reads 9,4, process 1 writes 9 and reads 4,9.
const WINDOW: &[u8] =
    b"object kind width\n0 window 2\nevent process object op value answer\n0 0 0 write 4 -\n1 0 0 read - 9,4\n2 1 0 write 9 -\n3 1 0 read - 4,9\n";

// A register: processes 0 and 1 write 3 and 8, process 2 reads 3, 8, 3.
const REGISTER: &[u8] =
    b"object kind width\n0 register -\nevent process object op value answer\n0 0 0 write 3 -\n1 1 0 write 8 -\n2 2 0 read - 3\n3 2 0 read - 8\n4 2 0 read - 3\n";

// Two registers.
const REGISTERS: &[u8] =
    b"object kind width\n0 register -\n1 register -\nevent process object op value answer\n0 0 0 write 5 -\n1 1 0 read - 5\n2 1 1 write 6 -\n3 2 1 read - 6\n4 2 0 read - 0\n";

// The two lines of the verdict.
#[tactic(auto, using(verdict_lines::proofs::PieceLaws::printed_fits))]
fn say_verdict<W: Write>(out: &mut W, history: &[u8], certificate: &[u8]) -> io::Result<()> {
    let lines = print_check(history, certificate);
    out.write_all(lines.text())
}

fn case<W: Write>(out: &mut W, name: &str, history: &[u8], certificate: &[u8]) -> io::Result<()> {
    writeln!(out, "{name}")?;
    say_verdict(out, history, certificate)?;
    write!(out, "[")?;
    out.write_all(carried_line(history, certificate))?;
    writeln!(out, "]")
}

// The cases: a name, a history and a certificate each.
fn cases<W: Write>(out: &mut W, cases: &[(&str, &[u8], &[u8])]) -> io::Result<()> {
    for (name, history, certificate) in cases {
        case(out, name, history, certificate)?;
    }
    Ok(())
}

// A history of one byte more than it may have.
fn long_history<W: Write>(out: &mut W) -> io::Result<()> {
    let history = [b'0'; 16385];
    case(
        out,
        "1, the history is too long",
        &history,
        b"criterion sequential\nview order\n0 0\n",
    )
}

// Certificates that are accepted, of each criterion.
const ACCEPTED: [(&str, &[u8], &[u8]); 9] = [
    (
        "accepted, sequential",
        QUEUE,
        b"criterion sequential\nview order\n0 0,1\n",
    ),
    (
        "accepted, pram",
        REGISTERS,
        b"criterion pram\nview order\n0 0,1,2,3,4\n1 0,1,2,3,4\n2 1,2,3,4,0\n",
    ),
    (
        "accepted, weak",
        REGISTER,
        b"criterion weak\nevent past\n0 -\n1 -\n2 0\n3 0,1,2\n4 0,1,2,3\nview order\n0 0\n1 1\n2 0,2\n3 0,2,1,3\n4 1,0,2,3,4\n",
    ),
    (
        "accepted, causal",
        WINDOW,
        b"criterion causal\nevent past\n0 -\n1 0,2\n2 -\n3 0,2\nview order\n0 0\n1 2,0,1\n2 2\n3 0,2,3\n",
    ),
    (
        "accepted, converge",
        b"object kind width\n0 window 2\nevent process object op value answer\n0 0 0 write 4 -\n1 1 0 write 9 -\n2 1 0 read - 9\n3 1 0 read - 4,9\n",
        b"criterion converge\nevent past\n0 -\n1 -\n2 1\n3 0,1,2\nview order\n0 0,1,2,3\n",
    ),
    (
        "accepted, strict",
        b"object kind width\n0 stack -\nevent process object op value answer\n0 0 0 push 1 -\n1 0 0 push 3 -\n2 0 0 pop - 3\n3 1 0 pop - 1\n4 1 0 push 2 -\n5 1 0 pop - 2\n6 2 0 pop - 1\n7 2 0 pop - 2\n",
        b"criterion strict\nevent past\n0 -\n1 0\n2 0,1\n3 0\n4 0,3\n5 0,3,4\n6 0\n7 0,3,4,6\nview order\n0 0,1,2,3,4,5,6,7\n1 0,3,4,5,6,7,1,2\n2 0,6,3,4,7,5,1,2\n",
    ),
    (
        "accepted, a full channel",
        b"object kind width\n0 channel 1\nevent process object op value answer\n0 0 0 push 5 -\n1 1 0 push 6 6\n2 0 0 pop - 5\n",
        b"criterion sequential\nview order\n0 0,1,2\n",
    ),
    (
        "accepted, a window that holds nothing",
        b"object kind width\n0 window 1\nevent process object op value answer\n0 0 0 read - -\n",
        b"criterion sequential\nview order\n0 0\n",
    ),
    (
        "accepted, no events",
        b"object kind width\nevent process object op value answer\n",
        b"criterion sequential\nview order\n0 -\n",
    ),
];

// Refusals of the history.
const HISTORY_REFUSED: [(&str, &[u8], &[u8]); 4] = [
    (
        "2, a heading of the history",
        b"object kind wide\n0 queue -\nevent process object op value answer\n0 0 0 push 7 -\n1 1 0 pop - 7\n",
        b"criterion sequential\nview order\n0 0,1\n",
    ),
    (
        "3, width 9",
        b"object kind width\n0 window 9\nevent process object op value answer\n",
        b"criterion sequential\nview order\n0 -\n",
    ),
    (
        "4, an op that the kind lacks",
        b"object kind width\n0 queue -\nevent process object op value answer\n0 0 0 write 7 -\n1 1 0 pop - 7\n",
        b"criterion sequential\nview order\n0 0,1\n",
    ),
    (
        "5, an answer that cannot be",
        b"object kind width\n0 queue -\nevent process object op value answer\n0 0 0 push 7 -\n1 1 0 pop - 7,8\n",
        b"criterion sequential\nview order\n0 0,1\n",
    ),
];

// Refusals of the certificate.
const CERTIFICATE_REFUSED: [(&str, &[u8], &[u8]); 3] = [
    ("2, an empty certificate", QUEUE, b""),
    (
        "3, an entry that is no event",
        QUEUE,
        b"criterion sequential\nview order\n0 0,2\n",
    ),
    (
        "6, a past that falls",
        WINDOW,
        b"criterion causal\nevent past\n0 -\n1 2,0\n2 -\n3 0,2\nview order\n0 0\n1 2,0,1\n2 2\n3 0,2,3\n",
    ),
];

// 11 to 13.
const ORDER_FAULTS: [(&str, &[u8], &[u8]); 3] = [
    (
        "11",
        WINDOW,
        b"criterion causal\nevent past\n0 -\n1 2\n2 -\n3 0,2\nview order\n0 0\n1 2,0,1\n2 2\n3 0,2,3\n",
    ),
    (
        "12",
        REGISTER,
        b"criterion weak\nevent past\n0 -\n1 -\n2 -\n3 0,1,2,3\n4 0,1,2,3\nview order\n0 0\n1 1\n2 2\n3 0\n4 0\n",
    ),
    (
        "13",
        WINDOW,
        b"criterion weak\nevent past\n0 -\n1 0\n2 1\n3 0,1,2\nview order\n0 0\n1 0,1\n2 0,2\n3 0,1,2,3\n",
    ),
];

// 14, 15 and 20.
const VIEW_FAULTS: [(&str, &[u8], &[u8]); 6] = [
    ("14", QUEUE, b"criterion sequential\nview order\n0 0\n"),
    (
        "14 before 15, in another view",
        REGISTERS,
        b"criterion pram\nview order\n0 0,1,2,4,3\n1 0,1,2,3,4\n2 0,0,1,2,3\n",
    ),
    (
        "15, the second view",
        REGISTERS,
        b"criterion pram\nview order\n0 0,1,2,3,4\n1 2,1,0,3,4\n2 1,2,3,4,0\n",
    ),
    (
        "20",
        WINDOW,
        b"criterion strict\nevent past\n0 -\n1 0,2\n2 -\n3 0,2\nview order\n0 2,0,1,3\n1 0,2,3,1\n",
    ),
    (
        "15 before 20, in another view",
        WINDOW,
        b"criterion strict\nevent past\n0 -\n1 0,2\n2 -\n3 0,2\nview order\n0 2,0,1,3\n1 0,3,2,1\n",
    ),
    (
        "20 before 16, the second view",
        WINDOW,
        b"criterion strict\nevent past\n0 -\n1 0,2\n2 -\n3 0,2\nview order\n0 0,2,1,3\n1 0,2,3,1\n",
    ),
];

// 16.
const REPLAY_FAULTS: [(&str, &[u8], &[u8]); 8] = [
    (
        "16, view 0, event 1",
        QUEUE,
        b"criterion sequential\nview order\n0 1,0\n",
    ),
    (
        "16, the first wrong event of a view",
        REGISTER,
        b"criterion sequential\nview order\n0 0,1,2,3,4\n",
    ),
    (
        "16, the third view",
        REGISTERS,
        b"criterion pram\nview order\n0 0,1,2,3,4\n1 0,1,2,3,4\n2 0,1,2,3,4\n",
    ),
    (
        "16, converge, the lowest event",
        b"object kind width\n0 window 2\nevent process object op value answer\n0 0 0 write 4 -\n1 1 0 write 9 -\n2 1 0 read - 4,9\n3 1 0 read - 4,9\n",
        b"criterion converge\nevent past\n0 -\n1 -\n2 1\n3 0,1,2\nview order\n0 0,1,2,3\n",
    ),
    (
        "16, a full channel that answers nothing",
        b"object kind width\n0 channel 1\nevent process object op value answer\n0 0 0 push 5 -\n1 1 0 push 6 -\n2 0 0 pop - 5\n",
        b"criterion sequential\nview order\n0 0,1,2\n",
    ),
    (
        "16, the last slot of a channel",
        b"object kind width\n0 channel 1\nevent process object op value answer\n0 0 0 push 5 5\n1 1 0 push 6 6\n2 0 0 pop - 5\n",
        b"criterion sequential\nview order\n0 0,1,2\n",
    ),
    (
        "16, a zero of a window that holds nothing",
        b"object kind width\n0 window 1\nevent process object op value answer\n0 0 0 read - 0\n",
        b"criterion sequential\nview order\n0 0\n",
    ),
    (
        "16, the first values written to a window",
        b"object kind width\n0 window 2\nevent process object op value answer\n0 0 0 write 4 -\n1 0 0 write 9 -\n2 0 0 write 7 -\n3 1 0 read - 4,9\n",
        b"criterion sequential\nview order\n0 0,1,2,3\n",
    ),
];

fn main(rt: HostRuntime) -> io::Result<()> {
    let mut out = io::writer(&rt);
    cases(&mut out, &ACCEPTED)?;
    long_history(&mut out)?;
    cases(&mut out, &HISTORY_REFUSED)?;
    cases(&mut out, &CERTIFICATE_REFUSED)?;
    cases(&mut out, &ORDER_FAULTS)?;
    cases(&mut out, &VIEW_FAULTS)?;
    cases(&mut out, &REPLAY_FAULTS)
}
