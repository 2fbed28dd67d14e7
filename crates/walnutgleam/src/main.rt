// The program: reads history.txt and certificate.txt from the current folder and prints the verdict's two lines.

#![tactic(auto)]

ghost use Rattle.std.specs.Prelude.{◌≡◌, ◌≤◌, length, take};

use std::io::{Read, Write};
use std::rt::Files;
use std::{fs, io};
use verdict_lines::print::print_check;

// Reads until a buffer is full, the input ends or a read fails, and answers how many bytes it put at the start of the buffer.
// Kept: a read tells how many bytes it put, and the next one goes on behind them; no `for` is plainer.
fn read_full<R: Read>(input: &mut R, buffer: &mut [u8]) -> usize
    ensures bound { result ≤ length buffer.new }
    ensures prefix { result ≡ length (take result buffer.new) }
{
    let mut done = 0;
    while done < buffer.len() {
        match input.read(&mut buffer[done..]) {
            Ok(0) | Err(_) => break,
            Ok(n) => done += n,
        }
    }
    done
}

// Reads a file into a buffer until it is full, and answers how many bytes it read. A file that cannot be opened counts as empty.
fn read_file<R: Files>(rt: &R, path: &str, buffer: &mut [u8]) -> usize
    ensures bound { result ≤ length buffer.new }
    ensures prefix { result ≡ length (take result buffer.new) }
{
    match fs::open(rt, path) {
        Ok(mut file) => read_full(&mut file, buffer),
        Err(_) => 0,
    }
}

// A buffer has one byte more than its text may have, so a text that is too long is refused as such.
#[tactic(auto, using(verdict_lines::proofs::PieceLaws::printed_fits))]
fn main(rt: HostRuntime) -> io::Result<()> {
    let mut history = [0u8; 16385];
    let mut certificate = [0u8; 32769];
    let n = read_file(&rt, "history.txt", &mut history);
    let m = read_file(&rt, "certificate.txt", &mut certificate);
    let lines = print_check(&history[..n], &certificate[..m]);
    io::writer(&rt).write_all(lines.text())
}
