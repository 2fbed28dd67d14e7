// Runs the lowest layer on fields, good and damaged, and writes a line for each: what the field is as a number below
// 65,536, what it is as a list of at most four events of a history with four, and the list written back. Then writes lists of
// 0, 1, 64 and 1,000 numbers, each into parts of every length around that of its text, and a line for each part.

#![tactic(auto)]

ghost use Rattle.std.specs.Prelude.{◌≤◌};

use layout::list::{ListFault, read_list, write_list};
use layout::number::{NumberFault, read_number};
use std::io;
use std::io::Write;
use std::ops::Range;

fn say_number<W: Write>(out: &mut W, field: &[u8]) -> io::Result<()> {
    match read_number(field, 65536) {
        Ok(v) => write!(out, "number {v}"),
        Err(NumberFault::NotNumber) => out.write_all(b"no number"),
        Err(NumberFault::Over) => out.write_all(b"over the limit"),
    }
}

fn say_answer<W: Write>(out: &mut W, written: Option<usize>) -> io::Result<()> {
    match written {
        Some(n) => write!(out, ", written in {n} bytes: "),
        None => out.write_all(b", no room: "),
    }
}

// Writes a list back into a part of the buffer with room for six bytes, and shows the buffer.
fn say_written<W: Write>(out: &mut W, items: &[u32]) -> io::Result<()> {
    let mut buffer = [b'.'; 8];
    let written = write_list(&mut buffer[1..7], items);
    say_answer(out, written)?;
    out.write_all(&buffer)
}

fn say_list<W: Write>(out: &mut W, field: &[u8]) -> io::Result<()> {
    let mut items = [0u32; 4];
    match read_list(field, 4, &mut items) {
        // Four at most, so no item is left out; the `min` only lets that be known here.
        Ok(n) => {
            write!(out, "list of {n}")?;
            say_written(out, &items[..n.min(4)])
        }
        Err(ListFault::NotList) => out.write_all(b"no list"),
        Err(ListFault::Over) => out.write_all(b"an entry over the limit"),
        Err(ListFault::Many) => out.write_all(b"too many entries"),
    }
}

fn case<W: Write>(out: &mut W, field: &[u8]) -> io::Result<()> {
    out.write_all(field)?;
    out.write_all(b": ")?;
    say_number(out, field)?;
    out.write_all(b"; ")?;
    say_list(out, field)?;
    out.write_all(b"\n")
}

// Adler-32 (RFC 1950): a checksum in which every byte and its place count.
fn adler(bytes: &[u8]) -> u64 {
    let mut a: u64 = 1;
    let mut b: u64 = 0;
    for byte in bytes {
        a = (a + u64::from(*byte)) % 65521;
        b = (b + a) % 65521;
    }
    b * 65536 + a
}

// Writes a list into a part of so many bytes, and shows the checksum of that part with the byte before it and the one behind it.
fn say_part<W: Write>(out: &mut W, items: &[u32], n: usize) -> io::Result<()>
    requires { n ≤ 8190 }
{
    let mut buffer = [b'.'; 8192];
    write!(out, "list of {}, part of {n} bytes", items.len())?;
    let written = write_list(&mut buffer[1..1 + n], items);
    say_answer(out, written)?;
    writeln!(out, "{}", adler(&buffer[..n + 2]))
}

// Writes a list into a part of each of the lengths.
fn parts<W: Write>(out: &mut W, items: &[u32], lengths: Range<usize>) -> io::Result<()>
    requires { lengths.end ≤ 8191 }
{
    for n in lengths {
        say_part(out, items, n)?;
    }
    Ok(())
}

// A thousand numbers, with every count of digits among them: the largest, its half, and so on down to 0, over and over.
fn thousand() -> [u32; 1000] {
    let mut items = [0u32; 1000];
    let mut v = u32::MAX;
    for item in &mut items {
        *item = v;
        v = if v == 0 { u32::MAX } else { v / 2 };
    }
    items
}

// Lists of 0, 1, 64 and 1,000 numbers: their texts have 1, 10, 415 and 6,397 bytes.
fn lists<W: Write>(out: &mut W) -> io::Result<()> {
    let items = thousand();
    parts(out, &items[0..0], 0..4)?;
    parts(out, &items[0..1], 0..13)?;
    parts(out, &items[0..64], 0..1)?;
    parts(out, &items[0..64], 403..419)?;
    parts(out, &items, 0..1)?;
    parts(out, &items, 6394..6401)
}

// Fields, good and damaged.
const FIELDS: [&[u8]; 27] = [
    b"0",
    b"7",
    b"65535",
    b"65536",
    b"4294967297",
    b"18446744073709551617",
    b"100000000000000000000000000000000000000000000000000000000000000000000000000000000000000000001",
    b"00",
    b"01",
    b"+1",
    b"1x",
    b"",
    b"-",
    b"3,1,2",
    b"3,1,2,0",
    b"0,0,0,0",
    b"0,1,2,3,0",
    b"0,1,2,3,9",
    b"0,4",
    b"0,4294967296",
    b"0,4,x",
    b"0,,1",
    b",1",
    b"1,",
    b"1,-",
    b"01,2",
    b"1 2",
];

fn main(rt: HostRuntime) -> io::Result<()> {
    let mut out = io::writer(&rt);
    for field in FIELDS {
        case(&mut out, field)?;
    }
    lists(&mut out)
}
