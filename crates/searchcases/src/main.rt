// Searches over inputs that a sheet describes: each refusal that the search program can give, and the edges of its three sizes.
// The sheet is standard input; the file stdout is written from document 01, "The search program", and document 02, Q-10.
//
// A line of the sheet with `-` in front is a title. A line such as `1024 M500x500~` adds a piece to the input that many times, with
// byte 10 for `~`. An empty line has the input searched, and the next one starts.
#![tactic(auto)]

ghost use Rattle.std.specs.Prelude.{◌≤◌, length, IfOk};

use lines::walk::{count, line};
use std::io;
use std::io::Print;

fn digit(b: u8) -> usize
    ensures { result ≤ 9 }
{
    match b {
        b'0'..=b'9' => usize::from(b - b'0'),
        _ => 0,
    }
}

// The number that four digits write.
fn times(a: u8, b: u8, c: u8, d: u8) -> usize
    ensures { result ≤ 9999 }
{
    digit(a) * 1000 + digit(b) * 100 + digit(c) * 10 + digit(d)
}

// Adds a piece at an offset of the input if there is room, and returns where the input ends.
fn add(input: &mut [u8], at: usize, piece: &[u8]) -> usize
    requires { at ≤ length input.old }
    ensures { result ≤ length input.new }
{
    if input.len() - at < piece.len() {
        return at;
    }
    let end = at + piece.len();
    let room = &mut input[at..end];
    room.copy_from_slice(piece);
    for byte in room.iter_mut() {
        if *byte == b'~' {
            *byte = b'\n';
        }
    }
    end
}

fn add_times(input: &mut [u8], at: usize, piece: &[u8], n: usize) -> usize
    requires { at ≤ length input.old }
    ensures { result ≤ length input.new }
{
    let mut end = at;
    for _ in 0..n {
        end = add(input, end, piece);
    }
    end
}

// Of a long text the first 40 bytes and the last line, which has 11.
fn show(rt: &impl Print, text: &[u8]) -> io::Result<()> {
    if text.len() <= 40 {
        return rt.write_all(text);
    }
    rt.write_all(&text[0..40])?;
    rt.write_all(b"..\n")?;
    rt.write_all(&text[text.len() - 11..])
}

fn search(rt: &impl Print, input: &[u8]) -> io::Result<()> {
    let mut out = [0u8; 12320];
    let n = report::report(input, &mut out);
    show(rt, &out[..n])
}

fn title(rt: &impl Print, row: &[u8]) -> io::Result<()> {
    rt.write_all(row)?;
    rt.write_all(b"\n")
}

// One line of the sheet; returns where the input ends.
fn follow(rt: &impl Print, row: &[u8], input: &mut [u8], at: usize) -> io::Result<usize>
    requires { at ≤ length input.old }
    ensures { IfOk result (λ end. end ≤ length input.new) }
{
    match row {
        [] => {
            search(rt, &input[..at])?;
            Ok(0)
        }
        [b'-', ..] => {
            title(rt, row)?;
            Ok(at)
        }
        [a, b, c, d, _, piece @ ..] => Ok(add_times(input, at, piece, times(*a, *b, *c, *d))),
        _ => Ok(at),
    }
}

fn follow_all(rt: &impl Print, sheet: &[u8]) -> io::Result<()> {
    let mut input = [0u8; 50178];
    let mut at = 0;
    for k in 1..=count(sheet) {
        at = follow(rt, line(sheet, k), &mut input, at)?;
    }
    Ok(())
}

// Where reading fails, what was read is followed; where writing fails, nothing more is written.
fn main(rt: HostRuntime) {
    let mut sheet = [0u8; 4096];
    let n = match input::read_input(&mut rt.stdin(), &mut sheet) {
        Ok(n) => n,
        Err(cut) => cut.read,
    };
    let _ = follow_all(&rt, &sheet[..n]);
}
