// The worked examples of document 01, "Bench sheet", the sign at the head of document 000, and some of their neighbours,
// through the public entries. A row of standard input is a letter for what is asked, a colon and a text. Each is written
// again after its answer: the number, the place, then the values, or the length and the text that was written. The file
// stdout, which this is held to, is written from the papers.
#![tactic(auto)]

use charset::Charset;
use matching::Verdict;
use querygrammar::Edition;
use std::io;
use std::io::Print;
use token::refusal::Refusal;

// The number and the place of a refusal: zeros where there is none.
fn put_refusal<T>(rt: &impl Print, r: &Result<T, Refusal>) -> io::Result<()> {
    let (number, place) = match r {
        Ok(_) => (0, 0),
        Err(e) => (e.number(), e.place()),
    };
    print!(rt; "{number} {place} ")
}

// The answer of a call that writes, and what it wrote.
fn put_text(rt: &impl Print, r: Result<usize, Refusal>, out: &[u8]) -> io::Result<()> {
    put_refusal(rt, &r)?;
    let n = r.unwrap_or(0);
    print!(rt; "{n} ")?;
    rt.write_all(out.get(..n).unwrap_or(&[]))
}

// The code of a key, and the character of that code.
fn key(rt: &impl Print, text: &[u8]) -> io::Result<()> {
    let r = symbol::key_to_code(text);
    put_refusal(rt, &r)?;
    let code = r.unwrap_or(0);
    print!(rt; "{code} ")
}

fn character(rt: &impl Print, text: &[u8]) -> io::Result<()> {
    let code = symbol::key_to_code(text).unwrap_or(0);
    let mut out = [0u8; 4];
    let r = symbol::code_to_char(u64::from(code), &mut out);
    put_text(rt, r, &out)
}

fn sign_in(rt: &impl Print, set: Charset, text: &[u8]) -> io::Result<()> {
    put_refusal(rt, &sign::read(set, text))
}

// The first, the second and the ninth of some numbers.
fn put_some(rt: &impl Print, numbers: &[u16]) -> io::Result<()> {
    match numbers {
        [first, second, _, _, _, _, _, _, ninth, ..] => { print!(rt; "{first} {second} {ninth} ") }
        _ => Ok(()),
    }
}

// Where symbols stand: the offsets of the first, the second and the ninth of the prefix, then of the signbox.
fn offsets_in(rt: &impl Print, set: Charset, text: &[u8]) -> io::Result<()> {
    let r = sign::read(set, text);
    put_refusal(rt, &r)?;
    match r {
        Ok(sign) => {
            put_some(rt, &sign.prefix_offsets)?;
            put_some(rt, &sign.symbol_offsets)
        }
        Err(_) => print!(rt; "0 0 0 0 0 0 "),
    }
}

fn put_styling(rt: &impl Print, record: &[u16; 3472]) -> io::Result<()> {
    let mut out = [0u8; 3600];
    let r = styling::write_styling(record, &mut out);
    put_text(rt, r, &out)
}

// A sign with its styling: the answer, and the styling written again.
fn styled_in(rt: &impl Print, set: Charset, text: &[u8]) -> io::Result<()> {
    let mut record = [0u16; 3472];
    let r = styling::read_styled(set, text, &mut record);
    put_refusal(rt, &r)?;
    if r.is_ok() {
        put_styling(rt, &record)?;
    }
    Ok(())
}

// A record that was read, with its last number, which is unused, set to 1: no styling reads as it.
fn spoilt(rt: &impl Print, text: &[u8]) -> io::Result<()> {
    let mut record = [0u16; 3472];
    if styling::read_styled(Charset::Fsw, text, &mut record).is_ok() {
        record[3471] = 1;
        put_styling(rt, &record)?;
    }
    Ok(())
}

fn styled_transcription(rt: &impl Print, set: Charset, text: &[u8]) -> io::Result<()> {
    let mut out = [0u8; 1200];
    let r = styling::transcribe_styled(set, text, &mut out);
    put_text(rt, r, &out)
}

fn query_in(rt: &impl Print, edition: Edition, text: &[u8]) -> io::Result<()> {
    put_refusal(rt, &query::read(edition, text))
}

fn transcription(rt: &impl Print, set: Charset, text: &[u8]) -> io::Result<()> {
    let mut out = [0u8; 1033];
    let r = sign::transcribe(set, text, &mut out);
    put_text(rt, r, &out)
}

// A query, a space and an FSW sign: 1 if it meets the query, the unmet condition, the symbols of the first two items.
fn verdict_on(rt: &impl Print, edition: Edition, text: &[u8]) -> io::Result<()> {
    let Some(end) = text.iter().position(|b| *b == b' ') else {
        return Ok(());
    };
    let v = verdict::verdict(Charset::Fsw, edition, &text[0..end], &text[end + 1..]);
    put_refusal(rt, &v)?;
    let (met, unmet, first, second) = match v {
        Ok(Verdict::Met(witnesses)) => (1, 0, witnesses[0], witnesses[1]),
        Ok(Verdict::Unmet(condition)) => (0, condition, 0, 0),
        Err(_) => (0, 0, 0, 0),
    };
    print!(rt; "{met} {unmet} {first} {second} ")
}

// The sizes of the sheet: S10000 15 by 30, S20500 10 by 10, S2ff00 36 by 36, S36d00 60 by 20.
fn set_sizes(sizes: &mut [u8; 125184]) {
    sizes[0..2].copy_from_slice(&[15, 30]);
    sizes[50112..50114].copy_from_slice(&[10, 10]);
    sizes[98112..98114].copy_from_slice(&[36, 36]);
    sizes[119232..119234].copy_from_slice(&[60, 20]);
}

fn centring(rt: &impl Print, text: &[u8]) -> io::Result<()> {
    let mut sizes = [0u8; 125184];
    set_sizes(&mut sizes);
    let mut out = [0u8; 1033];
    let r = geometry::centred(Charset::Fsw, text, &sizes, &mut out);
    put_text(rt, r, &out)
}

// k: a key's code; c: its character; f and s: an FSW and an SWU sign; o and p: where the symbols of an FSW and of an SWU sign
// stand; t and b: transcribed from FSW, and back from SWU; y and z: an FSW and an SWU sign with its styling; x and d: such a sign
// transcribed from FSW, and back from SWU; w: a styling that is spoilt and written; q: a query of the first edition; r and u: one of
// the second in FSW and in SWU; v, g and h: the verdict of a query that q, r and u read; m: a sign moved to the middle.
fn answer(rt: &impl Print, kind: u8, text: &[u8]) -> io::Result<()> {
    match kind {
        b'k' => key(rt, text),
        b'c' => character(rt, text),
        b'f' => sign_in(rt, Charset::Fsw, text),
        b's' => sign_in(rt, Charset::Swu, text),
        b'o' => offsets_in(rt, Charset::Fsw, text),
        b'p' => offsets_in(rt, Charset::Swu, text),
        b't' => transcription(rt, Charset::Fsw, text),
        b'b' => transcription(rt, Charset::Swu, text),
        b'y' => styled_in(rt, Charset::Fsw, text),
        b'z' => styled_in(rt, Charset::Swu, text),
        b'x' => styled_transcription(rt, Charset::Fsw, text),
        b'd' => styled_transcription(rt, Charset::Swu, text),
        b'w' => spoilt(rt, text),
        b'q' => query_in(rt, Edition::First, text),
        b'r' => query_in(rt, Edition::Second(Charset::Fsw), text),
        b'u' => query_in(rt, Edition::Second(Charset::Swu), text),
        b'v' => verdict_on(rt, Edition::First, text),
        b'g' => verdict_on(rt, Edition::Second(Charset::Fsw), text),
        b'h' => verdict_on(rt, Edition::Second(Charset::Swu), text),
        b'm' => centring(rt, text),
        _ => print!(rt; "999 "),
    }
}

fn row(rt: &impl Print, row: &[u8]) -> io::Result<()> {
    if let [kind, _, text @ ..] = row {
        answer(rt, *kind, text)?;
    }
    rt.write_all(b"\t")?;
    rt.write_all(row)?;
    rt.write_all(b"\n")
}

// The rows, of which the last may stand without its end.
fn rows(rt: &impl Print, sheet: &[u8]) -> io::Result<()> {
    for text in sheet.split_inclusive(|b| *b == b'\n') {
        row(rt, text.strip_suffix(b"\n").unwrap_or(text))?;
    }
    Ok(())
}

// Where reading fails, what was read is answered; where writing fails, nothing more is written.
fn main(rt: HostRuntime) {
    let mut input = [0u8; 12288];
    let n = match input::read_input(&mut rt.stdin(), &mut input) {
        Ok(n) => n,
        Err(cut) => cut.read,
    };
    let _ = rows(&rt, &input[..n]);
}
