// Runs of narrowing calls over small dictionaries. After each run it writes what was answered and the list memory, seven places that
// held 9 before. The file stdout is written from document 01, "The dictionary and its list", and document 02, Q-9
// and Q-10.
#![tactic(auto)]

use charset::Charset;
use querygrammar::Edition;
use runs::run_queries;
use std::io;
use std::io::Print;

fn run(
    rt: &impl Print,
    title: &str,
    dict: &[u8],
    edition: Edition,
    query: &[u8],
    queries: &[u8],
) -> io::Result<()> {
    let mut list = [9u16; 7];
    let r = run_queries(Charset::Fsw, dict, &mut list, edition, query, queries);
    let (number, place, kept, dropped) = match r {
        Ok(left) => (0, 0, left.kept, left.dropped),
        Err(e) => (e.number(), e.place(), 0, 0),
    };
    println!(rt; "{title}")?;
    println!(rt; "number {number}, place {place}, kept {kept}, dropped {dropped}")?;
    print!(rt; "list")?;
    for entry in &list {
        print!(rt; " {entry}")?;
    }
    rt.write_all(b"\n")
}

// Five lines: entries 2, 3 and 5 have S20500, entries 2 and 4 have S10000.
fn search_five(
    rt: &impl Print,
    title: &str,
    edition: Edition,
    query: &[u8],
    queries: &[u8],
) -> io::Result<()> {
    run(
        rt,
        title,
        b"M500x500\nM510x515S10000490x485S20500500x495\nM515x515S20500500x500\nM515x515S10000490x485\nM515x515S20500500x500\n",
        edition,
        query,
        queries,
    )
}

// A run over all five.
fn run_five(rt: &impl Print, title: &str, queries: &[u8]) -> io::Result<()> {
    search_five(rt, title, Edition::First, b"Q", queries)
}

// U+40001 is S10000. U+461F3 is S20512, and with f and r after it S205 in any fill and rotation.
fn run_editions(rt: &impl Print) -> io::Result<()> {
    run_five(rt, "- alternatives", b"FQS10000oS20500\n")?;
    run_five(
        rt,
        "- the same bytes in the first edition",
        b"QS10000oS20500\n",
    )?;
    run_five(
        rt,
        "- both editions, the second in FSW and in SWU",
        b"QS20500\nFQS10000oS20500\nSQ\xf1\x80\x80\x81\n",
    )?;
    run_five(
        rt,
        "- the same the other way round",
        b"SQ\xf1\x80\x80\x81\nFQS10000oS20500\nQS20500\n",
    )?;
    run_five(
        rt,
        "- nine alternatives, and queries in the other set",
        b"SQ\xf1\x86\x87\xb3fr\nFQS10000oS10000oS10000oS10000oS10000oS10000oS10000oS10000oS10000\nFQ\xf1\x80\x80\x81\nSQS10000\n",
    )?;
    run_five(
        rt,
        "- the same the other way round",
        b"SQS10000\nFQ\xf1\x80\x80\x81\nFQS10000oS10000oS10000oS10000oS10000oS10000oS10000oS10000oS10000\nSQ\xf1\x86\x87\xb3fr\n",
    )
}

fn run_searches(rt: &impl Print) -> io::Result<()> {
    search_five(rt, "- after a search", Edition::First, b"QS20500", b"")?;
    search_five(
        rt,
        "- a query after a search",
        Edition::First,
        b"QS20500",
        b"QS10000\n",
    )?;
    search_five(
        rt,
        "- the same the other way round",
        Edition::First,
        b"QS10000",
        b"QS20500\n",
    )?;
    search_five(
        rt,
        "- after a search in the second edition, in SWU",
        Edition::Second(Charset::Swu),
        b"Q\xf1\x80\x80\x81",
        b"QX\nFQS10000oS20500\n",
    )?;
    run(
        rt,
        "- eight lines, two of which are found",
        b"M500x500\nM500x500\nM500x500\nM515x515S20500500x500\nM500x500\nM500x500\nM500x500\nM515x515S20500500x500\n",
        Edition::First,
        b"QS20500",
        b"",
    )
}

fn run_refused(rt: &impl Print) -> io::Result<()> {
    run(
        rt,
        "- a line that is no sign",
        b"M500x500\nM500x5\n",
        Edition::First,
        b"QS20500",
        b"Q\n",
    )?;
    run(
        rt,
        "- eight lines",
        b"M500x500\nM500x500\nM500x500\nM500x500\nM500x500\nM500x500\nM500x500\nM500x500\n",
        Edition::First,
        b"Q",
        b"Q\n",
    )?;
    run(
        rt,
        "- a search whose query is refused, over a line that is no sign",
        b"M500x5\n",
        Edition::First,
        b"QX",
        b"Q\n",
    )
}

fn run_all(rt: &impl Print) -> io::Result<()> {
    run_five(rt, "- no query", b"")?;
    run_five(rt, "- one query", b"QS20500\n")?;
    run_five(
        rt,
        "- two queries, with refused ones between them",
        b"QS20500\nQX\nQR204t100\nQS10000\n",
    )?;
    run_five(
        rt,
        "- the same the other way round",
        b"QS10000\nQR204t100\nQX\nQS20500\n",
    )?;
    run_five(rt, "- refused queries only", b"QX\n\n")?;
    run_five(rt, "- a last query that is not ended", b"QS20500\nQ")?;
    run_editions(rt)?;
    run_searches(rt)?;
    run_refused(rt)
}

// Where writing fails, nothing more is written.
fn main(rt: HostRuntime) {
    let _ = run_all(&rt);
}
