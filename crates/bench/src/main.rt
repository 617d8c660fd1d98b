// The bench: reads calls from standard input to its end, one to a line, and writes one answer to a line. docs/BENCH.md is
// the protocol. What a line says and how an answer reads is the business of the crates bench_..; here lines are cut out of
// the input, calls are made (calls.rt), and answers are written out. A book, a reader of the request line, one of the reply
// line, a capture and a report that comes in parts are carried by the run, and no function but those that answer a line knows
// of them.
#![tactic(auto)]

mod calls;

use calls::State;
use std::io::Read;

// A line has at most so many bytes.
const LONGEST: usize = 4095;

// An output buffer that is filled so far is written out. What is left of it is more than the longest answer, which shows a
// buffer of a third of a line before and after.
const FULL: usize = 32768;

// The room for a line, and for the bytes of a capture; and for a reading, and for answers that are not written out yet.
const SPACE: usize = 4096;

const PART: usize = 65536;

// The line that is being read: how many bytes of it are held, whether there was no room for more of them, whether a word was
// among all that it has had, and whether it has ended.
#[derive(Clone, Copy)]
struct Text {
    len: usize,
    long: bool,
    word: bool,
    ended: bool,
}

// Where the run stands: which bytes of the last reading are still to be taken, the line, how far the output buffer is filled,
// and whether no more is to be read.
#[derive(Clone, Copy)]
struct Run {
    from: usize,
    to: usize,
    text: Text,
    at: usize,
    over: bool,
}

// A line that has not begun.
fn no_text() -> Text {
    Text {
        len: 0,
        long: false,
        word: false,
        ended: false,
    }
}

// A run that has read nothing, and whether it is to read nothing.
fn begin(over: bool) -> Run {
    Run {
        from: 0,
        to: 0,
        text: no_text(),
        at: 0,
        over,
    }
}

// Writes what the output buffer holds; whether that went well.
fn flush(rt: &(impl Print + Eprint), out: &[u8], at: usize) -> bool {
    if rt.write_all(bench_words::part(out, 0, at)).is_ok() {
        return true;
    }
    let _ = rt.eprint("bench: writing standard output failed\n");
    false
}

// Bytes of a line put behind those that are held, with its end or without it.
fn grown(t: Text, s: &[u8], ended: bool, line: &mut [u8]) -> Text {
    let len = lent::word(line, t.len, s);
    let full = (len == t.len) & (0 < s.len());
    Text {
        len,
        long: t.long | full | (LONGEST < len),
        word: t.word | (bench_words::first(s) < s.len()),
        ended,
    }
}

// The bytes up to the line's end, or all that are left, go to the line.
fn cut(r: Run, input: &[u8], line: &mut [u8]) -> Run {
    let to = r.to;
    let e = words::until(bench_words::part(input, 0, to), r.from, b'\n');
    Run {
        from: if e < to { e + 1 } else { to },
        text: grown(r.text, bench_words::part(input, r.from, e), e < to, line),
        over: false,
        ..r
    }
}

// One reading of the input. Its end ends a line that has begun; a failed reading is no end, and the line is not answered.
fn read(rt: &impl Eprint, source: &mut impl Read, t: Text, input: &mut [u8]) -> Run {
    let (got, good) = match source.read(input) {
        Ok(n) => (n, true),
        Err(_) => (0, false),
    };
    if !good {
        let _ = rt.eprint("bench: reading standard input failed\n");
    }
    let ended = good & (got == 0) & ((0 < t.len) | t.long);
    Run {
        from: 0,
        to: got,
        text: Text { ended, ..t },
        at: 0,
        over: got == 0,
    }
}

// Until a line has ended, or nothing more is to be read: the next bytes. All that was answered is written out before the
// input is read again. Nothing is answered behind a failed writing.
fn turned(
    rt: &(impl Print + Eprint),
    source: &mut impl Read,
    r: Run,
    input: &mut [u8],
    line: &mut [u8],
    out: &[u8],
) -> Run {
    let left = r.from < r.to;
    if left & (r.at < FULL) {
        return cut(r, input, line);
    }
    if !flush(rt, out, r.at) {
        return begin(true);
    }
    if left {
        return Run {
            at: 0,
            over: false,
            ..r
        };
    }
    read(rt, source, r.text, input)
}

// The answer to a line that has ended, without its line feed: the place behind it.
fn answered(r: Run, state: &mut State, line: &[u8], store: &mut [u8], out: &mut [u8]) -> usize {
    let at = r.at;
    let t = r.text;
    if !(t.ended & t.word) {
        return at;
    }
    if t.long {
        return lent::word(out, at, b"? line too long");
    }
    state.answer(bench_words::part(line, 0, t.len), store, out, at)
}

// Behind a line that has ended, a line feed, and the next line.
fn onward(r: Run, out: &mut [u8], at: usize) -> Run {
    if !r.text.ended {
        return r;
    }
    Run {
        text: no_text(),
        at: lent::byte(out, at, b'\n'),
        ..r
    }
}

// One turn of the run: the next bytes, and the answer where they end a line. The last answers are written out.
fn turn(
    rt: &(impl Print + Eprint),
    source: &mut impl Read,
    run: Run,
    state: &mut State,
    input: &mut [u8],
    line: &mut [u8],
    store: &mut [u8],
    out: &mut [u8],
) -> Run {
    let r = turned(rt, source, run, input, line, out);
    let at = answered(r, state, line, store, out);
    let after = onward(r, out, at);
    if after.over {
        flush(rt, out, after.at);
    }
    after
}

// Reads to the end of the input. Nothing says that it ends, so the turns are counted.
fn read_all(
    rt: &(impl Print + Eprint),
    source: &mut impl Read,
    input: &mut [u8],
    line: &mut [u8],
    store: &mut [u8],
    out: &mut [u8],
) {
    let mut run = begin(false);
    let mut state = calls::fresh();
    for _ in 0..u64::MAX {
        run = turn(rt, source, run, &mut state, input, line, store, out);
        if run.over {
            return;
        }
    }
}

fn main(rt: HostRuntime) {
    let mut input = [0u8; PART];
    let mut line = [0u8; SPACE];
    let mut store = [0u8; SPACE];
    let mut out = [0u8; PART];
    read_all(
        &rt,
        &mut rt.stdin(),
        &mut input,
        &mut line,
        &mut store,
        &mut out,
    );
}
