// Replays a file of cases: runs `check` on each dump, and tells the answers that were not expected.
//
// A case is a line, `DUMP accepted` or `DUMP refused NUMBER SECTION RECORD`. The dump is `-` for the
// empty one, or pieces joined by `+`: bytes in hexadecimal, or such bytes, `*` and how often they come.
#![tactic(auto)]

use dump::refusal::Refusal;
use heap_check::heap::Heap;
use std::alloc::{AllocError, AllocFailed, Global};
use std::io::Read;
use std::{fmt, io};

// The numbers of a refusal: a case may name some that no refusal has.
#[derive(Clone, Copy, PartialEq)]
struct Told {
    number: u8,
    section: u8,
    record: u32,
}

impl From<Refusal> for Told {
    fn from(no: Refusal) -> Told {
        Told {
            number: no.number(),
            section: no.section(),
            record: no.record,
        }
    }
}

// What `check` says of a dump.
#[derive(Clone, Copy, PartialEq)]
struct Answer(Result<(), Told>);

impl fmt::Display for Answer {
    fn fmt<W: fmt::Write>(&self, f: &mut fmt::Formatter<W>) -> fmt::Result {
        match self.0 {
            Ok(()) => write!(f, "accepted"),
            Err(no) => write!(f, "refused {} {} {}", no.number, no.section, no.record),
        }
    }
}

// Why a case does not pass.
#[derive(Clone, Copy)]
enum Failure {
    Malformed,
    Memory,
    Different { came: Answer, expected: Answer },
}

impl fmt::Display for Failure {
    fn fmt<W: fmt::Write>(&self, f: &mut fmt::Formatter<W>) -> fmt::Result {
        match self {
            Failure::Malformed => write!(f, "not a case"),
            Failure::Memory => write!(f, "no memory"),
            Failure::Different { came, expected } => write!(f, "{came}, expected {expected}"),
        }
    }
}

impl From<AllocError> for Failure {
    fn from(_e: AllocError) -> Failure {
        Failure::Memory
    }
}

impl From<AllocFailed<u8>> for Failure {
    fn from(_e: AllocFailed<u8>) -> Failure {
        Failure::Memory
    }
}

// A digit in hexadecimal. A case writes none in upper case, which `to_digit` would take.
fn digit(c: u8) -> Result<u8, Failure> {
    match c {
        b'0'..=b'9' => Ok(c - b'0'),
        b'a'..=b'f' => Ok(c - b'a' + 10),
        _ => Err(Failure::Malformed),
    }
}

fn add_bytes(dump: &mut Vec<u8>, hex: &str) -> Result<(), Failure> {
    for pair in hex.as_bytes().chunks(2) {
        let &[high, low] = pair else {
            return Err(Failure::Malformed);
        };
        dump.push(digit(high)? << 4 | digit(low)?)?;
    }
    Ok(())
}

fn add_piece(dump: &mut Vec<u8>, piece: &str) -> Result<(), Failure> {
    let Some((hex, count)) = piece.split_once('*') else {
        return add_bytes(dump, piece);
    };
    let count = count.parse::<u32>().map_err(|_| Failure::Malformed)?;
    for _ in 0..count {
        add_bytes(dump, hex)?;
    }
    Ok(())
}

fn dump_of(heap: Global, text: &str) -> Result<Vec<u8>, Failure> {
    let mut dump = Vec::new(heap);
    if text != "-" {
        for piece in text.split('+') {
            add_piece(&mut dump, piece)?;
        }
    }
    Ok(dump)
}

fn answer_of(text: &str) -> Option<Answer> {
    if text == "accepted" {
        return Some(Answer(Ok(())));
    }
    let mut words = text.strip_prefix("refused ")?.split(' ');
    let told = Told {
        number: words.next()?.parse().ok()?,
        section: words.next()?.parse().ok()?,
        record: words.next()?.parse().ok()?,
    };
    words.next().is_none().then_some(Answer(Err(told)))
}

fn judged<'a>(dump: &'a [u8]) -> Answer {
    let mut heap: Heap<'a> = Heap::new();
    Answer(heap.check(dump).map_err(Told::from))
}

fn replay(heap: Global, case: &str) -> Result<(), Failure> {
    let (dump, answer) = case.split_once(' ').ok_or(Failure::Malformed)?;
    let expected = answer_of(answer).ok_or(Failure::Malformed)?;
    let dump = dump_of(heap, dump)?;
    let came = judged(dump.as_slice());
    if came == expected {
        Ok(())
    } else {
        Err(Failure::Different { came, expected })
    }
}

fn main(rt: HostRuntime) -> io::Result<()> {
    let heap = rt.alloc();
    let mut text = String::new(heap);
    rt.stdin().read_to_string(&mut text)?;
    let mut cases: u64 = 0;
    let mut different: u64 = 0;
    for case in text.as_str().lines() {
        cases = cases.saturating_add(1);
        if let Err(failure) = replay(heap, case) {
            different = different.saturating_add(1);
            println!(rt; "case {cases}: {failure}")?;
        }
    }
    println!(rt; "{cases} cases, {different} differ")
}
