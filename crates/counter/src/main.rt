// Says in one line whether the dump on standard input is sound, and what it holds.
#![tactic(auto)]

ghost use Rattle.counter.specs.Judged.{Judged};

use dump::refusal::{Refusal, Rule, Site};
use heap_check::checked::Checked;
use heap_check::heap::Heap;
use reads::object::Kind;
use reads::value::Value;
use std::io::Read;
use std::{fmt, io};

// The most bytes that are taken: a longer dump is refused unread.
const LIMIT: usize = 65_536;

const TOO_LONG: Refusal = Refusal {
    rule: Rule::Count,
    site: Site::Dump,
    record: 0,
};

// What a sound dump holds.
#[derive(Clone, Copy)]
struct Summary {
    texts: usize,
    numerals: usize,
    objects: usize,
    parts: usize,
    root: &'static str,
}

impl fmt::Display for Summary {
    fn fmt<W: fmt::Write>(&self, f: &mut fmt::Formatter<W>) -> fmt::Result {
        write!(
            f,
            "{} {} {} {} {}",
            self.texts, self.numerals, self.objects, self.parts, self.root,
        )
    }
}

// What the root is: the sort of a plain value, in lower case, or the kind of an object.
fn root_word(found: &Checked<'_>) -> &'static str {
    match found.root() {
        Value::Undefined | Value::Hole => "undefined",
        Value::Null => "null",
        Value::Boolean(_) => "boolean",
        Value::Whole(_) | Value::Double(_) => "number",
        Value::BigInt(_) => "bigint",
        Value::Text(_) => "text",
        Value::Object(o) => kind_word(found.kind(o)),
    }
}

// The words are this program's own, one for all kinds of views, so `Kind` does not print itself.
fn kind_word(kind: Kind) -> &'static str {
    match kind {
        Kind::BooleanObject(_) => "Boolean",
        Kind::NumberObject(_) => "Number",
        Kind::BigIntObject(_) => "BigInt",
        Kind::StringObject(_) => "String",
        Kind::RegExp { .. } => "RegExp",
        Kind::Date(_) => "Date",
        Kind::Plain => "Object",
        Kind::Sparse { .. } => "SparseArray",
        Kind::Dense { .. } => "DenseArray",
        Kind::Map => "Map",
        Kind::Set => "Set",
        Kind::Buffer { .. } => "ArrayBuffer",
        Kind::View { .. } => "View",
        Kind::Error { .. } => "Error",
    }
}

fn judge<'a>(dump: &'a [u8]) -> Result<Summary, Refusal>
    ensures { Judged dump.now result }
{
    if dump.len() > LIMIT {
        return Err(TOO_LONG);
    }
    let mut heap: Heap<'a> = Heap::new();
    heap.check(dump)?;
    let found = heap.checked();
    Ok(Summary {
        texts: found.texts(),
        numerals: found.numerals(),
        objects: found.objects(),
        parts: found.parts(),
        root: root_word(&found),
    })
}

fn main(rt: HostRuntime) -> io::Result<()> {
    let mut dump = Vec::new(rt.alloc());
    // One byte past the limit tells a longer dump from one that just fits.
    rt.stdin().take(LIMIT as u64 + 1).read_to_end(&mut dump)?;
    match judge(dump.as_slice()) {
        Ok(summary) => println!(rt; "accepted {summary}"),
        Err(no) => println!(rt; "refused {no}"),
    }
}
