// Times one `check` of the dump on standard input, in nanoseconds, for `bench/run`.
//
// One check a process: the compiler may move repeated checks of one dump out of a loop.
#![tactic(auto)]

use heap_check::heap::Heap;
use std::io;
use std::io::Read;
use std::time::Instant;

// How many rows an accepted dump has. The answer is printed, so that the check is not left out.
fn rows<'a>(dump: &'a [u8]) -> Option<usize> {
    let mut heap: Heap<'a> = Heap::new();
    heap.check(dump).ok()?;
    let found = heap.checked();
    found.texts().checked_add(found.parts())
}

fn main(rt: HostRuntime) -> io::Result<()> {
    let mut dump = Vec::new(rt.alloc());
    rt.stdin().read_to_end(&mut dump)?;
    if dump.is_empty() {
        return println!(rt; "no dump");
    }
    let start = Instant::now(&rt)?;
    let answer = rows(dump.as_slice());
    let time = start.elapsed(&rt)?;
    match answer {
        Some(rows) => println!(rt; "{} accepted {rows}", time.as_nanos()),
        None => println!(rt; "{} refused", time.as_nanos()),
    }
}
