// A heap: what a checked dump holds, until it is spent.
use super::checked::Checked;

mod calls;

#[derive(Drop)]
pub struct Heap<'a> {
    checked: Checked<'a>,
}
