// Sinks: what bytes are written to, one after the other, until the space is used up.
#![tactic(auto)]

mod counter;
mod fault;
mod page;
mod put;
mod sink;
mod tally;

pub use counter::Counter;
pub use fault::SinkFault;
pub use page::Page;
pub use put::put_all;
pub use sink::Sink;
pub use tally::Tally;
