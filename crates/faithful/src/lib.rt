// The main statement, proved: every planned script runs on the evaluator, line by line, and rebuilds its heap; and every trace of a delivery is sound.
#![tactic(auto)]

ghost use Rattle.faithful.specs.Accepted.{AcceptedFaithful, BoundedFaithful};
ghost use Rattle.faithful.specs.Dumps.{OwnNumeralsFaithful};

// Of every well-formed heap whose buffers are as short as a dump's; so of every dump that check accepts; and with the dump's own numerals for a speller, where nothing is left to suppose.
pub fn faithful_stands()
    ensures heaps { BoundedFaithful }
    ensures dumps { AcceptedFaithful }
    ensures alone { OwnNumeralsFaithful }
{}
