// Numbers in a dump, low byte first.
ghost use Rattle.std.specs.Prelude.{◌≡◌, ◌+◌, ◌≤◌, true, length};
ghost use Rattle.std.proofs.Math.Pow.{are_bytes};
ghost use Rattle.dump.specs.Bytes.{word as word_at};
ghost use Rattle.dump.specs.Meaning.{joined as joined_of};

// The word of 4 bytes at `p`. By `dump[p..].first_chunk()` a full dump takes 40 ms, and not 13.
pub fn word(dump: &[u8], p: usize) -> u32
    requires { p + 4 ≤ length dump.now }
    ensures { result ≡ word_at dump.now p }
{
    u32::from_le_bytes([dump[p], dump[p + 1], dump[p + 2], dump[p + 3]])
}

// A low and a high word as one number.
pub fn joined(low: u32, high: u32) -> u64
    ensures { result ≡ joined_of low high }
{
    u64::from(low) + u64::from(high) * 0x1_0000_0000
}

// Every byte is below 256: a loop of no effect, which tells that of a whole slice. It goes over bytes, and counts none.
pub fn are_bytes(dump: &[u8])
    ensures { are_bytes dump.now ≡ true }
{
    for byte in dump {
        let _known = *byte;
    }
}
