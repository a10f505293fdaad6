// Numbers written in decimal.
ghost use Rattle.std.specs.Prelude.{◌≡◌, ◌+◌, ◌≤◌, ◌++◌, length, take, drop, decimal as digits_of};

use itoa::Buffer;

// Writes `n` from `start` on, and tells where it ends. One digit by itself: the buffer and the copy cost twice as much.
// As a buffer of its own the rest would be the caller's to put together again in its clause.
#[inline(always)]
#[tactic(auto, using(std::proofs::lemmas::Fmt::decimal_digit))]
pub(crate) fn put_decimal(n: u64, start: usize, buffer: &mut [u8]) -> usize
    requires { start + length (digits_of n) ≤ length buffer.old }
    ensures end { result ≡ start + length (digits_of n) }
    ensures written { buffer.new ≡ take start buffer.old ++ (digits_of n ++ drop result buffer.old) }
{
    if n < 10 {
        buffer[start] = b'0' + n as u8;
        return start + 1;
    }
    put_digits(n, start, buffer)
}

#[inline(never)]
fn put_digits(n: u64, start: usize, buffer: &mut [u8]) -> usize
    requires { start + length (digits_of n) ≤ length buffer.old }
    ensures end { result ≡ start + length (digits_of n) }
    ensures written { buffer.new ≡ take start buffer.old ++ (digits_of n ++ drop result buffer.old) }
{
    let mut digits = Buffer::new();
    let text = digits.format(n).as_bytes();
    let end = start + text.len();
    buffer[start..end].copy_from_slice(text);
    end
}
