// The rules at texts on both sides of each limit.
ghost use Rattle.std.specs.Prelude.{◌<◌};

use dump::row::Run;
use dump::text::Text;
use numeral::digits::is_index;
use numeral::numerals::{is_bigint, is_pair};
use numeral::texts::{before, is_word};

const ONE_AND_A_HALF: u64 = 0x3ff8_0000_0000_0000;

const MINUS: u64 = 0x8000_0000_0000_0000;

// The test holds of the ASCII text.
fn holds<const N: usize, F: Fn(Text<'_>) -> bool>(text: &[u8; N], test: F) -> bool
    requires { (N < 1024) × F.IsAlwaysCallable test }
{
    let units = text.map(|byte| [byte, 0]);
    test(Text { units: &units })
}

fn pair<const N: usize>(text: &[u8; N], bits: u64) -> bool
    requires { N < 1024 }
{
    holds(text, |text| is_pair(text, bits))
}

#[test]
fn indexes(rt: HostRuntime) {
    assert!(rt; holds(b"0", is_index));
    assert!(rt; holds(b"7", is_index));
    assert!(rt; holds(b"4294967294", is_index));
    assert!(rt; !holds(b"4294967295", is_index));
    assert!(rt; !holds(b"42949672940", is_index));
    assert!(rt; !holds(b"07", is_index));
    assert!(rt; !holds(b"", is_index));
    assert!(rt; !holds(b"-1", is_index));
    assert!(rt; !holds(b"1/", is_index));
    assert!(rt; !holds(b"1:", is_index));
}

#[test]
fn bigints(rt: HostRuntime) {
    assert!(rt; holds(b"0", is_bigint));
    assert!(rt; holds(b"-5", is_bigint));
    assert!(rt; holds(b"123456789012345678901234567890", is_bigint));
    assert!(rt; !holds(b"-0", is_bigint));
    assert!(rt; !holds(b"05", is_bigint));
    assert!(rt; !holds(b"-05", is_bigint));
    assert!(rt; !holds(b"", is_bigint));
    assert!(rt; !holds(b"-", is_bigint));
    assert!(rt; !holds(b"--5", is_bigint));
    assert!(rt; !holds(b"12a", is_bigint));
}

#[test]
fn numerals(rt: HostRuntime) {
    assert!(rt; pair(b"1.5", ONE_AND_A_HALF));
    assert!(rt; pair(b"-1.5", MINUS + ONE_AND_A_HALF));
    assert!(rt; !pair(b"-1.5", ONE_AND_A_HALF));
    assert!(rt; !pair(b"1.5", MINUS + ONE_AND_A_HALF));
    assert!(rt; !pair(b"01.5", ONE_AND_A_HALF));
    assert!(rt; !pair(b"1.", ONE_AND_A_HALF));
    assert!(rt; !pair(b".5", ONE_AND_A_HALF));
    assert!(rt; !pair(b"1.5.5", ONE_AND_A_HALF));
    assert!(rt; !pair(b"1.5e0", ONE_AND_A_HALF));
    assert!(rt; !pair(b"", ONE_AND_A_HALF));
    assert!(rt; !pair(b"-", MINUS + ONE_AND_A_HALF));
    assert!(rt; pair(b"0.0", ONE_AND_A_HALF));
}

// A whole number below 2^53 has just one double; for another text any finite double with its sign will do.
#[test]
fn whole_numbers(rt: HostRuntime) {
    assert!(rt; !pair(b"2", ONE_AND_A_HALF));
    assert!(rt; pair(b"2", 0x4000_0000_0000_0000));
    assert!(rt; pair(b"-2", 0xc000_0000_0000_0000));
    assert!(rt; pair(b"2.0", ONE_AND_A_HALF));
    assert!(rt; pair(b"9007199254740992", ONE_AND_A_HALF));
    assert!(rt; !pair(b"9007199254740991", ONE_AND_A_HALF));
    assert!(rt; pair(b"9007199254740991", 0x433f_ffff_ffff_ffff));
    assert!(rt; pair(b"-9007199254740993", 0xbff8_0000_0000_0000));
    assert!(rt; pair(b"0", 0));
    assert!(rt; pair(b"-0", MINUS));
    assert!(rt; !pair(b"-0", 0));
    assert!(rt; !pair(b"0", MINUS));
}

#[test]
fn finite(rt: HostRuntime) {
    assert!(rt; !pair(b"1.5", 0x7ff0_0000_0000_0000));
    assert!(rt; !pair(b"-1.5", 0xfff0_0000_0000_0000));
    assert!(rt; !pair(b"1.5", 0x7ff8_0000_0000_0000));
    assert!(rt; pair(b"1.5", 0x7fef_ffff_ffff_ffff));
}

#[test]
fn long_numerals(rt: HostRuntime) {
    assert!(rt; pair(&[49; 400], ONE_AND_A_HALF));
    assert!(rt; !pair(&[49; 401], ONE_AND_A_HALF));
}

#[test]
fn words(rt: HostRuntime) {
    assert!(rt; holds(b"cause", |text| is_word(text, b"cause")));
    assert!(rt; holds(b"caus", |text| is_word(text, b"caus")));
    assert!(rt; !holds(b"caus", |text| is_word(text, b"cause")));
    assert!(rt; !holds(b"cause", |text| is_word(text, b"caus")));
    assert!(rt; !holds(b"cause", |text| is_word(text, b"causa")));
    // a unit whose low byte is `c`
    let high = Text {
        units: &[[b'c', 1]],
    };
    assert!(rt; !is_word(high, b"c"));
}

#[test]
fn order(rt: HostRuntime) {
    // the units of `abac`, from byte 3 on
    let bytes = b"\0\0\0a\0b\0a\0c\0";
    let none = Text::new(bytes, Run { start: 3, count: 0 });
    let a = Text::new(bytes, Run { start: 3, count: 1 });
    let ab = Text::new(bytes, Run { start: 3, count: 2 });
    let ac = Text::new(bytes, Run { start: 7, count: 2 });
    assert!(rt; before(none, a));
    assert!(rt; before(a, ab));
    assert!(rt; before(ab, ac));
    assert!(rt; !before(ac, ab));
    assert!(rt; !before(ab, a));
    assert!(rt; !before(ab, ab));
    assert!(rt; !before(none, none));
    // 1 with a high byte comes after 2
    let high = Text { units: &[[1, 1]] };
    let two = Text { units: &[[2, 0]] };
    assert!(rt; before(two, high));
}
