//! How a score is written.

ghost use Rattle.std.specs.Prelude.{◌≡◌, ◌+◌, ◌/◌, ◌%◌, ◌<◌, ◌++◌, OnOk, OnErr};
ghost use Rattle.mt_sketch_spec.specs.Score.{sixteenths_text};

use itoa::write_digits;
use mt_base::{List, NoMemory};

/// The last digit of a number.
fn digit(n: u32) -> u8
    ensures { result ≡ 48 + n % 10 }
{
    b'0' + (n % 10) as u8
}

/// Appends `k / 16` with four decimals, which is exact, as `-0.3125` for -5. Without memory nothing changes.
pub fn write_sixteenths(k: i32, out: &mut List<u8>) -> Result<(), NoMemory>
    ensures ok { OnOk result (out.new ≡ out.old ++ sixteenths_text k) }
    ensures err { OnErr result (out.new ≡ out.old) }
{
    let size = k.unsigned_abs();
    let decimals = size % 16 * 625;
    let mut text = [0; 15];
    text[10] = b'.';
    text[11] = digit(decimals / 1000);
    text[12] = digit(decimals / 100);
    text[13] = digit(decimals / 10);
    text[14] = digit(decimals);
    let mut start = write_digits(u64::from(size / 16), &mut text, 10);
    if k < 0 {
        start -= 1;
        text[start] = b'-';
    }
    out.extend(&text[start..])
}
