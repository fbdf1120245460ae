//! Numbers in a reply.

ghost use Rattle.std.specs.Prelude.{◌≡◌, ◌∷◌, ◌++◌, length, take, OnOk, OnErr};
ghost use Rattle.std.specs.Fmt.{decimal};

use itoa::Buffer;
use mt_base::{List, NoMemory};

/// Appends a byte and a number. Without memory the byte may be there.
pub fn put_number(mark: u8, number: u32, out: &mut List<u8>) -> Result<(), NoMemory>
    ensures ok { OnOk result (out.new ≡ out.old ++ mark ∷ decimal number) }
    ensures err { OnErr result (take (length out.old) out.new ≡ out.old) }
{
    out.push(mark)?;
    out.extend(Buffer::new().format(number).as_bytes())
}
