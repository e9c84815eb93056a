//! How many bytes entries and receipts take. A journal has up to a million of them.

ghost use Rattle.std.specs.Prelude.{◌≡◌};

use rw_desk::Kept;
use rw_law::Entry;
use rw_world::{Chan, World};

/// Of a channel of numbers.
pub fn bytes_of_an_entry() -> usize
    ensures { result ≡ 88 }
{
    size_of::<Entry<Chan<u64>>>()
}

/// Of a world of numbers.
pub fn bytes_of_an_entry_of_a_world() -> usize
    ensures { result ≡ 96 }
{
    size_of::<Entry<World<u64>>>()
}

/// Of a receipt of a call on such a channel.
pub fn bytes_of_a_receipt() -> usize
    ensures { result ≡ 64 }
{
    size_of::<Kept<u64>>()
}
