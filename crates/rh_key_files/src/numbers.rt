//! Numbers of 8 bytes each, the highest first.

ghost use Rattle.std.specs.Prelude.{◌≡◌, ◌<◌, ◌*◌, ◌^◌, All, length};
ghost use Rattle.rh_key_files.specs.KeyFile.{spelled_keys};

use byteorder::{BigEndian, ByteOrder};

/// Makes the numbers those that the bytes spell, one after the other.
pub fn decode_numbers(bytes: &[u8], numbers: &mut [u64])
    requires { length bytes.now ≡ 8 * length numbers.old }
    ensures spelled { spelled_keys numbers.new ≡ bytes.now }
    ensures fit { All (λ n. n < 2 ^ 64) numbers.new }
{
    BigEndian::read_u64_into(bytes, numbers);
}
