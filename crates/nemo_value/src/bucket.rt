ghost use Rattle.std.specs.Prelude.{◌≡◌, ◌%◌};
ghost use Rattle.nemo_value.specs.Bucket as spec;

use crate::field::Field;
use itoa::Buffer;

/// The bucket of a key, from 0 to 255: the FNV-1a hash of 64 bits, modulo 256, of a text's bytes or of a number's
/// decimal text.
pub fn bucket_of(key: &Field) -> u8
    ensures { result ≡ spec.bucket_of key.now }
{
    match key {
        Field::Int(n) => low_hash(Buffer::new().format(*n).as_bytes()),
        Field::Text(text) => low_hash(text.as_str().as_bytes()),
    }
}

/// The low byte of the hash. The low byte of a product or of an exclusive or depends on the low bytes alone, so the
/// hash can be computed in single bytes, from the low bytes of its start and its prime.
fn low_hash(bytes: &[u8]) -> u8
    ensures { result ≡ spec.hash_of bytes.now % 256 }
{
    let mut hash = 37u8;
    for byte in bytes {
        hash = (hash ^ *byte).wrapping_mul(179);
    }
    hash
}
