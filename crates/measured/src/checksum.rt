// The CRC.
ghost use Rattle.std.specs.Prelude.{◌≡◌};
ghost use Rattle.crc.specs.Crc.{crc};

use crc::crc32;

#[unsafe(no_mangle)]
pub extern "C" fn measured_crc32(bytes: &[u8]) -> u64
    ensures { result ≡ crc bytes.now }
{
    crc32(bytes) as u64
}
