// The registration descriptor.
ghost use Rattle.std.specs.Prelude.{◌≡◌};
ghost use Rattle.lists.specs.Lists.{same};
ghost use Rattle.descriptor.specs.Descriptor.{registration as descriptor_registration};
ghost use Rattle.descriptor.specs.Naming.{edition_says};

use crate::edition::Edition;

// The registration of 'AV01'.
// Stays: the bytes are a constant, whose type is their number.
const CURRENT: [u8; 6] = [0x05, 0x04, 0x41, 0x56, 0x30, 0x31];

// The registration of 'AV1 '.
// Stays: as at CURRENT.
const DRAFT: [u8; 6] = [0x05, 0x04, 0x41, 0x56, 0x31, 0x20];

// Returns true if the descriptor is the registration of this edition.
pub fn is_registration(edition: Edition, bytes: &[u8]) -> bool
    ensures { result ≡ same bytes.now (descriptor_registration (edition_says edition).identifier) }
{
    let registration = match edition {
        Edition::Current => CURRENT,
        Edition::Draft => DRAFT,
    };
    lists::same(bytes, &registration)
}
