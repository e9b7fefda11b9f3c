//! The hash of a stream's identifier, for the map of the live streams.
//! A product by an odd number and an exchange of halves: no two identifiers have the same hash, and neighbors are far apart.
//! Definition: `specs/Hash.antt`.

use std::hash::{BuildHasher, Hasher};

/// Hashes the last four octets that are written.
#[derive(Clone, Copy)]
pub(crate) struct IdHasher {
    id: u32,
}

impl Hasher for IdHasher {
    ghost use Rattle.std.specs.Prelude.{fold};
    ghost use Rattle.h2_streams.specs.Hash.{shifted_in, spread};

    ghost write = { λ h octets. record { id = fold shifted_in h.id octets } };

    ghost finish = { λ h. spread h.id };

    fn finish(&self) -> u64 {
        let product = self.id.wrapping_mul(0x9E37_79B9);
        u64::from(product % 65_536 * 65_536 + product / 65_536)
    }

    fn write(&mut self, bytes: &[u8]) {
        let mut id = self.id;
        for byte in bytes {
            id = id / 256 + u32::from(*byte) * 16_777_216;
        }
        self.id = id;
    }
}

/// Makes a hasher for each identifier, always the same.
#[derive(Clone, Copy)]
pub(crate) struct IdHash;

impl BuildHasher for IdHash {
    type Hasher = IdHasher;

    ghost build_hasher = { λ _. record { id = 0 } };

    fn build_hasher(&self) -> IdHasher {
        IdHasher { id: 0 }
    }
}
