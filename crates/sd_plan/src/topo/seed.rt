//! How the names of a text are hashed.
ghost use Rattle.std.specs.Prelude.{◌≡◌};
ghost use Rattle.sd_plan.specs.topo.Seeds.{seed_of};

use sha2::{Digest, Sha512};
use std::hash::{BuildHasher, DefaultHasher, Hasher};

/// What hashes the names of a text: SipHash, after the text's digest. A text with other names has
/// another digest. So nobody can choose names that collide under the digest of their own text.
#[derive(Clone, Copy)]
pub struct TextSeed {
    after_digest: DefaultHasher,
}

impl TextSeed {
    /// The seed of a text.
    pub fn of(text: &[u8]) -> TextSeed
        ensures { result ≡ seed_of text.now }
    {
        let mut after_digest = DefaultHasher::new();
        after_digest.write(&Sha512::digest(text));
        TextSeed { after_digest }
    }
}

impl BuildHasher for TextSeed {
    type Hasher = DefaultHasher;

    ghost build_hasher = { λ seed. seed.after_digest };

    fn build_hasher(&self) -> DefaultHasher {
        self.after_digest
    }
}
