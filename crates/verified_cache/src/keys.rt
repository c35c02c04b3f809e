//! Sets of keys.
ghost use Rattle.std.specs.Prelude.{◌≡◌, Bool};
ghost use Rattle.verified_cache.specs.declared.key.Key.{Key};

use crate::Key;

/// A set of keys.
pub trait Keys {
    /// The precondition of `has`.
    ghost can_tell: { Self → Type 0 };

    /// The set, as a test of keys.
    ghost has: { Self → Key → Bool };

    /// Returns whether the key is in the set.
    fn has(&self, key: Key) -> bool
        requires { can_tell self.now }
        ensures { result ≡ has self.now key };
}

/// The keys of one line of one device.
#[derive(Clone, Copy)]
pub(crate) struct KeysOfLine {
    pub(crate) device: u32,
    pub(crate) line: u32,
}

impl Keys for KeysOfLine {
    ghost use Rattle.std.specs.Prelude.{⊤};
    ghost use Rattle.verified_cache.specs.Cache.{is_of_line};

    ghost can_tell = { λ keys. Unit {0} };

    ghost has = { λ keys. is_of_line keys.device keys.line };

    fn has(&self, key: Key) -> bool {
        key.device == self.device && key.line == self.line
    }
}
