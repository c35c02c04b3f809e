//! The source of the evidence that an allocation failed.

/// The library reported that an allocation failed. No code creates a value of this type, and no other crate can name
/// it, so only the proofs of this crate create evidence.
pub(crate) enum Seal {
    Library,
}

// Types that no code uses aren't available to proofs.
pub(crate) fn is_library(seal: &Seal) -> bool {
    match seal {
        Seal::Library => true,
    }
}
