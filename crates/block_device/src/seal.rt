//! What the evidence of a call is made from.

/// The system was called. No code makes a value of this type, and no other crate can name it, so only the proofs of this crate
/// make evidence.
pub(crate) enum Seal {
    System,
}

// Types that no code uses are left out of the proofs.
pub(crate) fn is_system(seal: &Seal) -> bool {
    match seal {
        Seal::System => true,
    }
}
