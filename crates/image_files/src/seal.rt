//! What the evidence of a call on images in files is made from.

/// A call on files was made. No code makes a value of this type, and no other crate can name it, so only the proofs of this
/// crate make evidence.
pub(crate) enum Seal {
    Files,
}

// Types that no code uses are left out of the proofs.
pub(crate) fn is_files(seal: &Seal) -> bool {
    match seal {
        Seal::Files => true,
    }
}
