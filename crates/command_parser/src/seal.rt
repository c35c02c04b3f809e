//! The source of the evidence that clap ran out of memory.

/// Clap reported that memory ran out. No code creates a value of this type, and no other crate can name it, so only the
/// proofs of this crate create evidence.
pub(crate) enum Seal {
    Clap,
}

// Types that no code uses aren't available to proofs.
pub(crate) fn is_clap(seal: &Seal) -> bool {
    match seal {
        Seal::Clap => true,
    }
}
