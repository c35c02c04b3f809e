//! Laws of pins, as clauses of functions that do nothing. Calling one makes its law available to a proof.
ghost use Rattle.image_pin.specs.Laws.{PinnedImagesAreEqual};

use hash_tree::laws::{formed_chains_are_good, good_chains_collide};

/// Two lists of data blocks with the same pin are equal, or their chains exhibit a SHA-256 collision.
pub fn pinned_images_are_equal()
    ensures { PinnedImagesAreEqual }
{
    formed_chains_are_good();
    good_chains_collide();
}
