//! Watchers that receive the progress of a transfer.
use crate::progress::Progress;

/// Creates watchers that receive the progress of a transfer, and isn't changed by that.
pub trait Watchers {
    /// The type of its watchers.
    type Watcher: Progress + Drop;

    /// Returns a new watcher, without a transfer.
    fn watcher(&self) -> Self::Watcher;
}

/// Returns a new watcher; if `shown`, a transfer begins for it.
pub fn watcher_of<S: Watchers>(watchers: &S, shown: bool) -> S::Watcher {
    let mut watcher = watchers.watcher();
    if shown {
        watcher.begin();
    }
    watcher
}
