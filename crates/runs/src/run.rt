//! A run of blocks or sectors.
ghost use Rattle.std.specs.Prelude.{◌≡◌, ◌+◌, ◌<◌, ◌^◌};
ghost use Rattle.runs.specs.Runs.{longer};

/// A run of `count` blocks or sectors from number `first` on, counted from 0, all of the same kind.
#[derive(Clone, Copy, Debug, PartialEq, Eq)]
pub struct Run<K> {
    pub first: u64,
    pub count: u64,
    pub kind: K,
}

impl<K: Copy> Run<K> {
    /// Returns the run with `count` more blocks or sectors at its end.
    pub fn longer(self, count: u64) -> Run<K>
        requires { self.count + count < 2 ^ 64 }
        ensures { result ≡ longer self count }
    {
        Run {
            first: self.first,
            count: self.count + count,
            kind: self.kind,
        }
    }
}
