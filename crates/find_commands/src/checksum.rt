//! What the checksum of a header shows.
ghost use Rattle.std.specs.Prelude.{◌≡◌};
ghost use Rattle.find_commands.specs.Kinds.{checksum_name};

/// What the checksum of a LUKS2 header shows.
#[derive(Clone, Copy, Debug, PartialEq, Eq)]
pub enum Checksum {
    /// It is that of the header, whose sectors were all read.
    Valid,
    /// It isn't, the header has no size that there is, or another header begins within it.
    Wrong,
    /// Its algorithm isn't SHA-256, or a sector of the header is lost or after the last one of the disk.
    Unchecked,
}

impl Checksum {
    /// Returns the name in printed output.
    pub fn name(self) -> &'static str
        ensures { result.now ≡ checksum_name self }
    {
        match self {
            Checksum::Valid => "valid",
            Checksum::Wrong => "wrong",
            Checksum::Unchecked => "unchecked",
        }
    }
}
