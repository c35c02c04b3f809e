//! The kinds of things that a sector shows.
ghost use Rattle.std.specs.Prelude.{◌≡◌};
ghost use Rattle.find_commands.specs.Kinds.{found_name, is_luks2, opener_name};

/// What a sector shows: its header, or the superblock of a file system.
#[derive(Clone, Copy, Debug, PartialEq, Eq)]
pub enum Kind {
    /// The primary header of a GUID partition table.
    Gpt,
    /// The backup of one.
    GptBackup,
    /// The superblock of a verity hash image.
    Verity,
    /// The primary header of LUKS2.
    Luks2,
    /// The secondary one.
    Luks2Secondary,
    /// ext2, ext3 or ext4.
    Ext4,
    Erofs,
    Squashfs,
    Xfs,
    Btrfs,
}

impl Kind {
    /// Returns the name in printed output.
    pub fn name(self) -> &'static str
        ensures { result.now ≡ found_name self }
    {
        match self {
            Kind::Gpt => "gpt",
            Kind::GptBackup => "gpt-backup",
            Kind::Verity => "verity",
            Kind::Luks2 => "luks2",
            Kind::Luks2Secondary => "luks2-secondary",
            Kind::Ext4 => "ext4",
            Kind::Erofs => "erofs",
            Kind::Squashfs => "squashfs",
            Kind::Xfs => "xfs",
            Kind::Btrfs => "btrfs",
        }
    }

    /// Returns whether it is a header of LUKS2.
    pub(crate) fn is_luks2(self) -> bool
        ensures { result ≡ is_luks2 self }
    {
        match self {
            Kind::Luks2 | Kind::Luks2Secondary => true,
            Kind::Gpt
            | Kind::GptBackup
            | Kind::Verity
            | Kind::Ext4
            | Kind::Erofs
            | Kind::Squashfs
            | Kind::Xfs
            | Kind::Btrfs => false,
        }
    }

    /// Returns the name of the command for it: of `dmstack`, or of the system.
    pub fn opener(self) -> &'static str
        ensures { result.now ≡ opener_name self }
    {
        match self {
            Kind::Gpt | Kind::GptBackup => "partitions",
            Kind::Verity => "verify",
            Kind::Luks2 | Kind::Luks2Secondary => "cryptsetup",
            Kind::Ext4 | Kind::Erofs | Kind::Squashfs | Kind::Xfs | Kind::Btrfs => "mount",
        }
    }
}
