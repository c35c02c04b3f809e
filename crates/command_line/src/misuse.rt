//! The argument that keeps arguments from being a command, and what is wrong with it.
ghost use Rattle.std.specs.Prelude.{◌≡◌};
ghost use Rattle.command_line.specs.Misuses.{ReadsValue, misuse_record, refuse_if};

/// What is wrong with an argument.
#[derive(Clone, Copy, Debug, PartialEq, Eq)]
pub enum Cause {
    /// It is missing.
    Missing,
    /// The command takes no further positional argument.
    Surplus,
    /// An option is after a positional argument.
    LateOption,
    /// The program has no such command, or the command no such option.
    Unknown,
    /// clap doesn't take the arguments.
    Unread,
    /// The value of the option is missing.
    NoValue,
    /// The option takes no value.
    UnwantedValue,
    /// The option is given twice.
    Repeated,
    /// It isn't a decimal number.
    Number,
    /// It isn't a number of cached blocks.
    CacheBlocks,
    /// It isn't a number of runs.
    RunCount,
    /// It isn't a block size.
    BlockSize,
    /// It isn't a multiple of 512.
    Offset,
    /// It isn't a sector size.
    SectorSize,
    /// It isn't in the name of a partition type of a hash tree.
    PartitionType,
    /// It isn't a salt.
    Salt,
    /// It isn't a UUID.
    Identifier,
    /// It isn't a root hash.
    RootHash,
    /// It isn't a number of parity bytes.
    Roots,
    /// It isn't the name of a mapped device.
    MappedName,
    /// It isn't the device argument of a table line.
    DeviceName,
    /// It isn't the path of a file.
    FilePath,
    /// It isn't a binding.
    Binding,
    /// It is the standard input, which the command reads otherwise.
    StandardInput,
    /// The superblock holds the value.
    InSuperblock,
    /// It conflicts with `--no-superblock`.
    WithNoSuperblock,
    /// It conflicts with parity.
    WithFec,
    /// It conflicts with `--pin`.
    WithPin,
    /// It conflicts with `--old-pin`.
    WithOldPin,
    /// It conflicts with `--stack`.
    WithStack,
    /// It conflicts with `--root`.
    WithRoot,
    /// It conflicts with `--chart`.
    WithChart,
    /// It conflicts with `--tree`.
    WithTree,
    /// It is a device's name beside `--all`.
    NameWithAll,
    /// It needs `--all`.
    WithoutAll,
    /// It needs `--disk`.
    WithoutDisk,
    /// It needs `--fec`.
    WithoutFec,
    /// It needs `--stack`, `--root` or `--pin`.
    WithoutStack,
}

/// An option, the name of a positional argument or the argument itself, and what is wrong with it.
#[derive(Clone, Copy, Debug, PartialEq, Eq)]
pub struct Misuse<'a> {
    pub argument: &'a str,
    pub cause: Cause,
}

impl<'a> Misuse<'a> {
    /// Returns a misuse of an argument.
    pub fn new(argument: &'a str, cause: Cause) -> Self
        ensures { misuse_record result ≡ record { argument = argument.now; cause = cause } }
    {
        Misuse { argument, cause }
    }
}

/// Refuses an argument that is given and isn't allowed so.
pub(crate) fn refuse_if<'a>(given: bool, argument: &'a str, cause: Cause) -> Result<(), Misuse<'a>>
    ensures { ReadsValue (λ none. none) (refuse_if given argument.now cause) result }
{
    if given {
        return Err(Misuse::new(argument, cause));
    }
    Ok(())
}
