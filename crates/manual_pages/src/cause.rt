//! What is printed of each cause of a usage error.
ghost use Rattle.std.specs.Prelude.{◌≡◌};
ghost use Rattle.manual_pages.specs.Causes.{cause_text};

use command_line::Cause;

/// What is wrong with an argument.
#[tactic(auto, unfolding(crate::specs::Causes::cause_text))]
pub fn cause_text(cause: Cause) -> &'static str
    ensures { result.now ≡ cause_text cause }
{
    match cause {
        Cause::Missing => "missing",
        Cause::Surplus => "one argument too many",
        Cause::LateOption => "options go before the positional arguments",
        Cause::Unknown => "no such option",
        Cause::Unread => "not understood",
        Cause::NoValue => "its value is missing",
        Cause::UnwantedValue => "takes no value",
        Cause::Repeated => "given twice",
        Cause::Number => "not a decimal number below 2^64",
        Cause::CacheBlocks => "not a number from 0 to 65536",
        Cause::RunCount => "not a number of at least 1",
        Cause::BlockSize => "not a number below 2^32",
        Cause::Offset => "not a multiple of 512",
        Cause::SectorSize => "neither 512 nor 4096",
        Cause::PartitionType => "names no verity partition type",
        Cause::Salt => "neither - nor 2 to 512 hexadecimal digits",
        Cause::Identifier => "not a UUID",
        Cause::RootHash => "not 64 hexadecimal digits",
        Cause::Roots => "not a number from 2 to 24",
        Cause::MappedName => "not the name of a mapped device",
        Cause::DeviceName => "not the device of a table line",
        Cause::FilePath => "not the path of a file",
        Cause::Binding => "not a binding, as NAME=ro:FILE",
        Cause::StandardInput => "standard input is already in use",
        Cause::InSuperblock => "only with --no-superblock",
        Cause::WithNoSuperblock => "not with --no-superblock",
        Cause::WithFec => "not with --fec or --fec-roots",
        Cause::WithPin => "not with --pin",
        Cause::WithOldPin => "not with --old-pin",
        Cause::WithStack => "not with --stack",
        Cause::WithRoot => "not with --root",
        Cause::WithChart => "not with --chart",
        Cause::WithTree => "not with --tree",
        Cause::NameWithAll => "no device name goes with --all",
        Cause::WithoutAll => "only with --all",
        Cause::WithoutDisk => "only with --disk",
        Cause::WithoutFec => "only with --fec",
        Cause::WithoutStack => "only with --stack, --root or --pin",
    }
}
