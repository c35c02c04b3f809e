//! The commands of a command line.
ghost use Rattle.std.specs.Prelude.{◌≡◌, map};
ghost use Rattle.command_line.specs.Bindings.{binding_record};
ghost use Rattle.command_line.specs.InvocationBindings.{bindings_in, with_bindings};
ghost use Rattle.command_line.specs.Invocations.{invocation_record};

use crate::bindings::Binding;
use crate::words::assemble::AssembleWords;
use crate::words::cat::CatWords;
use crate::words::copy::CopyWords;
use crate::words::diff::DiffWords;
use crate::words::dump::DumpWords;
use crate::words::exports::ExportsWords;
use crate::words::fec_format::FecFormatWords;
use crate::words::fec_table::FecTableWords;
use crate::words::fec_verify::FecVerifyWords;
use crate::words::find::FindWords;
use crate::words::format::FormatWords;
use crate::words::load::LoadWords;
use crate::words::nbd::NbdWords;
use crate::words::partitions::PartitionsWords;
use crate::words::read::ReadWords;
use crate::words::repair::RepairWords;
use crate::words::scan::ScanWords;
use crate::words::session::SessionWords;
use crate::words::store::StoreWords;
use crate::words::table::TableWords;
use crate::words::tree_table::TreeTableWords;
use crate::words::tree_verify::TreeVerifyWords;
use crate::words::update::UpdateWords;
use crate::words::verify::VerifyWords;
use crate::words::write::WriteWords;

/// Sectors of a mapped device.
#[derive(Clone, Copy)]
pub struct Sectors<'a> {
    pub name: &'a str,
    pub first: u64,
    pub count: u64,
}

/// A file whose bytes are written, and the mapped device to which they go from its sector `first` on.
#[derive(Clone, Copy)]
pub struct Transfer<'a> {
    pub name: &'a str,
    pub first: u64,
    pub source: &'a str,
}

/// A mapped device of a stack file, and how many blocks are cached.
#[derive(Clone, Copy)]
pub struct ServedDevice<'a> {
    pub cache: u32,
    pub stack: &'a str,
    pub name: &'a str,
}

/// A command with the values of its options and its positional arguments.
#[derive(Drop)]
pub enum Invocation<'a> {
    Load(LoadWords<'a>),
    Read(ReadWords<'a>),
    Write(WriteWords<'a>),
    Session(SessionWords<'a>),
    Nbd(NbdWords<'a>),
    /// `nbd --all`
    Exports(ExportsWords<'a>),
    Scan(ScanWords<'a>),
    Copy(CopyWords<'a>),
    Cat(CatWords<'a>),
    Store(StoreWords<'a>),
    Format(FormatWords<'a>),
    Verify(VerifyWords<'a>),
    Dump(DumpWords<'a>),
    Table(TableWords<'a>),
    Partitions(PartitionsWords<'a>),
    Diff(DiffWords<'a>),
    Repair(RepairWords<'a>),
    Update(UpdateWords<'a>),
    Find(FindWords<'a>),
    Assemble(AssembleWords<'a>),
    /// `verify --no-superblock`
    VerifyTree(TreeVerifyWords<'a>),
    TableTree(TreeTableWords<'a>),
    /// `format --fec`
    FormatFec(FecFormatWords<'a>),
    VerifyFec(FecVerifyWords<'a>),
    TableFec(FecTableWords<'a>),
    /// The name of the command whose page is printed, if there is one.
    Manual(Option<&'a str>),
    Version,
}

/// Returns the bindings of a command. One that isn't on a stack has none.
pub fn bindings_in<'a, 'b>(invocation: &'b Invocation<'a>) -> &'b [Binding<'a>]
    ensures { map binding_record result.now ≡ bindings_in (invocation_record invocation.now) }
{
    match invocation {
        Invocation::Load(words) => words.bindings.as_slice(),
        Invocation::Read(words) => words.bindings.as_slice(),
        Invocation::Write(words) => words.bindings.as_slice(),
        Invocation::Session(words) => words.bindings.as_slice(),
        Invocation::Nbd(words) => words.bindings.as_slice(),
        Invocation::Exports(words) => words.bindings.as_slice(),
        Invocation::Scan(words) => words.bindings.as_slice(),
        Invocation::Copy(words) => words.bindings.as_slice(),
        Invocation::Cat(words) => words.bindings.as_slice(),
        Invocation::Store(words) => words.bindings.as_slice(),
        Invocation::Format(_)
        | Invocation::Verify(_)
        | Invocation::Dump(_)
        | Invocation::Table(_)
        | Invocation::Partitions(_)
        | Invocation::Diff(_)
        | Invocation::Repair(_)
        | Invocation::Update(_)
        | Invocation::Find(_)
        | Invocation::Assemble(_)
        | Invocation::VerifyTree(_)
        | Invocation::TableTree(_)
        | Invocation::FormatFec(_)
        | Invocation::VerifyFec(_)
        | Invocation::TableFec(_)
        | Invocation::Manual(_)
        | Invocation::Version => &[],
    }
}

/// Returns a command with these bindings in place of its own. One that isn't on a stack stays as it is.
pub fn with_bindings<'a>(invocation: Invocation<'a>, bindings: Vec<Binding<'a>>) -> Invocation<'a>
    ensures { invocation_record result ≡ with_bindings (map binding_record bindings.entry.items) (invocation_record invocation.entry) }
{
    match invocation {
        Invocation::Load(mut words) => {
            words.bindings = bindings;
            Invocation::Load(words)
        }
        Invocation::Read(mut words) => {
            words.bindings = bindings;
            Invocation::Read(words)
        }
        Invocation::Write(mut words) => {
            words.bindings = bindings;
            Invocation::Write(words)
        }
        Invocation::Session(mut words) => {
            words.bindings = bindings;
            Invocation::Session(words)
        }
        Invocation::Nbd(mut words) => {
            words.bindings = bindings;
            Invocation::Nbd(words)
        }
        Invocation::Exports(mut words) => {
            words.bindings = bindings;
            Invocation::Exports(words)
        }
        Invocation::Scan(mut words) => {
            words.bindings = bindings;
            Invocation::Scan(words)
        }
        Invocation::Copy(mut words) => {
            words.bindings = bindings;
            Invocation::Copy(words)
        }
        Invocation::Cat(mut words) => {
            words.bindings = bindings;
            Invocation::Cat(words)
        }
        Invocation::Store(mut words) => {
            words.bindings = bindings;
            Invocation::Store(words)
        }
        Invocation::Format(words) => Invocation::Format(words),
        Invocation::Verify(words) => Invocation::Verify(words),
        Invocation::Dump(words) => Invocation::Dump(words),
        Invocation::Table(words) => Invocation::Table(words),
        Invocation::Partitions(words) => Invocation::Partitions(words),
        Invocation::Diff(words) => Invocation::Diff(words),
        Invocation::Repair(words) => Invocation::Repair(words),
        Invocation::Update(words) => Invocation::Update(words),
        Invocation::Find(words) => Invocation::Find(words),
        Invocation::Assemble(words) => Invocation::Assemble(words),
        Invocation::VerifyTree(words) => Invocation::VerifyTree(words),
        Invocation::TableTree(words) => Invocation::TableTree(words),
        Invocation::FormatFec(words) => Invocation::FormatFec(words),
        Invocation::VerifyFec(words) => Invocation::VerifyFec(words),
        Invocation::TableFec(words) => Invocation::TableFec(words),
        Invocation::Manual(command) => Invocation::Manual(command),
        Invocation::Version => Invocation::Version,
    }
}
