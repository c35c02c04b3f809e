//! Why a command of the program ends early.
ghost use Rattle.std.specs.Prelude.{◌≡◌};
ghost use Rattle.stack_commands.specs.declared.fault.CommandFault.TheVariants as command_fault;
ghost use Rattle.stack_session.specs.declared.fault.SessionFault.TheVariants as session_fault;
ghost use Rattle.stack_commands.specs.Endings.{command_words_ending, linux_ending};

use allocation::OutOfMemory;
use command_line::{Misuse, WordsFault};
use fec_commands::FecFault;
use linux_rules::{LinuxFault, LinuxRefusal};
use nbd_server::{ServiceFault, Tally};
use partition_commands::PartitionsFault;
use program_io::WriteFault;
use scan_commands::RecoveringFault;
use stack_engine::IoFault;
use stack_files::StackFault;
use stack_session::SessionFault;
use std::alloc::AllocError;
use transfer_commands::{RequestFault, StreamFault};
use verity_commands::{TreeFault, VerityFault};

/// Why a command ends early.
#[derive(Clone, Copy, Debug, PartialEq, Eq)]
pub enum CommandFault<'a> {
    /// The misused argument; None if `manual` has no such page, or the arguments aren't UTF-8.
    Usage(Option<Misuse<'a>>),
    /// Memory ran out.
    NoMemory,
    /// There is no stack, or no such device.
    Stack(StackFault<'a>),
    /// Linux wouldn't load the stack, or would read other bytes.
    Linux(LinuxRefusal),
    /// A request of a stack isn't served.
    Request(RequestFault<'a>),
    /// The leaves that were written can't be synced.
    Io(IoFault),
    /// A command that reads a whole device ended early, or sectors of the device are lost.
    Recovering(RecoveringFault<'a>),
    /// A command on the bytes of a device ended early.
    Stream(StreamFault<'a>),
    /// A command on verity images ended early.
    Verity(VerityFault<'a>),
    /// A command on an image with parity ended early.
    Fec(FecFault<'a>),
    /// A command on the partitions of an image ended early.
    Partitions(PartitionsFault<'a>),
    /// A command on hash trees ended early.
    Trees(TreeFault<'a>),
    /// The session failed, or a line can't be written.
    Session(SessionFault),
    /// The service of a client ended early.
    Service(ServiceFault),
    /// Requests of a client ended with a fault.
    Faults(Tally),
}

impl From<AllocError> for CommandFault<'_> {
    ghost from_gives = { λ _ fault. fault ≡ command_fault.NoMemory };

    fn from(_error: AllocError) -> Self {
        CommandFault::NoMemory
    }
}

impl From<OutOfMemory> for CommandFault<'_> {
    ghost from_gives = { λ _ fault. fault ≡ command_fault.NoMemory };

    fn from(_error: OutOfMemory) -> Self {
        CommandFault::NoMemory
    }
}

impl<'a> From<WordsFault<'a>> for CommandFault<'a> {
    ghost from_gives = { λ fault given. given ≡ command_words_ending fault };

    fn from(fault: WordsFault<'a>) -> Self {
        match fault {
            WordsFault::Usage(misuse) => CommandFault::Usage(Some(misuse)),
            WordsFault::NoMemory => CommandFault::NoMemory,
        }
    }
}

impl<'a> From<StackFault<'a>> for CommandFault<'a> {
    ghost from_gives = { λ fault given. given ≡ command_fault.Stack fault };

    fn from(fault: StackFault<'a>) -> Self {
        CommandFault::Stack(fault)
    }
}

impl From<LinuxFault> for CommandFault<'_> {
    ghost from_gives = { λ fault given. given ≡ linux_ending fault };

    fn from(fault: LinuxFault) -> Self {
        match fault {
            LinuxFault::Refused(refusal) => CommandFault::Linux(refusal),
            LinuxFault::NoMemory => CommandFault::NoMemory,
        }
    }
}

impl<'a> From<RequestFault<'a>> for CommandFault<'a> {
    ghost from_gives = { λ fault given. given ≡ command_fault.Request fault };

    fn from(fault: RequestFault<'a>) -> Self {
        CommandFault::Request(fault)
    }
}

impl From<IoFault> for CommandFault<'_> {
    ghost from_gives = { λ fault given. given ≡ command_fault.Io fault };

    fn from(fault: IoFault) -> Self {
        CommandFault::Io(fault)
    }
}

impl<'a> From<RecoveringFault<'a>> for CommandFault<'a> {
    ghost from_gives = { λ fault given. given ≡ command_fault.Recovering fault };

    fn from(fault: RecoveringFault<'a>) -> Self {
        CommandFault::Recovering(fault)
    }
}

impl<'a> From<StreamFault<'a>> for CommandFault<'a> {
    ghost from_gives = { λ fault given. given ≡ command_fault.Stream fault };

    fn from(fault: StreamFault<'a>) -> Self {
        CommandFault::Stream(fault)
    }
}

impl<'a> From<VerityFault<'a>> for CommandFault<'a> {
    ghost from_gives = { λ fault given. given ≡ command_fault.Verity fault };

    fn from(fault: VerityFault<'a>) -> Self {
        CommandFault::Verity(fault)
    }
}

impl<'a> From<FecFault<'a>> for CommandFault<'a> {
    ghost from_gives = { λ fault given. given ≡ command_fault.Fec fault };

    fn from(fault: FecFault<'a>) -> Self {
        CommandFault::Fec(fault)
    }
}

impl<'a> From<PartitionsFault<'a>> for CommandFault<'a> {
    ghost from_gives = { λ fault given. given ≡ command_fault.Partitions fault };

    fn from(fault: PartitionsFault<'a>) -> Self {
        CommandFault::Partitions(fault)
    }
}

impl<'a> From<TreeFault<'a>> for CommandFault<'a> {
    ghost from_gives = { λ fault given. given ≡ command_fault.Trees fault };

    fn from(fault: TreeFault<'a>) -> Self {
        CommandFault::Trees(fault)
    }
}

impl From<SessionFault> for CommandFault<'_> {
    ghost from_gives = { λ fault given. given ≡ command_fault.Session fault };

    fn from(fault: SessionFault) -> Self {
        CommandFault::Session(fault)
    }
}

impl From<ServiceFault> for CommandFault<'_> {
    ghost from_gives = { λ fault given. given ≡ command_fault.Service fault };

    fn from(fault: ServiceFault) -> Self {
        CommandFault::Service(fault)
    }
}

impl From<WriteFault> for CommandFault<'_> {
    ghost from_gives = { λ _ given. given ≡ command_fault.Session session_fault.WriteFault };

    fn from(_fault: WriteFault) -> Self {
        CommandFault::Session(SessionFault::WriteFault)
    }
}
