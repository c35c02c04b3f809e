//! Why a repair by parity ends early.
ghost use Rattle.std.specs.Prelude.{◌≡◌};
ghost use Rattle.repair_commands.specs.declared.fault.ParityRepairFault.TheVariants as parity_repair_fault;

use verity_commands::TreeFault;

/// Why a repair with parity ended early.
#[derive(Clone, Copy, Debug, PartialEq, Eq)]
pub enum ParityRepairFault<'a> {
    /// A fault of a repair without parity.
    Tree(TreeFault<'a>),
    /// The data blocks and the hash blocks have different sizes, so there is no parity of both.
    BlockSizes,
    /// The parity file has fewer sectors (of 512 bytes) than needed.
    TooSmall { needed: u64 },
}

impl<'a> From<TreeFault<'a>> for ParityRepairFault<'a> {
    ghost from_gives = { λ fault given. given ≡ parity_repair_fault.Tree fault };

    fn from(fault: TreeFault<'a>) -> Self {
        ParityRepairFault::Tree(fault)
    }
}
