//! Device-mapper tables and stacks, and the grammar of their texts.
#![tactic(auto)]

mod crypt;
mod fault;
mod name;
mod options;
mod parity;
mod stack;
mod table;
mod target_type;
mod unstriped;
mod verity;

pub use crate::crypt::{Crypt, Key};
pub use crate::fault::{ParseFault, TextFault, TextKind};
pub use crate::name::{is_device, is_key_description, is_mapped_name};
pub use crate::options::{Options, is_kept};
pub use crate::parity::Parity;
pub use crate::stack::{Entry, StackText};
pub use crate::table::{Base, Bases, Line, Name, Table, Target};
pub use crate::target_type::TargetType;
pub use crate::unstriped::Unstriped;
pub use crate::verity::{CorruptionMode, Verity};
