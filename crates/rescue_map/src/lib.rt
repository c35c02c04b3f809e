//! Map files of GNU ddrescue: which sectors of a device were recovered, are bad, or remain to be read.
#![tactic(auto)]

mod ahead;
mod block;
mod fault;
mod finished;
mod keeping;
mod kind;
mod lines;
mod lost;
mod map;
mod numbers;
mod print;
mod settling;
mod splicing;
mod stage;
mod status;
mod stepping;
mod tail;
mod text;
mod totals;

pub use ahead::Ahead;
pub use fault::MapFault;
pub use finished::is_finished;
pub use keeping::keep_lost;
pub use kind::{MapKind, kind_of};
pub use lost::lost_parts;
pub use map::{Map, Run};
pub use print::print_map;
pub use settling::settled;
pub use splicing::{Span, splice};
pub use stage::{Stage, run_status};
pub use status::Status;
pub use stepping::{Step, stepped, untaken};
pub use tail::Tail;
pub use text::{ParsedMap, parse_map};
pub use totals::{Totals, is_had, sectors_of, totals_of};
