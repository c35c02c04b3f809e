//! The next piece of a recovery.
ghost use Rattle.std.specs.Prelude.{◌≡◌, ◌+◌, ◌≤◌, ◌<◌, length};
ghost use Rattle.dm_table.specs.Grammar.{IsTargetOfGrammar};
ghost use Rattle.stack_rules.specs.Names.{mapped, size};
ghost use Rattle.stack_recovery.specs.Pieces.{AreUnitLens, IsPieceLimit, IsPiece};

use alignment::aligned_len;
use dm_table::Target;
use stack_config::{Config, DevId};

const MOST_PIECE: u64 = 128;

/// A number of sectors, and whether a fault of one of them is a fault of all.
#[derive(Clone, Copy)]
pub struct Piece {
    pub count: u32,
    pub alike: bool,
}

/// How many sectors are lost together from one sector on, and how many in each unit after them.
#[derive(Clone, Copy)]
struct Unit {
    rest: u64,
    whole: u64,
}

// The units of a line's sectors from its sector `within` on.
fn unit_of(target: &Target, within: u64) -> Unit
    requires { IsTargetOfGrammar target.now }
    ensures rest { 1 ≤ result.rest }
    ensures whole { 1 ≤ result.whole }
    ensures lens { AreUnitLens target.now within result.rest result.whole }
{
    match target {
        Target::Error => Unit {
            rest: MOST_PIECE,
            whole: 1,
        },
        Target::Verity(verity) => {
            let whole = u64::from(verity.data_block / 512);
            Unit {
                rest: whole - within % whole,
                whole,
            }
        }
        _ => Unit { rest: 1, whole: 1 },
    }
}

/// Returns the piece from sector `first` on and before sector `end`. It has at most `most` sectors unless they are lost
/// together. It stays in one line, and splits no unit and no data block that can be read in one piece.
pub fn piece_at(config: &Config, d: DevId, first: u64, end: u64, most: u32) -> Piece
    requires device { d.0 < length config.now.devices }
    requires some { first < end }
    requires inside { end ≤ size config.now (mapped d.0) }
    requires most { IsPieceLimit most }
    ensures { IsPiece config.now d.0 first end most result }
{
    // The call provides what holds of every loaded configuration.
    let _loaded = config.count();
    let (number, left) = config.line_at(d, first);
    let lines = config.table(d).lines();
    let line = &lines[number as usize];
    let Unit { rest, whole } = unit_of(&line.target, first - line.start);
    let wanted = u64::from(most);
    let behind = wanted.saturating_sub(rest) / whole * whole;
    let longest = (rest + behind).min(MOST_PIECE);
    let room = left.min(end - first);
    let count = aligned_len(config, d, first, room, longest);
    Piece {
        count: count as u32,
        alike: count <= rest,
    }
}
