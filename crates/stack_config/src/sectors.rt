//! The line that a sector is in.
ghost use Rattle.std.specs.Prelude.{◌<◌, ◌^◌, length};
ghost use Rattle.stack_rules.specs.Names.{table_sectors};
ghost use Rattle.stack_rules.specs.Lines.{IsIn, Follow, StartsBy};
ghost use Rattle.stack_config.specs.LastStart.{IsLastStart};

use dm_table::{Line, Table};

/// Returns the index of the last line that starts at or before the sector.
fn last_start(lines: &[Line], sector: u64) -> usize
    requires some { 0 < length lines.now }
    requires first { StartsBy lines.now 0 sector }
    ensures { IsLastStart lines.now sector result }
{
    let mut low = 0;
    let mut high = lines.len();
    while high - low > 1 {
        let middle = low + (high - low) / 2;
        if lines[middle].start <= sector {
            low = middle;
        } else {
            high = middle;
        }
    }
    low
}

/// Returns the index of the line that a sector is in, and the number of sectors from it to the end of the line.
pub(crate) fn line_of(table: &Table, sector: u64) -> (u32, u64)
    requires follow { Follow 0 table.now }
    requires sector { sector < table_sectors table.now }
    requires few { length table.now < 2 ^ 32 }
    ensures { IsIn table.now sector result.0 result.1 }
{
    let lines = table.lines();
    let place = last_start(lines, sector);
    let line = &lines[place];
    (place as u32, line.length - (sector - line.start))
}
