//! Laws of a written table: each function's contract is the law, and its call gives it.
ghost use Rattle.disk_layout.specs.Laws.{DiskPartsMakeTables, LargeTableIsFound, WrittenTableIsHeld, WrittenTableIsFound, WrittenTableIsRead};

/// A steady device holds a table after `write_ends` wrote both its ends.
pub fn written_table_is_held()
    ensures { WrittenTableIsHeld }
{}

/// If a steady device holds both ends of a table, `read_table` returns its partitions: numbers, types, UUIDs, sectors and labels.
/// Both copies are valid and equal, and one is used alone only if the other wasn't read. It returns none only if neither was read: a
/// call or an allocation failed for each.
pub fn written_table_is_read()
    ensures { WrittenTableIsRead }
{}

/// If a steady device holds both ends of a table, `find_table` for its sector size returns the same.
pub fn written_table_is_found()
    ensures { WrittenTableIsFound }
{}

/// If a steady device of whole sectors of 4,096 bytes holds both ends of a table with such sectors, `find_table` that first looks for
/// sectors of 512 bytes returns no other table.
pub fn large_table_is_found()
    ensures { LargeTableIsFound }
{}

/// The partitions over `disk_parts` make a table of a disk that is large enough: they lie one after the other in its usable sectors.
pub fn disk_parts_make_tables()
    ensures { DiskPartsMakeTables }
{}
