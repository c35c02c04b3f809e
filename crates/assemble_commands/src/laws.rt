//! Laws of an assembled disk: each function's contract is the law, and its call gives it.
ghost use Rattle.assemble_commands.specs.DataLaws.{AssembledDataIsRead, LinearPartsHold, OtherDataCollide};
ghost use Rattle.assemble_commands.specs.Laws.{AssembledTablesAreRead};
ghost use Rattle.assemble_commands.specs.PrintLaws.{AssembledStacksArePrinted};

use disk_layout::laws::{
    disk_parts_make_tables, large_table_is_found, written_table_is_found, written_table_is_held,
    written_table_is_read,
};
use hash_tree::laws::formed_chains_are_good;
use image_commands::Generators;
use image_files::Images;
use stack_engine::laws::{forged_sectors_collide, formatted_data_is_read};
use tree_repair::laws::formatted_images_are_former;

/// After `assemble` returned `Ok` over steady devices, `read_table` and `find_table` of OUT return exactly the partitions of the image,
/// for both sector sizes. The UUIDs of `data` and `hash` are the halves of the root hash.
pub fn assembled_tables_are_read<I: Images, G: Generators>()
    ensures { AssembledTablesAreRead I.relations I.Dev.state G.gives G.Generator.stream }
{
    formed_chains_are_good();
    disk_parts_make_tables();
    written_table_is_held();
    written_table_is_read();
    written_table_is_found();
    large_table_is_found();
}

/// After `assemble` returned `Ok` over steady DATA: each sector that is read through the `verity` line of `partitions --root` is DATA's,
/// whatever the disk returns, or a chain of its block shows two different inputs of one SHA-256 digest.
pub fn other_data_collide<I: Images, G: Generators>()
    ensures { OtherDataCollide I.relations I.Dev.state G.gives G.Generator.stream }
{
    forged_sectors_collide();
}

/// After `assemble` returned `Ok` over steady devices, each sector of that line is DATA's over devices that hold what the parts held when
/// they were closed.
pub fn assembled_data_is_read<I: Images, G: Generators>()
    ensures { AssembledDataIsRead I.relations I.Dev.state G.gives G.Generator.stream }
{
    formatted_images_are_former();
    formatted_data_is_read();
}

/// A linear device over a part of a disk has what the part holds.
pub fn linear_parts_hold<I: Images>()
    ensures { LinearPartsHold I.Dev.state }
{}

/// After `assemble` returned `Ok` over steady devices, `partitions --root` prints of a disk that holds the table and the hash image as they
/// were closed: a linear device over each part, and the `verity` line of the image over both; perhaps also the device of a signature.
pub fn assembled_stacks_are_printed<I: Images, G: Generators>()
    ensures { AssembledStacksArePrinted I.relations I.Dev.state G.gives G.Generator.stream }
{
    formed_chains_are_good();
    disk_parts_make_tables();
    written_table_is_held();
    written_table_is_read();
    written_table_is_found();
}
