//! The program's commands on verity images.
#![tactic(auto)]

mod cleared_tree;
mod clearing;
mod comparing;
mod fault;
mod format;
mod line;
mod offsets;
mod old_pin;
mod paths;
mod pin_file;
mod placed;
mod placed_format;
mod places;
mod preparing;
mod random;
mod refusal;
mod root_file;
mod superblock_json;
mod superblock_text;
mod table;
mod tree_format;
mod tree_line;
mod tree_place;
mod tree_source;
mod verifying;
mod watching;

pub use clearing::clear_superblock;
pub use comparing::{ImagePair, compare, place_parts};
pub use fault::ImageFault;
pub use format::{MadeImage, given_or_drawn, make, say_made};
pub use line::say_line;
pub use paths::{ImagePaths, TwoImages, open_two};
pub use pin_file::{check_other_file, check_root_path, pin_of_image, read_pin, write_root};
pub use placed::{dump_placed, table_placed};
pub use placed_format::make_placed;
pub use places::{Bounds, HashPlace, ImagePlaces, data_end, tree_start};
pub use preparing::prepare_image;
pub use random::{Generators, NoRandomBytes, SystemGenerators, draw};
pub use root_file::read_root;
pub use table::{LineTree, LineWords};
pub use tree_format::{make_tree, say_tree};
pub use tree_line::print_tree_line;
pub use tree_place::{given_options, tree_of, unnamed};
pub use tree_source::{
    NoSource, SoughtTree, TreeSource, bytes_to_read, may_seek, seek_tree, stored_source,
};
pub use verifying::verify_images;
pub use watching::{WatchedPlaces, watch};
