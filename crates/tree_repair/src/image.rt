//! A damaged image: its two devices, and the copies that its blocks are sought in.
use block_device::BlockDev;
use std::marker::Model;

/// The data device and the hash device of an image, and the copies of each.
#[derive(Drop)]
pub struct DamagedImage<D: BlockDev, H: BlockDev, C: BlockDev> {
    pub data: D,
    pub hash: H,
    pub data_copies: Vec<C>,
    pub hash_copies: Vec<C>,
}

impl<D: BlockDev, H: BlockDev, C: BlockDev> Model for DamagedImage<D, H, C> {
    ghost use Rattle.std.specs.Prelude.{map};
    ghost use Rattle.tree_repair.specs.Worlds.{ImageRecord, image_record, repair_world};

    ghost Value = { ImageRecord D H };

    ghost view = { λ i. image_record (repair_world (D.state i.data) (H.state i.hash) (map C.state i.data_copies.items) (map C.state i.hash_copies.items)) i.data i.hash };
}
