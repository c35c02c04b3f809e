//! The names of a pin's lines.
ghost use Rattle.std.specs.Prelude.{◌≡◌, ◌≤◌, length};
ghost use Rattle.image_pin.specs.Names.{name_of, name_text};

/// A field of a pin.
#[derive(Clone, Copy, Debug, PartialEq, Eq)]
pub enum PinName {
    Root,
    Salt,
    DataBlockSize,
    HashBlockSize,
    DataBlocks,
}

impl PinName {
    /// Returns the name of the field in a pin.
    pub fn text(self) -> &'static str
        ensures value { result.now ≡ name_text self }
        ensures short { length result.now ≤ 15 }
    {
        match self {
            PinName::Root => "root",
            PinName::Salt => "salt",
            PinName::DataBlockSize => "data_block_size",
            PinName::HashBlockSize => "hash_block_size",
            PinName::DataBlocks => "data_blocks",
        }
    }
}

/// Returns the field with this name, or `None` if the name is unknown.
pub(crate) fn name_of(word: &[u8]) -> Option<PinName>
    ensures { result ≡ name_of word.now }
{
    if word == b"root".as_slice() {
        Some(PinName::Root)
    } else if word == b"salt".as_slice() {
        Some(PinName::Salt)
    } else if word == b"data_block_size".as_slice() {
        Some(PinName::DataBlockSize)
    } else if word == b"hash_block_size".as_slice() {
        Some(PinName::HashBlockSize)
    } else if word == b"data_blocks".as_slice() {
        Some(PinName::DataBlocks)
    } else {
        None
    }
}
