//! Names of mapped devices, and device arguments.
ghost use Rattle.std.specs.Prelude.{◌≡◌, ◌&&◌, nat_le, length};
ghost use Rattle.std.specs.List.{list_all};
ghost use Rattle.dm_table.specs.SignatureKey.{is_key_description};
ghost use Rattle.dm_table.specs.Names.{is_device, is_leaf_byte, is_mapped_byte, is_mapped_name, is_name_of};

const MAPPER: &[u8; 12] = b"/dev/mapper/";

/// Returns whether the word is the name of a mapped device: 1 to 127 bytes other than slash, comma, semicolon and
/// backslash.
///
/// All bytes must be printing ASCII characters.
pub fn is_mapped_name(word: &[u8]) -> bool
    ensures { result ≡ is_mapped_name word.now }
{
    has_name_len(word, 127) && are_mapped_bytes(word)
}

/// Returns whether the word is a device argument: the path of a mapped device, or the name of a backing device.
pub fn is_device(word: &[u8]) -> bool
    ensures { result ≡ is_device word.now }
{
    if word.starts_with(MAPPER) {
        is_mapped_name(&word[MAPPER.len()..])
    } else {
        is_leaf_name(word)
    }
}

/// Returns whether the word is the description of a key: 1 to 255 bytes other than comma, semicolon and backslash.
///
/// All bytes must be printing ASCII characters.
pub fn is_key_description(word: &[u8]) -> bool
    ensures { result ≡ is_key_description word.now }
{
    is_leaf_name(word)
}

fn is_leaf_name(word: &[u8]) -> bool
    ensures { result ≡ is_name_of 255 is_leaf_byte word.now }
{
    has_name_len(word, 255) && are_leaf_bytes(word)
}

fn has_name_len(word: &[u8], most: usize) -> bool
    ensures { result ≡ (nat_le 1 (length word.now) && nat_le (length word.now) most) }
{
    1 <= word.len() && word.len() <= most
}

fn are_mapped_bytes(word: &[u8]) -> bool
    ensures { result ≡ list_all is_mapped_byte word.now }
{
    word.iter().all(|b| is_mapped_byte(*b))
}

fn are_leaf_bytes(word: &[u8]) -> bool
    ensures { result ≡ list_all is_leaf_byte word.now }
{
    word.iter().all(|b| is_leaf_byte(*b))
}

fn is_mapped_byte(byte: u8) -> bool
    ensures { result ≡ is_mapped_byte byte }
{
    is_leaf_byte(byte) && byte != b'/'
}

fn is_leaf_byte(byte: u8) -> bool
    ensures { result ≡ is_leaf_byte byte }
{
    0x21 <= byte && byte <= 0x7e && byte != b'\\' && byte != b',' && byte != b';'
}
