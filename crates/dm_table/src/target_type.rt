//! The target types and their names.
ghost use Rattle.std.specs.Prelude.{◌≡◌, Some};
ghost use Rattle.dm_table.specs.TargetTypes.{type_named, type_word};

/// The target type of a line.
#[derive(Clone, Copy, Debug, PartialEq, Eq)]
pub enum TargetType {
    Linear,
    Striped,
    Zero,
    Error,
    Crypt,
    Verity,
    Unstriped,
}

/// All target types, each once.
const TARGET_TYPES: &[TargetType] = &[
    TargetType::Linear,
    TargetType::Striped,
    TargetType::Zero,
    TargetType::Error,
    TargetType::Crypt,
    TargetType::Verity,
    TargetType::Unstriped,
];

impl TargetType {
    /// Returns the name of the type in a line.
    pub fn word(self) -> &'static [u8]
        ensures value { result.now ≡ type_word self }
        ensures named { type_named result.now ≡ Some self }
    {
        match self {
            TargetType::Linear => b"linear",
            TargetType::Striped => b"striped",
            TargetType::Zero => b"zero",
            TargetType::Error => b"error",
            TargetType::Crypt => b"crypt",
            TargetType::Verity => b"verity",
            TargetType::Unstriped => b"unstriped",
        }
    }

    /// Returns the type with this name, or `None` if there is no such type.
    pub fn named(word: &[u8]) -> Option<TargetType>
        ensures { result ≡ type_named word.now }
    {
        TARGET_TYPES
            .iter()
            .copied()
            .find(|target_type| target_type.word() == word)
    }
}
