//! The arguments of a `crypt` line that its encryption units depend on, without the key.
use dm_table::Crypt;

/// The size of an encryption unit in sectors.
#[derive(Clone, Copy)]
pub enum UnitSize {
    One,
    Two,
    Four,
    Eight,
}

/// The position of a `crypt` line's encryption units on the lower device, and their numbering.
#[derive(Clone, Copy)]
pub struct CryptUnits {
    pub size: UnitSize,
    /// The sector of the lower device at which the line begins.
    pub offset: u64,
    /// Added to a sector's number within the line to give its IV.
    pub iv_offset: u64,
    /// Whether units are numbered in units instead of sectors of 512 bytes.
    pub iv_large_sectors: bool,
}

impl UnitSize {
    ghost use Rattle.std.specs.Prelude.{◌≡◌, ◌≤◌};
    ghost use Rattle.stack_meaning.specs.Units.{size_of, size_sectors};

    /// Returns the size of units of `bytes` bytes: 512, 1024, 2048 or 4096.
    #[tactic(auto, unfolding(crate::specs::Units::size_of))]
    fn of(bytes: u32) -> UnitSize
        ensures { result ≡ size_of bytes }
    {
        if bytes == 4096 {
            UnitSize::Eight
        } else if bytes == 2048 {
            UnitSize::Four
        } else if bytes == 1024 {
            UnitSize::Two
        } else {
            UnitSize::One
        }
    }

    /// Returns the number of sectors of a unit: 1, 2, 4 or 8.
    #[tactic(auto, unfolding(crate::specs::Units::size_sectors))]
    pub fn sectors(self) -> u32
        ensures value { result ≡ size_sectors self }
        ensures some { 1 ≤ result }
        ensures few { result ≤ 8 }
    {
        match self {
            UnitSize::One => 1,
            UnitSize::Two => 2,
            UnitSize::Four => 4,
            UnitSize::Eight => 8,
        }
    }
}

impl CryptUnits {
    ghost use Rattle.std.specs.Prelude.{◌≡◌};
    ghost use Rattle.stack_meaning.specs.Units.{units_of};

    /// Returns the units of a line with these arguments.
    pub fn of(crypt: &Crypt) -> CryptUnits
        ensures { result ≡ units_of crypt.now }
    {
        CryptUnits {
            size: UnitSize::of(crypt.sector_size()),
            offset: crypt.base.offset,
            iv_offset: crypt.iv_offset,
            iv_large_sectors: crypt.iv_large_sectors(),
        }
    }
}
