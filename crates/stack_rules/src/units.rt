//! The encryption units of a `crypt` line.
ghost use Rattle.std.specs.Prelude.{◌≡◌, ◌≤◌, option_copied};
ghost use Rattle.stack_rules.specs.Units.{crypt_of, unit_sectors};

use dm_table::{Crypt, Target};

/// Returns the arguments of a `crypt` line, or `None` for another target.
pub fn crypt_of(target: &Target) -> Option<&Crypt>
    ensures { option_copied result ≡ crypt_of target.now }
{
    match target {
        Target::Crypt(crypt) => Some(crypt),
        _ => None,
    }
}

/// Returns the size of an encryption unit in sectors: 1, 2, 4 or 8.
pub fn unit_sectors(crypt: &Crypt) -> u32
    ensures value { result ≡ unit_sectors crypt.now }
    ensures some { 1 ≤ result }
    ensures few { result ≤ 8 }
{
    crypt.sector_size() / 512
}
