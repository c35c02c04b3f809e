//! The units of `crypt` lines.
ghost use Rattle.std.specs.Prelude.{◌≡◌, ℕ, ◌<◌, ◌≤◌, ◌+◌, ◌*◌, ◌%◌, ◌^◌, ◌++◌, length, slice_index, take, drop};
ghost use Rattle.stack_meaning.specs.Units.{per_unit, unit_bytes, crypt_unit_number, encrypted_units, decrypted_units, unit_first};
ghost use Rattle.stack_lines.specs.Sources.{IsUnitAt, IsWholeOf};

use crate::source::CryptPart;
use stack_meaning::CryptUnits;

/// The most bytes of a unit.
pub const MOST: usize = 4096;

/// The most units that the cipher is handed in one call: as many as it makes ready at once.
const AT_ONCE: usize = 16;

/// Where units lie: on the lower device from its sector `first` on. The first of them is unit `index` of its line.
#[derive(Clone, Copy)]
pub struct UnitAt {
    pub first: u64,
    pub index: u64,
}

/// A whole unit of so many sectors, from the begin of the part on, and a sector in it.
#[derive(Clone, Copy)]
pub struct WholeUnit<'a> {
    pub from: CryptPart<'a>,
    pub sectors: u32,
    pub within: u32,
}

/// Returns the extent of the unit that has the first sector of a part.
pub fn unit_at(part: &CryptPart<'_>) -> UnitAt
    requires { unit_first part.now.units part.now.first < 2 ^ 64 }
    ensures { IsUnitAt part.now result }
{
    let sectors = u64::from(part.units.size.sectors());
    let index = part.first / sectors;
    let first = part.units.offset + index * sectors;
    UnitAt { first, index }
}

/// Returns the whole unit that has the first sector of a part.
pub fn whole_unit<'a>(part: &CryptPart<'a>) -> WholeUnit<'a>
    ensures whole { IsWholeOf part.now result }
    ensures some { 1 ≤ result.sectors }
    ensures few { result.sectors ≤ 8 }
    ensures within { result.within < result.sectors }
{
    let sectors = part.units.size.sectors();
    let within = part.first % u64::from(sectors);
    let from = CryptPart {
        units: part.units,
        key: part.key,
        lower: part.lower,
        first: part.first - within,
    };
    WholeUnit {
        from,
        sectors,
        within: within as u32,
    }
}

/// The number of the first sector of unit `k`, modulo 2^64.
fn sector_number(units: CryptUnits, k: u64) -> u64
    ensures { result ≡ (k * per_unit units + units.iv_offset) % 2 ^ 64 }
{
    let sectors = u64::from(units.size.sectors());
    k.wrapping_mul(sectors).wrapping_add(units.iv_offset)
}

/// The number of unit `k`, as the cipher takes it.
fn unit_number(units: CryptUnits, k: u64) -> u64
    ensures { result ≡ crypt_unit_number units k }
{
    let sector = sector_number(units, k);
    if units.iv_large_sectors {
        sector / u64::from(units.size.sectors())
    } else {
        sector
    }
}

/// The numbers of so many units from unit `k` on.
fn unit_numbers(units: CryptUnits, k: u64, count: usize) -> [u64; AT_ONCE]
    requires few { count ≤ AT_ONCE }
    requires fits { k + count < 2 ^ 64 }
    ensures { (j : ℕ) → j < count → slice_index result j ≡ crypt_unit_number units (k + j) }
{
    let mut numbers = [0; AT_ONCE];
    for j in 0..count {
        numbers[j] = unit_number(units, k + j as u64);
    }
    numbers
}

/// The bytes of a unit.
fn unit_bytes(units: CryptUnits) -> usize
    ensures value { result ≡ unit_bytes units }
    ensures some { 0 < result }
    ensures blocks { result % 16 ≡ 0 }
{
    512 * units.size.sectors() as usize
}

/// Decrypts whole units of that line in place, from unit `k` of the line on.
pub fn decrypt(part: &CryptPart<'_>, k: u64, units: &mut [u8])
    requires whole { length units.old % unit_bytes part.now.units ≡ 0 }
    requires fits { k + length units.old < 2 ^ 64 }
    ensures { units.new ≡ decrypted_units part.now.units part.now.key.now k units.old }
{
    let size = unit_bytes(part.units);
    let count = units.len() / size;
    for i in 0..count.div_ceil(AT_ONCE) {
        let from = AT_ONCE * i;
        let few = AT_ONCE.min(count - from);
        let numbers = unit_numbers(part.units, k + from as u64, few);
        let run = &mut units[size * from..size * from + size * few];
        part.key.decrypt_units(&numbers[..few], size, run);
    }
}

/// Encrypts whole units of that line in place, from unit `k` of the line on.
pub fn encrypt(part: &CryptPart<'_>, k: u64, units: &mut [u8])
    requires whole { length units.old % unit_bytes part.now.units ≡ 0 }
    requires fits { k + length units.old < 2 ^ 64 }
    ensures { units.new ≡ encrypted_units part.now.units part.now.key.now k units.old }
{
    let size = unit_bytes(part.units);
    let count = units.len() / size;
    for i in 0..count.div_ceil(AT_ONCE) {
        let from = AT_ONCE * i;
        let few = AT_ONCE.min(count - from);
        let numbers = unit_numbers(part.units, k + from as u64, few);
        let run = &mut units[size * from..size * from + size * few];
        part.key.encrypt_units(&numbers[..few], size, run);
    }
}

/// Copies sectors of a unit from its sector `within` on, as many as fill the buffer.
pub fn take_sectors(unit: &[u8], within: u32, out: &mut [u8])
    requires { 512 * within + length out.old ≤ length unit.now }
    ensures { out.new ≡ take (length out.old) (drop (512 * within) unit.now) }
{
    let from = within as usize * 512;
    out.copy_from_slice(&unit[from..from + out.len()]);
}

/// Replaces sectors of a unit, from its sector `within` on, by these bytes.
pub fn put_sectors(unit: &mut [u8], within: u32, bytes: &[u8])
    requires { 512 * within + length bytes.now ≤ length unit.old }
    ensures { unit.new ≡ take (512 * within) unit.old ++ bytes.now ++ drop (512 * within + length bytes.now) unit.old }
{
    let from = within as usize * 512;
    unit[from..from + bytes.len()].copy_from_slice(bytes);
}
