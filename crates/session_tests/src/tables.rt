//! What no command prints or reads: tables as texts of their own, keys, and a stack of a single table.
use dm_table::StackText;
use std::alloc::Global;
use std::rt::HostRuntime;
use std::test::Fail;
use table_text::{parse_table, print_table};

const SPELLED: &str =
    "0 8 linear D 2\n8 32 striped 2 8 A 0 /dev/mapper/b 16\n40 1 error\n41 18446744073709551615 zero\n";

/// A line for each target.
const EACH: &str = "0 8 striped 1 8 D 3
8 1 linear E 1
9 1 zero
10 1 error
11 8 crypt aes-xts-plain64 052a4f7499bee3082d52779cc1e60b30557a9fc4e90e33587da2c7ec11365b80 0 D 0 2 no_read_workqueue allow_discards
19 8 verity 1 D /dev/mapper/tree 4096 512 1 1 sha256 093e73a8dd12477cb1e61b5085baef24598ec3f82d6297cc01366ba0d50a3f74 0a0b 1 ignore_zero_blocks
";

/// Tables, and what they are printed as with their keys, or their first fault. `single` is followed by the name of a device
/// whose table is the only one of a stack.
static TEXTS: [(&str, &str); 21] = [
    ("# x\n\n0 08 linear D 02", "0 8 linear D 2\n"),
    ("0 21474836480 zero", "0 21474836480 zero\n"),
    (SPELLED, SPELLED),
    (
        "0 8 linear D 2\r\n8 32 striped 2 8 A 0 /dev/mapper/b 16\r\n40 1 error\r\n41 18446744073709551615 zero\r\n",
        SPELLED,
    ),
    (
        "\t 00  08\r\tlinear   D 0002 \r\n\n  # note\n8\t0000000000000000000000000000032 striped 02 08 A 00 /dev/mapper/b 016\r\n \t\r\n40 1 error\n#\n41 018446744073709551615 zero",
        SPELLED,
    ),
    (EACH, EACH),
    (
        "0 8 crypt aes-xts-plain64 052A4F7499BEE3082D52779CC1E60B30557A9FC4E90E33587DA2C7EC11365B80 07 /dev/mapper/low 18446744073709551615",
        "0 8 crypt aes-xts-plain64 052a4f7499bee3082d52779cc1e60b30557a9fc4e90e33587da2c7ec11365b80 7 /dev/mapper/low 18446744073709551615\n",
    ),
    (
        "0 8 crypt aes-xts-plain64 ab0661bc1772cd2883de3994ef4aa5005bb6116cc7227dd8338ee9449ffa55b00B66C11C77D22D88E33E99F44FAA0560BB1671CC2782DD3893EE49A4FF5AB510 0 D 0",
        "0 8 crypt aes-xts-plain64 ab0661bc1772cd2883de3994ef4aa5005bb6116cc7227dd8338ee9449ffa55b00b66c11c77d22d88e33e99f44faa0560bb1671cc2782dd3893ee49a4ff5ab510 0 D 0\n",
    ),
    (
        "0 8 verity 01 D /dev/mapper/tree 0512 01024 0 0018446744073709551615 sha256 093E73A8DD12477CB1E61B5085BAEF24598EC3F82D6297CC01366BA0D50A3F74 AB",
        "0 8 verity 1 D /dev/mapper/tree 512 1024 0 18446744073709551615 sha256 093e73a8dd12477cb1e61b5085baef24598ec3f82d6297cc01366ba0d50a3f74 ab\n",
    ),
    ("0 8 linear a,b 0", "entry 0, line 1: Name"),
    ("", "entry 0, line 0: Fields"),
    ("\n# c\n0 8 foo", "entry 0, line 3: Target"),
    ("!,;\0", "entry 0, line 0: NotText"),
    ("0 8 zero\x0b", "entry 0, line 0: NotText"),
    ("# \x0c", "entry 0, line 0: NotText"),
    ("0 8 zero\x1f", "entry 0, line 0: NotText"),
    ("0 8 zero\\", "entry 0, line 0: NotText"),
    ("0 8 zero\x7f", "entry 0, line 0: NotText"),
    ("0 8 zero \u{80}", "entry 0, line 0: NotText"),
    ("single one", "0 8 linear D 2\n8 8 zero\n"),
    ("single a,b", "entry 1, line 0: Name"),
];

/// Returns the text of a table that is copied and printed with its keys, or the text of its fault.
fn table_text(alloc: Global, text: &str) -> Result<Vec<u8>, Fail> {
    if text.len() >= 1 << 24 {
        return Err(Fail::from("a text of this size is not tried"));
    }
    match parse_table(alloc, text.as_bytes()) {
        Ok(table) => Ok(print_table(alloc, &table.try_clone(alloc)?, true)?),
        Err(fault) => Ok(format!(in alloc; "{fault}")?.into_bytes()),
    }
}

/// Returns the text of the only entry of a single-table stack, or the text of its name's fault.
fn single_text(alloc: Global, name: &[u8]) -> Result<Vec<u8>, Fail> {
    let table = parse_table(alloc, b"0 8 linear D 02\n8 8 zero".as_slice())?;
    match StackText::single(alloc, name, true, table) {
        Ok(stack) => match stack.as_slice() {
            [entry] if stack.entries() == 1 && entry.number == 1 => {
                Ok(print_table(alloc, &entry.table, false)?)
            }
            _ => Err(Fail::from("another entry")),
        },
        Err(fault) => Ok(format!(in alloc; "{fault}")?.into_bytes()),
    }
}

/// Whether a table, or the name of a single one, has that text.
fn is_printed(alloc: Global, text: &str, wanted: &str) -> Result<bool, Fail> {
    let found = match text.strip_prefix("single ") {
        Some(name) => single_text(alloc, name.as_bytes())?,
        None => table_text(alloc, text)?,
    };
    Ok(found.as_slice() == wanted.as_bytes())
}

#[test]
fn texts_of_tables(rt: HostRuntime) -> Result<(), Fail> {
    let alloc = rt.alloc();
    for (text, wanted) in &TEXTS {
        assert!(rt; is_printed(alloc, text, wanted)?, "{text}");
    }
    Ok(())
}
