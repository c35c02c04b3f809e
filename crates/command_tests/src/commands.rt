//! What commands print, and what the images then hold, with a failure at each call of a device.
use crate::failing_images::FailingImages;
use crate::quiet_system::QuietSystem;
use image_commands::SystemGenerators;
use image_files::Images;
use memory_images::MemoryImages;
use program_io::Counted;
use stack_commands::command;
use std::alloc::Global;
use std::rt::HostRuntime;
use std::test::Fail;

const STACK: &[u8] = b"a,,,rw,0 2 linear D 0";

/// The arguments; the input; the call that fails; the status, the output, and the byte that then fills the image's sectors.
#[derive(Clone, Copy)]
struct Row {
    words: &'static [&'static str],
    input: &'static [u8],
    call: u64,
    status: u8,
    printed: &'static [u8],
    filled: [u8; 2],
}

const WRITE: Row = Row {
    words: &["write", "stack", "a", "1", "source", "D=rw:image"],
    input: &[],
    call: 0,
    status: 0,
    printed: b"written\n",
    filled: [0, 7],
};

const STORE: Row = Row {
    words: &["store", "--first", "1", "stack", "a", "-", "D=rw:image"],
    input: &[7; 512],
    printed: b"written 1\n",
    ..WRITE
};

const COPY: Row = Row {
    words: &["copy", "stack", "a", "image", "D=rw:other"],
    printed: b"read 2 lost 0\n",
    filled: [9, 9],
    ..WRITE
};

const READ: Row = Row {
    words: &["read", "stack", "a", "0", "2", "D=rw:image"],
    printed: b"0 all 00\n1 all 00\n",
    filled: [0, 0],
    ..WRITE
};

const LOAD: Row = Row {
    words: &["load", "stack", "D=rw:image"],
    printed: b"a sectors 2 depth 1 read 1 write 1 rw\n",
    ..READ
};

const CAT: Row = Row {
    words: &["cat", "stack", "a", "D=rw:image"],
    printed: &[0; 1024],
    ..READ
};

const SCAN: Row = Row {
    words: &["scan", "stack", "a", "D=rw:image"],
    printed: b"read 2 lost 0\n",
    ..READ
};

const SESSION: Row = Row {
    words: &["session", "D=rw:image"],
    input: b"load a,,,rw,0 2 linear D 0\nwrite a 1 1 07\n",
    printed: b"loaded 1\nwritten\n",
    ..WRITE
};

// A client that ends the handshake by NBD_OPT_ABORT, and the replies from the protocol's document.
const NBD: Row = Row {
    words: &["nbd", "stack", "a", "D=rw:image"],
    input: b"\x00\x00\x00\x03IHAVEOPT\x00\x00\x00\x02\x00\x00\x00\x00",
    printed: b"NBDMAGICIHAVEOPT\x00\x03\x00\x03\xe8\x89\x04\x55\x65\xa9\x00\x00\x00\x02\x00\x00\x00\x01\x00\x00\x00\x00",
    ..READ
};

// Two blocks of 512 zeros. The root hash is the SHA-256 digest of their two digests, padded with zeros.
const FORMAT: Row = Row {
    words: &[
        "format",
        "--data-block",
        "512",
        "--hash-block",
        "512",
        "--salt",
        "-",
        "--uuid",
        "6f1c1b9e-2d3a-4c5b-8e7f-0123456789ab",
        "image",
        "other",
    ],
    printed: b"root 182a1c8ba54d084e24f1018f709256fd40fa272278e35622dfef43d6ec1b1a9b\nsalt -\nuuid 6f1c1b9e-2d3a-4c5b-8e7f-0123456789ab\nblocks 2\n",
    ..READ
};

// A data block followed by its superblock, in one file that is opened as two parts.
const REPAIR: Row = Row {
    words: &[
        "repair",
        "--hash-offset",
        "512",
        "damaged",
        "damaged",
        "15933044960fd23a7daaac9ce51355f1f39894d1c3fe6de21b59b28ce2c77e77",
        "whole",
    ],
    printed: b"repaired data 0 copy 1\ngood 1 changed 0 unknown 0\n",
    ..READ
};

static ROWS: [Row; 31] = [
    WRITE,
    // The write fails, and then the sync: the image has the data that were written.
    Row {
        call: 1,
        status: 3,
        printed: b"fault 3 Device 1\n",
        filled: [0, 0],
        ..WRITE
    },
    Row {
        call: 2,
        status: 3,
        printed: b"fault 3 Device 1\n",
        ..WRITE
    },
    STORE,
    Row {
        call: 1,
        status: 3,
        printed: b"written 0\nfault 3 Device 1\n",
        filled: [0, 0],
        ..STORE
    },
    Row {
        call: 2,
        status: 3,
        printed: b"written 1\nfault 3 Device 1\n",
        ..STORE
    },
    READ,
    Row {
        call: 1,
        status: 3,
        printed: b"fault 3 Device 1\n",
        ..READ
    },
    LOAD,
    CAT,
    // The sectors of a failed piece are read again.
    Row { call: 1, ..CAT },
    SCAN,
    Row { call: 1, ..SCAN },
    SESSION,
    Row {
        call: 1,
        printed: b"loaded 1\nfault 3 Device 1\n",
        filled: [0, 0],
        ..SESSION
    },
    // The sync at the end fails.
    Row {
        call: 2,
        status: 3,
        printed: b"loaded 1\nwritten\nfault 3 Device 1\n",
        ..SESSION
    },
    NBD,
    FORMAT,
    // The data can't be read, or the superblock can't be written.
    Row {
        call: 1,
        status: 1,
        printed: b"refused 5 Device\n",
        ..FORMAT
    },
    REPAIR,
    // The superblock, which is read once, can't be read. Nothing was written.
    Row {
        call: 1,
        status: 1,
        printed: b"refused 10 Device\n",
        ..REPAIR
    },
    // The sync of the superblock's device fails.
    Row {
        call: 2,
        status: 1,
        printed: b"repaired data 0 copy 1\nrefused 10 Device\n",
        ..REPAIR
    },
    // The block can't be written.
    Row {
        call: 3,
        status: 1,
        printed: b"refused 10 Device\n",
        ..REPAIR
    },
    // The block can't be read back, and is read again at the end.
    Row { call: 4, ..REPAIR },
    // The sync of the data fails.
    Row {
        call: 5,
        status: 1,
        printed: b"repaired data 0 copy 1\nrefused 10 Device\n",
        ..REPAIR
    },
    Row {
        words: &[
            "repair",
            "--check",
            "--hash-offset",
            "512",
            "damaged",
            "damaged",
            "15933044960fd23a7daaac9ce51355f1f39894d1c3fe6de21b59b28ce2c77e77",
            "whole",
        ],
        status: 3,
        printed: b"repairable data 0 copy 1\nchanged 0 1\ngood 0 changed 1 unknown 0\n",
        ..REPAIR
    },
    // The image has no superblock.
    Row {
        words: &["dump", "image"],
        status: 1,
        printed: b"refused 1 Signature\n",
        ..READ
    },
    Row {
        words: &["help"],
        status: 2,
        printed: b"usage\n",
        ..READ
    },
    COPY,
    // One image for two arguments, and an image that doesn't exist.
    Row {
        words: &["copy", "stack", "a", "image", "D=rw:image"],
        status: 1,
        printed: b"refused 6 SameFile image\n",
        filled: [0, 0],
        ..WRITE
    },
    Row {
        words: &["write", "stack", "a", "1", "source", "D=rw:nothing"],
        status: 1,
        printed: b"refused 1 NotFound nothing\n",
        filled: [0, 0],
        ..WRITE
    },
];

fn filled(alloc: Global, bytes: [u8; 2]) -> Result<Vec<u8>, Fail> {
    let mut image = vec![in alloc; bytes[0]; 512]?;
    image.extend_from_slice(&[bytes[1]; 512])?;
    Ok(image)
}

// A data block, and the superblock of its tree, which has no hash blocks.
const SUPERBLOCK: &[u8] =
    b"verity\0\0\x01\0\0\0\x01\0\0\0\0\0\0\0\0\0\0\0\0\0\0\0\0\0\0\0sha256\0\0\0\0\0\0\0\0\0\0\0\0\0\0\0\0\0\0\0\0\0\0\0\0\0\0\0\x02\0\0\0\x02\0\0\x01";

fn one_block(alloc: Global, byte: u8) -> Result<Vec<u8>, Fail> {
    let mut image = vec![in alloc; byte; 512]?;
    image.extend_from_slice(SUPERBLOCK)?;
    image.resize(1024, 0)?;
    Ok(image)
}

fn images_of(alloc: Global, call: u64) -> Result<FailingImages, Fail> {
    let mut names = Vec::new(alloc);
    for name in ["stack", "source", "image", "other", "damaged", "whole"] {
        names.push(String::from_str(alloc, name)?)?;
    }
    let mut images = Vec::new(alloc);
    images.push(Vec::from_slice(alloc, STACK)?)?;
    images.push(vec![in alloc; 7u8; 512]?)?;
    images.push(filled(alloc, [0, 0])?)?;
    images.push(filled(alloc, [9, 9])?)?;
    images.push(one_block(alloc, 6)?)?;
    images.push(one_block(alloc, 7)?)?;
    let images = MemoryImages::new(names, images);
    Ok(FailingImages { images, call })
}

fn words_of(alloc: Global, row: &Row) -> Result<Vec<String>, Fail> {
    let mut words = Vec::new(alloc);
    for word in row.words {
        words.push(String::from_str(alloc, word)?)?;
    }
    Ok(words)
}

/// Whether the command behaves as the row says.
fn is_so(rt: &HostRuntime, row: &Row) -> Result<bool, Fail> {
    let alloc = rt.alloc();
    let words = words_of(alloc, row)?;
    let mut images = images_of(alloc, row.call)?;
    let generators = SystemGenerators::new(rt);
    let mut system = QuietSystem { generators };
    let mut reader = Counted::new(row.input);
    let mut writer = Counted::new(Vec::new(alloc));
    let mut errors = Counted::new(Vec::new(alloc));
    let status = command(
        alloc,
        &mut images,
        &mut system,
        &words,
        &mut reader,
        &mut writer,
        &mut errors,
    );
    let printed = writer.into_inner();
    let wanted = filled(alloc, row.filled)?;
    let is_held = match images.images.read_text("image", 1024) {
        Ok(text) => text.bytes.as_slice() == wanted.as_slice(),
        Err(_) => false,
    };
    Ok(status == row.status && printed.as_slice() == row.printed && is_held)
}

#[test]
fn devices_fail_at_each_call(rt: HostRuntime) -> Result<(), Fail> {
    for (number, row) in ROWS.iter().enumerate() {
        assert!(rt; is_so(&rt, row)?, "row {number}");
    }
    Ok(())
}
