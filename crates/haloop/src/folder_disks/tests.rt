// Disks in folders of the folder that the test runs in.
use super::FolderDisks;
use hal_outside::{DiskFault, Disks, Got};
use node_names::{Digest, Name};
use std::fs;
use std::test::Fail;

const BLOCK: Name = Name::Blk {
    table: 0,
    block: 12,
};

const OUTPUT: Name = Name::Out {
    round: 3,
    step: 2,
    part: 1,
};

/// The SHA-256 of `abc`, as FIPS 180 gives it.
const ABC: Digest = Digest([
    0xba, 0x78, 0x16, 0xbf, 0x8f, 0x01, 0xcf, 0xea, 0x41, 0x41, 0x40, 0xde, 0x5d, 0xae, 0x22, 0x23,
    0xb0, 0x03, 0x61, 0xa3, 0x96, 0x17, 0x7a, 0x9c, 0xb4, 0x10, 0xff, 0x61, 0xf2, 0x00, 0x15, 0xad,
]);

fn is_abc(got: Got) -> bool {
    match got {
        Got::Same(bytes) => bytes.as_slice() == b"abc".as_slice(),
        Got::Gone | Got::Other => false,
    }
}

fn is_gone(got: Got) -> bool {
    match got {
        Got::Gone => true,
        Got::Same(_) | Got::Other => false,
    }
}

fn is_other(got: Got) -> bool {
    match got {
        Got::Other => true,
        Got::Same(_) | Got::Gone => false,
    }
}

fn is_device(done: Result<(), DiskFault>) -> bool {
    match done {
        Err(DiskFault::Device(_)) => true,
        Err(DiskFault::Memory) | Ok(()) => false,
    }
}

// Node 1 has two files, of which one is changed from outside; node 2 has one, and where the folder of node 3 would be
// is a file.
#[test]
fn files_in_folders(rt: HostRuntime) -> Result<(), Fail> {
    let alloc = rt.alloc();
    let mut disks = FolderDisks::new(&rt);
    assert!(rt; is_gone(disks.read(alloc, 1, &BLOCK, &ABC)?));
    disks.write(alloc, 1, &BLOCK, b"abc")?;
    disks.write(alloc, 1, &OUTPUT, b"abc")?;
    disks.write(alloc, 2, &BLOCK, b"abc")?;
    assert!(rt; is_abc(disks.read(alloc, 1, &BLOCK, &ABC)?));
    assert!(rt; disks.misses == 1);

    fs::write(&rt, "haloop-nodes/node-1/out-3-2-1", "abd")?;
    assert!(rt; is_other(disks.read(alloc, 1, &OUTPUT, &ABC)?));
    disks.remove(alloc, 1, &OUTPUT)?;
    assert!(rt; is_gone(disks.read(alloc, 1, &OUTPUT, &ABC)?));
    disks.remove(alloc, 1, &OUTPUT)?;
    assert!(rt; is_abc(disks.read(alloc, 1, &BLOCK, &ABC)?));
    assert!(rt; disks.misses == 3);

    disks.wipe(alloc, 1)?;
    assert!(rt; is_gone(disks.read(alloc, 1, &BLOCK, &ABC)?));
    assert!(rt; is_abc(disks.read(alloc, 2, &BLOCK, &ABC)?));
    disks.wipe(alloc, 1)?;

    fs::write(&rt, "haloop-nodes/node-3", "")?;
    assert!(rt; is_device(disks.write(alloc, 3, &BLOCK, b"abc")));
    fs::remove_dir_all(&rt, "haloop-nodes")?;
    Ok(())
}
