// Files on disks on which things go wrong by a script.
use hal_base::Memory;
use hal_outside::{Act, Acts, MemDisks, ScriptDisks};
use node_files::{Fetched, FileRef, fetch, put};
use node_names::{Digest, Name, NameKind};
use std::alloc::Global;
use std::test::Fail;

const BLOCK: Name = Name::Blk { table: 0, block: 0 };

const OTHER_BLOCK: Name = Name::Blk { table: 0, block: 1 };

/// The SHA-256 of `abc`, as FIPS 180 gives it.
const ABC: Digest = Digest([
    0xba, 0x78, 0x16, 0xbf, 0x8f, 0x01, 0xcf, 0xea, 0x41, 0x41, 0x40, 0xde, 0x5d, 0xae, 0x22, 0x23,
    0xb0, 0x03, 0x61, 0xa3, 0x96, 0x17, 0x7a, 0x9c, 0xb4, 0x10, 0xff, 0x61, 0xf2, 0x00, 0x15, 0xad,
]);

/// What became of a file.
#[derive(Clone, Copy, PartialEq, Eq)]
enum Left {
    /// It was not put.
    NotPut,
    /// Its fetch failed.
    NotFetched,
    Missed,
    /// It was fetched as it was put.
    There,
    /// It was fetched otherwise.
    Changed,
}

/// Puts a file on node 1 and fetches it.
fn put_and_fetched(alloc: Global, disks: &mut ScriptDisks, bytes: &[u8]) -> Left {
    match put(alloc, disks, 1, &BLOCK, bytes) {
        Ok(file) => fetched(alloc, disks, &file, bytes),
        Err(_) => Left::NotPut,
    }
}

fn fetched(alloc: Global, disks: &mut ScriptDisks, file: &FileRef, bytes: &[u8]) -> Left {
    match fetch(alloc, disks, file) {
        Ok(Fetched::Bytes(found)) if found.as_slice() == bytes => Left::There,
        Ok(Fetched::Bytes(_)) => Left::Changed,
        Ok(Fetched::Missed) => Left::Missed,
        Err(_) => Left::NotFetched,
    }
}

fn scripted(alloc: Global, act: Act) -> Result<ScriptDisks, Memory> {
    let mut acts = Acts::new(alloc);
    acts.push(act)?;
    Ok(ScriptDisks::new(MemDisks::new(alloc), acts))
}

// The file is put and fetched twice under each act.
#[test]
fn files_under_a_script(rt: HostRuntime) -> Result<(), Fail> {
    let alloc = rt.alloc();
    for (case, act, bytes, first, second, misses) in [
        (
            "no call is reached",
            Act::FailAt(5),
            "abc",
            Left::There,
            Left::There,
            0,
        ),
        (
            "the first call",
            Act::FailAt(1),
            "abc",
            Left::NotPut,
            Left::There,
            0,
        ),
        (
            "the second call",
            Act::FailAt(2),
            "abc",
            Left::NotFetched,
            Left::There,
            0,
        ),
        (
            "the fourth call",
            Act::FailAt(4),
            "abc",
            Left::There,
            Left::NotFetched,
            0,
        ),
        (
            "the first write",
            Act::FailWrite(1),
            "abc",
            Left::NotPut,
            Left::There,
            0,
        ),
        (
            "the second write",
            Act::FailWrite(2),
            "abc",
            Left::There,
            Left::NotPut,
            0,
        ),
        (
            "this file",
            Act::SpoilFirst {
                node: 1,
                name: BLOCK,
            },
            "abc",
            Left::Missed,
            Left::There,
            1,
        ),
        (
            "this file, empty",
            Act::SpoilFirst {
                node: 1,
                name: BLOCK,
            },
            "",
            Left::Missed,
            Left::There,
            1,
        ),
        (
            "another node",
            Act::SpoilFirst {
                node: 0,
                name: BLOCK,
            },
            "abc",
            Left::There,
            Left::There,
            0,
        ),
        (
            "another name",
            Act::SpoilFirst {
                node: 1,
                name: OTHER_BLOCK,
            },
            "abc",
            Left::There,
            Left::There,
            0,
        ),
        (
            "blocks",
            Act::SpoilKind(NameKind::Blk),
            "abc",
            Left::Missed,
            Left::Missed,
            2,
        ),
        (
            "copies of blocks",
            Act::SpoilKind(NameKind::Mic),
            "abc",
            Left::There,
            Left::There,
            0,
        ),
        ("all", Act::SpoilAll, "abc", Left::Missed, Left::Missed, 2),
    ] {
        let mut disks = scripted(alloc, act)?;
        let bytes = bytes.as_bytes();
        assert!(rt;
            put_and_fetched(alloc, &mut disks, bytes) == first,
            "first: {case}"
        );
        assert!(rt;
            put_and_fetched(alloc, &mut disks, bytes) == second,
            "second: {case}"
        );
        assert_eq!(rt; disks.misses(), misses, "misses: {case}");
    }
    Ok(())
}

// A file keeps the SHA-256 of its bytes, and a file that was spoilt stays so without the script.
#[test]
fn files_without_a_script(rt: HostRuntime) -> Result<(), Fail> {
    let alloc = rt.alloc();
    let mut disks = scripted(
        alloc,
        Act::SpoilFirst {
            node: 1,
            name: BLOCK,
        },
    )?;
    let spoilt = put(alloc, &mut disks, 1, &BLOCK, b"abc")?;
    let whole = put(alloc, &mut disks, 2, &BLOCK, b"abc")?;
    assert!(rt; spoilt.digest == ABC);
    let mut disks = disks.into_inner();
    assert!(rt; is_missed(fetch(alloc, &mut disks, &spoilt)?));
    assert!(rt; !is_missed(fetch(alloc, &mut disks, &whole)?));
    Ok(())
}

fn is_missed(fetched: Fetched) -> bool {
    match fetched {
        Fetched::Missed => true,
        Fetched::Bytes(_) => false,
    }
}
