// The top call over files, disks and a sink of which one call fails, and over disks that lose a file.
use crate::failing::{FailingFiles, FailingSink};
use hal_base::Memory;
use hal_outside::{Act, Acts, MemDisks, MemFiles, MemSink, ScriptDisks};
use haloop_run::haloop_top;
use node_names::{Name, NameKind};
use std::alloc::{AllocError, Global};
use std::test::Fail;

/// What lies in the folder: a program, its schedule and its tables.
const FOLDER: &[(&str, &[u8])] = &[
    (
        "p.hal",
        b"program hops;\nparts 2;\nrounds 20;\nstop exact;\ntable start \"start.tsv\" (int, int);\ntable links \"links.tsv\" (int, int);\nbegin start;\nstep { state by same; table links by same; reduce hop; }\nstep { prev by same; table start by same; reduce least; }\n",
    ),
    ("s.txt", b"nodes 1\n"),
    ("start.tsv", b"1\t0\n"),
    ("links.tsv", b"1\t2\n2\t3\n"),
];

/// The report of this program on one node.
const REPORT: &[u8] =
    b"rounds 3\nend fixpoint\nmaps 17\nreduces 12\ntests 2\nfails 0\nkills 0\nstarved 0\ndropped 0\nskipped 0\nstruck 0\nlocal 59\nremote 0\nric 0\nmic 0\nroc 0\n";

/// How many calls on disks its run makes.
const CALLS: u64 = 110;

fn words_from(alloc: Global, texts: &[&str]) -> Result<Vec<String>, AllocError> {
    let mut words = Vec::new(alloc);
    for text in texts {
        words.push(String::from_str(alloc, text)?)?;
    }
    Ok(words)
}

/// The words that run this program.
fn words_of(alloc: Global, program: &str) -> Result<Vec<String>, AllocError> {
    words_from(alloc, &["run", program, "s.txt", "out"])
}

fn folder_of(alloc: Global) -> Result<MemFiles, Memory> {
    let mut files = MemFiles::new(alloc);
    for (name, bytes) in FOLDER {
        files = files.with(name, bytes)?;
    }
    Ok(files)
}

/// What is left where this call on files fails: the status, whether the line is that of the status, and whether each
/// part file is there.
fn left_after(alloc: Global, failing: u64) -> Result<(u8, bool, bool, bool), Fail> {
    let words = words_of(alloc, "p.hal")?;
    let mut files = FailingFiles {
        files: folder_of(alloc)?,
        failing,
        calls: 0,
        faults: 0,
    };
    let mut disks = MemDisks::new(alloc);
    let mut sink = MemSink::new(alloc);
    let status = haloop_top(alloc, words.as_slice(), &mut files, &mut disks, &mut sink);
    Ok((
        status,
        sink.bytes() == line_of(status),
        files.files.bytes("out/part-00000").is_some(),
        files.files.bytes("out/part-00001").is_some(),
    ))
}

/// What is said with this status.
fn line_of(status: u8) -> &'static [u8] {
    match status {
        0 => REPORT,
        12 => b"error: form not built\n",
        _ => b"error: device\n",
    }
}

/// What is left where this goes wrong on disks: the status, whether the line is that of the status, and whether there is a
/// part file.
fn left_under(alloc: Global, act: Act) -> Result<(u8, bool, bool), Fail> {
    let words = words_of(alloc, "p.hal")?;
    let mut files = folder_of(alloc)?;
    let mut disks = disks_under(alloc, act)?;
    let mut sink = MemSink::new(alloc);
    let status = haloop_top(alloc, words.as_slice(), &mut files, &mut disks, &mut sink);
    let is_line = sink.bytes() == line_of(status);
    let has_part = files.bytes("out/part-00000").is_some();
    Ok((status, is_line, has_part))
}

fn disks_under(alloc: Global, act: Act) -> Result<ScriptDisks, Memory> {
    let mut acts = Acts::new(alloc);
    acts.push(act)?;
    Ok(ScriptDisks::new(MemDisks::new(alloc), acts))
}

/// What is left where the first write to the sink fails: the status, how much was said, and whether there is a part file.
fn left_unsaid(alloc: Global, program: &str) -> Result<(u8, usize, bool), Fail> {
    let words = words_of(alloc, program)?;
    let mut files = folder_of(alloc)?;
    let mut sink = FailingSink {
        sink: MemSink::new(alloc),
        failing: 0,
        calls: 0,
        faults: 0,
    };
    let mut disks = MemDisks::new(alloc);
    let status = haloop_top(alloc, words.as_slice(), &mut files, &mut disks, &mut sink);
    let has_part = files.bytes("out/part-00000").is_some();
    Ok((status, sink.sink.bytes().len(), has_part))
}

// Four files are read, and two are written. One call fails, so a body that tried again would be done.
#[test]
fn failures_of_files(rt: HostRuntime) -> Result<(), Fail> {
    for (failing, left) in [
        (0, (8, true, false, false)),
        (1, (8, true, false, false)),
        (2, (8, true, false, false)),
        (3, (8, true, false, false)),
        (4, (8, true, false, false)),
        (5, (8, true, true, false)),
        (6, (0, true, true, true)),
    ] {
        assert!(rt;
            left_after(rt.alloc(), failing)? == left,
            "after {failing} calls"
        );
    }
    Ok(())
}

// Each call on disks, from the first wipe to the last read of a part. One call fails, so a body that tried again would be
// done.
#[test]
fn failures_of_disks(rt: HostRuntime) -> Result<(), Fail> {
    for call in 1..CALLS + 1 {
        assert!(rt;
            left_under(rt.alloc(), Act::FailAt(call))? == (8, true, false),
            "call {call}"
        );
    }
    assert!(rt; left_under(rt.alloc(), Act::FailAt(CALLS + 1))? == (0, true, true));
    Ok(())
}

// Files that were spoilt when they were written, and are then read; and one that there is not.
#[test]
fn files_that_are_missed(rt: HostRuntime) -> Result<(), Fail> {
    let alloc = rt.alloc();
    for kind in [NameKind::Blk, NameKind::Spill, NameKind::Out] {
        assert!(rt; left_under(alloc, Act::SpoilKind(kind))? == (12, true, false));
    }
    for (name, left) in [
        (Name::Blk { table: 1, block: 0 }, (12, true, false)),
        (
            Name::Out {
                round: 3,
                step: 2,
                part: 1,
            },
            (12, true, false),
        ),
        (
            Name::Out {
                round: 4,
                step: 1,
                part: 0,
            },
            (0, true, true),
        ),
    ] {
        assert!(rt; left_under(alloc, Act::SpoilFirst { node: 0, name })? == left);
    }
    Ok(())
}

// `plain` is done where the first call on disks would fail.
#[test]
fn plain_makes_no_call_on_disks(rt: HostRuntime) -> Result<(), Fail> {
    let alloc = rt.alloc();
    let words = words_from(alloc, &["plain", "p.hal", "out"])?;
    let mut files = folder_of(alloc)?;
    let mut disks = disks_under(alloc, Act::FailAt(1))?;
    let mut sink = MemSink::new(alloc);
    let status = haloop_top(alloc, words.as_slice(), &mut files, &mut disks, &mut sink);
    assert!(rt; status == 0 && sink.bytes() == b"rounds 3\nend fixpoint\n".as_slice());
    Ok(())
}

// A run that was done, and one that was refused since its program is absent.
#[test]
fn failures_of_the_sink(rt: HostRuntime) -> Result<(), Fail> {
    assert!(rt; left_unsaid(rt.alloc(), "p.hal")? == (8, 0, true));
    assert!(rt; left_unsaid(rt.alloc(), "q.hal")? == (8, 0, false));
    Ok(())
}
