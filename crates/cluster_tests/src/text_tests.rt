// Schedules that are read or refused, and a journal that is written and counted.
use counter_report::{EndWord, Entry, EventWord, Journal, journal_text, report_text, tally};
use hal_base::Memory;
use node_names::{Name, Task};
use schedule_text::read_schedule;
use std::alloc::{AllocError, Global};
use std::test::Fail;

/// The text of a schedule, and its numbers with how many events it has, or its first fault.
const SCHEDULES: &[(&str, &str)] = &[
    ("nodes 1", "1 1 1 10000 4 1, 0"),
    (
        "nodes 8\r\n# six of them\n\nslots 2\ncopies 3\nblock 500\nattempts 16\nkeep 2\nround 2\nlose 3\nback 3\n",
        "8 2 3 500 16 2, 3",
    ),
    ("", "line 1: missing"),
    ("slots 1\n", "line 2: missing"),
    ("nodes 4\ndone 9", "line 2: out-of-range"),
    ("nodes 4\ncopies 5", "line 2: copies-above-nodes"),
    ("copies 5\nnodes 4\nslots 9", "line 3: out-of-range"),
    ("node 4", "line 1: bad-word"),
    ("nodes 4\nidle 3\nslots 1", "line 3: bad-word"),
    ("nodes +4", "line 1: bad-number"),
    ("nodes 4\nround 1\nwipe 4294967296", "line 3: bad-number"),
    ("keep 1\nkeep 2", "line 2: twice"),
    ("nodes 1\n done 0", "line 2: bad-word"),
    (" done 0", "line 1: missing"),
];

/// What the text of a schedule is read as.
fn told(alloc: Global, text: &[u8]) -> Result<String, AllocError> {
    match read_schedule(alloc, text) {
        Ok(s) => {
            let count = s.events.len();
            format!(in alloc;
                "{} {} {} {} {} {}, {count}",
                s.nodes, s.slots, s.copies, s.block, s.attempts, s.keep
            )
        }
        Err(fault) => format!(in alloc; "{fault}"),
    }
}

#[test]
fn schedules_are_read_or_refused(rt: HostRuntime) -> Result<(), Fail> {
    let alloc = rt.alloc();
    for (text, expected) in SCHEDULES {
        assert!(rt;
            told(alloc, text.as_bytes())?.as_str() == *expected,
            "{text}"
        );
    }
    Ok(())
}

const MAP: Task = Task::Map {
    round: 1,
    step: 1,
    source: 1,
    split: 0,
};

const REDUCE: Task = Task::Reduce {
    round: 1,
    step: 1,
    part: 0,
};

const TEST: Task = Task::Test { round: 2, part: 63 };

/// An entry of each sort, and its line.
const ENTRIES: &[(Entry, &str)] = &[
    (Entry::Round { round: 1 }, "round 1\n"),
    (Entry::Start { task: MAP, node: 0 }, "start map.1.1.1.0 0\n"),
    (
        Entry::Commit {
            task: MAP,
            node: 0,
            local: u64::MAX,
            remote: 2,
            caches: 1,
        },
        "commit map.1.1.1.0 0 18446744073709551615 2 1\n",
    ),
    (
        Entry::Commit {
            task: REDUCE,
            node: 0,
            local: 1,
            remote: 3,
            caches: 5,
        },
        "commit reduce.1.1.0 0 1 3 5\n",
    ),
    (
        Entry::Commit {
            task: TEST,
            node: 0,
            local: 0,
            remote: 0,
            caches: 7,
        },
        "commit test.2.63 0 0 0 7\n",
    ),
    (
        Entry::Starve { task: MAP, node: 1 },
        "starve map.1.1.1.0 1\n",
    ),
    (
        Entry::Fail {
            task: REDUCE,
            node: 3,
            count: 4,
        },
        "fail reduce.1.1.0 3 4\n",
    ),
    (Entry::Kill { task: MAP, node: 1 }, "kill map.1.1.1.0 1\n"),
    (
        Entry::Dropped {
            task: TEST,
            node: 0,
        },
        "drop test.2.63 0\n",
    ),
    (
        Entry::Struck {
            name: Name::Blk { table: 1, block: 0 },
            node: 1,
        },
        "struck blk-1-0 1\n",
    ),
    (Entry::Lose { node: 3 }, "lose 3\n"),
    (Entry::Back { node: 3 }, "back 3\n"),
    (Entry::Wipe { node: 5 }, "wipe 5\n"),
    (Entry::Busy { node: 0 }, "busy 0\n"),
    (Entry::Idle { node: 0 }, "idle 0\n"),
    (
        Entry::Skip {
            word: EventWord::Round,
            number: 9,
        },
        "skip round 9\n",
    ),
    (
        Entry::End {
            word: EndWord::Close,
            round: 4,
        },
        "end close 4\n",
    ),
];

/// The report of one entry of each sort.
const REPORT: &str =
    "rounds 4\nend close\nmaps 1\nreduces 1\ntests 1\nfails 1\nkills 1\nstarved 1\ndropped 1\nskipped 1\nstruck 1\nlocal 18446744073709551615\nremote 5\nric 5\nmic 1\nroc 7\n";

/// A journal of entries, and their lines one after another.
fn journal_of(alloc: Global, entries: &[(Entry, &str)]) -> Result<(Journal, Vec<u8>), Memory> {
    let mut journal = Journal::new(alloc);
    let mut lines = Vec::new(alloc);
    for (entry, line) in entries {
        journal.push(*entry)?;
        lines.extend_from_slice(line.as_bytes())?;
    }
    Ok((journal, lines))
}

#[test]
fn a_journal_is_written_and_counted(rt: HostRuntime) -> Result<(), Fail> {
    let alloc = rt.alloc();
    let (journal, lines) = journal_of(alloc, ENTRIES)?;
    assert!(rt; journal_text(alloc, &journal)?.as_slice() == lines.as_slice());
    assert!(rt; report_text(alloc, &tally(&journal))?.as_slice() == REPORT.as_bytes());
    let none = Journal::new(alloc);
    assert!(rt; journal_text(alloc, &none)?.is_empty());
    assert!(rt;
        report_text(alloc, &tally(&none))?
            .as_slice()
            .starts_with(b"rounds 0\nend open\nmaps 0\n")
    );
    Ok(())
}
