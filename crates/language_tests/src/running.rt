// What the built program does not show of functions: both kinds of a fault, the flags, the order in which a map emits, and
// how far two groups are apart by default.
use function_eval::Evaluator;
use function_language::read_functions;
use hal_base::{Fields, Functions, Group, Kind, Memory, Record, Records, Value, lines};
use std::alloc::Global;
use std::test::Fail;
use type_checker::{TypeFault, Use, UseMaps, UseStep, UseSteps, Uses, check};

/// Functions with a fault of kinds, and whether a number is wanted and a text stands there; else it is the other way
/// round.
const WRONG_KINDS: &[(&str, bool)] = &[
    ("partition f(k: int) { give(add(1, \"a\")); }", true),
    ("partition f(k: int) { give(len(1)); }", false),
    ("partition f(k: int) { give(eq(1, \"a\")); }", true),
    ("partition f(k: int) { give(eq(\"a\", 1)); }", false),
    ("partition f(k: int) { if (\"a\") {} }", true),
    ("partition f(k: text) { give(k); }", true),
    ("partition f(k: int) { let n = 1; set n = \"a\"; }", true),
    ("partition f(k: int) { let t = \"a\"; set t = 1; }", false),
];

/// A function, and whether `round` stands in it.
const ROUNDS: &[(&str, bool)] = &[
    ("map f(k: int) -> (int) { emit(k); }", false),
    ("map f(k: int) -> (int) { emit(round); }", true),
    (
        "map f(k: int) -> (int) { let n = add(1, mul(2, round)); emit(k); }",
        true,
    ),
    (
        "map f(k: int) -> (int) { if (0) { emit(k); } else { if (0) { emit(round); } } }",
        true,
    ),
    (
        "map f(round_2: int) -> (int, text) { emit(round_2, \"round\"); }",
        false,
    ),
    ("partition f(k: int) { give(k); }", false),
    (
        "partition f(k: int) { if (gt(round, 1)) { give(k); } }",
        true,
    ),
    ("partition f(k: int) { let n = 0; set n = round; }", true),
];

/// A reduce, and whether it keeps its key.
const KEPT: &[(&str, bool)] = &[
    (
        "reduce f(k: int; s: (int)) -> (int, int) { for (x) in s { emit(k, x); } }",
        true,
    ),
    (
        "reduce f(k: int; s: (int)) -> (int, int) { for (x) in s { emit(x, k); } }",
        false,
    ),
    (
        "reduce f(k: int; s: (int)) -> (int) { emit(k); if (0) { emit(k); } else { emit(1); } }",
        false,
    ),
    (
        "reduce f(k: int; s: (int)) -> (int) { if (1) { emit(0); } emit(k); }",
        false,
    ),
    (
        "reduce f(k: int; s: (int)) -> (int) { emit(add(k, 0)); }",
        false,
    ),
    (
        "reduce f(k: int; s: (int)) -> (int) { let j = k; emit(j); }",
        false,
    ),
    ("reduce f(k: int; s: (int)) -> (int) {}", true),
];

/// What a predefined function is used for, and whether it keeps the key.
const PREDEFINED: &[(Use, bool)] = &[(Use::Least, true), (Use::Every, true), (Use::Hop, false)];

/// Whether the first fault in functions is one of kinds: whether a number is wanted and a text stands there, or the
/// other way round.
fn number_is_wanted(alloc: Global, text: &str) -> Result<Option<bool>, Fail> {
    let tree = read_functions(alloc, text.as_bytes())?;
    match check(alloc, tree).err() {
        Some(TypeFault::WrongKind { want, got, .. }) => Ok(number_before_text(want, got)),
        _ => Ok(None),
    }
}

fn number_before_text(want: Kind, got: Kind) -> Option<bool> {
    match (want, got) {
        (Kind::Int, Kind::Text) => Some(true),
        (Kind::Text, Kind::Int) => Some(false),
        _ => None,
    }
}

/// One step over one source, with one function at each place.
fn uses_of(alloc: Global, used: Use) -> Result<Uses, Memory> {
    let mut maps = UseMaps::new(alloc);
    maps.push(used)?;
    let mut steps = UseSteps::new(alloc);
    steps.push(UseStep {
        maps,
        reduce: used,
        partition: used,
    })?;
    Ok(Uses {
        steps,
        distance: used,
    })
}

/// The functions of a text, over two parts.
fn evaluator_of(alloc: Global, text: &str, used: Use) -> Result<Evaluator, Fail> {
    let tree = read_functions(alloc, text.as_bytes())?;
    let typed = check(alloc, tree).ok().ok_or("a fault of names or kinds")?;
    let uses = uses_of(alloc, used)?;
    Ok(Evaluator::new(alloc, typed, uses, 2)?)
}

/// Whether the map uses the round, and whether the partition does.
fn uses_round(alloc: Global, text: &str, used: Use) -> Result<(bool, bool), Fail> {
    let ready = evaluator_of(alloc, text, used)?;
    Ok((ready.map_uses_round(1, 1), ready.partition_uses_round(1)))
}

fn keeps_key(alloc: Global, text: &str, used: Use) -> Result<bool, Fail> {
    Ok(evaluator_of(alloc, text, used)?.keeps_key(1))
}

/// A group of one list with this number.
fn group_of(alloc: Global, number: i64) -> Result<Group, Memory> {
    let mut fields = Fields::new(alloc);
    fields.push(Value::Int(number))?;
    let mut group = Group::new(alloc);
    group.push(fields)?;
    Ok(group)
}

/// The distance of a program that stops exactly, of a key with one number before and one behind.
fn distance(alloc: Global, old: i64, new: i64) -> Result<u64, Fail> {
    let ready = evaluator_of(alloc, "", Use::Default)?;
    let old = group_of(alloc, old)?;
    let new = group_of(alloc, new)?;
    Ok(ready.distance(alloc, &Value::Int(1), &old, &new)?)
}

/// The lines that a map emits for these keys, one after another.
fn mapped(alloc: Global, text: &str, keys: &[i64]) -> Result<Vec<u8>, Fail> {
    let ready = evaluator_of(alloc, text, Use::Function(0))?;
    let mut out = Records::new(alloc);
    for key in keys {
        let row = Record {
            key: Value::Int(*key),
            fields: Fields::new(alloc),
        };
        ready.map(alloc, 1, 1, 1, &row, &mut out)?;
    }
    Ok(lines(alloc, &out)?)
}

#[test]
fn faults_of_kinds_have_both_kinds(rt: HostRuntime) -> Result<(), Fail> {
    for (text, number) in WRONG_KINDS {
        assert!(rt;
            number_is_wanted(rt.alloc(), text)? == Some(*number),
            "{text}"
        );
    }
    Ok(())
}

#[test]
fn rounds_are_used_and_keys_kept(rt: HostRuntime) -> Result<(), Fail> {
    let alloc = rt.alloc();
    for (text, used) in ROUNDS {
        assert!(rt;
            uses_round(alloc, text, Use::Function(0))? == (*used, *used),
            "{text}"
        );
    }
    for (text, kept) in KEPT {
        assert!(rt;
            keeps_key(alloc, text, Use::Function(0))? == *kept,
            "{text}"
        );
    }
    for (used, kept) in PREDEFINED {
        assert!(rt; uses_round(alloc, "", *used)? == (false, false));
        assert!(rt; keeps_key(alloc, "", *used)? == *kept);
    }
    Ok(())
}

#[test]
fn maps_emit_in_order(rt: HostRuntime) -> Result<(), Fail> {
    let text = "map f(k: int) -> (int) { emit(k); emit(add(k, 1)); emit(k); }";
    let emitted = mapped(rt.alloc(), text, &[5, 1])?;
    assert!(rt; emitted.as_slice() == b"5\n6\n5\n1\n2\n1\n".as_slice());
    Ok(())
}

#[test]
fn groups_that_differ_are_one_apart(rt: HostRuntime) -> Result<(), Fail> {
    assert_eq!(rt; distance(rt.alloc(), 5, 6)?, 1);
    assert_eq!(rt; distance(rt.alloc(), 5, 5)?, 0);
    Ok(())
}
