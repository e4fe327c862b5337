//! Runs two reduces of a program over the groups of so many keys, and prints how many records each emitted and
//! the sum of their numbers.
#![tactic(auto)]

mod cases;
mod sums;

use cases::{Case, cases};
use function_eval::Evaluator;
use function_language::read_functions;
use hal_base::{Functions, Memory, Records};
use std::alloc::Global;
use std::process::ExitCode;
use std::{env, io};
use sums::Sums;
use type_checker::{Use, UseMaps, UseStep, UseSteps, Uses, check};

/// The reduces of the first and the second step.
const FUNCTIONS: &str = "
reduce share(k: int; r: (int), l: (int)) -> (int, int) {
  let n = 0;
  for (t) in l { set n = add(n, 1); }
  emit(k, 0);
  for (x) in r {
    for (u) in l { emit(u, div(mul(x, 85), mul(n, 100))); }
  }
}
reduce total(k: int; p: (int)) -> (int, int) {
  let s = 150000;
  for (x) in p { set s = add(s, x); }
  emit(k, s);
}
";

/// How many keys there are, which are gone through again and again.
const KEYS: u16 = 1000;

fn main(rt: HostRuntime) -> io::Result<ExitCode> {
    let Some(count) = count_of(&rt)? else {
        return Ok(ExitCode::from(2));
    };
    let Some((share, total)) = sums_of(rt.alloc(), count) else {
        return Ok(ExitCode::from(1));
    };
    println!(rt; "share {} {}", share.records, share.numbers)?;
    println!(rt; "total {} {}", total.records, total.numbers)?;
    Ok(ExitCode::from(0))
}

/// The number that is the word after the program's name.
fn count_of(rt: &HostRuntime) -> io::Result<Option<usize>> {
    let mut words = env::args(rt)?;
    let _program = words.next();
    let Some(word) = words.next() else {
        return Ok(None);
    };
    Ok(word.parse::<usize>().ok())
}

/// What the two functions emitted for so many groups.
fn sums_of(alloc: Global, count: usize) -> Option<(Sums, Sums)> {
    let evaluator = evaluator(alloc)?;
    let cases = cases(alloc, KEYS).ok()?;
    let share = run(alloc, &evaluator, 1, cases.as_slice(), count).ok()?;
    let total = run(alloc, &evaluator, 2, cases.as_slice(), count).ok()?;
    Some((share, total))
}

/// The functions, read and checked.
fn evaluator(alloc: Global) -> Option<Evaluator> {
    let tree = read_functions(alloc, FUNCTIONS.as_bytes()).ok()?;
    let typed = check(alloc, tree).ok()?;
    let uses = uses(alloc).ok()?;
    Evaluator::new(alloc, typed, uses, 1).ok()
}

/// The two functions as reduces of two steps.
fn uses(alloc: Global) -> Result<Uses, Memory> {
    let mut steps = UseSteps::new(alloc);
    for number in 0..2 {
        steps.push(UseStep {
            maps: UseMaps::new(alloc),
            reduce: Use::Function(number),
            partition: Use::Default,
        })?;
    }
    Ok(Uses {
        steps,
        distance: Use::Default,
    })
}

/// What the reduce of a step emits for so many groups.
fn run(
    alloc: Global,
    functions: &Evaluator,
    step: u32,
    cases: &[Case],
    count: usize,
) -> Result<Sums, Memory> {
    let mut sums = Sums::default();
    let mut out = Records::new(alloc);
    for turn in 0..count {
        if let Some(case) = cases.get(turn % usize::from(KEYS)) {
            functions.reduce(alloc, 1, step, &case.key, case.groups(step), &mut out)?;
            sums.add(out.as_slice());
            out.truncate(0);
        }
    }
    Ok(sums)
}
