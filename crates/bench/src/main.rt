//! Times the calls of the map, the cache and the set.
//!
//! `bench ORDER [WORKLOAD] ROUNDS N ..` prints for each size N a line `workload n ns_per_op check`
//! for each workload, or for the one that is named: the nanoseconds of processor time of this
//! thread that the best of the rounds took, divided by the number of pairs, and the sum of what the
//! rounds returned. Up to 64 pairs the workloads are those of small maps, many of N pairs each;
//! with more they are those of one map, cache or set of N. ORDER is `repeated` or `random`. With no
//! arguments it prints how it is called.
#![tactic(auto)]

ghost use Rattle.std.specs.Prelude.{◌≡◌, ◌<◌, ◌*◌, ◌/◌, ◌^◌};

mod arguments;
mod calls;
mod changes;
mod documents;
mod maps;
mod moves;
mod nested;
mod order;
mod products;
mod small;
mod texts;
mod workloads;

use arguments::{numbers, workload_named};
use order::{Order, Random, Repeated};
use std::alloc::Global;
use std::io::Write;
use std::process::ExitCode;
use std::time::CpuClock;
use std::{env, io};
use workloads::{Held, Workload};

const USAGE: &str = "usage: bench repeated|random [WORKLOAD] ROUNDS N ..";

/// The best time of a workload in nanoseconds, and the sum of what its rounds returned.
#[derive(Drop)]
struct Timed {
    nanoseconds: u128,
    check: u64,
}

/// Does a workload in each round, and returns the best time.
fn best_of<C: CpuClock, O: Order>(
    clock: &C,
    alloc: Global,
    workload: Workload,
    held: &mut Held,
    order: &mut O,
    rounds: u64,
    n: u64,
) -> io::Result<Timed>
    requires { 0 < n }
{
    let mut nanoseconds = u128::MAX;
    let mut check: u64 = 0;
    for _ in 0..rounds {
        workload.prepare(alloc, held, order, n)?;
        let start = clock.thread_cpu_time()?.as_nanos();
        let returned = workload.run(alloc, held, order, n)?;
        let end = clock.thread_cpu_time()?.as_nanos();
        nanoseconds = nanoseconds.min(end.saturating_sub(start));
        check = check.wrapping_add(returned);
    }
    Ok(Timed { nanoseconds, check })
}

/// Returns how many hundredths of a nanosecond each of `n` took, rounded down.
fn hundredths(nanoseconds: u128, n: u64) -> u128
    requires { 0 < n }
    ensures { nanoseconds < 2 ^ 64 → result ≡ nanoseconds * 100 / n }
{
    nanoseconds.saturating_mul(100) / n as u128
}

/// Times a workload at a size, and writes a line.
fn time<C: CpuClock, O: Order, W: Write>(
    clock: &C,
    alloc: Global,
    output: &mut W,
    named: (Workload, &str),
    held: &mut Held,
    order: &mut O,
    rounds: u64,
    n: u64,
) -> io::Result<()>
    requires { 0 < n }
{
    let (workload, name) = named;
    let timed = best_of(clock, alloc, workload, held, order, rounds, n)?;
    let time = hundredths(timed.nanoseconds, workload.pairs(n));
    writeln!(
        output,
        "{name} {n} {}.{:02} {}",
        time / 100,
        time % 100,
        timed.check
    )
}

/// Times each workload at a size, or only one, and writes a line for each.
fn bench<C: CpuClock, O: Order, W: Write>(
    clock: &C,
    alloc: Global,
    output: &mut W,
    only: Option<Workload>,
    order: &mut O,
    rounds: u64,
    n: u64,
) -> io::Result<()>
    requires { 0 < n }
{
    let mut held = Held::new(alloc);
    for named in Workload::ALL {
        let (workload, _) = named;
        if workload.is_done_at(n) {
            if workload.begins_anew() {
                order.restart();
            }
            if only.is_none() || only == Some(workload) {
                time(clock, alloc, output, named, &mut held, order, rounds, n)?;
            }
            held.refill(alloc, workload, n)?;
        }
    }
    Ok(())
}

/// Times what these numbers ask for: the rounds, and then each size. For fewer than two of them it
/// writes how the program is called.
fn run<C: CpuClock, O: Order, W: Write>(
    clock: &C,
    alloc: Global,
    output: &mut W,
    only: Option<Workload>,
    order: &mut O,
    numbers: &[u64],
) -> io::Result<()> {
    let [rounds, sizes @ ..] = numbers else {
        return writeln!(output, "{USAGE}");
    };
    if sizes.is_empty() {
        return writeln!(output, "{USAGE}");
    }
    for n in sizes {
        if 0 < *n {
            bench(clock, alloc, output, only, order, *rounds, *n)?;
        }
    }
    Ok(())
}

/// Says on standard error how the program is called, and returns the status of a call that is
/// wrong.
fn misused(rt: &impl Eprint) -> io::Result<ExitCode> {
    eprintln!(rt; "{USAGE}")?;
    Ok(ExitCode::from(2))
}

fn main(rt: HostRuntime) -> io::Result<ExitCode> {
    let words: Vec<String> = env::args(&rt)?.collect(rt.alloc())?;
    let [_, words @ ..] = words.as_slice() else {
        return misused(&rt);
    };
    let [order, words @ ..] = words else {
        println!(rt; "{USAGE}")?;
        return Ok(ExitCode::from(0));
    };
    let (only, words) = workload_named(words);
    let Some(numbers) = numbers(rt.alloc(), words)? else {
        return misused(&rt);
    };
    let (alloc, numbers) = (rt.alloc(), numbers.as_slice());
    match order.as_str() {
        "repeated" => run(&rt, alloc, &mut rt.stdout(), only, &mut Repeated, numbers)?,
        "random" => run(
            &rt,
            alloc,
            &mut rt.stdout(),
            only,
            &mut Random::new(),
            numbers,
        )?,
        _ => return misused(&rt),
    }
    Ok(ExitCode::from(0))
}
