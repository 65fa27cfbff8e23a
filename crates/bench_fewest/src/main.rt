// The fewest lines for a table as large as a wanted table may be: how many lines are needed, how many are written, and a check sum over the choices.
// With the argument --time it also says how long they took.
#![tactic(auto)]

use aggregate::{Need, choose};
use samples::{CheckSum, Numbers};
use std::alloc::{AllocError, Global};
use std::env;
use std::time::Instant;
use table::WANTED_LIMIT;

// how often the fewest lines are worked out
const ROUNDS: u32 = 20;

// A value for each part of the addresses, level by level: first for all of them, then for the two halves, and so on down to the lines.
type Levels<T> = Vec<Vec<T>>;

// Levels with one value everywhere, down to one for each of so many lines, a power of two.
fn levels<T: Copy>(heap: Global, value: T, lines: usize) -> Result<Levels<T>, AllocError> {
    let mut levels = vec![in heap]?;
    for level in 0..=lines.checked_ilog2().unwrap_or(0) {
        levels.push(vec![in heap; value; 1usize.unbounded_shl(level)]?)?;
    }
    Ok(levels)
}

// The needs of a table of lines of 15 bits, side by side, over all addresses; those above the lines are still to be worked out. The next hops are four.
fn side_by_side(heap: Global) -> Result<Levels<Need>, AllocError> {
    let mut needs = levels(heap, Need::uniform(0), WANTED_LIMIT)?;
    if let Some(lines) = needs.last_mut() {
        for (need, number) in lines.iter_mut().zip(Numbers(5)) {
            *need = Need::uniform((number >> 40 & 3) as u8);
        }
    }
    Ok(needs)
}

// Works the needs out from those of the lines upwards: each is that of two halves together.
fn work_out(needs: &mut [Vec<Need>]) {
    let Some((level, below)) = needs.split_first_mut() else {
        return;
    };
    work_out(below);
    if let Some(halves) = below.first() {
        for (need, pair) in level.iter_mut().zip(halves.chunks_exact(2)) {
            if let [low, high] = pair {
                *need = low.join(high);
            }
        }
    }
}

// Chooses the lines downwards, level by level: how many are written, and a check sum over where they stand and over the next hops that are handed down.
fn write_down(heap: Global, needs: &[Vec<Need>]) -> Result<(u32, CheckSum), AllocError> {
    let mut lines: u32 = 0;
    let mut sum = CheckSum::default();
    // the next hops with which one comes to the parts of a level
    let mut given = vec![in heap; 0; 1]?;
    for halves in needs.iter().skip(1) {
        let mut handed = Vec::with_capacity(heap, halves.len())?;
        for (hop, pair) in given.iter().zip(halves.chunks_exact(2)) {
            if let [low, high] = pair {
                let line = choose(low, high, *hop);
                lines = lines.saturating_add(u32::from(line.is_some()));
                let onward = line.unwrap_or(*hop);
                sum.add(u64::from(onward));
                handed.push(onward)?;
                handed.push(onward)?;
            }
        }
        given = handed;
    }
    if let Some(level) = needs.last() {
        for (need, hop) in level.iter().zip(&given) {
            let count = need.lines(*hop);
            lines = lines.saturating_add(count);
            sum.add(u64::from(count));
            sum.add(u64::from(*hop));
        }
    }
    Ok((lines, sum))
}

// The fewest lines for a table as large as a wanted one may be: how many, from the need of all addresses and from the lines that are chosen.
fn run_fewest(rt: &HostRuntime, timed: bool) -> anyhow::Result<()> {
    let heap = rt.alloc();
    let mut needs = side_by_side(heap)?;
    let start = Instant::now(rt)?;
    for _ in 0..ROUNDS {
        work_out(&mut needs);
    }
    let worked = start.elapsed(rt)?.as_micros() / u128::from(ROUNDS);
    let start = Instant::now(rt)?;
    let mut written = (0, CheckSum::default());
    for _ in 0..ROUNDS {
        written = write_down(heap, &needs)?;
    }
    let chosen = start.elapsed(rt)?.as_micros() / u128::from(ROUNDS);
    let (lines, sum) = written;
    let all = needs.first().and_then(|level| level.first());
    let needed = all.map_or(0, |need| need.lines(0));
    println!(rt;
        "{WANTED_LIMIT} lines of 15 bits: {needed} needed, {lines} written, check sum {sum}"
    )?;
    if timed {
        println!(rt; "{worked} us for the needs, {chosen} us for the lines")?;
    }
    Ok(())
}

fn main(rt: HostRuntime) -> anyhow::Result<()> {
    let timed = env::args(&rt)?
        .skip(1)
        .any(|argument| argument.as_str() == "--time");
    run_fewest(&rt, timed)
}
