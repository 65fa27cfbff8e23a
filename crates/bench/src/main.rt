// Look-ups in a table as large as a wanted table may be, and plans between tables as large as a device's may be: how many of the
// addresses found a route, how many writes the plans have, and check sums over both. With the argument --time it also says how long they took.
#![tactic(auto)]

use prefix::Prefix;
use samples::{CheckSum, Numbers};
use std::alloc::Global;
use std::env;
use std::time::Instant;
use table::{DEVICE_LIMIT, Route, Table, WANTED_LIMIT};
use transition::{Transition, Write};

const LOOKUPS: usize = 1_000_000;

// how often each plan is made
const PLANS: u32 = 20;

// A route of 8 to 32 bits, from a number: half of them have 24, as in the tables of routers, and the others any length.
fn route_of(number: u64, turn: u64) -> Route {
    let len = match (number >> 20 & 63) as u8 {
        0..32 => 24,
        pick @ 32..57 => pick - 24,
        _ => 16,
    };
    samples::route((
        (number >> 32) as u32,
        len,
        ((number >> 12).wrapping_add(turn) & 15) as u8,
    ))
}

// A table of so many routes; another `turn` gives the same prefixes other next hops.
fn fill(heap: Global, start: u64, lines: usize, turn: u64) -> anyhow::Result<Table> {
    let mut table = Table::new(heap);
    for number in Numbers(start).take(1_000_000) {
        if table.len() >= lines {
            break;
        }
        table.put(route_of(number, turn))?;
    }
    Ok(table)
}

// How many of the addresses found a route, and a check sum over what they found.
fn look_up(table: &Table) -> (u32, CheckSum) {
    let mut found: u32 = 0;
    let mut sum = CheckSum::default();
    for number in Numbers(2).take(LOOKUPS) {
        if let Some(hit) = table.lookup((number >> 32) as u32) {
            found = found.saturating_add(1);
            sum.add(u64::from(hit.len) * 256 + u64::from(hit.next_hop));
        }
    }
    (found, sum)
}

// A check sum over writes: the kind, the length, the network and the next hop of each.
fn sum_of(writes: &[Write]) -> CheckSum {
    let mut sum = CheckSum::default();
    for write in writes {
        let (kind, prefix, next_hop) = match write {
            Write::Put(route) => (16u8, route.prefix, route.next_hop),
            Write::Drop(prefix) => (17u8, *prefix, 0),
        };
        sum.add(u64::from(kind) * 65_536 + u64::from(prefix.len()) * 256 + u64::from(next_hop));
        sum.add(u64::from(prefix.network()));
    }
    sum
}

// Makes a plan some times over, and says how many writes it has, their check sum, and how many microseconds one took.
fn go_over(rt: &HostRuntime, name: &str, going: Transition<'_>, timed: bool) -> anyhow::Result<()> {
    let mut writes = vec![in rt.alloc(); Write::Drop(Prefix::empty()); 2 * DEVICE_LIMIT]?;
    let start = Instant::now(rt)?;
    let mut made = Ok(0);
    for _ in 0..PLANS {
        made = going.plan_into(writes.as_mut_slice());
    }
    let spent = start.elapsed(rt)?.as_micros() / u128::from(PLANS);
    match made {
        Ok(count) => {
            let sum = writes.get(..count).map_or(CheckSum::default(), sum_of);
            println!(rt; "{name}: {count} writes, check sum {sum}")?;
        }
        Err(refusal) => println!(rt; "{name}: refused {}", u8::from(refusal))?,
    }
    if timed {
        println!(rt; "{spent} us a plan")?;
    }
    Ok(())
}

fn run_lookups(rt: &HostRuntime, timed: bool) -> anyhow::Result<()> {
    let start = Instant::now(rt)?;
    let table = fill(rt.alloc(), 1, WANTED_LIMIT, 0)?;
    let filled = start.elapsed(rt)?.as_millis();
    let start = Instant::now(rt)?;
    let (found, sum) = look_up(&table);
    let looked = start.elapsed(rt)?.as_nanos() / LOOKUPS as u128;
    let lines = table.len();
    println!(rt; "{lines} lines, {LOOKUPS} look-ups, {found} found, check sum {sum}")?;
    if timed {
        println!(rt; "filled in {filled} ms, {looked} ns a look-up")?;
    }
    Ok(())
}

fn run_plans(rt: &HostRuntime, timed: bool) -> anyhow::Result<()> {
    let heap = rt.alloc();
    let full = fill(heap, 3, DEVICE_LIMIT, 0)?;
    let turned = fill(heap, 3, DEVICE_LIMIT, 1)?;
    go_over(
        rt,
        "other next hops",
        Transition::between(&full, &turned),
        timed,
    )?;
    let half = fill(heap, 3, DEVICE_LIMIT / 2, 0)?;
    let others = fill(heap, 4, DEVICE_LIMIT / 2, 0)?;
    go_over(
        rt,
        "other prefixes",
        Transition::between(&half, &others),
        timed,
    )?;
    let empty = Table::new(heap);
    go_over(rt, "from empty", Transition::between(&empty, &full), timed)?;
    go_over(rt, "to empty", Transition::between(&full, &empty), timed)?;
    let strange = fill(heap, 4, DEVICE_LIMIT, 0)?;
    go_over(rt, "too many", Transition::between(&full, &strange), timed)
}

fn main(rt: HostRuntime) -> anyhow::Result<()> {
    let timed = env::args(&rt)?
        .skip(1)
        .any(|argument| argument.as_str() == "--time");
    run_lookups(&rt, timed)?;
    run_plans(&rt, timed)
}
