// Takes a device from nothing to an example table and on to others; prints the writes of each plan, one a line, and then how many lines the device has.
#![tactic(auto)]

use prefix::Prefix;
use samples::{Line, table_of};
use std::alloc::Global;
use table::Table;
use transition::{Refusal, Transition, Write};

const FIRST: [Line; 4] = [
    (0x00000000, 0, 1), // 0.0.0.0/0
    (0x0a000000, 8, 2), // 10.0.0.0/8
    (0x0a010000, 16, 3), // 10.1.0.0/16
    (0xc0000200, 24, 4), // 192.0.2.0/24
];

// 10.0.0.0/8 gives way to its halves, and 10.1.0.0/16 goes elsewhere
const SECOND: [Line; 5] = [
    (0x00000000, 0, 1),
    (0x0a000000, 9, 5), // 10.0.0.0/9
    (0x0a800000, 9, 2), // 10.128.0.0/9
    (0x0a010000, 16, 6),
    (0xc0000200, 24, 4),
];

// The writes of a plan, or why there are none.
fn plan(heap: Global, going: Transition<'_>) -> anyhow::Result<Result<Vec<Write>, Refusal>> {
    let count = match going.plan_len() {
        Ok(count) => count,
        Err(refusal) => return Ok(Err(refusal)),
    };
    let mut writes = vec![in heap; Write::Drop(Prefix::empty()); count]?;
    Ok(going.plan_into(writes.as_mut_slice()).map(|_| writes))
}

// Takes the device over to a table, write by write; where that is refused, prints by which number, and the device stays as it is.
fn go_over(rt: &HostRuntime, device: &mut Table, new: &Table) -> anyhow::Result<()> {
    match plan(rt.alloc(), Transition::between(device, new))? {
        Ok(writes) => {
            // memory first: then no write is refused half-way
            device.reserve(writes.len())?;
            for write in &writes {
                write.apply(device)?;
                println!(rt; "{write}")?;
            }
            println!(rt; "lines {}", device.len())?;
        }
        Err(refusal) => println!(rt; "refused {}", u8::from(refusal))?,
    }
    Ok(())
}

fn run(rt: &HostRuntime) -> anyhow::Result<()> {
    let mut device = Table::new(rt.alloc());
    let first = table_of(rt.alloc(), &FIRST)?;
    let second = table_of(rt.alloc(), &SECOND)?;
    go_over(rt, &mut device, &first)?;
    go_over(rt, &mut device, &second)?;
    // and back again
    go_over(rt, &mut device, &first)
}

fn main(rt: HostRuntime) -> anyhow::Result<()> {
    run(&rt)
}
