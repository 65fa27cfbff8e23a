// Looks addresses up in a small example table, and prints where each goes, one a line.
#![tactic(auto)]

use samples::{Line, table_of};
use std::env;
use std::io::{BufWriter, Write};
use std::net::Ipv4Addr;
use std::process::ExitCode;

// address, how many of its bits count, next hop
const EXAMPLE: [Line; 6] = [
    (0x00000000, 0, 1), // 0.0.0.0/0
    (0x0a000000, 8, 2), // 10.0.0.0/8
    (0x0a010000, 16, 3), // 10.1.0.0/16
    (0x0a010200, 24, 0), // 10.1.2.0/24: dropped
    (0xc0000200, 24, 4), // 192.0.2.0/24
    (0xc0000280, 25, 5), // 192.0.2.128/25
];

// What is said of wrong arguments is said once, here; only a failed read or write is main's to say.
fn run(rt: &HostRuntime) -> anyhow::Result<ExitCode> {
    let table = table_of(rt.alloc(), &EXAMPLE)?;
    let mut out = BufWriter::new(rt.alloc(), rt.stdout())?;
    let mut texts = env::args(rt)?.skip(1).peekable();
    if texts.peek().is_none() {
        eprintln!(rt;
            "usage: look ADDRESS.. (as 10.1.2.3; prints the next hop of each in the example table, 0 where it is dropped)"
        )?;
        return Ok(ExitCode::FAILURE);
    }
    for text in texts {
        let Ok(address) = text.parse::<Ipv4Addr>() else {
            eprintln!(rt; "look: not an address: {text}")?;
            return Ok(ExitCode::FAILURE);
        };
        let next_hop = table.next_hop(address.to_bits());
        writeln!(out, "{next_hop}")?;
    }
    out.flush()?;
    Ok(ExitCode::SUCCESS)
}

fn main(rt: HostRuntime) -> anyhow::Result<ExitCode> {
    run(&rt)
}
