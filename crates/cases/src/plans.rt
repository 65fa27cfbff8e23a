// Plans on worked examples: write for write, moment for moment, and refusals that leave the slice as it was.
use prefix::Prefix;
use samples::{Line, Numbers, route, table_of};
use std::alloc::{AllocError, Global};
use std::test::Fail;
use table::{DEVICE_LIMIT, Table};
use transition::{Refusal, Transition, Write};

fn prefix(network: u32, len: u8) -> Prefix {
    Prefix::host(network).cut(len)
}

fn put(network: u32, len: u8, next_hop: u8) -> Write {
    Write::Put(route((network, len, next_hop)))
}

fn remove(network: u32, len: u8) -> Write {
    Write::Drop(prefix(network, len))
}

// What the slices of these tests hold before a plan is written to them.
fn blank() -> Write {
    remove(0x7f00_0001, 32)
}

#[test]
fn halves_in_place_of_the_whole(rt: HostRuntime) -> Result<(), Fail> {
    let old = table_of(rt.alloc(), &[(0, 0, 1)])?;
    let new = table_of(rt.alloc(), &[(0, 1, 2), (0x8000_0000, 1, 3)])?;
    let mut out = [blank(); 4];
    assert_eq!(rt; Transition::between(&old, &new).plan_len(), Ok(3));
    assert_eq!(rt; Transition::between(&old, &new).plan_into(&mut out), Ok(3));
    // the place behind the plan is as it was
    assert_eq!(rt;
        out,
        [put(0, 1, 2), put(0x8000_0000, 1, 3), remove(0, 0), blank()]
    );
    Ok(())
}

#[test]
fn longest_put_first_and_shortest_dropped_first(rt: HostRuntime) -> Result<(), Fail> {
    let old = table_of(
        rt.alloc(),
        &[
            (0x0a01_0000, 16, 1),
            (0x0a00_0000, 8, 1),
            (0x0b00_0000, 8, 1),
            (0x0c00_0000, 8, 4),
        ],
    )?;
    let new = table_of(
        rt.alloc(),
        &[
            (0, 0, 9),
            (0x0c00_0000, 8, 5),
            (0x1402_0000, 16, 7),
            (0x1401_0000, 16, 6),
        ],
    )?;
    let mut out = [blank(); 7];
    assert_eq!(rt; Transition::between(&old, &new).plan_into(&mut out), Ok(7));
    // one that is there with another next hop is put over
    assert_eq!(rt;
        out,
        [
            put(0x1401_0000, 16, 6),
            put(0x1402_0000, 16, 7),
            put(0x0c00_0000, 8, 5),
            put(0, 0, 9),
            remove(0x0a00_0000, 8),
            remove(0x0b00_0000, 8),
            remove(0x0a01_0000, 16),
        ]
    );
    Ok(())
}

#[test]
fn nothing_to_write_for_the_same_table(rt: HostRuntime) -> Result<(), Fail> {
    let old = table_of(rt.alloc(), &[(0, 0, 1), (0x0a00_0000, 8, 0)])?;
    let new = table_of(rt.alloc(), &[(0x0a00_0000, 8, 0), (0, 0, 1)])?;
    let mut out = [blank(); 1];
    assert_eq!(rt; Transition::between(&old, &new).plan_into(&mut out), Ok(0));
    assert_eq!(rt; out[0], blank());
    assert_eq!(rt; Transition::between(&old, &new).plan_into(&mut []), Ok(0));
    Ok(())
}

#[test]
fn a_slice_too_short_is_left_as_it_was(rt: HostRuntime) -> Result<(), Fail> {
    let old = table_of(rt.alloc(), &[(0, 0, 1)])?;
    let new = table_of(rt.alloc(), &[(0, 1, 2), (0x8000_0000, 1, 3)])?;
    let mut out = [blank(); 2];
    assert_eq!(rt;
        Transition::between(&old, &new).plan_into(&mut out),
        Err(Refusal::SliceTooShort)
    );
    assert_eq!(rt; out, [blank(), blank()]);
    assert_eq!(rt; u8::from(Refusal::SliceTooShort), 0);
    Ok(())
}

// A table of so many lines of 32 bits, from an address on.
fn hosts(heap: Global, first: u32, lines: u32) -> Result<Table, AllocError> {
    let lines: Vec<Line> = (first..first.saturating_add(lines))
        .map(|address| (address, 32, 1))
        .collect(heap)?;
    table_of(heap, &lines)
}

#[test]
fn the_most_lines_on_the_way_and_one_more(rt: HostRuntime) -> Result<(), Fail> {
    let old = hosts(rt.alloc(), 0, 16_000)?;
    let fits = hosts(rt.alloc(), 15_000, 1_384)?;
    assert_eq!(rt;
        Transition::between(&old, &fits).plan_len(),
        Ok(384 + 15_000)
    );
    let one_more = hosts(rt.alloc(), 15_000, 1_385)?;
    assert_eq!(rt;
        Transition::between(&old, &one_more).plan_len(),
        Err(Refusal::TooManyLines)
    );
    let mut out = [blank(); 1];
    assert_eq!(rt;
        Transition::between(&old, &one_more).plan_into(&mut out),
        Err(Refusal::TooManyLines)
    );
    assert_eq!(rt; out[0], blank());
    // the same both ways
    assert_eq!(rt;
        Transition::between(&one_more, &old).plan_len(),
        Err(Refusal::TooManyLines)
    );
    assert_eq!(rt;
        Transition::between(&fits, &old).plan_len(),
        Ok(15_000 + 384)
    );
    assert_eq!(rt; u8::from(Refusal::TooManyLines), 7);
    Ok(())
}

#[test]
fn a_table_beyond_the_device_is_refused(rt: HostRuntime) -> Result<(), Fail> {
    let full = hosts(rt.alloc(), 0, 16_384)?;
    let over = hosts(rt.alloc(), 0, 16_385)?;
    let empty = Table::new(rt.alloc());
    assert_eq!(rt; full.len(), DEVICE_LIMIT);
    assert_eq!(rt; Transition::between(&empty, &full).plan_len(), Ok(16_384));
    assert_eq!(rt;
        Transition::between(&empty, &over).plan_len(),
        Err(Refusal::TooManyLines)
    );
    assert_eq!(rt;
        Transition::between(&over, &empty).plan_len(),
        Err(Refusal::TooManyLines)
    );
    Ok(())
}

// Some lines of at most 8 bits: few enough prefixes that lines stand under one another, and in both tables.
fn scattered(heap: Global, start: u64) -> Result<Table, AllocError> {
    let lines: Vec<Line> = Numbers(start)
        .take(60)
        .map(|n| (
            (n >> 32) as u32,
            ((n >> 24) % 9) as u8,
            ((n >> 16) % 4) as u8,
        ))
        .collect(heap)?;
    table_of(heap, &lines)
}

// Where an address goes before and after; and whether it has gone the new way.
fn old_or_new(before: u8, now: u8, after: u8, gone: bool) -> bool {
    now == after || now == before && !gone
}

#[test]
fn no_address_goes_astray_for_a_moment(rt: HostRuntime) -> Result<(), Fail> {
    let old = scattered(rt.alloc(), 5)?;
    let new = scattered(rt.alloc(), 6)?;
    let mut device = scattered(rt.alloc(), 5)?;
    let mut out = [blank(); 120];
    let count = Transition::between(&old, &new)
        .plan_into(&mut out)
        .unwrap_or(0);
    assert!(rt; count > 60);
    let mut gone = [false; 256];
    for write in out.iter().take(count) {
        write.apply(&mut device)?;
        for (high, went) in gone.iter_mut().enumerate() {
            let address = (high as u32) << 24;
            let now = device.next_hop(address);
            assert!(rt; old_or_new(old.next_hop(address), now, new.next_hop(address), *went));
            *went = now != old.next_hop(address);
        }
    }
    assert!(rt; device == new);
    Ok(())
}

#[test]
fn writes_and_refusals_print(rt: HostRuntime) -> Result<(), Fail> {
    let printed = format!(in rt.alloc(); "{}", put(0x0a00_0000, 8, 3))?;
    assert_eq!(rt; printed.as_str(), "put 10.0.0.0/8 3");
    let printed = format!(in rt.alloc(); "{}", remove(0x0a00_0000, 8))?;
    assert_eq!(rt; printed.as_str(), "drop 10.0.0.0/8");
    let printed = format!(in rt.alloc(); "{}", Refusal::TooManyLines)?;
    assert_eq!(rt;
        printed.as_str(),
        "going over takes more lines than the device holds"
    );
    Ok(())
}
