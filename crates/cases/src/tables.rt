// Tables and look-ups on worked examples, and against a plain scan.
use prefix::Prefix;
use samples::{Line, Numbers, route, table_of};
use std::test::Fail;
use table::{Match, Route, Table};

#[test]
fn no_line_at_all(rt: HostRuntime) {
    let table = Table::new(rt.alloc());
    assert_eq!(rt; table.len(), 0);
    assert_eq!(rt; table.lookup(0), None);
    assert_eq!(rt; table.lookup(u32::MAX), None);
    assert_eq!(rt; table.next_hop(7), 0);
}

#[test]
fn a_line_for_all_addresses(rt: HostRuntime) -> Result<(), Fail> {
    let mut table = Table::new(rt.alloc());
    assert_eq!(rt; table.put(route((0, 0, 9)))?, None);
    for address in [0u32, 1, 0x8000_0000, u32::MAX] {
        assert_eq!(rt;
            table.lookup(address),
            Some(Match {
                len: 0,
                next_hop: 9,
            })
        );
    }
    Ok(())
}

#[test]
fn a_longer_line_under_a_shorter(rt: HostRuntime) -> Result<(), Fail> {
    let table = table_of(rt.alloc(), &[(0x0a000000, 8, 1), (0x0a010000, 16, 2)])?;
    assert_eq!(rt;
        table.lookup(0x0a010203),
        Some(Match {
            len: 16,
            next_hop: 2,
        })
    );
    assert_eq!(rt;
        table.lookup(0x0a020203),
        Some(Match {
            len: 8,
            next_hop: 1,
        })
    );
    assert_eq!(rt; table.lookup(0x0b000000), None);
    Ok(())
}

#[test]
fn next_hop_0_drops_under_a_line(rt: HostRuntime) -> Result<(), Fail> {
    let table = table_of(rt.alloc(), &[(0x0a000000, 8, 1), (0x0a010000, 16, 0)])?;
    assert_eq!(rt;
        table.lookup(0x0a010203),
        Some(Match {
            len: 16,
            next_hop: 0,
        })
    );
    assert_eq!(rt; table.next_hop(0x0a010203), 0);
    assert_eq!(rt; table.get(Prefix::host(0x0a010000).cut(16)), Some(0));
    Ok(())
}

#[test]
fn all_33_lengths_over_one_address(rt: HostRuntime) -> Result<(), Fail> {
    let address = 0x0a01_02ff;
    let mut table = Table::new(rt.alloc());
    for len in 0..33u8 {
        assert_eq!(rt; table.put(route((address, len, 100 + len)))?, None);
    }
    assert_eq!(rt; table.len(), 33);
    // the longest goes first, and then the next longest sends the address
    for len in (0..33u8).rev() {
        assert_eq!(rt;
            table.lookup(address),
            Some(Match {
                len,
                next_hop: 100 + len,
            })
        );
        assert_eq!(rt;
            table.remove(Prefix::host(address).cut(len)),
            Some(100 + len)
        );
    }
    assert_eq!(rt; table.lookup(address), None);
    assert_eq!(rt; table.len(), 0);
    Ok(())
}

#[test]
fn a_put_replaces_and_a_removal_tells(rt: HostRuntime) -> Result<(), Fail> {
    let mut table = Table::new(rt.alloc());
    let ten = Prefix::host(0x0a000000).cut(8);
    assert_eq!(rt;
        table.put(Route {
            prefix: ten,
            next_hop: 1,
        })?,
        None
    );
    assert_eq!(rt;
        table.put(Route {
            prefix: ten,
            next_hop: 2,
        })?,
        Some(1)
    );
    assert_eq!(rt; table.len(), 1);
    assert_eq!(rt; table.get(ten), Some(2));
    assert_eq!(rt; table.get(ten.cut(7)), None);
    assert_eq!(rt; table.remove(ten.cut(7)), None);
    assert_eq!(rt; table.len(), 1);
    assert_eq!(rt; table.remove(ten), Some(2));
    assert_eq!(rt; table.remove(ten), None);
    Ok(())
}

#[test]
fn reserved_memory_is_room_for_lines(rt: HostRuntime) -> Result<(), Fail> {
    let mut table = Table::new(rt.alloc());
    table.put(route((0, 0, 1)))?;
    table.reserve(40)?;
    assert_eq!(rt; table.len(), 1);
    assert_eq!(rt;
        table.lookup(7),
        Some(Match {
            len: 0,
            next_hop: 1,
        })
    );
    // more than can ever be had
    assert!(rt; table.reserve(usize::MAX).is_err());
    assert_eq!(rt; table.len(), 1);
    assert_eq!(rt; table.next_hop(7), 1);
    Ok(())
}

#[test]
fn lines_stand_in_their_order(rt: HostRuntime) -> Result<(), Fail> {
    let mut table = Table::new(rt.alloc());
    let rising = [
        route((0, 0, 1)),
        route((0, 1, 2)),
        route((0x0a000000, 8, 3)),
        route((0x0a000000, 16, 4)),
        route((0x80000000, 1, 5)),
    ];
    for line in rising.iter().rev() {
        table.put(*line)?;
    }
    assert_eq!(rt; table.len(), 5);
    assert!(rt; table.routes() == rising.as_slice());
    Ok(())
}

// What a look-up should give: every line looked at.
fn scanned(table: &Table, address: u32) -> Option<Match> {
    table
        .routes()
        .iter()
        .filter(|line| line.prefix.contains(address))
        .max_by_key(|line| line.prefix.len())
        .map(|line| Match {
            len: line.prefix.len(),
            next_hop: line.next_hop,
        })
}

// An address crowded into few bits, so that many share their beginnings.
fn crowded(number: u64) -> u32 {
    ((number >> 32) & 0xf00f_000f) as u32
}

#[test]
fn lookups_are_what_a_scan_gives(rt: HostRuntime) -> Result<(), Fail> {
    // some are put twice
    let lines: Vec<Line> = Numbers(5)
        .take(400)
        .map(|n| (crowded(n), ((n >> 20) % 33) as u8, (n >> 12 & 255) as u8))
        .collect(rt.alloc())?;
    let table = table_of(rt.alloc(), &lines)?;
    for n in Numbers(6).take(2000) {
        let address = crowded(n);
        assert_eq!(rt; table.lookup(address), scanned(&table, address));
    }
    Ok(())
}
