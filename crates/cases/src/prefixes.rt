// Prefixes at their ends: no bits, one, 31, all 32, and bits set where none may be.
use prefix::{Parting, Prefix};
use std::process::Abort;
use std::test::Fail;

// network, length, and whether that is a prefix
const PREFIXES: [(u32, u8, bool); 12] = [
    (0, 0, true),
    (1, 0, false),
    (0x80000000, 0, false),
    (0x80000000, 1, true),
    (0xc0000000, 1, false),
    (0x0a000000, 8, true),
    (0x0a000001, 8, false),
    (0xfffffffe, 31, true),
    (0xffffffff, 31, false),
    (0xffffffff, 32, true),
    (0, 33, false),
    (0, 255, false),
];

#[test]
fn only_clean_bits_make_a_prefix(rt: HostRuntime) {
    for (network, len, good) in PREFIXES {
        match Prefix::new(network, len) {
            Some(p) => {
                assert!(rt; good);
                assert_eq!(rt; p.network(), network);
                assert_eq!(rt; p.len(), len);
            }
            None => assert!(rt; !good),
        }
    }
}

#[test]
fn addresses_begin_with_their_first_bits(rt: HostRuntime) {
    let host = Prefix::host(0x0a01_02ff);
    for len in 0..33u8 {
        let p = host.cut(len);
        assert_eq!(rt; p.len(), len);
        assert!(rt; p.contains(0x0a01_02ff));
        assert_eq!(rt; p.common(host), len);
        // the address with the last of these bits turned
        if len > 0 {
            assert!(rt; !p.contains(0x0a01_02ff ^ (1u32 << (32 - len))));
        }
    }
    assert_eq!(rt; host.cut(200), host);
    assert!(rt; Prefix::empty().contains(0));
    assert!(rt; Prefix::empty().contains(u32::MAX));
}

#[test]
fn bits_by_place(rt: HostRuntime) {
    let p = Prefix::host(0xa000_0001);
    assert_eq!(rt; p.bit(0), Some(true));
    assert_eq!(rt; p.bit(1), Some(false));
    assert_eq!(rt; p.bit(2), Some(true));
    assert_eq!(rt; p.bit(31), Some(true));
    assert_eq!(rt; p.bit(32), None);
    assert_eq!(rt; p.cut(2).bit(2), None);
    assert_eq!(rt; Prefix::empty().bit(0), None);
}

// A prefix, or a failure where it is none.
fn some(p: Option<Prefix>) -> Result<Prefix, Fail> {
    p.ok_or_else(|| Fail::new("no prefix"))
}

#[test]
fn children_stand_on_both_sides(rt: HostRuntime) -> Result<(), Fail> {
    let p = some(Prefix::new(0x0a000000, 8))?;
    assert_eq!(rt; p.child(false), Prefix::new(0x0a000000, 9));
    assert_eq!(rt; p.child(true), Prefix::new(0x0a800000, 9));
    assert_eq!(rt; Prefix::empty().child(true), Prefix::new(0x80000000, 1));
    assert_eq!(rt; Prefix::host(6).cut(31).child(true), Prefix::new(7, 32));
    assert_eq!(rt; Prefix::host(6).child(true), None);
    Ok(())
}

#[test]
fn prefixes_join_up_to_all_bits(rt: HostRuntime) -> Result<(), Fail> {
    let p = some(Prefix::new(0x0a000000, 8))?;
    let rest = Prefix::host(0xffff_ffff).cut(23);
    assert_eq!(rt; p.join(false, rest), Prefix::new(0x0a7f_ffff, 32));
    assert_eq!(rt; p.join(true, Prefix::host(0xffff_ffff).cut(24)), None);
    assert_eq!(rt;
        Prefix::empty().join(true, Prefix::empty()),
        Prefix::new(0x80000000, 1)
    );
    Ok(())
}

// What a parting is, put together again: both prefixes.
fn whole(rt: &impl Abort, p: Prefix, q: Prefix) -> Result<(), Fail> {
    match p.parting(q) {
        Parting::Same => {
            assert_eq!(rt; p, q);
            Ok(())
        },
        Parting::Below(side, rest) => {
            assert_eq!(rt; q.join(side, rest), Some(p));
            Ok(())
        },
        Parting::Above(side, rest) => {
            assert_eq!(rt; p.join(side, rest), Some(q));
            Ok(())
        },
        Parting::Apart(stem, side, rest, other) => {
            assert_eq!(rt; stem.join(side, rest), Some(p));
            assert_eq!(rt; stem.join(!side, other), Some(q));
            Ok(())
        }
    }
}

#[test]
fn partings_put_together_again(rt: HostRuntime) -> Result<(), Fail> {
    for p in [
        Prefix::empty(),
        Prefix::host(0),
        Prefix::host(0x8000_0000),
        Prefix::host(0x0a01_0203),
        Prefix::host(u32::MAX),
    ] {
        for q in [0u32, 1, 0x0a01_0000, 0x8000_0000, u32::MAX] {
            for len in [0u8, 1, 8, 16, 31, 32] {
                whole(&rt, p, Prefix::host(q).cut(len))?;
                whole(&rt, Prefix::host(q).cut(len), p.cut(len))?;
            }
        }
    }
    Ok(())
}

// In the order of tables: by bits as a number, then by length.
const ORDERED: [(u32, u8); 8] = [
    (0, 0),
    (0, 1),
    (0, 32),
    (1, 32),
    (0x0a000000, 8),
    (0x0a000000, 16),
    (0x80000000, 1),
    (0xffffffff, 32),
];

#[test]
fn the_order_of_tables(rt: HostRuntime) -> Result<(), Fail> {
    for (i, (a, m)) in ORDERED.iter().enumerate() {
        for (j, (b, n)) in ORDERED.iter().enumerate() {
            let p = some(Prefix::new(*a, *m))?;
            let q = some(Prefix::new(*b, *n))?;
            assert!(rt; p.compare(q) == i.cmp(&j));
            assert!(rt; p.cmp(&q) == i.cmp(&j));
        }
    }
    Ok(())
}

#[test]
fn prefixes_print_in_cidr_notation(rt: HostRuntime) -> Result<(), Fail> {
    for (network, len, text) in [
        (0, 0, "0.0.0.0/0"),
        (0x0a00_0000, 8, "10.0.0.0/8"),
        (0xc000_0280, 25, "192.0.2.128/25"),
        (0xffff_ffff, 32, "255.255.255.255/32"),
    ] {
        let p = some(Prefix::new(network, len))?;
        let printed = format!(in rt.alloc(); "{p}")?;
        assert_eq!(rt; printed.as_str(), text);
    }
    Ok(())
}
