// Sets of next hops, needs, choices and edges on worked examples.
use aggregate::{Edge, EdgeRoutes, HopSet, Need, choose};
use fewest::Along;
use prefix::Prefix;
use std::test::Fail;
use table::Route;

// A route that is there.
fn route(network: u32, len: u8, next_hop: u8) -> Option<Route> {
    Some(samples::route((network, len, next_hop)))
}

#[test]
fn sets_have_their_members(rt: HostRuntime) {
    let low = HopSet::only(3);
    let high = HopSet::only(255);
    let mixed = low | high | HopSet::only(64);
    assert!(rt; mixed.contains(3));
    assert!(rt; mixed.contains(64));
    assert!(rt; mixed.contains(255));
    assert!(rt; !mixed.contains(0));
    assert!(rt; !mixed.contains(63));
    assert_eq!(rt; mixed.lowest(), Some(3));
    assert_eq!(rt; high.lowest(), Some(255));
    assert_eq!(rt; HopSet::only(0).lowest(), Some(0));
    let none = low & high;
    assert!(rt; none.is_empty());
    assert_eq!(rt; none.lowest(), None);
    let shared = mixed & (high | HopSet::only(192));
    assert!(rt; !shared.is_empty());
    assert_eq!(rt; shared.lowest(), Some(255));
}

// As an array of their words does.
#[test]
fn sets_compare_and_show_as_their_words(rt: HostRuntime) -> Result<(), Fail> {
    let none = HopSet::default();
    assert!(rt; none.is_empty());
    assert!(rt; none < HopSet::only(1));
    assert!(rt; HopSet::only(255) < HopSet::only(0));
    let printed = format!(in rt.alloc(); "{:?}", HopSet::only(1))?;
    assert_eq!(rt; printed.as_str(), "[2, 0, 0, 0]");
    let printed = format!(in rt.alloc(); "{:?}", Need::uniform(1))?;
    assert_eq!(rt; printed.as_str(), "Need { count: 0, hops: [2, 0, 0, 0] }");
    Ok(())
}

#[test]
fn four_quarters_need_three_lines(rt: HostRuntime) {
    let one = Need::uniform(1);
    let two = Need::uniform(2);
    let half = one.join(&two);
    assert_eq!(rt; half.count(), 1);
    assert!(rt; half.reaches(1));
    assert!(rt; half.reaches(2));
    assert_eq!(rt; half.lines(0), 2);
    // what the halves share is as good for both
    let whole = half.join(&half);
    assert_eq!(rt; whole.count(), 2);
    assert_eq!(rt; whole.lines(1), 2);
    assert_eq!(rt; whole.lines(0), 3);
    // so a line for all addresses saves one, with the lower next hop
    assert_eq!(rt; choose(&half, &half, 0), Some(1));
    assert_eq!(rt; choose(&half, &half, 2), None);
    // and at the quarters none is written
    assert_eq!(rt; choose(&one, &two, 1), None);
    assert_eq!(rt; choose(&one, &two, 9), None);
}

#[test]
fn no_line_where_one_half_can_do_with_what_comes(rt: HostRuntime) {
    // 00 to 1, 01 dropped, 1 to 1: a line for all addresses with 1 would save nothing
    let low = Need::uniform(1).join(&Need::uniform(0));
    let high = Need::uniform(1);
    assert_eq!(rt; choose(&low, &high, 0), None);
    assert_eq!(rt; low.join(&high).lines(0), 2);
    // one who comes with another next hop than both gets it
    assert_eq!(rt; choose(&low, &high, 5), Some(1));
}

#[test]
fn counts_stop_at_the_highest(rt: HostRuntime) {
    // a need joined with itself has twice the count
    let mut need = Need::uniform(1).join(&Need::uniform(2));
    for _ in 0..40 {
        need = need.join(&need);
    }
    assert_eq!(rt; need.count(), u32::MAX);
    assert_eq!(rt; need.lines(1), u32::MAX);
    assert_eq!(rt; need.lines(9), u32::MAX);
    assert!(rt; need.reaches(2));
}

#[test]
fn needs_above_edges(rt: HostRuntime) {
    let dropped = Need::uniform(0);
    assert_eq!(rt; dropped.above(0, 1).count(), 0);
    assert!(rt; dropped.above(0, 1).reaches(0));
    // one bit up both are as good, further up only what the other sides have
    let once = dropped.above(1, 1);
    assert_eq!(rt; once.count(), 1);
    assert!(rt; once.reaches(0));
    assert!(rt; once.reaches(1));
    let twice = dropped.above(2, 1);
    assert_eq!(rt; twice.count(), 1);
    assert!(rt; !twice.reaches(0));
    assert!(rt; twice.reaches(1));
    assert_eq!(rt; dropped.above(32, 1).lines(0), 2);
    assert_eq!(rt; dropped.along(1, 1, 0), Along::Sides);
    assert_eq!(rt; dropped.along(2, 1, 0), Along::Sides);
    assert_eq!(rt; dropped.along(3, 1, 0), Along::Top);
    assert_eq!(rt; dropped.along(2, 1, 9), Along::Top);
    assert_eq!(rt; dropped.along(3, 1, 1), Along::Nothing);
    assert_eq!(rt; dropped.along(0, 1, 9), Along::Nothing);
    let edge = Edge {
        node: Prefix::host(0).cut(24),
        from: 16,
        hop: 1,
    };
    assert_eq!(rt; edge.len(), 8);
    assert_eq!(rt; Edge { from: 25, ..edge }.len(), 0);
}

// The routes along an edge down to a node that drops, for one who comes with a given next hop.
fn brought(node: Prefix, from: u8, hop: u8, given: u8) -> EdgeRoutes {
    let edge = Edge { node, from, hop };
    edge.routes(&Need::uniform(0), given)
}

#[test]
fn routes_along_edges(rt: HostRuntime) {
    // all to 1 but 0/1, 0/2 or 0/3, from an empty device
    assert_eq!(rt;
        brought(Prefix::host(0).cut(1), 0, 1, 0),
        EdgeRoutes {
            before: [None, None],
            after: [None, route(0x8000_0000, 1, 1)],
            onward: 0,
        }
    );
    assert_eq!(rt;
        brought(Prefix::host(0).cut(2), 0, 1, 0),
        EdgeRoutes {
            before: [None, None],
            after: [route(0x4000_0000, 2, 1), route(0x8000_0000, 1, 1)],
            onward: 0,
        }
    );
    assert_eq!(rt;
        brought(Prefix::host(0).cut(3), 0, 1, 0),
        EdgeRoutes {
            before: [route(0, 0, 1), None],
            after: [None, None],
            onward: 1,
        }
    );
    // and but 192/2: the other sides come before it
    assert_eq!(rt;
        brought(Prefix::host(0xc000_0000).cut(2), 0, 1, 0),
        EdgeRoutes {
            before: [route(0, 1, 1), route(0x8000_0000, 2, 1)],
            after: [None, None],
            onward: 0,
        }
    );
    // the last two bits of an address, of which the first is 1 and the second 0
    assert_eq!(rt;
        brought(Prefix::host(0x0a00_0002), 30, 7, 0),
        EdgeRoutes {
            before: [route(0x0a00_0000, 31, 7), None],
            after: [route(0x0a00_0003, 32, 7), None],
            onward: 0,
        }
    );
    // no edge at all, from its own end and from beyond it
    assert_eq!(rt;
        brought(Prefix::host(5), 32, 7, 9),
        EdgeRoutes {
            before: [None, None],
            after: [None, None],
            onward: 9,
        }
    );
    assert_eq!(rt;
        brought(Prefix::host(5), 255, 7, 9),
        EdgeRoutes {
            before: [None, None],
            after: [None, None],
            onward: 9,
        }
    );
}
