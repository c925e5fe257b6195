//! Networks, tables and problems, call by call.
ghost use Rattle.std.specs.Prelude.{◌*◌, ◌<◌, length};
ghost use Rattle.flow_net.specs.Flows.{Fits};

use flow_net::*;
use std::alloc::Global;
use std::process::Abort;

/// An arc's ends and its capacity.
pub type Triple = (u32, u32, u64);

/// Whether a network has these arcs and no others.
pub fn has_arcs(net: &Network, arcs: &[Triple]) -> bool {
    for i in 0..net.len() {
        let Arc { src, dst, cap } = net.arc(i);
        if arcs.get(i as usize) != Some(&(src, dst, cap)) {
            return false;
        }
    }
    net.len() as usize == arcs.len()
}

/// Adds arcs, and answers whether the network can have them all and there is memory.
#[must_use]
fn add_all(net: &mut Network, arcs: &[Triple]) -> bool {
    for &(src, dst, cap) in arcs {
        if !add(net, Arc { src, dst, cap }) {
            return false;
        }
    }
    true
}

/// Adds an arc, and answers whether the network can have it and there is memory.
#[must_use]
fn add(net: &mut Network, arc: Arc) -> bool {
    let Arc { src, dst, .. } = arc;
    let nodes = net.nodes();
    let has_ends = 1 <= src && src <= nodes && 1 <= dst && dst <= nodes;
    has_ends && net.len() < MOST_ARCS && net.push(arc).is_ok()
}

const BOTH_WAYS: &[Triple] = &[(1, 2, 5), (2, 3, u64::MAX), (2, 1, 5), (3, 2, u64::MAX)];

const UNITS: &[Triple] = &[(1, 2, 1), (2, 3, 1), (2, 1, 1), (3, 2, 1)];

/// Whether a network of three nodes without arcs grows by two arcs, and then by the two the other way.
fn grows(net: &mut Network) -> bool {
    net.is_empty()
        && add_all(net, &BOTH_WAYS[..2])
        && net.len() <= MOST_ARCS
        && net.both_ways().is_ok()
        && net.nodes() == 3
        && !net.is_empty()
        && has_arcs(net, BOTH_WAYS)
}

#[test]
fn networks_grow(rt: HostRuntime) {
    let mut net = Network::new(rt.alloc(), 3);
    let is_grown = grows(&mut net);
    let net = net.unit();
    assert!(rt; is_grown && has_arcs(&net, UNITS));
}

/// Looks at two half-arcs, and answers whether they lead there, with so much remaining.
fn finds(
    table: &mut FlowTable,
    net: &Network,
    first: u32,
    second: u32,
    found: [(u32, u64); 2],
) -> bool
    requires fits { Fits net.now table.old.flows }
    requires first { first < 2 * length net.now.arcs }
    requires second { second < 2 * length net.now.arcs }
    ensures still_fits { Fits net.now table.new.flows }
{
    [table.look(net, first), table.look(net, second)] == found
}

/// Pushes over a half-arc, and answers whether it has room for so much.
#[must_use]
fn push(table: &mut FlowTable, net: &Network, half: u32, amount: u64) -> bool
    requires fits { Fits net.now table.old.flows }
    requires half { half < 2 * length net.now.arcs }
    ensures still_fits { Fits net.now table.new.flows }
{
    let (_, room) = table.look(net, half);
    if amount <= room {
        table.push(net, half, amount);
    }
    amount <= room
}

/// Whether pushes over two arcs of the capacities 5 and `u64::MAX`, from node 1 to node 2, change what remains.
fn are_pushed(table: &mut FlowTable, net: &Network) -> bool
    requires fits { Fits net.now table.old.flows }
{
    net.len() == 2
        && finds(table, net, 0, 1, [(2, 5), (1, 0)])
        && push(table, net, 0, 3)
        && finds(table, net, 0, 1, [(2, 2), (1, 3)])
        && push(table, net, 1, 1)
        && finds(table, net, 1, 2, [(1, 2), (2, u64::MAX)])
}

#[test]
fn flows_are_pushed(rt: HostRuntime) {
    let mut net = Network::new(rt.alloc(), 2);
    let is_added = add_all(&mut net, &[(1, 2, 5), (1, 2, u64::MAX)]);
    let mut table = FlowTable::new(rt.alloc(), &net).expect(&rt, "memory");
    let are_pushed = are_pushed(&mut table, &net);
    let flows = table.into_flows();
    assert!(rt; is_added && are_pushed && flows.as_slice() == [2, 0].as_slice());
}

/// Whether a push that fills the only arc, of capacity 7 from node 1 to node 2, is cleared.
fn is_cleared(table: &mut FlowTable, net: &Network) -> bool
    requires fits { Fits net.now table.old.flows }
{
    let is_full = net.len() == 1
        && finds(table, net, 0, 1, [(2, 7), (1, 0)])
        && push(table, net, 0, 7);
    table.clear();
    is_full && finds(table, net, 0, 1, [(2, 7), (1, 0)])
}

#[test]
fn tables_are_cleared(rt: HostRuntime) {
    let mut net = Network::new(rt.alloc(), 2);
    let is_added = add_all(&mut net, &[(1, 2, 7)]);
    let mut table = FlowTable::new(rt.alloc(), &net).expect(&rt, "memory");
    assert!(rt; is_added && is_cleared(&mut table, &net));
}

/// Whether these are the parts of the problem below.
fn are_parts(net: &Network, sources: &[u32], sinks: &[u32]) -> bool {
    net.nodes() == 4 && net.is_empty() && sources == [2, 1].as_slice() && sinks == [4].as_slice()
}

/// Whether a problem of four nodes without arcs is made of its parts and taken apart.
fn keeps_its_parts(rt: &impl Abort, alloc: Global) -> bool {
    let sources = vec![in alloc; 2, 1].expect(rt, "memory");
    let sinks = vec![in alloc; 4].expect(rt, "memory");
    let problem = Problem::new(Network::new(alloc, 4), sources, sinks);
    let has_parts = are_parts(problem.net(), problem.sources(), problem.sinks());
    let (net, sources, sinks) = problem.into_parts();
    has_parts && are_parts(&net, sources.as_slice(), sinks.as_slice())
}

#[test]
fn problems_keep_their_parts(rt: HostRuntime) {
    assert!(rt; keeps_its_parts(&rt, rt.alloc()));
}
