//! Maximum flows, minimum cuts, connectivity and the check of a flow for C, over lists that the caller lends.
//!
//! A network has the nodes 0 to `nodes - 1`. Arc `i` leads from `src[i]` to `dst[i]` and may carry `cap[i]`; parallel
//! and opposite arcs and self-loops are fine. What is promised of a call is said of the network and the terminals of
//! the lists, `listed` in `specs/Lists.antt`, in the words of `flow_net` and `flow_tools`.
//!
//! A call answers a status: 0, the answer was written; 1, fewer than [`FEWEST_NODES`](flow_net::FEWEST_NODES) or more
//! than [`MOST_NODES`](flow_net::MOST_NODES) nodes; 2, too many arcs or a list of another length than it ought to have;
//! 3, an end of an arc is no node; 4, no source, no sink, one that is no node, or one that stands there twice; 5,
//! memory was refused, which is asked for once the arcs have passed their tests. Unless it is 0 nothing is written. Each
//! number that is lent is tested before it is used.
#![tactic(auto)]

ghost use Rattle.std.specs.Prelude.{◌≡◌, ◌≢◌, ◌+◌, ◌*◌, ◌^◌, ◌≤◌, ◌⊎◌, length};
ghost use Rattle.flow_net.specs.NodeSets.{one_of, IsLeastOver};
ghost use Rattle.flow_net.specs.Cuts.{IsCut};
ghost use Rattle.flow_net.specs.Connectivity.{IsProper};
ghost use Rattle.flow_net.specs.declared.limits.TheConstants.{MOST_ARCS};
ghost use Rattle.flow_tools.specs.connecting.Counts.{counted};
ghost use Rattle.flow_tools.specs.solving.Solutions.{IsSolution};
ghost use Rattle.flow_c.specs.Lists.{listed, listed_net, from_one, ones, is_yes, IsCutInto};
ghost use Rattle.flow_c.specs.Checks.{IsChecked};
ghost use Rattle.flow_c.specs.Refusals.{AreLengths, AreArcs, AreEnds, AreGood, IsTold, HasBadTerminals, status_number};

mod checking;
mod lists;
mod refusals;
mod solving;

use checking::check_lists;
use flow_tools::Side;
use lists::Lent;
use refusals::status_of;
use solving::{count_links, cut_lists, solve_lists};
use std::alloc::Global;

/// So many numbers have 64 bits.
const WORD: u128 = u64::MAX as u128 + 1;

/// Writes the upper and the lower 64 bits of a value.
fn write_value(value: u128, high: &mut u64, low: &mut u64)
    ensures { high.new * 2 ^ 64 + low.new ≡ value }
{
    *high = (value / WORD) as u64;
    *low = (value % WORD) as u64;
}

/// Finds a flow of the greatest value: `flow` gets what each arc carries, `high` and `low` the upper and the lower 64
/// bits of the value. There may be [`MOST_ARCS_BOTH_WAYS`](flow_net::MOST_ARCS_BOTH_WAYS) arcs.
#[unsafe(no_mangle)]
pub extern "C" fn provedflow_flow_lists(
    alloc: Global,
    nodes: u32,
    src: &[u32],
    dst: &[u32],
    cap: &[u64],
    sources: &[u32],
    sinks: &[u32],
    flow: &mut [u64],
    high: &mut u64,
    low: &mut u64,
) -> u32
    ensures ok { result ≡ 0 → IsSolution (listed nodes src.now dst.now cap.now sources.now sinks.now)
        (high.new * 2 ^ 64 + low.new) flow.new }
    ensures flow { result ≢ 0 → flow.new ≡ flow.old }
    ensures high { result ≢ 0 → high.new ≡ high.old }
    ensures low { result ≢ 0 → low.new ≡ low.old }
    ensures taken { result ≡ 0 → AreGood (AreLengths src.now dst.now cap.now × (length flow.old ≡ length src.now))
        nodes src.now dst.now sources.now sinks.now }
    ensures told { IsTold (AreLengths src.now dst.now cap.now × (length flow.old ≡ length src.now))
        nodes src.now dst.now (HasBadTerminals nodes sources.now sinks.now) result }
    ensures refused { AreArcs (AreLengths src.now dst.now cap.now × (length flow.old ≡ length src.now))
        nodes src.now dst.now → AreEnds nodes sources.now sinks.now → (result ≡ 0) ⊎ (result ≡ 5) }
{
    let lent = Lent {
        nodes,
        src,
        dst,
        sources,
        sinks,
    };
    let value = match solve_lists(alloc, lent, cap, flow) {
        Ok(value) => value,
        Err(refusal) => return status_of(refusal),
    };
    write_value(value, high, low);
    0
}

/// Finds a minimum cut beside such a flow: `side` gets a 1 for each node in its source side, and a 0 for the others. It
/// is the cut nearest the sources, or where `nearest_sinks` isn't 0 the one nearest the sinks. There may be
/// [`MOST_ARCS_BOTH_WAYS`](flow_net::MOST_ARCS_BOTH_WAYS) arcs.
#[unsafe(no_mangle)]
pub extern "C" fn provedflow_cut_lists(
    alloc: Global,
    nodes: u32,
    src: &[u32],
    dst: &[u32],
    cap: &[u64],
    sources: &[u32],
    sinks: &[u32],
    nearest_sinks: u32,
    flow: &mut [u64],
    side: &mut [u8],
    high: &mut u64,
    low: &mut u64,
) -> u32
    ensures ok { result ≡ 0 → IsCutInto (listed nodes src.now dst.now cap.now sources.now sinks.now)
        (is_yes nearest_sinks) (high.new * 2 ^ 64 + low.new) flow.new side.new }
    ensures flow { result ≢ 0 → flow.new ≡ flow.old }
    ensures side { result ≢ 0 → side.new ≡ side.old }
    ensures high { result ≢ 0 → high.new ≡ high.old }
    ensures low { result ≢ 0 → low.new ≡ low.old }
    ensures taken { result ≡ 0 → AreGood (AreLengths src.now dst.now cap.now × (length flow.old ≡ length src.now)
        × (length side.old ≡ nodes)) nodes src.now dst.now sources.now sinks.now }
    ensures told { IsTold (AreLengths src.now dst.now cap.now × (length flow.old ≡ length src.now)
        × (length side.old ≡ nodes)) nodes src.now dst.now (HasBadTerminals nodes sources.now sinks.now) result }
    ensures refused { AreArcs (AreLengths src.now dst.now cap.now × (length flow.old ≡ length src.now)
        × (length side.old ≡ nodes)) nodes src.now dst.now → AreEnds nodes sources.now sinks.now
        → (result ≡ 0) ⊎ (result ≡ 5) }
{
    let nearest = if nearest_sinks != 0 {
        Side::Sink
    } else {
        Side::Source
    };
    let lent = Lent {
        nodes,
        src,
        dst,
        sources,
        sinks,
    };
    let value = match cut_lists(alloc, lent, cap, nearest, flow, side) {
        Ok(value) => value,
        Err(refusal) => return status_of(refusal),
    };
    write_value(value, high, low);
    0
}

/// Counts links: the least number of arcs that leave a set of nodes which is neither empty nor all, or where
/// `undirected` isn't 0 that have exactly one end in it. Where `pair` isn't 0 only the sets count that have every
/// source inside and every sink outside; where it is 0 the terminals aren't looked at. There may be
/// [`MOST_ARCS`](flow_net::MOST_ARCS) arcs.
#[unsafe(no_mangle)]
pub extern "C" fn provedflow_links_lists(
    alloc: Global,
    nodes: u32,
    src: &[u32],
    dst: &[u32],
    sources: &[u32],
    sinks: &[u32],
    undirected: u32,
    pair: u32,
    links: &mut u64,
) -> u32
    ensures pair { result ≡ 0 → pair ≢ 0
        → IsLeastOver (IsCut (one_of (from_one sources.now)) (one_of (from_one sinks.now)))
        (counted (is_yes undirected) (listed_net nodes src.now dst.now (ones src.now))) links.new }
    ensures whole { result ≡ 0 → pair ≡ 0
        → IsLeastOver (IsProper (listed_net nodes src.now dst.now (ones src.now)))
        (counted (is_yes undirected) (listed_net nodes src.now dst.now (ones src.now))) links.new }
    ensures links { result ≢ 0 → links.new ≡ links.old }
    ensures taken { result ≡ 0 → AreArcs ((length src.now ≤ MOST_ARCS) × (length dst.now ≡ length src.now))
        nodes src.now dst.now × (pair ≢ 0 → AreEnds nodes sources.now sinks.now) }
    ensures told { IsTold ((length src.now ≤ MOST_ARCS) × (length dst.now ≡ length src.now))
        nodes src.now dst.now ((pair ≢ 0) × HasBadTerminals nodes sources.now sinks.now) result }
    ensures refused { AreArcs ((length src.now ≤ MOST_ARCS) × (length dst.now ≡ length src.now))
        nodes src.now dst.now → (pair ≢ 0 → AreEnds nodes sources.now sinks.now)
        → (result ≡ 0) ⊎ (result ≡ 5) }
{
    let (undirected, pair) = (undirected != 0, pair != 0);
    let found = if pair {
        let lent = Lent {
            nodes,
            src,
            dst,
            sources,
            sinks,
        };
        count_links(alloc, lent, undirected, true)
    } else {
        let lent = Lent {
            nodes,
            src,
            dst,
            sources: &[0],
            sinks: &[1],
        };
        count_links(alloc, lent, undirected, false)
    };
    match found {
        Ok(count) => *links = count,
        Err(refusal) => return status_of(refusal),
    }
    0
}

/// Checks a flow. `verdict` gets 0 where it is feasible and its value the greatest, 1 where it is feasible and its
/// value isn't, 2 where an arc's flow passes its capacity, and 3 where what enters a node that is no terminal isn't
/// what leaves it. `high` and `low` get the upper and the lower 64 bits of the value, which are those of a negative
/// number where more enters the sources than leaves them; with a verdict of 2 they get the first such arc, and with 3
/// the first such node. There may be [`MOST_ARCS_BOTH_WAYS`](flow_net::MOST_ARCS_BOTH_WAYS) arcs.
#[unsafe(no_mangle)]
pub extern "C" fn provedflow_check_lists(
    alloc: Global,
    nodes: u32,
    src: &[u32],
    dst: &[u32],
    cap: &[u64],
    sources: &[u32],
    sinks: &[u32],
    flow: &[u64],
    verdict: &mut u32,
    high: &mut u64,
    low: &mut u64,
) -> u32
    ensures ok { result ≡ 0 → IsChecked (listed nodes src.now dst.now cap.now sources.now sinks.now) flow.now
        verdict.new (high.new * 2 ^ 64 + low.new) }
    ensures verdict { result ≢ 0 → verdict.new ≡ verdict.old }
    ensures high { result ≢ 0 → high.new ≡ high.old }
    ensures low { result ≢ 0 → low.new ≡ low.old }
    ensures taken { result ≡ 0 → AreGood (AreLengths src.now dst.now cap.now × (length flow.now ≡ length src.now))
        nodes src.now dst.now sources.now sinks.now }
    ensures told { IsTold (AreLengths src.now dst.now cap.now × (length flow.now ≡ length src.now))
        nodes src.now dst.now (HasBadTerminals nodes sources.now sinks.now) result }
    ensures refused { AreArcs (AreLengths src.now dst.now cap.now × (length flow.now ≡ length src.now))
        nodes src.now dst.now → AreEnds nodes sources.now sinks.now → (result ≡ 0) ⊎ (result ≡ 5) }
{
    let lent = Lent {
        nodes,
        src,
        dst,
        sources,
        sinks,
    };
    let checked = match check_lists(alloc, lent, cap, flow) {
        Ok(checked) => checked,
        Err(refusal) => return status_of(refusal),
    };
    *verdict = checked.verdict;
    write_value(checked.told, high, low);
    0
}
