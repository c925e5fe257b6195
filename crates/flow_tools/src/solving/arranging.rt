//! A network in no useful order is solved in a renumbered copy, and the answer is read in the order of the network.
ghost use Rattle.std.specs.Prelude.{◌≡◌, ◌≤◌, ◌<◌, length, map, IfOk, IfSome};
ghost use Rattle.std.specs.List.{All};
ghost use Rattle.flow_net.specs.MarkedNodes.{marked};
ghost use Rattle.flow_net.specs.Arrangements.{all_named, carried};
ghost use Rattle.flow_solve.specs.Bounds.{work_cells};
ghost use Rattle.flow_tools.specs.solving.ArrangedProblems.{HasRoom, IsArrangedIn, solved_of, flows_of, side_of};

use crate::cells::filled;
use crate::networks::FlowNetwork;
use flow_net::{Arc, OutOfMemory, arrange, is_scattered, name_nodes};
use std::alloc::Global;

/// A network arranged in a copy, and the lists by which the copy is read: 20 bytes for each arc and 4 for each node.
#[derive(Drop)]
pub(crate) struct Arranged {
    /// The copy, with the terminals under their new names.
    pub network: FlowNetwork,
    /// The name of each node in the copy.
    pub names: Vec<u32>,
    /// For each arc the spot where it stands in the copy.
    pub spots: Vec<u32>,
}

/// The memory that it takes to arrange a network.
#[derive(Drop)]
struct Room {
    arcs: Vec<Arc>,
    spots: Vec<u32>,
    names: Vec<u32>,
    sources: Vec<u32>,
    sinks: Vec<u32>,
}

/// A list with the same nodes.
fn copy_of(alloc: Global, vs: &[u32]) -> Result<Vec<u32>, OutOfMemory>
    ensures { IfOk result (λ copy. copy.items ≡ vs.now) }
{
    match vs.to_vec(alloc) {
        Ok(copy) => Ok(copy),
        Err(_) => Err(OutOfMemory),
    }
}

/// All the memory that it takes to arrange a network.
fn make_room(alloc: Global, network: &FlowNetwork) -> Result<Room, OutOfMemory>
    ensures { IfOk result (HasRoom network.now) }
{
    let net = network.net();
    let no_arc = Arc {
        src: 0,
        dst: 0,
        cap: 0,
    };
    let arcs = filled(alloc, no_arc, net.len() as usize)?;
    let spots = filled(alloc, 0u32, net.len() as usize)?;
    let names = filled(alloc, 0u32, net.nodes() as usize)?;
    let sources = copy_of(alloc, network.sources())?;
    let sinks = copy_of(alloc, network.sinks())?;
    Ok(Room {
        arcs,
        spots,
        names,
        sources,
        sinks,
    })
}

/// Gives each of some nodes its new name.
fn rename_all(vs: &mut Vec<u32>, names: &[u32])
    requires { All (λ v. (1 ≤ v) × (v ≤ length names.now)) vs.old.items }
    ensures { vs.new.items ≡ all_named names.now vs.old.items }
{
    for v in vs.iter_mut() {
        *v = names[*v as usize - 1];
    }
}

/// Copies a network with its nodes renamed by a search and its arcs in order. Nothing where the search finds no naming.
fn arrange_in(network: &FlowNetwork, room: Room, work: &mut [u32]) -> Option<Arranged>
    requires room { HasRoom network.now room }
    requires cells { work_cells network.now.net ≤ length work.old }
    ensures { IfSome result (IsArrangedIn network.now) }
{
    let Room {
        arcs,
        mut spots,
        mut names,
        mut sources,
        mut sinks,
    } = room;
    let net = network.net();
    let (nodes, rest) = work.split_at_mut(net.nodes() as usize);
    if !name_nodes(net, network.sinks(), nodes, names.as_mut_slice(), rest) {
        return None;
    }
    let (counts, _) = rest.split_at_mut(net.nodes() as usize);
    let copy = arrange(net, names.as_slice(), arcs, spots.as_mut_slice(), counts)?;
    // Brings the network's limits, `IsNet`, into the proof.
    let _ = copy.nodes();
    rename_all(&mut sources, names.as_slice());
    rename_all(&mut sinks, names.as_slice());
    Some(Arranged {
        network: FlowNetwork::new(copy, sources, sinks),
        names,
        spots,
    })
}

/// Arranges a network in a copy, if it is scattered. The memory is asked for first. It works in the cells of a solver.
pub(crate) fn arrange_if_scattered(
    alloc: Global,
    network: &FlowNetwork,
    work: &mut [u32],
) -> Result<Option<Arranged>, OutOfMemory>
    requires cells { work_cells network.now.net ≤ length work.old }
    ensures { IfOk result (λ arranged. IfSome arranged (IsArrangedIn network.now)) }
{
    if !is_scattered(network.net(), network.sources()[0], network.sinks()[0]) {
        return Ok(None);
    }
    let room = make_room(alloc, network)?;
    Ok(arrange_in(network, room, work))
}

/// The network that is solved: the copy, where there is one.
pub(crate) fn lend_solved<'a>(
    network: &'a FlowNetwork,
    arranged: &'a Option<Arranged>,
) -> &'a FlowNetwork
    ensures { result.now ≡ solved_of network.now arranged.now }
{
    match arranged {
        None => network,
        Some(copy) => &copy.network,
    }
}

/// The flows of a copy by the spots.
fn gather_flows(alloc: Global, there: &[u64], spots: &[u32]) -> Result<Vec<u64>, OutOfMemory>
    requires { All (λ spot. spot < length there.now) spots.now }
    ensures { IfOk result (λ flows. flows.items ≡ carried spots.now there.now) }
{
    let mut flows = filled(alloc, 0u64, spots.len())?;
    for i in 0..spots.len() {
        flows[i] = there[spots[i] as usize];
    }
    Ok(flows)
}

/// The flows that were found, in the order of the arcs. The memory of a copy is free before any is asked for.
pub(crate) fn read_flows(
    alloc: Global,
    there: Vec<u64>,
    arranged: Option<Arranged>,
) -> Result<Vec<u64>, OutOfMemory>
    requires { IfSome arranged (λ copy. All (λ spot. spot < length there.items) copy.spots.items) }
    ensures { IfOk result (λ flows. flows.items ≡ flows_of arranged there.items) }
{
    let Some(copy) = arranged else {
        return Ok(there);
    };
    let Arranged {
        network,
        spots,
        names: _,
    } = copy;
    drop(network);
    gather_flows(alloc, there.as_slice(), spots.as_slice())
}

/// The marks of a copy by the names.
fn gather_marks(alloc: Global, there: &[bool], names: &[u32]) -> Result<Vec<bool>, OutOfMemory>
    requires { All (λ w. (1 ≤ w) × (w ≤ length there.now)) names.now }
    ensures { IfOk result (λ side. side.items ≡ map (marked there.now) names.now) }
{
    let mut side = filled(alloc, false, names.len())?;
    for i in 0..names.len() {
        side[i] = there[names[i] as usize - 1];
    }
    Ok(side)
}

/// The marks of a side, in the order of the nodes.
pub(crate) fn read_side(
    alloc: Global,
    there: Vec<bool>,
    arranged: &Option<Arranged>,
) -> Result<Vec<bool>, OutOfMemory>
    requires { IfSome arranged.now (λ copy. All (λ w. (1 ≤ w) × (w ≤ length there.items)) copy.names.items) }
    ensures { IfOk result (λ side. side.items ≡ side_of arranged.now there.items) }
{
    match arranged {
        None => Ok(there),
        Some(copy) => gather_marks(alloc, there.as_slice(), copy.names.as_slice()),
    }
}
