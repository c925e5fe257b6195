//! Networks: a number of nodes and a list of arcs.
ghost use Rattle.std.specs.Prelude.{◌≡◌, ◌+◌, ◌*◌, ◌<◌, ◌≤◌, ◌↔◌, [], ◌∷◌, ◌++◌, length, map, slice_get, IsTrue, OnOk};
ghost use Rattle.std.specs.Prelude.{OnErr};
ghost use Rattle.flow_net.specs.Nets.{Net, arc_at};
ghost use Rattle.flow_net.specs.Limits.{IsNet, IsArcWithin};
ghost use Rattle.flow_net.specs.DerivedNets.{unit, unit_arc, both_ways, reversed};

use crate::limits::{FEWEST_NODES, MOST_ARCS, MOST_ARCS_BOTH_WAYS, MOST_NODES};
use std::alloc::Global;
use std::marker::Model;

/// A directed arc between two nodes, as a line `a SRC DST CAP` of the DIMACS format (1990) has it.
#[derive(Clone, Copy, Debug, PartialEq, Eq)]
pub struct Arc {
    /// The node that the arc leaves, from 1 on.
    pub src: u32,
    /// The node that the arc enters, from 1 on.
    pub dst: u32,
    /// The most flow that the arc may carry.
    pub cap: u64,
}

/// A growth of memory was refused.
#[derive(Clone, Copy, Debug, PartialEq, Eq)]
pub struct OutOfMemory;

/// Nodes 1 to `nodes()`, and a list of arcs between them, which may be parallel, opposite or self-loops.
///
/// A network has [`FEWEST_NODES`] to [`MOST_NODES`] nodes and at most [`MOST_ARCS_BOTH_WAYS`] arcs. So a sum of
/// capacities is below 2^94.
#[derive(Drop)]
pub struct Network {
    nodes: u32,
    arcs: Vec<Arc>,
}

impl Model for Network {
    ghost use Rattle.flow_net.specs.Nets.{Net};
    ghost use Rattle.flow_net.specs.Limits.{IsNet};

    ghost Value = { Net };

    ghost view = { λ n. record { nodes = n.nodes; arcs = n.arcs.items } };

    ghost invariant = { λ n. IsNet (record { nodes = n.nodes; arcs = n.arcs.items }) };
}

impl Network {
    /// A network of [`FEWEST_NODES`] to [`MOST_NODES`] nodes with no arcs. It takes no memory.
    pub fn new(alloc: Global, nodes: u32) -> Network
        requires at_least { FEWEST_NODES ≤ nodes }
        requires at_most { nodes ≤ MOST_NODES }
        ensures { result ≡ record { nodes = nodes; arcs = [] } }
    {
        Network {
            nodes,
            arcs: Vec::new(alloc),
        }
    }

    /// A network of these arcs. It takes no memory.
    pub(crate) fn of_arcs(nodes: u32, arcs: Vec<Arc>) -> Network
        requires { IsNet (record { nodes = nodes; arcs = arcs.items }) }
        ensures { result ≡ record { nodes = nodes; arcs = arcs.items } }
    {
        Network { nodes, arcs }
    }

    /// The number of nodes, which is also the greatest node.
    pub fn nodes(&self) -> u32
        ensures nodes { result ≡ self.now.nodes }
        ensures is_net { IsNet self.now }
    {
        self.nodes
    }

    /// The number of arcs.
    pub fn len(&self) -> u32
        ensures len { result ≡ length self.now.arcs }
        ensures is_net { IsNet self.now }
    {
        self.arcs.len() as u32
    }

    /// Whether there is no arc.
    pub fn is_empty(&self) -> bool
        ensures { IsTrue result ↔ (self.now.arcs ≡ []) }
    {
        self.arcs.is_empty()
    }

    /// The arc at a place, counted from 0 in the order in which arcs were pushed.
    pub fn arc(&self, i: u32) -> Arc
        requires { i < length self.now.arcs }
        ensures arc { result ≡ arc_at self.now i }
        ensures found { slice_get self.now.arcs i ≡ Some result }
        ensures is_net { IsNet self.now }
    {
        self.arcs[i as usize]
    }

    /// Appends an arc whose ends are nodes of the network, where there are fewer than
    /// [`MOST_ARCS_BOTH_WAYS`] arcs.
    ///
    /// # Errors
    ///
    /// `OutOfMemory` where the growth was refused; the network is then unchanged.
    #[inline(always)]
    pub fn push(&mut self, arc: Arc) -> Result<(), OutOfMemory>
        requires room { length self.old.arcs < MOST_ARCS_BOTH_WAYS }
        requires within { IsArcWithin self.old.nodes arc }
        ensures ok { OnOk result (self.new ≡ record self.old { arcs = self.old.arcs ++ arc ∷ [] }) }
        ensures err { OnErr result (self.new ≡ self.old) }
    {
        if self.arcs.reserve(1).is_err() {
            return Err(OutOfMemory);
        }
        self.arcs.push_reserved(arc);
        Ok(())
    }

    /// The same network with every capacity set to 1, in which a flow counts arcs. It takes no memory.
    pub fn unit(self) -> Network
        ensures { result ≡ unit self }
    {
        let Network { nodes, mut arcs } = self;
        set_units(&mut arcs);
        Network { nodes, arcs }
    }

    /// Appends the reverse of each arc, in order, with the same capacity, where there are at most
    /// [`MOST_ARCS`] arcs.
    ///
    /// # Errors
    ///
    /// `OutOfMemory` where the growth was refused; the network is then unchanged.
    pub fn both_ways(&mut self) -> Result<(), OutOfMemory>
        requires room { length self.old.arcs ≤ MOST_ARCS }
        ensures ok { OnOk result (self.new ≡ both_ways self.old) }
        ensures err { OnErr result (self.new ≡ self.old) }
    {
        append_reversed(&mut self.arcs)?;
        Ok(())
    }
}

/// Sets each capacity to 1.
fn set_units(arcs: &mut Vec<Arc>)
    ensures { arcs.new.items ≡ map unit_arc arcs.old.items }
{
    for arc in arcs.iter_mut() {
        arc.cap = 1;
    }
}

/// Appends the reverse of each arc, or changes nothing: all the memory is asked for before the first is appended.
fn append_reversed(arcs: &mut Vec<Arc>) -> Result<(), OutOfMemory>
    requires room { length arcs.old.items ≤ MOST_ARCS }
    ensures ok { OnOk result (arcs.new.items ≡ arcs.old.items ++ map reversed arcs.old.items) }
    ensures err { OnErr result (arcs.new.items ≡ arcs.old.items) }
{
    let len = arcs.len();
    if arcs.reserve(len).is_err() {
        return Err(OutOfMemory);
    }
    for i in 0..len {
        let Arc { src, dst, cap } = arcs[i];
        let back = Arc {
            src: dst,
            dst: src,
            cap,
        };
        match arcs.push(back) {
            Ok(()) => {}
            Err(_) => unreachable!(),
        }
    }
    Ok(())
}
