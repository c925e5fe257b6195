//! Tables of flows, and counted access to the residual network.
ghost use Rattle.std.specs.Prelude.{◌≡◌, ◌+◌, ◌*◌, ◌<◌, ◌≤◌, length, replicate, IfOk};
ghost use Rattle.flow_net.specs.Nets.{Net, IsNode};
ghost use Rattle.flow_net.specs.Flows.{Fits};
ghost use Rattle.flow_net.specs.Residual.{Table, head_of, residual, pushed};

mod steps;

use crate::networks::{Network, OutOfMemory};
use std::alloc::Global;
use std::marker::Model;
use steps::Steps;

/// The flow on each arc of a network, and a count of steps that contracts alone read.
///
/// One look or one push is one step. The table doesn't hold its network: each call is handed the network, and the
/// caller ensures that the table *fits* it, with as many numbers as arcs, each at most its capacity.
#[derive(Drop)]
pub struct FlowTable {
    flows: Vec<u64>,
    steps: Steps,
}

// The count takes no bytes.
const _: () = prove!(size_of::<FlowTable>() == size_of::<Vec<u64>>());

impl Model for FlowTable {
    ghost use Rattle.flow_net.specs.Residual.{Table};

    ghost Value = { Table };

    ghost view = { λ t. record { flows = t.flows.items; steps = t.steps.count } };
}

impl FlowTable {
    /// A table with a flow of 0 on each arc, and a count of 0.
    ///
    /// # Errors
    ///
    /// `OutOfMemory` where the memory, 8 bytes for each arc, was refused.
    pub fn new(alloc: Global, net: &Network) -> Result<FlowTable, OutOfMemory>
        ensures empty { IfOk result (λ table. table ≡ record { flows = replicate (length net.now.arcs) 0; steps = 0 }) }
        ensures fits { IfOk result (λ table. Fits net.now table.flows) }
    {
        match Vec::from_elem(alloc, 0u64, net.len() as usize) {
            Ok(flows) => Ok(FlowTable {
                flows,
                steps: Steps::new(),
            }),
            Err(_) => Err(OutOfMemory),
        }
    }

    /// Where a half-arc leads, and what remains on it: its residual capacity. One step; no flow changes.
    pub fn look(&mut self, net: &Network, half: u32) -> (u32, u64)
        requires fits { Fits net.now self.old.flows }
        requires in_range { half < 2 * length net.now.arcs }
        ensures head { result.0 ≡ head_of net.now half }
        ensures is_node { IsNode net.now result.0 }
        ensures residual { result.1 ≡ residual net.now self.old.flows half }
        ensures flows { self.new.flows ≡ self.old.flows }
        ensures steps { self.new.steps ≡ self.old.steps + 1 }
        ensures still_fits { Fits net.now self.new.flows }
    {
        let steps = Steps::after(&self.steps);
        self.steps = steps;
        let arc = net.arc(half / 2);
        let flow = self.flows[(half / 2) as usize];
        if half % 2 == 0 {
            (arc.dst, arc.cap - flow)
        } else {
            (arc.src, flow)
        }
    }

    /// Pushes an amount, at most what remains, through a half-arc: the arc's flow grows along it, and falls against it.
    /// One step.
    pub fn push(&mut self, net: &Network, half: u32, amount: u64)
        requires fits { Fits net.now self.old.flows }
        requires in_range { half < 2 * length net.now.arcs }
        requires room { amount ≤ residual net.now self.old.flows half }
        ensures flows { self.new.flows ≡ pushed self.old.flows half amount }
        ensures steps { self.new.steps ≡ self.old.steps + 1 }
        ensures still_fits { Fits net.now self.new.flows }
    {
        self.steps = Steps::after(&self.steps);
        let arc = net.arc(half / 2);
        let i = (half / 2) as usize;
        if half % 2 == 0 {
            prove!(amount <= arc.cap - self.flows[i]);
            self.flows[i] += amount;
        } else {
            self.flows[i] -= amount;
        }
    }

    /// Sets each flow to 0. The count stays.
    pub fn clear(&mut self)
        ensures flows { self.new.flows ≡ replicate (length self.old.flows) 0 }
        ensures steps { self.new.steps ≡ self.old.steps }
        ensures still_fits { (net : Net) → Fits net self.old.flows → Fits net self.new.flows }
    {
        self.flows.fill(0);
    }

    /// The flows, in the order of the arcs. It takes no memory.
    pub fn into_flows(self) -> Vec<u64>
        ensures { result.items ≡ self.flows }
    {
        let FlowTable { flows, steps: _ } = self;
        flows
    }
}
