ghost use Rattle.flow_net.specs.Flows.{Fits, IsFeasible};
ghost use Rattle.std.specs.Prelude.{◌≡◌, ◌≢◌, ℕ, List, ◌*◌, ◌≤◌, ◌<◌, IsTrue, length, slice_index};
ghost use Rattle.std.specs.Prelude.{take, drop};
ghost use Rattle.flow_net.specs.NodeSets.{one_of};
ghost use Rattle.flow_net.specs.Limits.{AreTerminals, AreDistinct};
ghost use Rattle.std.specs.List.{All};
ghost use Rattle.flow_solve.specs.Bounds.{paths_bound, work_cells};
ghost use Rattle.flow_solve.specs.Solving.{IsFlow};
ghost use Rattle.flow_solve.specs.Task.{HasFlow, IsTask};
ghost use Rattle.flow_solve.specs.levels.Entries.{IsOpening};

mod forests;
mod known;
mod near_sends;
mod rows;
mod trees;
mod waves;

use flow_net::{Arc, FEWEST_NODES, FlowTable, MOST_ARCS_BOTH_WAYS, MOST_NODES, Network};
use flow_solve::stages::*;
use flow_solve::*;
use std::alloc::Global;
use std::process::Abort;

/// An arc's ends and its capacity.
type Triple = (u32, u32, u64);

/// Ends a test with the row of a table of which something isn't so.
fn expect(rt: &impl Abort, is_so: bool, row: &str) {
    assert!(rt; is_so, "{row}");
}

/// Whether a number stands nowhere before its place.
fn is_new(nodes: &[u32], j: usize) -> bool
    requires { j < length nodes.now }
    ensures { IsTrue result → (i : ℕ) → i < j → slice_index nodes.now i ≢ slice_index nodes.now j }
{
    for i in 0..j {
        if nodes[i] == nodes[j] {
            return false;
        }
    }
    true
}

/// Whether no number stands twice.
fn all_differ(nodes: &[u32]) -> bool
    ensures { IsTrue result → AreDistinct nodes.now }
{
    for j in 0..nodes.len() {
        if !is_new(nodes, j) {
            return false;
        }
    }
    true
}

/// Whether the first `k` of some nodes may be the sources of a network, and the others its sinks.
fn may_be_terminals(net: &Network, nodes: &[u32], k: usize) -> bool
    ensures { IsTrue result → AreTerminals net.now (take k nodes.now) (drop k nodes.now) }
{
    0 < k && k < nodes.len() && all_within(nodes, net.nodes()) && all_differ(nodes)
}

/// Whether all numbers are between 1 and a number.
fn all_within(nodes: &[u32], most: u32) -> bool
    ensures { IsTrue result → All (λ v. (1 ≤ v) × (v ≤ most)) nodes.now }
{
    for node in nodes {
        if *node < 1 || most < *node {
            return false;
        }
    }
    true
}

/// A network with some arcs.
fn network(rt: &impl Abort, alloc: Global, nodes: u32, arcs: &[Triple]) -> Network
    requires least { FEWEST_NODES ≤ nodes }
    requires most { nodes ≤ MOST_NODES }
{
    let mut net = Network::new(alloc, nodes);
    assert!(rt; add_all(&mut net, arcs));
    net
}

/// Adds arcs, and answers whether the network can have them all and there is memory.
#[must_use]
fn add_all(net: &mut Network, arcs: &[Triple]) -> bool {
    for (src, dst, cap) in arcs {
        if !add(net, *src, *dst, *cap) {
            return false;
        }
    }
    true
}

/// Adds an arc, and answers whether the network can have it and there is memory.
#[must_use]
fn add(net: &mut Network, src: u32, dst: u32, cap: u64) -> bool {
    let nodes = net.nodes();
    if net.len() < MOST_ARCS_BOTH_WAYS && 1 <= src && src <= nodes && 1 <= dst && dst <= nodes {
        net.push(Arc { src, dst, cap }).is_ok()
    } else {
        false
    }
}

/// A method with no more than each must say: its bound on steps, and `greatest`. It leaves nothing of use in its cells.
struct Plain;

impl Method for Plain {
    ghost steps_bound = { paths_bound };

    fn greatest(
        net: &Network,
        s: &[u32],
        t: &[u32],
        flow: &mut FlowTable,
        work: &mut [u32],
    ) -> u128 {
        let value = Paths::greatest(net, s, t, flow, work);
        let (own, _) = work.split_at_mut(work_len(net.nodes(), net.len()));
        own.fill(u32::MAX);
        value
    }
}

/// What the solvers say of a network: whether they and their searches agree, whether the empty flow can be raised, the
/// greatest value, the least source side and the least sink side.
#[derive(Clone, Copy)]
struct Answer {
    agree: bool,
    rises: bool,
    value: u128,
    side: [bool; 6],
    back: [bool; 6],
}

/// A table of an empty flow.
fn empty_flow(rt: &impl Abort, alloc: Global, net: &Network) -> FlowTable
    ensures fits { Fits net.now result.flows }
    ensures flow { (s t : List ℕ) → IsFlow net.now s t result.flows 0 }
{
    FlowTable::new(alloc, net).expect(rt, "memory")
}

/// The cells that a solver works in.
fn cells_for(rt: &impl Abort, alloc: Global, net: &Network) -> Vec<u32>
    ensures { length result.items ≡ work_cells net.now }
{
    Vec::from_elem(alloc, 7u32, work_len(net.nodes(), net.len())).expect(rt, "memory")
}

/// The solvers' answer for a network of at most 6 nodes and 40 arcs.
fn solve(rt: &impl Abort, alloc: Global, net: &Network, terminals: &[u32], k: usize) -> Answer {
    assert!(rt; net.nodes() <= 6 && net.len() <= 40 && may_be_terminals(net, terminals, k));
    let mut flow = empty_flow(rt, alloc, net);
    let (s, t) = terminals.split_at(k);
    run_solvers(net, s, t, &mut flow)
}

/// The solvers' answer, beginning with an empty flow.
fn run_solvers(net: &Network, s: &[u32], t: &[u32], flow: &mut FlowTable) -> Answer
    requires flow { IsFlow net.now s.now t.now flow.old.flows 0 }
    requires terminals { AreTerminals net.now s.now t.now }
    requires small { (net.now.nodes ≤ 6) × (length net.now.arcs ≤ 40) }
{
    let mut work = [7u32; 120];
    let mut answer = Answer {
        agree: true,
        rises: true,
        value: 0,
        side: [true; 6],
        back: [true; 6],
    };
    let before = searches(net, s, t, flow, &mut work, &mut answer);
    answer.rises = before[0];
    answer.value = Plain::greatest(net, s, t, flow, &mut work);
    let same = Levels::greatest(net, s, t, flow, &mut work);
    let after = searches(net, s, t, flow, &mut work, &mut answer);
    answer.agree = before == [answer.rises; 3]
        && same == answer.value
        && after == [false; 3]
        && cuts_agree(net, s, t, flow, &mut work, &answer);
    answer
}

/// What the three searches say: whether a flow can be raised. They mark the sides of an answer.
fn searches(
    net: &Network,
    s: &[u32],
    t: &[u32],
    flow: &mut FlowTable,
    work: &mut [u32],
    answer: &mut Answer,
) -> [bool; 3]
    requires feasible { IsFeasible net.now (one_of s.now) (one_of t.now) flow.old.flows }
    requires terminals { AreTerminals net.now s.now t.now }
    requires small { net.now.nodes ≤ 6 }
    requires cells { work_cells net.now ≤ length work.old }
    ensures { flow.new.flows ≡ flow.old.flows }
{
    let n = net.nodes() as usize;
    let by_reach = reach(net, s, t, flow, work, &mut answer.side[..n]);
    let by_reach_back = reach_back(net, s, t, flow, work, &mut answer.back[..n]);
    [
        by_reach,
        by_reach_back,
        has_augmenting_path(net, s, t, flow, work),
    ]
}

/// Whether the cuts that the methods find have the value and the sides of an answer.
fn cuts_agree(
    net: &Network,
    s: &[u32],
    t: &[u32],
    flow: &mut FlowTable,
    work: &mut [u32],
    answer: &Answer,
) -> bool
    requires fits { Fits net.now flow.old.flows }
    requires terminals { AreTerminals net.now s.now t.now }
    requires small { net.now.nodes ≤ 6 }
    requires cells { work_cells net.now ≤ length work.old }
{
    let n = net.nodes() as usize;
    let mut side = [true; 6];
    let mut back = [true; 6];
    let near_sources = cut_nearest_sources::<Levels>(net, s, t, flow, work, &mut side[..n]);
    let near_sinks = cut_nearest_sinks::<Plain>(net, s, t, flow, work, &mut back[..n]);
    let value = answer.value;
    near_sources == value && near_sinks == value && side == answer.side && back == answer.back
}

/// Whether a set of nodes, given by its bits, holds a node.
fn holds(set: u32, node: u32) -> bool {
    1 <= node && node <= 6 && (set >> (node - 1)) % 2 == 1
}

/// Whether a set holds each of some nodes, or none of them.
fn holds_each(set: u32, nodes: &[u32], inside: bool) -> bool {
    for node in nodes {
        if holds(set, *node) != inside {
            return false;
        }
    }
    true
}

/// The sum of the capacities of the arcs that leave a set.
fn capacity(net: &Network, set: u32) -> u128 {
    let mut sum = 0u128;
    for i in 0..net.len() {
        let arc = net.arc(i);
        if holds(set, arc.src) && !holds(set, arc.dst) {
            sum = sum.wrapping_add(u128::from(arc.cap));
        }
    }
    sum
}

/// The least capacity of a cut, by trying all sets of nodes.
fn least_capacity(net: &Network, s: &[u32], t: &[u32]) -> u128 {
    let mut least = u128::MAX;
    for set in 0u32..64 {
        if holds_each(set, s, true) && holds_each(set, t, false) {
            least = least.min(capacity(net, set));
        }
    }
    least
}

/// Whether each minimum cut holds a node, or none does, by trying all sets of nodes.
fn in_each(net: &Network, s: &[u32], t: &[u32], least: u128, node: u32, inside: bool) -> bool {
    for set in 0u32..64 {
        if holds_each(set, s, true)
            && holds_each(set, t, false)
            && capacity(net, set) == least
            && holds(set, node) != inside
        {
            return false;
        }
    }
    true
}

/// Whether an answer has the sides that a trial of all sets of nodes finds, where its value is the least capacity.
fn has_sides(net: &Network, s: &[u32], t: &[u32], answer: &Answer) -> bool {
    for place in 0..net.nodes().min(6) {
        let side = in_each(net, s, t, answer.value, place + 1, true);
        let back = in_each(net, s, t, answer.value, place + 1, false);
        if side != answer.side[place as usize] || back != answer.back[place as usize] {
            return false;
        }
    }
    true
}

/// Whether the solver answers what a trial of all sets of nodes does.
fn agrees(rt: &impl Abort, alloc: Global, net: &Network, terminals: &[u32], k: usize) -> bool {
    if terminals.len() < k {
        return false;
    }
    let (s, t) = terminals.split_at(k);
    let least = least_capacity(net, s, t);
    let answer = solve(rt, alloc, net, terminals, k);
    let has_value = answer.value == least && answer.rises == (least > 0);
    has_value && answer.agree && has_sides(net, s, t, &answer)
}

/// Numbers that look random.
#[derive(Drop)]
struct Random {
    state: u64,
}

impl Random {
    fn below(&mut self, limit: u64) -> u64
        requires { 0 < limit }
        ensures { result < limit }
    {
        self.state = self
            .state
            .wrapping_mul(6364136223846793005)
            .wrapping_add(1442695040888963407);
        (self.state >> 33) % limit
    }
}

/// A node of a network of so many nodes.
fn random_node(random: &mut Random, nodes: u32) -> u32
    requires { 1 ≤ nodes }
{
    1 + random.below(u64::from(nodes)) as u32
}

/// The capacities that are drawn.
const CAPACITIES: [u64; 8] = [0, 1, 2, 3, 5, 8, 100, u64::MAX];

/// Adds arcs between any two nodes, fewer than a number of them and some in both directions: self-loops, parallel and
/// opposite arcs among them, in some networks beside each arc; small capacities and the largest. Answers whether all of
/// them were added.
#[must_use]
fn add_arcs(net: &mut Network, random: &mut Random, limit: u64) -> bool
    requires { 0 < limit }
{
    let one_of = 1 + random.below(4);
    for _ in 0..random.below(limit) {
        let src = random_node(random, net.nodes());
        let dst = random_node(random, net.nodes());
        let cap = CAPACITIES[random.below(8) as usize];
        if !add(net, src, dst, cap) || random.below(one_of) == 0 && !add(net, dst, src, cap) {
            return false;
        }
    }
    true
}

/// A network, and nodes that may be its terminals.
#[derive(Drop)]
struct Drawn {
    net: Network,
    nodes: [u32; 4],
    /// How many of the nodes are sources: the first.
    k: usize,
    /// How many of them are sources or sinks.
    len: usize,
}

impl Drawn {
    fn terminals(&self) -> &[u32] {
        &self.nodes[..self.len.min(4)]
    }
}

/// Draws a network of two nodes and fewer more than a number, with fewer arcs than another; and for its terminals one
/// or two sources and one or two sinks, if no node is drawn for two of them.
fn draw(alloc: Global, random: &mut Random, more: u64, arcs: u64) -> Option<Drawn>
    requires more { (0 < more) × (more ≤ 100) }
    requires arcs { 0 < arcs }
{
    let n = 2 + random.below(more) as u32;
    let mut net = Network::new(alloc, n);
    let is_added = add_arcs(&mut net, random, arcs);
    let nodes = [
        random_node(random, n),
        random_node(random, n),
        random_node(random, n),
        random_node(random, n),
    ];
    let k = 1 + random.below(2) as usize;
    let len = k + 1 + random.below(2) as usize;
    let drawn = Drawn { net, nodes, k, len };
    if is_added && may_be_terminals(&drawn.net, drawn.terminals(), k) {
        Some(drawn)
    } else {
        None
    }
}

#[test]
fn all_sets_agree(rt: HostRuntime) {
    let mut random = Random { state: 2026 };
    let mut tried = 0u32;
    for _ in 0..600 {
        if let Some(drawn) = draw(rt.alloc(), &mut random, 5, 15) {
            assert!(rt; agrees(&rt, rt.alloc(), &drawn.net, drawn.terminals(), drawn.k));
            tried = tried.wrapping_add(1);
        }
    }
    assert!(rt; tried > 100);
}

/// Stages of [`Levels`] before the phases, and how much they may take.
trait Stage {
    /// The stages that work in rows of entries, on the flow that carries nothing. Answers whether they say that the
    /// marks in the first cells show that it is greatest.
    fn begin(&self, task: Task<'_>, flow: &mut FlowTable, cells: &mut [u32]) -> bool
        requires task { IsOpening task }
        requires cells { length cells.old ≡ 5 * task.packed.net.now.nodes }
        requires fits { Fits task.packed.net.now flow.old.flows }
        ensures fits { Fits task.entry.packed.net.now flow.new.flows };

    /// Those that come after them. Mostly there are none.
    fn go_on(&self, _task: Task<'_>, _flow: &mut FlowTable, _cells: &mut [u32])
        requires task { IsTask _task }
        requires cells { length _cells.old ≡ 5 * _task.packed.net.now.nodes }
        requires fits { Fits _task.packed.net.now _flow.old.flows }
        ensures fits { Fits _task.entry.packed.net.now _flow.new.flows }
    {}
}

/// The values that stages reach, and the phases after them, and that of the other method.
#[derive(Clone, Copy)]
struct Outcome {
    reached: u128,
    /// Whether a test shows that this is the greatest value.
    is_finished: bool,
    raised: u128,
    greatest: u128,
}

impl Outcome {
    /// Whether the stages reach one value, and both methods another.
    fn is(&self, reached: u128, greatest: u128) -> bool {
        self.reached == reached && self.raised == greatest && self.greatest == greatest
    }

    /// Whether both methods reach the same, and the stages no more, and no less if a test shows that it is greatest.
    fn is_possible(&self) -> bool {
        let most = self.greatest;
        self.raised == most && self.reached <= most && (!self.is_finished || self.reached == most)
    }

    /// Whether the stages reach no less than before and no more than a value, and both methods that value.
    fn is_after(&self, before: u128, value: u128) -> bool {
        before <= self.reached && self.reached <= value && self.is(self.reached, value)
    }

    /// Whether the stages reach something, and leave something to the phases.
    fn is_between(&self) -> bool {
        0 < self.reached && self.reached < self.greatest
    }
}

/// What stages reach on a network, and the phases after them, and the other method.
fn stages<'a, S: Stage>(
    rt: &impl Abort,
    alloc: Global,
    net: &'a Network,
    terminals: &'a [u32],
    k: usize,
    stage: &S,
) -> Outcome {
    assert!(rt; may_be_terminals(net, terminals, k));
    let mut work = cells_for(rt, alloc, net);
    let mut flow = empty_flow(rt, alloc, net);
    let (s, t) = terminals.split_at(k);
    let (reached, is_finished, raised) = run_stages(
        net,
        s,
        t,
        &mut flow,
        work.as_mut_slice(),
        stage,
    );
    let greatest = Paths::greatest(net, s, t, &mut flow, work.as_mut_slice());
    Outcome {
        reached,
        is_finished,
        raised,
        greatest,
    }
}

/// The same on a network of six nodes, from node 1 to node 6.
fn stages_on_six<S: Stage>(rt: &impl Abort, alloc: Global, arcs: &[Triple], stage: &S) -> Outcome {
    let net = network(rt, alloc, 6, arcs);
    stages(rt, alloc, &net, &[1, 6], 1, stage)
}

/// Whether a test shows that a flow is greatest, by the marks in the first cells.
fn is_shown_greatest(given: Given<'_>, flow: &mut FlowTable, cells: &mut [u32]) -> bool
    requires terminals { AreTerminals given.net.now given.s.now given.t.now }
    requires fits { Fits given.net.now flow.old.flows }
    requires cells { 4 * given.net.now.nodes ≤ length cells.old }
    ensures { flow.new.flows ≡ flow.old.flows }
{
    match test_flow(given, flow, cells) {
        Some(tested) => tested.is_maximum,
        None => false,
    }
}

/// What a test shows of a flow, or of that of value 0 where it isn't feasible: then the table is cleared.
fn test_or_clear(given: Given<'_>, flow: &mut FlowTable, cells: &mut [u32]) -> Tested
    requires terminals { AreTerminals given.net.now given.s.now given.t.now }
    requires fits { Fits given.net.now flow.old.flows }
    requires cells { 4 * given.net.now.nodes ≤ length cells.old }
    ensures { IsFlow given.entry.net.now given.entry.s.now given.entry.t.now flow.new.flows result.value }
{
    if let Some(tested) = test_flow(given, flow, cells) {
        return tested;
    }
    flow.clear();
    Tested {
        value: 0,
        is_maximum: false,
    }
}

/// Raises the empty flow by stages and by the phases after them. Answers the value that the stages reach, whether a
/// test shows that it is greatest, and the value that the phases reach.
fn run_stages<'a, S: Stage>(
    net: &'a Network,
    s: &'a [u32],
    t: &'a [u32],
    flow: &mut FlowTable,
    work: &mut [u32],
    stage: &S,
) -> (u128, bool, u128)
    requires terminals { AreTerminals net.now s.now t.now }
    requires cells { length work.old ≡ work_cells net.now }
    requires flow { IsFlow net.now s.now t.now flow.old.flows 0 }
    ensures { Fits net.entry.now flow.new.flows }
{
    let n = net.nodes() as usize;
    let (cells, rest) = work.split_at_mut(5 * n);
    let (first, rest) = rest.split_at_mut(n + 1);
    let (halves, _rest) = rest.split_at_mut(2 * net.len() as usize);
    let (marks, _free) = cells.split_at_mut(n);
    mark_terminals(net, s, t, marks);
    pack_rows(net, marks, first, halves);
    let packed = Packed { net, first, halves };
    let given = Given { net, s, t };
    let has_ended = stage.begin(Task { packed, s, t }, flow, cells);
    let is_shown = has_ended && is_shown_greatest(given, flow, cells);
    pack(net, first, halves);
    let packed = Packed { net, first, halves };
    let task = Task { packed, s, t };
    stage.go_on(task, flow, cells);
    let Tested { value, is_maximum } = test_or_clear(given, flow, cells);
    (
        value,
        is_shown || is_maximum,
        run_phases(task, flow, cells, value),
    )
}

/// A stage that may take as much as it is told.
trait Allowed: Stage {
    fn allowed(allowance: u64) -> Self;
}

/// Whether a stage reaches more and more on a network of six nodes, the more it may take, up to this value, and at
/// times something and not all.
fn rises<S: Allowed + Drop>(
    rt: &impl Abort,
    alloc: Global,
    arcs: &[Triple],
    value: u128,
    allowances: u64,
) -> bool {
    let mut before = 0u128;
    let mut between = 0u32;
    for allowance in 0..allowances {
        let outcome = stages_on_six(rt, alloc, arcs, &S::allowed(allowance));
        if !outcome.is_after(before, value) {
            return false;
        }
        between = between.wrapping_add(u32::from(outcome.is_between()));
        before = outcome.reached;
    }
    between > 0 && before == value
}

/// A stage that may take as much as is drawn, below a number.
trait Limited: Stage {
    fn limited(random: &mut Random, most: u64) -> Self
        requires { 0 < most };
}

/// Which random networks are drawn, and how much a stage may take.
#[derive(Clone, Copy)]
struct Draws {
    state: u64,
    /// How often one is drawn.
    times: u32,
    /// There are fewer nodes more than two, and fewer arcs, and a stage may take less than that.
    more: u64,
    arcs: u64,
    most: u64,
}

/// How runs of a stage on random networks came out.
#[derive(Clone, Copy)]
struct Tally {
    /// How many there were.
    tried: u32,
    /// In how many the stage reached something.
    carried: u32,
    /// In how many it did, and left something to the phases.
    between: u32,
    /// In how many a test showed that what it reached is the greatest value.
    finished: u32,
}

/// Runs a stage on random networks, with as much as is drawn each time: the phases bring what it leaves.
fn run_on_random_networks<S: Limited + Drop>(rt: &impl Abort, alloc: Global, draws: Draws) -> Tally
    requires more { (0 < draws.more) × (draws.more ≤ 100) }
    requires arcs { 0 < draws.arcs }
    requires most { 0 < draws.most }
{
    let mut random = Random { state: draws.state };
    let (mut tried, mut carried, mut between, mut finished) = (0u32, 0u32, 0u32, 0u32);
    for _ in 0..draws.times {
        let Some(drawn) = draw(alloc, &mut random, draws.more, draws.arcs) else {
            continue;
        };
        let stage = S::limited(&mut random, draws.most);
        let outcome = stages(rt, alloc, &drawn.net, drawn.terminals(), drawn.k, &stage);
        assert!(rt; outcome.is_possible());
        tried = tried.wrapping_add(1);
        carried = carried.wrapping_add(u32::from(0 < outcome.reached));
        between = between.wrapping_add(u32::from(outcome.is_between()));
        finished = finished.wrapping_add(u32::from(outcome.is_finished));
    }
    Tally {
        tried,
        carried,
        between,
        finished,
    }
}

/// Whether both methods send 1, and the least source side holds node 1 alone.
fn is_narrow(
    net: &Network,
    s: &[u32],
    t: &[u32],
    flow: &mut FlowTable,
    work: &mut [u32],
    side: &mut [bool],
) -> bool
    requires fits { Fits net.now flow.old.flows }
    requires terminals { AreTerminals net.now s.now t.now }
    requires cells { work_cells net.now ≤ length work.old }
    requires side { length side.old ≡ net.now.nodes }
{
    let by_paths = Paths::greatest(net, s, t, flow, work);
    let rises = reach(net, s, t, flow, work, side);
    flow.clear();
    let by_levels = Levels::greatest(net, s, t, flow, work);
    by_paths == 1 && !rises && side[0] && !side[1..].contains(&true) && by_levels == 1
}

/// Adds the arcs of a chain, the last first, each wider than the one before it. Answers whether all were added.
#[must_use]
fn add_chain(net: &mut Network) -> bool {
    for i in 0u32..99_999 {
        let v = 99_999 - i;
        if !add(net, v, v + 1, u64::from(v)) {
            return false;
        }
    }
    true
}

/// Whether a chain of 100,000 nodes is narrow.
fn is_narrow_chain(rt: &impl Abort, alloc: Global, net: &Network) -> bool {
    assert!(rt; may_be_terminals(net, &[1, 100_000], 1));
    let mut flow = empty_flow(rt, alloc, net);
    let mut work = cells_for(rt, alloc, net);
    let mut side = Vec::from_elem(alloc, false, net.nodes() as usize).expect(rt, "memory");
    is_narrow(net, &[1], &[100_000], &mut flow, &mut work, &mut side)
}

#[test]
fn a_long_chain(rt: HostRuntime) {
    let mut net = Network::new(rt.alloc(), 100_000);
    let is_added = add_chain(&mut net);
    let is_narrow = is_narrow_chain(&rt, rt.alloc(), &net);
    assert!(rt; is_added && is_narrow);
}

/// Adds a star: a path over each of its nodes. Answers whether all arcs were added.
#[must_use]
fn add_star(net: &mut Network) -> bool {
    for node in 2u32..200_002 {
        if !add(net, 1, node, 1) || !add(net, node, 200_002, 1) {
            return false;
        }
    }
    true
}

/// The greatest value of a flow from node 1 to node 200,002.
fn greatest_of_star(rt: &impl Abort, alloc: Global, net: &Network) -> u128 {
    assert!(rt; may_be_terminals(net, &[1, 200_002], 1));
    let mut flow = empty_flow(rt, alloc, net);
    let mut work = cells_for(rt, alloc, net);
    Levels::greatest(net, &[1], &[200_002], &mut flow, &mut work)
}

#[test]
fn a_star(rt: HostRuntime) {
    let mut net = Network::new(rt.alloc(), 200_002);
    let is_added = add_star(&mut net);
    let value = greatest_of_star(&rt, rt.alloc(), &net);
    assert!(rt; is_added && value == 200_000);
}
