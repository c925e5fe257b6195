//! The method by levels: four stages that work on one flow.
//!
//! 1. **Near sends** (`near_sends`) augment along paths over one node or two. No tree exists yet that they could break.
//! 2. **Search trees** (`trees`; Boykov and Kolmogorov 2004) grow from the sources and the sinks and augment where they
//!    touch. They end early if what they find is little for what they take. A dense network has none, since a repair
//!    passes all half-arcs of a node.
//! 3. **Waves** (`waves`) push excess towards the sinks, farthest level first (after Karzanov 1974), and relabel stuck
//!    nodes (Goldberg and Tarjan 1988) up to a ceiling. They follow unless the flow after the trees is maximum.
//! 4. **Phases** (`phases`, `walking`) are Dinic's algorithm (Dinitz 1970). They start from any feasible flow, and
//!    their last search shows that the flow is maximum.
//!
//! The first three stages promise no more than that the flow fits, and a bound on steps. One test (`testing`) after the
//! trees and after the waves shows that it is feasible, and may show that it is maximum. Where it isn't feasible, the
//! phases start from zero. The stages before the phases take at most `n²·m` steps together, and the phases at most
//! `3·n²·m`. Near sends and trees use rows of *entries* (`rows`, `entries`), in which an arc and its opposite may share
//! one entry. The later stages need each half-arc in its row, and pack anew.
ghost use Rattle.std.specs.Prelude.{◌≡◌, ◌+◌, ◌*◌, ◌≤◌, IfSome, IsTrue, drop, length, true};
ghost use Rattle.flow_net.specs.Limits.{AreTerminals};
ghost use Rattle.flow_net.specs.NodeSets.{one_of};
ghost use Rattle.flow_net.specs.Flows.{Fits, IsGreatest};
ghost use Rattle.flow_net.specs.LeastCuts.{IsLeastCapacity};
ghost use Rattle.flow_solve.specs.Bounds.{levels_bound, openings_bound, work_cells};
ghost use Rattle.flow_solve.specs.residual.Packs.{ArePackedBehind, IsPacked};
ghost use Rattle.flow_solve.specs.Solving.{IsFlow};
ghost use Rattle.flow_solve.specs.Steps.{TakesSteps};
ghost use Rattle.flow_solve.specs.Task.{HasFlow, IsTask};
ghost use Rattle.flow_solve.specs.levels.Entries.{HasRows, IsOpening};

pub(crate) mod entries;
pub(crate) mod near_sends;
pub(crate) mod phases;
pub(crate) mod rows;
mod spending;
pub(crate) mod testing;
pub(crate) mod trees;
mod walking;
pub(crate) mod waves;

use crate::method::{Method, work_len};
use crate::residual::half_arcs::Direction;
use crate::residual::packing::{Packed, pack, pack_behind};
use crate::sides::leads_on_packed;
use crate::task::{Given, Task};
use flow_net::{FlowTable, Network};
use near_sends::send_near;
use phases::run_phases;
use rows::{mark_between, pack_rows};
use testing::{Tested, test_flow};
use trees::grow_trees;
use waves::send_waves;

/// The most arcs for each node with which trees grow, since a repair of a tree passes all half-arcs of a node.
const MOST_DEGREE: u32 = 32;

/// Whether a network has too many arcs for each node for trees.
fn is_dense(net: &Network) -> bool {
    net.len() / MOST_DEGREE > net.nodes()
}

/// How many times the number of arcs near sends, trees and the test after them may take, in steps and in half-arcs that
/// they pass by.
const OPENING_SHARE: u64 = 64;

/// How many times the number of arcs near sends may take of that.
const NEAR_SHARE: u64 = 4;

/// How much near sends, trees and the test after them may take. A look at each arc is left for the test after waves.
pub fn allowance(net: &Network) -> u64
    ensures { result + length net.now.arcs ≤ openings_bound net.now }
{
    let n = u64::from(net.nodes());
    (n * n - 1).min(OPENING_SHARE) * u64::from(net.len())
}

/// How many times the number of arcs the waves may take, should they bring nothing: so often each way.
const WAVES_SHARE: u64 = 2 * 1024;

/// How much the waves may take of what is left of `n²·m`, in 64 bits, besides the test after them.
fn share_of_rest(net: &Network, given: u64) -> u64
    requires { given + length net.now.arcs ≤ openings_bound net.now }
    ensures { result + given + length net.now.arcs ≤ openings_bound net.now }
{
    let n = u64::from(net.nodes());
    let m = u64::from(net.len());
    (n * n)
        .saturating_mul(m)
        .saturating_sub(given)
        .saturating_sub(m)
        .min(WAVES_SHARE * m)
}

/// Packs the cells for the first stages: rows of entries, or half-arcs in a dense network, where no trees grow. Answers
/// whether it is half-arcs.
fn pack_first(given: Given<'_>, marks: &mut [u32], first: &mut [u32], halves: &mut [u32]) -> bool
    requires terminals { AreTerminals given.net.now given.s.now given.t.now }
    requires marks { length marks.old ≡ given.net.now.nodes }
    requires firsts { length first.old ≡ given.net.now.nodes + 1 }
    requires halves { length halves.old ≡ 2 * length given.net.now.arcs }
    ensures rows { HasRows given.entry.net.now first.new halves.new }
    ensures packed { result ≡ true → IsPacked given.entry.net.now first.new halves.new }
{
    let Given { net, s, t } = given;
    if is_dense(net) {
        pack(net, first, halves);
        return true;
    }
    mark_between(net, s, t, marks);
    pack_rows(net, marks, first, halves);
    false
}

/// Raises a flow by near sends and, where the network isn't dense, by trees. Answers its value if a test shows that it
/// is maximum.
fn open(task: Task<'_>, flow: &mut FlowTable, cells: &mut [u32], allowance: u64) -> Option<u128>
    requires task { IsOpening task }
    requires cells { length cells.old ≡ 5 * task.packed.net.now.nodes }
    requires fits { Fits task.packed.net.now flow.old.flows }
    ensures fits { Fits task.entry.packed.net.now flow.new.flows }
    ensures flow { IfSome result (λ k. HasFlow task.entry flow.new.flows k) }
    ensures greatest { IfSome result (λ k. IsGreatest task.entry.packed.net.now (one_of task.entry.s.now)
        (one_of task.entry.t.now) k) }
    ensures least { IfSome result (λ k. IsLeastCapacity task.entry.packed.net.now (one_of task.entry.s.now)
        (one_of task.entry.t.now) k) }
    ensures steps { TakesSteps flow.old flow.new allowance }
{
    let Task { packed, s, t } = task;
    let net = packed.net;
    let few = allowance.min(NEAR_SHARE * u64::from(net.len()));
    let left = allowance - few + send_near(task, flow, cells, few);
    if is_dense(net) || !grow_trees(task, flow, cells, left) {
        return None;
    }
    let tested = test_flow(Given { net, s, t }, flow, cells)?;
    if tested.is_maximum {
        Some(tested.value)
    } else {
        None
    }
}

/// Raises a flow by waves. Answers what a test shows of it, or of the flow of zeros where it isn't feasible.
fn wave(task: Task<'_>, flow: &mut FlowTable, cells: &mut [u32], allowance: u64) -> Tested
    requires task { IsTask task }
    requires cells { length cells.old ≡ 5 * task.packed.net.now.nodes }
    requires fits { Fits task.packed.net.now flow.old.flows }
    ensures flow { HasFlow task.entry flow.new.flows result.value }
    ensures greatest { IsTrue result.is_maximum → IsGreatest task.entry.packed.net.now (one_of task.entry.s.now)
        (one_of task.entry.t.now) result.value }
    ensures least { IsTrue result.is_maximum → IsLeastCapacity task.entry.packed.net.now (one_of task.entry.s.now)
        (one_of task.entry.t.now) result.value }
    ensures steps { TakesSteps flow.old flow.new (allowance + length task.entry.packed.net.now.arcs) }
{
    let Task { packed, s, t } = task;
    let net = packed.net;
    send_waves(task, flow, cells, allowance);
    if let Some(tested) = test_flow(Given { net, s, t }, flow, cells) {
        return tested;
    }
    flow.clear();
    Tested {
        value: 0,
        is_maximum: false,
    }
}

/// What the stages leave.
#[derive(Clone, Copy)]
struct Ran {
    /// The greatest value.
    value: u128,
    /// Whether the half-arcs stand packed in the cells of the solver.
    is_packed: bool,
}

/// Runs the stages from no flow on, in the parts of the cells of a solver.
fn run_in(
    given: Given<'_>,
    flow: &mut FlowTable,
    cells: &mut [u32],
    first: &mut [u32],
    halves: &mut [u32],
) -> Ran
    requires fits { Fits given.net.now flow.old.flows }
    requires terminals { AreTerminals given.net.now given.s.now given.t.now }
    requires cells { length cells.old ≡ 5 * given.net.now.nodes }
    requires firsts { length first.old ≡ given.net.now.nodes + 1 }
    requires halves { length halves.old ≡ 2 * length given.net.now.arcs }
    ensures flow { IsFlow given.entry.net.now given.entry.s.now given.entry.t.now flow.new.flows result.value }
    ensures greatest { IsGreatest given.entry.net.now (one_of given.entry.s.now) (one_of given.entry.t.now)
        result.value }
    ensures least { IsLeastCapacity given.entry.net.now (one_of given.entry.s.now) (one_of given.entry.t.now)
        result.value }
    ensures steps { TakesSteps flow.old flow.new (levels_bound given.entry.net.now) }
    ensures packed { result.is_packed ≡ true → IsPacked given.entry.net.now first.new halves.new }
{
    let Given { net, s, t } = given;
    let given_first = allowance(net);
    flow.clear();
    let is_packed = pack_first(given, &mut cells[..net.nodes() as usize], first, halves);
    let packed = Packed { net, first, halves };
    if let Some(value) = open(Task { packed, s, t }, flow, cells, given_first) {
        return Ran { value, is_packed };
    }
    if !is_packed {
        pack(net, first, halves);
    }
    let packed = Packed { net, first, halves };
    let task = Task { packed, s, t };
    let tested = wave(task, flow, cells, share_of_rest(net, given_first));
    let value = if tested.is_maximum {
        tested.value
    } else {
        run_phases(task, flow, cells, tested.value)
    };
    Ran {
        value,
        is_packed: true,
    }
}

/// Runs the stages.
fn run_stages(given: Given<'_>, flow: &mut FlowTable, work: &mut [u32]) -> Ran
    requires fits { Fits given.net.now flow.old.flows }
    requires terminals { AreTerminals given.net.now given.s.now given.t.now }
    requires cells { work_cells given.net.now ≤ length work.old }
    ensures flow { IsFlow given.entry.net.now given.entry.s.now given.entry.t.now flow.new.flows result.value }
    ensures greatest { IsGreatest given.entry.net.now (one_of given.entry.s.now) (one_of given.entry.t.now)
        result.value }
    ensures least { IsLeastCapacity given.entry.net.now (one_of given.entry.s.now) (one_of given.entry.t.now)
        result.value }
    ensures steps { TakesSteps flow.old flow.new (levels_bound given.entry.net.now) }
    ensures packed { result.is_packed ≡ true → ArePackedBehind given.entry.net.now work.new }
    ensures rest { drop (work_cells given.entry.net.now) work.new ≡ drop (work_cells given.entry.net.now) work.old }
{
    let net = given.net;
    let n = net.nodes() as usize;
    let (own, _rest) = work.split_at_mut(work_len(net.nodes(), net.len()));
    let (cells, behind) = own.split_at_mut(5 * n);
    let (first, behind) = behind.split_at_mut(n + 1);
    let (halves, _spare) = behind.split_at_mut(2 * net.len() as usize);
    run_in(given, flow, cells, first, halves)
}

/// The method of four stages: near sends, trees, waves and phases. It takes at most `4·n²·m` steps.
pub struct Levels;

impl Method for Levels {
    ghost steps_bound = { levels_bound };

    fn spare_steps(net: &Network) -> u64 {
        let n = u64::from(net.nodes());
        (n * n).saturating_mul(u64::from(net.len()))
    }

    fn greatest(
        net: &Network,
        s: &[u32],
        t: &[u32],
        flow: &mut FlowTable,
        work: &mut [u32],
    ) -> u128 {
        run_stages(Given { net, s, t }, flow, work).value
    }

    fn least_side(
        given: Given<'_>,
        direction: Direction,
        flow: &mut FlowTable,
        work: &mut [u32],
    ) -> u128 {
        let ran = run_stages(given, flow, work);
        if !ran.is_packed {
            pack_behind(given.net, work);
        }
        leads_on_packed(given, direction, flow, work);
        ran.value
    }
}
