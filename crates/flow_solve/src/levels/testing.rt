//! The test of a flow: whether it is feasible, of which value, and whether a set of nodes shows that it is maximum.
//!
//! It goes over the arcs once. Each node that is no terminal has a *balance* in three cells: what enters minus what
//! leaves, counted from [`EVEN`]. The flow is maximum where no arc of the residual network leaves a set that holds all
//! sources and no sink. With `n` nodes the first `n` cells have each node's role, which says whether the node is in the
//! set, and the next `3·n` the balances.
ghost use Rattle.std.specs.Prelude.{◌≡◌, ◌≢◌, ℕ, ◌+◌, ◌-◌, ◌*◌, ◌%◌, ◌<◌, ◌≤◌, ◌==◌, if◌then◌else◌, true, false};
ghost use Rattle.std.specs.Prelude.{IfSome, IsTrue, length, slice_index};
ghost use Rattle.std.specs.List.{All};
ghost use Rattle.flow_net.specs.declared.limits.TheConstants.{MOST_NODES};
ghost use Rattle.flow_net.specs.Limits.{AreTerminals};
ghost use Rattle.flow_net.specs.NodeSets.{one_of};
ghost use Rattle.flow_net.specs.Flows.{Fits, IsGreatest};
ghost use Rattle.flow_net.specs.LeastCuts.{IsLeastCapacity};
ghost use Rattle.flow_solve.specs.levels.Testing.{balance_at, is_source, in_set, AreRoles, AreSums, IsTight};
ghost use Rattle.flow_solve.specs.Solving.{IsFlow};
ghost use Rattle.flow_solve.specs.Steps.{OnlyLooks};

use crate::residual::cells::CELL;
use crate::task::Given;
use flow_net::{Arc, FlowTable, Network};

/// So many numbers fit two cells.
const TWO_CELLS: u128 = CELL as u128 * CELL as u128;

/// So many numbers fit three cells.
const THREE_CELLS: u128 = TWO_CELLS * CELL as u128;

/// Each of the three cells of a balance of [`EVEN`].
const HALF: u32 = 2_147_483_648;

/// The balance of a node that as much enters as leaves: in the middle, since it rises and falls from arc to arc.
const EVEN: u128 = HALF as u128 * (TWO_CELLS + CELL as u128 + 1);

/// Stands in the cell of a node of the set that may show that a flow is maximum.
pub const MARKED: u32 = 4;

/// The role of a node that is no terminal, or what it is beside [`MARKED`].
const INNER: u32 = 0;

/// The role of a source, which is in the set.
const SOURCE: u32 = MARKED + 1;

/// The role of a sink, which is not in the set.
const SINK: u32 = 1;

/// A feasible flow.
#[derive(Clone, Copy)]
pub struct Tested {
    /// Its value.
    pub value: u128,
    /// Whether the marked set shows that no flow has a greater one.
    pub is_maximum: bool,
}

/// The number of 96 bits in three cells, the lowest first.
#[inline(always)]
fn get_balance(balances: &[u32], place: usize) -> u128
    requires { 3 * place + 2 < length balances.now }
    ensures { result ≡ balance_at balances.now place }
{
    let at = 3 * place;
    u128::from(balances[at])
        + u128::from(balances[at + 1]) * u128::from(CELL)
        + u128::from(balances[at + 2]) * TWO_CELLS
}

/// Sets the number in three cells. Answers whether they have room for it.
#[inline(always)]
fn put_balance(balances: &mut [u32], place: usize, number: u128) -> bool
    requires { 3 * place + 2 < length balances.old }
    ensures here { result ≡ true → balance_at balances.new place ≡ number }
    ensures others { (k : ℕ) → k ≢ place → balance_at balances.new k ≡ balance_at balances.old k }
{
    let at = 3 * place;
    balances[at] = (number % u128::from(CELL)) as u32;
    balances[at + 1] = (number / u128::from(CELL) % u128::from(CELL)) as u32;
    balances[at + 2] = (number / TWO_CELLS % u128::from(CELL)) as u32;
    number < THREE_CELLS
}

/// Changes the balance of a node by an amount that enters the node or leaves it, unless the node is a terminal. Answers
/// whether the balance has room for that.
#[inline(always)]
fn change_balance(roles: &[u32], balances: &mut [u32], node: u32, enters: bool, amount: u64) -> bool
    requires node { (1 ≤ node) × (node ≤ length roles.now) }
    requires size { length balances.old ≡ 3 * length roles.now }
    ensures left { result ≡ true → enters ≡ false → (v : ℕ) → 1 ≤ v → slice_index roles.now (v - 1) % MARKED ≡ INNER
        → balance_at balances.new (v - 1) + (if node == v then amount else 0) ≡ balance_at balances.old (v - 1) }
    ensures entered { result ≡ true → enters ≡ true → (v : ℕ) → 1 ≤ v → slice_index roles.now (v - 1) % MARKED ≡ INNER
        → balance_at balances.new (v - 1) ≡ balance_at balances.old (v - 1) + (if node == v then amount else 0) }
{
    let place = node as usize - 1;
    if roles[place] % MARKED != INNER {
        return true;
    }
    let before = get_balance(balances, place);
    let after = if enters {
        before.checked_add(u128::from(amount))
    } else {
        before.checked_sub(u128::from(amount))
    };
    match after {
        Some(balance) => put_balance(balances, place, balance),
        None => false,
    }
}

/// Changes the balances at both ends of an arc by what it carries. Answers whether it may carry that: nothing on a
/// self-loop, and as much as the balances have room for.
#[inline(always)]
fn change_balances(roles: &[u32], balances: &mut [u32], arc: Arc, amount: u64) -> bool
    requires src { (1 ≤ arc.src) × (arc.src ≤ length roles.now) }
    requires dst { (1 ≤ arc.dst) × (arc.dst ≤ length roles.now) }
    requires size { length balances.old ≡ 3 * length roles.now }
    ensures self_loop { result ≡ true → arc.src ≡ arc.dst → amount ≡ 0 }
    ensures balanced { result ≡ true → (v : ℕ) → 1 ≤ v → slice_index roles.now (v - 1) % MARKED ≡ INNER
        → balance_at balances.new (v - 1) + (if arc.src == v then amount else 0)
        ≡ balance_at balances.old (v - 1) + (if arc.dst == v then amount else 0) }
{
    if amount == 0 {
        return true;
    }
    if arc.src == arc.dst {
        return false;
    }
    change_balance(roles, balances, arc.src, false, amount)
        && change_balance(roles, balances, arc.dst, true, amount)
}

/// An amount at a source, and 0 at any other node.
#[inline(always)]
fn at_source(roles: &[u32], node: u32, amount: u64) -> u128
    requires node { (1 ≤ node) × (node ≤ length roles.now) }
    ensures { result ≡ (if is_source roles.now node then amount else 0) }
{
    if amount > 0 && roles[node as usize - 1] == SOURCE {
        u128::from(amount)
    } else {
        0
    }
}

/// Whether a node is in the set.
#[inline(always)]
fn is_in_set(roles: &[u32], node: u32) -> bool
    requires node { (1 ≤ node) × (node ≤ length roles.now) }
    ensures { result ≡ in_set roles.now node }
{
    roles[node as usize - 1] >= MARKED
}

/// Whether no half-arc of an arc leads out of the set and has a residual capacity.
#[inline(always)]
fn is_tight(roles: &[u32], arc: Arc, amount: u64) -> bool
    requires src { (1 ≤ arc.src) × (arc.src ≤ length roles.now) }
    requires dst { (1 ≤ arc.dst) × (arc.dst ≤ length roles.now) }
    ensures { IsTrue result → IsTight (in_set roles.now) arc amount }
{
    let from = is_in_set(roles, arc.src);
    if amount == 0 {
        return arc.cap == 0 || !from || is_in_set(roles, arc.dst);
    }
    from == is_in_set(roles, arc.dst) || (from && amount >= arc.cap)
}

/// What the arcs carry together.
#[derive(Clone, Copy)]
struct Sums {
    /// What leaves the sources.
    out: u128,
    /// What enters them.
    inward: u128,
    /// Whether no half-arc with a residual capacity leads out of the set.
    is_closed: bool,
}

/// Adds up what the arcs carry, in the balances and in the sums, unless a self-loop carries something or a balance has
/// no room.
fn add_up(net: &Network, flow: &mut FlowTable, roles: &[u32], balances: &mut [u32]) -> Option<Sums>
    requires fits { Fits net.now flow.old.flows }
    requires roles { length roles.now ≡ net.now.nodes }
    requires sums { AreSums net.now flow.old.flows roles.now balances.old 0 0 0 true }
    ensures sums { IfSome result (λ r. AreSums net.now flow.old.flows roles.now balances.new
        (length net.now.arcs) r.out r.inward r.is_closed) }
    ensures looks { OnlyLooks flow.old flow.new (length net.now.arcs) }
{
    let (mut out, mut inward, mut is_closed) = (0, 0, true);
    for i in 0..net.len() {
        let arc = net.arc(i);
        let (_, amount) = flow.look(net, 2 * i + 1);
        is_closed &= is_tight(roles, arc, amount);
        if !change_balances(roles, balances, arc, amount) {
            return None;
        }
        out += at_source(roles, arc.src, amount);
        inward += at_source(roles, arc.dst, amount);
    }
    Some(Sums {
        out,
        inward,
        is_closed,
    })
}

/// Whether as much enters as leaves each node that is no terminal.
fn are_even(roles: &[u32], balances: &[u32]) -> bool
    requires { length balances.now ≡ 3 * length roles.now }
    ensures { result ≡ true → (p : ℕ) → p < length roles.now → slice_index roles.now p % MARKED ≡ INNER
        → balance_at balances.now p ≡ EVEN }
{
    for place in 0..roles.len() {
        if roles[place] % MARKED == INNER && get_balance(balances, place) != EVEN {
            return false;
        }
    }
    true
}

/// Leaves the marks, and clears the cells of all other nodes.
fn keep_marks(roles: &mut [u32])
    ensures size { length roles.new ≡ length roles.old }
    ensures inner { (p : ℕ) → p < length roles.old → slice_index roles.new p % MARKED ≡ INNER }
{
    for place in 0..roles.len() {
        if roles[place] != MARKED {
            roles[place] = INNER;
        }
    }
}

/// Gives some terminals their role.
fn give_role(roles: &mut [u32], terminals: &[u32], role: u32)
    requires { All (λ v. (1 ≤ v) × (v ≤ length roles.old)) terminals.now }
    ensures size { length roles.new ≡ length roles.old }
    ensures roles { (p : ℕ) → p < length roles.old
        → slice_index roles.new p ≡ (if one_of terminals.now (p + 1) then role else slice_index roles.old p) }
{
    for node in terminals {
        roles[*node as usize - 1] = role;
    }
}

/// Gives all nodes their roles, where the nodes of the set are marked.
fn give_roles(given: Given<'_>, roles: &mut [u32])
    requires terminals { AreTerminals given.net.now given.s.now given.t.now }
    requires size { length roles.old ≡ given.net.now.nodes }
    ensures { AreRoles given.entry.net.now given.entry.s.now given.entry.t.now roles.new }
{
    keep_marks(roles);
    give_role(roles, given.s, SOURCE);
    give_role(roles, given.t, SINK);
}

/// Tests the flow in a table: its value, and whether a set of nodes shows that it is maximum, if it is feasible and
/// carries nothing on self-loops. The first `n` cells have [`MARKED`] for the nodes of the set and something else for
/// the others; the set gets all sources and loses all sinks. It takes one look at each arc at most, and `4·n` cells.
pub fn test_flow(given: Given<'_>, flow: &mut FlowTable, cells: &mut [u32]) -> Option<Tested>
    requires terminals { AreTerminals given.net.now given.s.now given.t.now }
    requires fits { Fits given.net.now flow.old.flows }
    requires cells { 4 * given.net.now.nodes ≤ length cells.old }
    ensures flow { IfSome result (λ r. IsFlow given.entry.net.now given.entry.s.now given.entry.t.now flow.new.flows
        r.value) }
    ensures greatest { IfSome result (λ r. IsTrue r.is_maximum → IsGreatest given.entry.net.now
        (one_of given.entry.s.now) (one_of given.entry.t.now) r.value) }
    ensures least { IfSome result (λ r. IsTrue r.is_maximum → IsLeastCapacity given.entry.net.now
        (one_of given.entry.s.now) (one_of given.entry.t.now) r.value) }
    ensures looks { OnlyLooks flow.old flow.new (length given.entry.net.now.arcs) }
{
    let n = given.net.nodes() as usize;
    let (roles, rest) = cells.split_at_mut(n);
    let balances = &mut rest[..3 * n];
    give_roles(given, roles);
    balances.fill(HALF);
    let sums = add_up(given.net, flow, roles, balances)?;
    let value = sums.out.checked_sub(sums.inward)?;
    if !are_even(roles, balances) {
        return None;
    }
    Some(Tested {
        value,
        is_maximum: sums.is_closed,
    })
}
