// The store of diagrams.
ghost use Rattle.std.specs.Prelude.{◌≡◌, ◌⊎◌, ◌+◌, ◌<◌, ◌≤◌, ◌^◌, ◌==◌, ℕ, true, false, List, min, [], ◌∷◌, ◌++◌, length, slice_index, Some, IfOk, IfSome, IfNone, OnOk, OnErr, IsTrue};
ghost use Rattle.std.specs.Int.{bit_at};
ghost use Rattle.domains.specs.Tables.{fits};
ghost use Rattle.decision_diagram.specs.Constants.{constant_node};
ghost use Rattle.decision_diagram.specs.Operations.{IsResult, AreResults};
ghost use Rattle.decision_diagram.specs.Keys.{IsKey};
ghost use Rattle.domains.specs.Orders.{place};
ghost use Rattle.decision_diagram.specs.Diagrams.{IsNode, inner_at, value_of, shape_of, kids_of, level_of, choice, Keeps, Means, AreReduced, IsCanonical};
ghost use Rattle.decision_diagram.specs.inner.Diagrams.{HasNode};

use crate::node::{Node, NodeId, Shape};
use crate::noted::{Noted, slot_of};
use crate::operation::Operation;
use crate::order::Order;
use domains::{Codes, VarTable};
use indexmap::IndexSet;
use polis_base::index::{Index, empty_index, enter, find};
use polis_base::{Duplicate, NoMemory, SmallSet};
use std::alloc::Global;
use std::marker::Model;

// The unique table: the keys of the inner nodes, in the order in which they were made.
type UniqueTable = IndexSet<Vec<u64>>;

/// Diagrams over the variables of one table, read in one order. Equal functions are one node.
#[derive(Drop)]
pub struct Store {
    alloc: Global,
    vars: VarTable,
    order: Order,
    nodes: UniqueTable,
    noted: Noted,
    conjunctions: Index,
    disjunctions: Index,
}

/// A node with its store.
#[derive(Drop)]
pub struct Root {
    pub store: Store,
    pub node: NodeId,
}

impl Model for Store {
    ghost use Rattle.decision_diagram.specs.Diagrams.{Diagrams};

    ghost Value = { Diagrams };

    ghost use Rattle.decision_diagram.specs.Stores.{diagrams, IsStore};

    ghost view = { diagrams };

    ghost invariant = { IsStore };
}

// The one child, where all are the same.
fn only_kid(kids: &[NodeId]) -> Option<NodeId>
    ensures some { IfSome result (λ kid. (code : ℕ) → code < length kids.now
        → slice_index kids.now code ≡ kid) }
    ensures there { IfSome result (λ kid. 0 < length kids.now) }
    ensures none { IfNone result ((kid : ℕ) → 0 < length kids.now
        → ((code : ℕ) → code < length kids.now → slice_index kids.now code ≡ kid) → ⊥) }
{
    let first = *kids.first()?;
    for kid in kids {
        if kid.number() != first.number() {
            return None;
        }
    }
    Some(first)
}

// The children of a node that is true where the code is in a set.
fn literal_kids(alloc: Global, size: u8, codes: SmallSet) -> Result<Vec<NodeId>, NoMemory>
    requires { size ≤ 64 }
    ensures length { IfOk result (λ kids. length kids.items ≡ size) }
    ensures kids { IfOk result (λ kids. (code : ℕ) → code < size
        → slice_index kids.items code ≡ constant_node (bit_at codes code == 1)) }
{
    let mut kids = Vec::with_capacity(alloc, usize::from(size))?;
    for code in 0..size {
        kids.push(NodeId::constant(codes.has(u32::from(code))))?;
    }
    Ok(kids)
}

// A variable and its children as a key.
fn key_of(alloc: Global, var: u32, kids: &[NodeId]) -> Result<Vec<u64>, NoMemory>
    ensures items { IfOk result (λ key. key.items ≡ var ∷ kids.now) }
    ensures key { IfOk result (λ key. IsKey key.items) }
{
    let mut key = Vec::with_capacity(alloc, kids.len() + 1)?;
    key.push(u64::from(var))?;
    for kid in kids {
        key.push(kid.number())?;
    }
    Ok(key)
}

// Whether a node's children are these.
fn are_kids(kept: &[u64], kids: &[NodeId]) -> bool
    ensures { result ≡ true → kept.now ≡ kids.now }
{
    if kept.len() != kids.len() {
        return false;
    }
    for (i, kid) in kids.iter().enumerate() {
        if kept[i] != kid.number() {
            return false;
        }
    }
    true
}

// Two nodes in the order of their numbers.
fn pair(a: NodeId, b: NodeId) -> [u64; 2]
    ensures { (result ≡ a ∷ b ∷ []) ⊎ (result ≡ b ∷ a ∷ []) }
{
    if a.number() <= b.number() {
        [a.number(), b.number()]
    } else {
        [b.number(), a.number()]
    }
}

impl Store {
    /// A store without inner nodes, over the variables of a table in an order.
    pub fn new(alloc: Global, vars: &VarTable, order: &Order) -> Result<Store, NoMemory>
        requires { length order.now ≡ length vars.now }
        ensures sizes { IfOk result (λ store. store.sizes ≡ vars.now) }
        ensures order { IfOk result (λ store. store.order ≡ order.now) }
        ensures nodes { IfOk result (λ store. store.nodes ≡ []) }
    {
        let agree = vars.len() == order.len();
        prove!(agree);
        let vars = vars.copy()?;
        let order = order.copy()?;
        let noted = Noted::new(alloc)?;
        Ok(Store::without_nodes(alloc, vars, order, noted))
    }

    // The store without inner nodes.
    fn without_nodes(alloc: Global, vars: VarTable, order: Order, noted: Noted) -> Store
        requires { length order ≡ length vars }
        ensures sizes { result.sizes ≡ vars }
        ensures order { result.order ≡ order }
        ensures nodes { result.nodes ≡ [] }
    {
        Store {
            alloc,
            vars,
            order,
            nodes: IndexSet::new(alloc),
            noted,
            conjunctions: empty_index(alloc),
            disjunctions: empty_index(alloc),
        }
    }

    // The node with a variable and children, where it is noted.
    fn noted_node(&self, slot: usize, var: u32, kids: &[NodeId]) -> Option<NodeId>
        requires { slot < 4096 }
        ensures { IfSome result (λ n. HasNode self.now n var kids.now) }
    {
        let number = self.noted.get(slot);
        if number < 2 || number >= self.node_count() {
            return None;
        }
        let node = self.inner(number);
        if node.var() == var && are_kids(node.kids(), kids) {
            Some(NodeId::new(number))
        } else {
            None
        }
    }

    // Notes a node.
    fn note(&mut self, slot: usize, n: NodeId)
        requires { slot < 4096 }
        ensures { self.new ≡ self.old }
    {
        self.noted.set(slot, n);
    }

    // The node with a variable and children that aren't all the same. It is made where there is
    // none.
    fn enter_node(&mut self, var: u32, kids: &[NodeId]) -> Result<NodeId, NoMemory>
        requires var { var < length self.old.sizes }
        requires kids { length kids.now ≡ slice_index self.old.sizes var }
        requires nodes { (code : ℕ) → code < length kids.now
            → IsNode self.old (slice_index kids.now code) }
        requires later { (code : ℕ) → code < length kids.now
            → place self.old.order var < level_of self.old (slice_index kids.now code) }
        requires varied { (kid : ℕ) → 0 < length kids.now
            → ((code : ℕ) → code < length kids.now → slice_index kids.now code ≡ kid) → ⊥ }
        ensures kept { Keeps self.old self.new }
        ensures value { IfOk result (λ n. Means self.new n (choice self.old var kids.now)) }
        ensures level { IfOk result (λ n. place self.old.order var ≤ level_of self.new n) }
    {
        let key = key_of(self.alloc, var, kids)?;
        let (place, _) = self.nodes.insert_full(key)?;
        let count = self.nodes.len();
        prove!(place < count);
        Ok(NodeId::new(place as u64 + 2))
    }

    /// The node whose value is that of the child at the code of a variable. Where all children are
    /// the same it is that child, and where there is such a node already it is that one (Bryant
    /// 1986).
    pub fn node(&mut self, var: u32, kids: &[NodeId]) -> Result<NodeId, NoMemory>
        requires var { var < length self.old.sizes }
        requires kids { length kids.now ≡ slice_index self.old.sizes var }
        requires nodes { (code : ℕ) → code < length kids.now
            → IsNode self.old (slice_index kids.now code) }
        requires later { (code : ℕ) → code < length kids.now
            → place self.old.order var < level_of self.old (slice_index kids.now code) }
        ensures kept { Keeps self.old self.new }
        ensures value { IfOk result (λ n. Means self.new n (choice self.old var kids.now)) }
        ensures level { IfOk result (λ n. place self.old.order var ≤ level_of self.new n) }
    {
        let _ = &self.nodes;
        if let Some(kid) = only_kid(kids) {
            return Ok(kid);
        }
        let slot = slot_of(var, kids);
        if let Some(node) = self.noted_node(slot, var, kids) {
            return Ok(node);
        }
        let node = self.enter_node(var, kids)?;
        self.note(slot, node);
        Ok(node)
    }

    /// The node that is true where the code of a variable is in a set.
    pub fn literal(&mut self, var: u32, codes: SmallSet) -> Result<NodeId, NoMemory>
        requires var { var < length self.old.sizes }
        requires codes { codes < 2 ^ slice_index self.old.sizes var }
        ensures kept { Keeps self.old self.new }
        ensures value { IfOk result
            (λ n. Means self.new n (λ at. bit_at codes (slice_index at var) == 1)) }
        ensures level { IfOk result (λ n. place self.old.order var ≤ level_of self.new n) }
    {
        let size = *self.vars.get(u64::from(var));
        let kids = literal_kids(self.alloc, size, codes)?;
        self.node(var, &kids)
    }

    /// The node that is the same on all codes.
    pub fn constant(&self, value: bool) -> NodeId
        ensures node { IsNode self.now result }
        ensures value { (codes : List ℕ) → value_of self.now result codes ≡ value }
        ensures level { level_of self.now result ≡ length self.now.order }
    {
        NodeId::constant(value)
    }

    /// How many nodes there are: the two constants and the inner nodes. Each node's number is below
    /// it.
    pub fn node_count(&self) -> u64
        ensures count { result ≡ length self.now.nodes + 2 }
    {
        self.nodes.len() as u64 + 2
    }

    // The inner node with a number.
    pub(crate) fn inner(&self, number: u64) -> Node<'_>
        requires inner { 2 ≤ number }
        requires node { IsNode self.now number }
        ensures node { inner_at self.now.nodes number ≡ Some result }
        ensures before { (code : ℕ) → code < length result.kids
            → slice_index result.kids code < number }
    {
        Node::new(&self.nodes.as_slice()[(number - 2) as usize])
    }

    /// What kind of node a node is.
    pub fn shape(&self, n: NodeId) -> Shape
        requires { IsNode self.now n }
        ensures shape { result ≡ shape_of self.now n }
        ensures never { result ≡ Shape.False → (codes : List ℕ)
            → value_of self.now n codes ≡ false }
        ensures always { result ≡ Shape.True → (codes : List ℕ) → value_of self.now n codes ≡ true }
        ensures var { (var : ℕ) → result ≡ Shape.Inner var → var < length self.now.sizes }
        ensures kids { (var : ℕ) → result ≡ Shape.Inner var
            → length (kids_of self.now n) ≡ slice_index self.now.sizes var }
    {
        let _ = &self.nodes;
        match n.number() {
            0 => Shape::False,
            1 => Shape::True,
            number => Shape::Inner {
                var: self.inner(number).var(),
            },
        }
    }

    /// The child of an inner node at a code of its variable.
    pub fn child(&self, n: NodeId, code: u8) -> NodeId
        requires node { IsNode self.now n }
        requires code { code < length (kids_of self.now n) }
        ensures child { result ≡ slice_index (kids_of self.now n) code }
        ensures node { IsNode self.now result }
        ensures later { level_of self.now n < level_of self.now result }
        ensures value { (var : ℕ) (codes : List ℕ) → shape_of self.now n ≡ Shape.Inner var
            → slice_index codes var ≡ code → value_of self.now n codes
            ≡ value_of self.now result codes }
    {
        let _ = &self.nodes;
        NodeId::new(self.inner(n.number()).kids()[usize::from(code)])
    }

    /// The value of a node on a list of codes, one per variable.
    pub fn value(&self, n: NodeId, codes: &Codes) -> bool
        requires node { IsNode self.now n }
        requires codes { IsTrue (fits self.now.sizes codes.now) }
        ensures { result ≡ value_of self.now n codes.now }
    {
        let mut at = n;
        while let Shape::Inner { var } = self.shape(at) {
            at = self.child(at, *codes.get(u64::from(var)));
        }
        matches!(self.shape(at), Shape::True)
    }

    /// Two nodes with the same value on all codes that fit the table are the same node, and the
    /// diagrams are reduced: no inner node has all its children the same, no two have the same
    /// variable and children, and each child was made before its node and reads only later
    /// variables. It does nothing: its contract is these two laws, for whoever needs them (Bryant
    /// 1986, for variables of several values).
    pub fn same_value_same_node(&self)
        ensures canonical { IsCanonical self.now }
        ensures reduced { AreReduced self.now }
    {
        let _ = &self.nodes;
    }

    // The allocator of all that the store makes.
    pub(crate) fn global(&self) -> Global {
        self.alloc
    }

    // The size of a variable.
    pub(crate) fn size(&self, var: u32) -> u8
        requires { var < length self.now.sizes }
        ensures { result ≡ slice_index self.now.sizes var }
    {
        *self.vars.get(u64::from(var))
    }

    // Of two inner nodes the variable that is read first.
    pub(crate) fn first_variable(&self, a: NodeId, b: NodeId) -> u32
        requires left { 2 ≤ a }
        requires right { 2 ≤ b }
        requires a { IsNode self.now a }
        requires b { IsNode self.now b }
        ensures var { result < length self.now.sizes }
        ensures place { place self.now.order result
            ≡ min (level_of self.now a) (level_of self.now b) }
    {
        let left = self.inner(a.number()).var();
        let right = self.inner(b.number()).var();
        if self.order.place_of(left) <= self.order.place_of(right) {
            left
        } else {
            right
        }
    }

    // The node whose value is that of a node where a variable has a code.
    pub(crate) fn cofactor(&self, n: NodeId, var: u32, code: u8) -> NodeId
        requires node { IsNode self.now n }
        requires var { var < length self.now.sizes }
        requires code { code < slice_index self.now.sizes var }
        requires first { place self.now.order var ≤ level_of self.now n }
        ensures node { IsNode self.now result }
        ensures later { place self.now.order var < level_of self.now result }
        ensures value { (codes : List ℕ) → slice_index codes var ≡ code
            → value_of self.now n codes ≡ value_of self.now result codes }
    {
        let _ = &self.nodes;
        match self.shape(n) {
            Shape::Inner { var: own } if own != var => n,
            Shape::Inner { .. } => self.child(n, code),
            Shape::False | Shape::True => n,
        }
    }

    // What was computed before for an operation.
    fn results(&self, op: Operation) -> &Index
        ensures { AreResults self.now op result.now }
    {
        match op {
            Operation::And => &self.conjunctions,
            Operation::Or => &self.disjunctions,
        }
    }

    // The result of an operation on two nodes, where it was computed before.
    pub(crate) fn recall(&self, op: Operation, a: NodeId, b: NodeId) -> Option<NodeId>
        ensures { IfSome result (λ n. IsResult self.now op a b n) }
    {
        let number = find(self.results(op), &pair(a, b))?;
        Some(NodeId::new(number))
    }

    // Keeps the result of an operation on two nodes.
    pub(crate) fn remember(
        &mut self,
        op: Operation,
        a: NodeId,
        b: NodeId,
        n: NodeId,
    ) -> Result<(), NoMemory>
        requires { IsResult self.old op a b n }
        ensures same { self.new ≡ self.old }
        ensures result { IsResult self.new op a b n }
    {
        let key = Vec::from_slice(self.alloc, &pair(a, b))?;
        match op {
            Operation::And => enter(&mut self.conjunctions, key, n.number()),
            Operation::Or => enter(&mut self.disjunctions, key, n.number()),
        }
    }
}
