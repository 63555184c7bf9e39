// Conjunction and disjunction of nodes.
ghost use Rattle.std.specs.Prelude.{◌≡◌, ◌⊎◌, ◌≤◌, ◌&&◌, ◌||◌, ℕ, List, min, IfOk, IfSome, IfNone};
ghost use Rattle.decision_diagram.specs.Diagrams.{Diagrams, IsNode, value_of, level_of, Keeps, Means};
ghost use Rattle.decision_diagram.specs.Operations.{combine};

use crate::node::NodeId;
use crate::operation::Operation;
use crate::store::Store;
use polis_base::NoMemory;

// The result, where no variable has to be read for it.
fn settled(op: Operation, a: NodeId, b: NodeId) -> Option<NodeId>
    ensures either { IfSome result (λ n. (n ≡ a) ⊎ (n ≡ b)) }
    ensures value { IfSome result (λ n. (s : Diagrams) (codes : List ℕ)
        → value_of s n codes ≡ combine op (value_of s a codes) (value_of s b codes)) }
    ensures left { IfNone result (2 ≤ a) }
    ensures right { IfNone result (2 ≤ b) }
{
    let absorbing = op.absorbing();
    let neutral = op.neutral();
    if a == absorbing || b == absorbing {
        Some(absorbing)
    } else if a == neutral || a == b {
        Some(b)
    } else if b == neutral {
        Some(a)
    } else {
        None
    }
}

impl Store {
    fn apply(&mut self, op: Operation, a: NodeId, b: NodeId) -> Result<NodeId, NoMemory>
        requires a { IsNode self.old a }
        requires b { IsNode self.old b }
        ensures kept { Keeps self.old self.new }
        ensures value { IfOk result
            (λ n. Means self.new n
            (λ codes. combine op (value_of self.old a codes) (value_of self.old b codes))) }
        ensures level { IfOk result (λ n. min (level_of self.old a) (level_of self.old b)
            ≤ level_of self.new n) }
    {
        if let Some(node) = settled(op, a, b) {
            return Ok(node);
        }
        if let Some(node) = self.recall(op, a, b) {
            return Ok(node);
        }
        let var = self.first_variable(a, b);
        let size = self.size(var);
        let mut kids = Vec::with_capacity(self.global(), usize::from(size))?;
        for code in 0..size {
            let left = self.cofactor(a, var, code);
            let right = self.cofactor(b, var, code);
            kids.push(self.apply(op, left, right)?)?;
        }
        let node = self.node(var, &kids)?;
        self.remember(op, a, b, node)?;
        Ok(node)
    }

    /// The conjunction of two nodes.
    pub fn and(&mut self, a: NodeId, b: NodeId) -> Result<NodeId, NoMemory>
        requires a { IsNode self.old a }
        requires b { IsNode self.old b }
        ensures kept { Keeps self.old self.new }
        ensures value { IfOk result
            (λ n. Means self.new n (λ codes. value_of self.old a codes
            && value_of self.old b codes)) }
        ensures level { IfOk result (λ n. min (level_of self.old a) (level_of self.old b)
            ≤ level_of self.new n) }
    {
        self.apply(Operation::And, a, b)
    }

    /// The disjunction of two nodes.
    pub fn or(&mut self, a: NodeId, b: NodeId) -> Result<NodeId, NoMemory>
        requires a { IsNode self.old a }
        requires b { IsNode self.old b }
        ensures kept { Keeps self.old self.new }
        ensures value { IfOk result
            (λ n. Means self.new n (λ codes. value_of self.old a codes
            || value_of self.old b codes)) }
        ensures level { IfOk result (λ n. min (level_of self.old a) (level_of self.old b)
            ≤ level_of self.new n) }
    {
        self.apply(Operation::Or, a, b)
    }
}
