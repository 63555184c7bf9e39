// How many inner nodes are reached from a node.
ghost use Rattle.std.specs.Prelude.{◌≡◌, ◌+◌, ◌<◌, ◌≤◌, ◌||◌, ℕ, Bool, List, nat_eq, length, slice_index, count_by, IfOk};
ghost use Rattle.std.specs.List.{list_any};
ghost use Rattle.decision_diagram.specs.Diagrams.{IsNode, Means};
ghost use Rattle.decision_diagram.specs.Reached.{marked, CountsReached};
ghost use Rattle.decision_diagram.specs.Sizes.{size_along};

use crate::node::NodeId;
use crate::store::Store;
use polis_base::NoMemory;

// Marks inner nodes. The mark of node `n` stands at place `n - 2`.
fn mark(marks: &mut [bool], kids: &[u64])
    requires { (code : ℕ) → code < length kids.now
        → slice_index kids.now code < length marks.old + 2 }
    ensures { (m : ℕ) → 2 ≤ m → m < length marks.old + 2
        → marked marks.new m ≡ (marked marks.old m || list_any (nat_eq m) kids.now) }
{
    for kid in kids {
        if *kid >= 2 {
            marks[(*kid - 2) as usize] = true;
        }
    }
}

// How many are marked.
fn marked_count(marks: &[bool]) -> u64
    ensures { result ≡ count_by (λ mark. mark) marks.now }
{
    marks.iter().filter(|mark| **mark).count() as u64
}

impl Store {
    /// How many inner nodes are reached from a node, itself included: the size of its diagram.
    pub fn count(&self, n: NodeId) -> Result<u64, NoMemory>
        requires { IsNode self.now n }
        ensures reached { IfOk result (λ count. CountsReached self.now n count) }
        ensures size { IfOk result (λ count. (f : List ℕ → Bool) → Means self.now n f
            → count ≡ size_along f self.now.sizes self.now.order) }
    {
        self.same_value_same_node();
        let mut i = (self.node_count() - 2) as usize;
        let mut marks = vec![in self.global(); false; i]?;
        mark(&mut marks, &[n.number()]);
        while i > 0 {
            i -= 1;
            if marks[i] {
                let node = self.inner(i as u64 + 2);
                mark(&mut marks, node.kids());
            }
        }
        Ok(marked_count(&marks))
    }
}
