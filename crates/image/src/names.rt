// Test 8, "a node before the last named never or more than once": the names of all nodes are counted in one pass, a counter for each node.
ghost use Rattle.std.specs.Prelude.{◌≡◌, true, not, ℕ, ◌+◌, ◌-◌, ◌≤◌, ◌<◌, eqb, length, get_or};
ghost use Rattle.image.specs.Layout.{names_node};
ghost use Rattle.image.specs.Rows.{slot_names, node_names, names, named_wrong, lowest};
ghost use Rattle.image.specs.Inner.Whole.{Fitting};
ghost use Rattle.image.specs.Inner.Lower.{Lower};

use super::kinds::{OF_A, OF_B, layout, names_node};
use super::records::Node;
use super::routine::Routine;
use super::search::lowest;

// The counter of the node that a field names goes up by one.
fn count_slot(counts: &mut [u32], slot: u32, value: usize)
    requires { names_node slot ≡ true → (value < length counts.old) × (get_or counts.old value 0 ≤ 4096) }
    ensures { (k : ℕ) → get_or counts.new k 0 ≡ get_or counts.old k 0 + slot_names slot value k }
{
    if names_node(slot) {
        counts[value] += 1;
    }
}

// At most 1,024 nodes of three fields each: no counter is above 3,072.
fn count_node(counts: &mut [u32], node: Node)
    requires { Lower (length counts.old) node × ((k : ℕ) → get_or counts.old k 0 ≤ 3072) }
    ensures { (k : ℕ) → get_or counts.new k 0 ≡ get_or counts.old k 0 + node_names node k }
{
    let digits = layout(node.kind);
    count_slot(counts, digits / OF_A % 8, node.a);
    count_slot(counts, digits / OF_B % 8, node.b);
    count_slot(counts, digits % 8, node.c);
}

fn count_names(routine: Routine<'_>, counts: &mut [u32])
    requires { Fitting routine.image.now routine.conditions routine.nodes
        × ((routine.nodes ≤ length counts.old) × ((routine.nodes ≤ 1024) × ((k : ℕ) → get_or counts.old k 0 ≡ 0))) }
    ensures { (k : ℕ) → get_or counts.new k 0 ≡ names routine.entry.image.now routine.entry.nodes k }
{
    // By the number: an image's nodes are bytes, and no slice of nodes.
    for n in 0..routine.nodes {
        count_node(counts, routine.node(n));
    }
}

// The lowest node before the last that is not named exactly once, and P - 1 where each is.
pub fn lowest_named(routine: Routine<'_>) -> usize
    requires { Fitting routine.image.now routine.conditions routine.nodes
        × ((0 < routine.nodes) × (routine.nodes ≤ 1024)) }
    ensures { result ≡ lowest (routine.entry.nodes - 1) (named_wrong routine.entry.image.now) }
{
    let mut counts = [0u32; 1024];
    count_names(routine, &mut counts);
    lowest(routine.nodes - 1, |k| counts[k] != 1)
}
