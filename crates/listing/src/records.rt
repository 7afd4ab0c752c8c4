// How many condition records the listing has, before a byte of it is written: a number for each condition and each node, bottom up, and none above 257, for
// conditions are shared in an image, and written out they can be any number.
ghost use Rattle.std.specs.Prelude.{◌≡◌, cond, ℕ, List, ◌<◌, ◌≤◌, eqb, length, get_or};
ghost use Rattle.std.specs.Borrow.{Bor};
ghost use Rattle.image.specs.Accepted.{Accepted};
ghost use Rattle.image.specs.Layout.{names_node};
ghost use Rattle.image.specs.Tree.{condition};
ghost use Rattle.image.specs.Tree as tree;
ghost use Rattle.written.specs.Count.{sizeᶜ, recordsˢ};
ghost use Rattle.listing.specs.Inner.Counting.{capped, Sizing, node_records, Begins, Counting, Field};

use image::kinds::{CONDITION, OF_A, OF_B, OF_LEFT, condition_layout, layout, names_node};
use image::routine::Routine;

// One over the limit stands for all that is over it.
const OVER: usize = 257;

// The first n numbers of a table, each from those before it. A table made from itself goes by the index.
fn fill<F: Fn(usize, &[usize]) -> usize>(table: &mut [usize], n: usize, next: F)
    ghost f: { ℕ → ℕ }
    requires in_bounds { n ≤ length table.old }
    requires callable { (k : ℕ) (before : Bor (List ℕ)) → k < n → Begins f k before.now → F.pre next k before }
    requires right { (k : ℕ) (before : Bor (List ℕ)) (r : ℕ) → k < n → Begins f k before.now → F.post next k before r → r ≡ f k }
    ensures length { length table.new ≡ length table.old }
    ensures filled { Begins f n table.new }
{
    for k in 0..n {
        table[k] = next(k, table);
    }
}

// The size of the condition that is named; none, where the name is not used.
fn named_size(digit: u32, value: usize, sizes: &[usize]) -> usize
    requires { digit ≡ 1 → value < length sizes.now }
    ensures { result ≡ cond (eqb digit 1) (get_or sizes.now value 0) 0 }
{
    if digit == 1 { sizes[value] } else { 0 }
}

// The size of condition k written out, from those before it.
fn condition_size(routine: Routine<'_>, k: usize, sizes: &[usize]) -> usize
    requires { Sizing routine.image.now k sizes.now }
    ensures { result ≡ capped (sizeᶜ (condition routine.entry.image.now k)) }
{
    let r = routine.condition(k);
    let digits = condition_layout(r.kind);
    let left = named_size(digits / OF_LEFT % 8, r.left, sizes);
    let right = named_size(digits % 8, r.right, sizes);
    (left + right + 1).min(OVER)
}

// The records of what a field holds: a node, a condition or nothing.
fn field_records(slot: u32, value: usize, sizes: &[usize], records: &[usize]) -> usize
    requires { Field slot value sizes.now records.now }
    ensures { result ≡ cond (names_node slot) (get_or records.now value 0) (cond (eqb slot 4) (get_or sizes.now value 0) 0) }
{
    if names_node(slot) {
        return records[value];
    }
    if slot == CONDITION {
        return sizes[value];
    }
    0
}

// The records of node n's tree, from those of the nodes before it.
fn node_records(routine: Routine<'_>, n: usize, sizes: &[usize], records: &[usize]) -> usize
    requires { Counting routine.image.now n sizes.now records.now }
    ensures { result ≡ capped (node_records routine.entry.image.now n) }
{
    let node = routine.node(n);
    let digits = layout(node.kind);
    let in_a = field_records(digits / OF_A % 8, node.a, sizes, records);
    let in_b = field_records(digits / OF_B % 8, node.b, sizes, records);
    let in_c = field_records(digits % 8, node.c, sizes, records);
    (in_a + in_b + in_c).min(OVER)
}

// The records of the whole listing, up to one over the limit: those of the root's tree.
pub fn written_records(routine: Routine<'_>) -> usize
    requires { Accepted routine.image.now }
    ensures { result ≡ capped (recordsˢ (tree.routine routine.entry.image.now)) }
{
    let mut sizes = [0; 256];
    fill(
        &mut sizes,
        routine.conditions,
        |k, before| condition_size(routine, k, before),
    );
    let mut records = [0; 1024];
    let sizes: &[usize] = &sizes;
    fill(
        &mut records,
        routine.nodes,
        move |n, before| node_records(routine, n, sizes, before),
    );
    records[routine.nodes - 1]
}
