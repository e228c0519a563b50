// What a tree is: a boolean expression, a vector expression, or neither.
ghost use Rattle.std.specs.Prelude.{◌≡◌, ◌-◌, ◌≤◌, length, get_or};
ghost use Rattle.trees.specs.Sorts.{leaf_kind, one_kind, pair_kind, three_kind, made_sort, made};
ghost use Rattle.trees.specs.Sorts.{Operator, Ending, tree_kind};

use alf::Sort;

// What the bytes before a place end with: an expression of a sort, and where it starts.
#[derive(Clone, Copy)]
pub struct Part {
    pub sort: Sort,
    pub start: usize,
}

#[tactic(auto, unfolding(crate::specs::Sorts::leaf_kind))]
fn leaf_kind(b: u8, names: usize) -> Option<Sort>
    ensures { result ≡ leaf_kind names b }
{
    if b < 32 && names <= b as usize {
        return None;
    }
    Some(Sort::Boolean)
}

#[tactic(auto, unfolding(crate::specs::Sorts::one_kind, crate::specs::Sorts::given, crate::specs::Sorts::boolean_sort, crate::specs::Sorts::vector_sort))]
fn one_kind(b: u8, right: Sort) -> Option<Sort>
    ensures { result ≡ one_kind b right }
{
    match (b, right) {
        (0..=146, Sort::Boolean) => Some(Sort::Vector),
        (147, Sort::Boolean) => Some(Sort::Boolean),
        _ => None,
    }
}

#[tactic(auto, unfolding(crate::specs::Sorts::pair_kind, crate::specs::Sorts::given, crate::specs::Sorts::boolean_sort, crate::specs::Sorts::vector_sort))]
fn pair_kind(b: u8, left: Sort, right: Sort) -> Option<Sort>
    ensures { result ≡ pair_kind b left right }
{
    match (b, left, right) {
        (0..=49, Sort::Boolean, Sort::Boolean) => Some(Sort::Boolean),
        (50..=55, Sort::Vector, Sort::Vector) => Some(Sort::Vector),
        (56, Sort::Vector, Sort::Boolean) => Some(Sort::Vector),
        (57, Sort::Boolean, Sort::Vector) => Some(Sort::Vector),
        _ => None,
    }
}

#[tactic(auto, unfolding(crate::specs::Sorts::three_kind, crate::specs::Sorts::given, crate::specs::Sorts::boolean_sort))]
fn three_kind(b: u8, first: Sort, left: Sort, right: Sort) -> Option<Sort>
    ensures { result ≡ three_kind b first left right }
{
    match (b, first, left, right) {
        (60, Sort::Boolean, Sort::Boolean, Sort::Boolean) => Some(Sort::Boolean),
        _ => None,
    }
}

// The sort of an expression with an operator as its last byte.
#[tactic(auto, unfolding(crate::specs::Sorts::made_sort))]
fn made_sort(b: u8) -> Sort
    ensures { result ≡ made_sort b }
{
    if b < 50 || b == 60 || b == 147 {
        return Sort::Boolean;
    }
    Sort::Vector
}

// What the bytes before `end` end with; nothing where that is no expression. A leaf is looked at without a call, and
// where an expression starts fits a register, which a part does not.
#[cycle(part)]
#[inline(always)]
pub fn part_of(tree: &[u8], end: usize, names: usize) -> Option<Part>
    requires { end ≤ length tree.now }
    ensures { Ending tree.now names end result }
{
    if end == 0 {
        return None;
    }
    let at = end - 1;
    let b = tree[at];
    if b < 40 {
        let sort = leaf_kind(b, names)?;
        return Some(Part { sort, start: at });
    }
    let start = start_of_made(tree, end, names)?;
    Some(Part {
        sort: made_sort(b),
        start,
    })
}

// Where the expression starts that the bytes before `end` end with; the last of them is an operator.
#[cycle(part)]
fn start_of_made(tree: &[u8], end: usize, names: usize) -> Option<usize>
    requires { Operator tree.now end }
    ensures { Ending tree.now names end (made (get_or tree.now (end - 1) 0) result) }
{
    let at = end - 1;
    let b = tree[at];
    let right = part_of(tree, at, names)?;
    if 64 <= b {
        one_kind(b, right.sort)?;
        return Some(right.start);
    }
    let left = part_of(tree, right.start, names)?;
    if b < 60 {
        pair_kind(b, left.sort, right.sort)?;
        return Some(left.start);
    }
    let first = part_of(tree, left.start, names)?;
    three_kind(b, first.sort, left.sort, right.sort)?;
    Some(first.start)
}

// What a tree is over a number of names; none where it is neither.
pub fn kind_of(tree: &[u8], names: usize) -> Option<Sort>
    ensures { result ≡ tree_kind tree.now names }
{
    let whole = part_of(tree, tree.len(), names)?;
    if whole.start != 0 {
        return None;
    }
    Some(whole.sort)
}
