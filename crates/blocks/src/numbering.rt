// Which tests are the same: each test gets the number of its column.
ghost use Rattle.std.specs.Prelude.{◌≡◌};
ghost use Rattle.blocks.specs.Numbering.{OperandAt, Same, FindAsked, Found, AddAsked, Added};
ghost use Rattle.blocks.specs.Numbering.{NumberAsked, Numbered};

use alternatives::lists::Lists;

// Whether the operands that end at x and y are seen to be the same: one place, or one name at two.
fn same_operand(tree: &[u8], x: usize, y: usize) -> bool
    requires { OperandAt tree.now x × OperandAt tree.now y }
    ensures { Same tree.now x y result }
{
    if x == y {
        return true;
    }
    let a = tree[x - 1];
    if 32 <= a {
        return false;
    }
    a == tree[y - 1]
}

// The first of the columns whose test is edge k of the operand that ends at `end`; `many` if there is none.
fn find(tree: &[u8], kinds: &[u8], ends: &[u16], many: usize, k: u8, end: usize) -> usize
    requires { FindAsked tree.now kinds.now ends.now many end }
    ensures { Found tree.now kinds.now ends.now many k end result }
{
    for c in 0..many {
        if kinds[c] == k {
            if same_operand(tree, ends[c] as usize, end) {
                return c;
            }
        }
    }
    many
}

// A test that has none of the `many` columns gets the next one, c; gives how many there are then.
fn add(kinds: &mut [u8], ends: &mut [u16], many: usize, c: usize, k: u8, end: u16) -> usize
    requires { AddAsked kinds.old ends.old many c }
    ensures { Added kinds.old ends.old many c k end kinds.new
        ends.new result }
{
    if c < many {
        return many;
    }
    kinds[c] = k;
    ends[c] = end;
    c + 1
}

// The columns of all tests: their edges, the ends of their operands, and for each test the number of its column. Gives
// how many there are; 65 if 64 are not enough.
pub fn number(
    tree: &[u8],
    lists: &Lists,
    kinds: &mut [u8],
    ends: &mut [u16],
    slots: &mut [u8],
) -> usize
    requires { NumberAsked tree.now lists.now.edges.now lists.now.operands.now kinds.old ends.old slots.old }
    ensures { Numbered tree.now lists.now.edges.now lists.now.operands.now kinds.new
        ends.new slots.new result }
{
    let mut many: usize = 0;
    for t in 0..lists.edges.len() {
        let k = lists.edges[t];
        let end = lists.operands[t];
        let c = find(tree, kinds, ends, many, k, end as usize);
        if c == 64 {
            return 65;
        }
        many = add(kinds, ends, many, c, k, end);
        slots[t] = c as u8;
    }
    many
}
