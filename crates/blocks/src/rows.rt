// The rows of a block: columns are made for the events that lead to them, and the alternatives are met with these.
ghost use Rattle.blocks.specs.Rows.{PrepareAsked, PreparedOr, AnswerAskedOn, AnsweredOn, Suits};

use crate::meeting::match_block;
use crate::numbering::number;
use alternatives::lists::Lists;
use alternatives::walking::longest;
use columns::tables::put_tables;
use columns::tests::put_columns;
use matcher::scenes::Scene;

// The columns of all tests: the ends of their operands, for each test the number of its column, how many columns there
// are, and their tables.
#[derive(Clone, Copy)]
pub struct Columns<'a> {
    pub ends: &'a [u16],
    pub slots: &'a [u8],
    pub many: usize,
    pub tables: &'a [u8],
}

// The columns of all tests with their tables: how many there are, or 65 if 64 are not enough.
pub fn prepare(
    tree: &[u8],
    lists: &Lists,
    kinds: &mut [u8],
    ends: &mut [u16],
    slots: &mut [u8],
    tables: &mut [u8],
) -> usize
    requires { PrepareAsked tree.now lists.now.edges.now lists.now.operands.now kinds.old ends.old
        slots.old tables.old }
    ensures { PreparedOr tree.now lists.now.edges.now lists.now.operands.now ends.new
        slots.new tables.new result }
{
    let many = number(tree, lists, kinds, ends, slots);
    if many < 65 {
        put_tables(kinds, many, tables);
    }
    many
}

// The best answers at the m rows from `from` on, and how many alternatives are tried.
pub fn answer_block(
    scene: &Scene,
    lists: &Lists,
    columns: &Columns,
    from: usize,
    m: usize,
    cols: &mut [u8],
    best: &mut [u8],
    tries: &mut [u8],
)
    requires { AnswerAskedOn scene.now lists.now columns.now from m cols.old best.old tries.old }
    ensures { AnsweredOn scene.now lists.now columns.now from m
        best.new tries.new }
{
    put_columns(
        scene.rules,
        scene.tree,
        scene.names,
        scene.states,
        columns.ends,
        columns.many,
        from - 16,
        m + 15,
        columns.tables,
        cols,
    );
    let mut acc: [u8; 1024] = [0; 1024];
    match_block(lists, columns.slots, cols, m, &mut acc, best, tries);
}

// Whether columns suit: at least 64 rows, at most 4,096 tests, and no alternative of over 16 steps.
pub fn suits(lists: &Lists, n: usize) -> bool
    ensures { Suits lists.now.steps.now lists.now.edges.now n result }
{
    64 <= n && lists.edges.len() <= 4096 && longest(lists.steps) <= 16
}
