// The answers of a test on the events of rows one after the other: a column.
ghost use Rattle.columns.specs.Columns.{NameAsked, name_from, SpeltAsked, looked_at, ColumnAsked, Column};
ghost use Rattle.columns.specs.Columns.{ColumnsAsked, Columns};
ghost use Rattle.columns.specs.Passes.{Over};
ghost use Rattle.std.specs.Prelude.{get_or};

use alf::Rules;
use state_columns::spelling::spell;

// Of the name whose state at the first row is at `at`: n answers by the table from `base` on, to the columns from o on.
fn ask_name(
    tables: &[u8],
    base: usize,
    states: &[u8],
    names: usize,
    at: usize,
    n: usize,
    cols: &mut [u8],
    o: usize,
)
    requires { NameAsked tables.now base states.now names at n cols.old o }
    ensures { Over cols.old o n
        (looked_at tables.now base (name_from states.now names at)) cols.new }
{
    let mut p = at;
    let mut before = states[at] as usize;
    for i in 0..n {
        p += names;
        let after = states[p] as usize;
        cols[o + i] = tables[base + (8 * before + after)];
        before = after;
    }
}

// Of the states of an expression.
fn ask_spelt(tables: &[u8], base: usize, spelt: &[u8; 5205], n: usize, cols: &mut [u8], o: usize)
    requires { SpeltAsked tables.now base spelt.now n cols.old o }
    ensures { Over cols.old o n
        (looked_at tables.now base (λ i. get_or spelt.now i 0)) cols.new }
{
    let mut before = spelt[0] as usize;
    for i in 0..n {
        let after = spelt[i + 1] as usize;
        cols[o + i] = tables[base + (8 * before + after)];
        before = after;
    }
}

// Of the expression that ends at `end`, on the n events from row lo on.
fn ask_expression(
    rules: Rules,
    tree: &[u8],
    names: usize,
    states: &[u8],
    end: usize,
    lo: usize,
    n: usize,
    tables: &[u8],
    base: usize,
    cols: &mut [u8],
    o: usize,
)
    requires { ColumnAsked tree.now names states.now end lo n tables.now base cols.old o }
    ensures { Column rules tree.now names states.now end lo n tables.now base
        cols.old o cols.new }
{
    let mut spelt: [u8; 5205] = [0; 5205];
    spell(rules, tree, end, states, names, lo, n + 1, &mut spelt, 0);
    ask_spelt(tables, base, &spelt, n, cols, o);
}

// Of the operand that ends at `end`: a name's states stand in the trace.
fn put_column(
    rules: Rules,
    tree: &[u8],
    names: usize,
    states: &[u8],
    end: usize,
    lo: usize,
    n: usize,
    tables: &[u8],
    base: usize,
    cols: &mut [u8],
    o: usize,
)
    requires { ColumnAsked tree.now names states.now end lo n tables.now base cols.old o }
    ensures { Column rules tree.now names states.now end lo n tables.now base
        cols.old o cols.new }
{
    let b = tree[end - 1];
    if b < 32 {
        let place = lo * names + b as usize;
        ask_name(tables, base, states, names, place, n, cols, o);
        return;
    }
    ask_expression(
        rules, tree, names, states, end, lo, n, tables, base, cols, o,
    );
}

// Of the first `many` operands, each in a column of 1,040 entries.
pub fn put_columns(
    rules: Rules,
    tree: &[u8],
    names: usize,
    states: &[u8],
    ends: &[u16],
    many: usize,
    lo: usize,
    n: usize,
    tables: &[u8],
    cols: &mut [u8],
)
    requires { ColumnsAsked tree.now names states.now ends.now many lo n tables.now cols.old }
    ensures { Columns rules tree.now names states.now ends.now many lo n
        tables.now cols.new }
{
    for c in 0..many {
        let end = ends[c] as usize;
        put_column(
            rules,
            tree,
            names,
            states,
            end,
            lo,
            n,
            tables,
            c * 64,
            cols,
            c * 1040,
        );
    }
}
