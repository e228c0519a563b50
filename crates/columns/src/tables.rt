// The answers of tests by the states before and after: one table of 64 entries for each test.
ghost use Rattle.std.specs.Prelude.{◌≡◌, ◌+◌, ◌≤◌, length};
ghost use Rattle.columns.specs.Passes.{Over};
ghost use Rattle.columns.specs.Columns.{table_at, TablesAsked, Tables};

use states::edges::edge_on;

// Edge k: entry 8 * before + after, from `base` on.
fn put_table(k: u8, tables: &mut [u8], base: usize)
    requires { base + 64 ≤ length tables.old }
    ensures { Over tables.old base 64 (table_at k) tables.new }
{
    for q in 0..64 {
        let x = (q / 8) as u8;
        let y = (q % 8) as u8;
        tables[base + q] = edge_on(k, x, y);
    }
}

// The tables of the first n edges, one after the other.
pub fn put_tables(edges: &[u8], n: usize, tables: &mut [u8])
    requires { TablesAsked edges.now n tables.old }
    ensures { Tables edges.now n tables.new }
{
    for c in 0..n {
        put_table(edges[c], tables, c * 64);
    }
}
