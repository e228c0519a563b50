// The operators on a window, from the answers of their operands that stand in the table. The operands' parts start at
// `p` and at `q`; the window's rows are counted from the first row that the table knows.
ghost use Rattle.std.specs.Prelude.{◌≡◌};
ghost use Rattle.alf.specs.Windows.{followed_by, together};
ghost use Rattle.answer_table.specs.Tables.{Inside, Operands, OperatorByte, stored, operated};

// The answer on the window from row `a` to row `b` of the part that starts at `base`.
pub fn read(table: &[u8; 65536], base: usize, a: usize, b: usize) -> u8
    requires { Inside table.now base a b }
    ensures { result ≡ stored table.now base a b }
{
    let i = base + a * 16 + (b - 1);
    table[i]
}

// `P -> Q`: over each row a + 1 + i between `a` and `b`, P up to it and Q from it on.
fn sequence(table: &[u8; 65536], p: usize, q: usize, a: usize, b: usize) -> u8
    requires { Operands table.now p q a b }
    ensures { result ≡ followed_by (stored table.now p) (stored table.now q) a b }
{
    let n = b - (a + 1);
    let mut best: u8 = 0;
    for i in 0..n {
        let x = read(table, p, a, a + 1 + i);
        let y = read(table, q, a + 1 + i, b);
        best = best.max(x.min(y));
    }
    best
}

// `P & Q`: both end at `b`, the longer starts at `a`, the shorter at each row a + i.
fn overlap(table: &[u8; 65536], p: usize, q: usize, a: usize, b: usize) -> u8
    requires { Operands table.now p q a b }
    ensures { result ≡ together (stored table.now p) (stored table.now q) a b }
{
    let x = read(table, p, a, b);
    let y = read(table, q, a, b);
    let n = b - a;
    let mut best: u8 = 0;
    for i in 0..n {
        let u = x.min(read(table, q, a + i, b));
        let v = read(table, p, a + i, b).min(y);
        best = best.max(u.max(v));
    }
    best
}

// Operator `k` of `-> <-> &> <&> & |`, bytes 50 to 55; of a vector and a condition from 56 on.
pub fn operate(k: u8, table: &[u8; 65536], p: usize, q: usize, a: usize, b: usize) -> u8
    requires operands { Operands table.now p q a b }
    requires operator_byte { OperatorByte k }
    ensures { result ≡ operated k (stored table.now p) (stored table.now q) a b }
{
    if 56 <= k {
        return read(table, p, a, b).min(read(table, q, a, b));
    }
    if k == 55 {
        return read(table, p, a, b).max(read(table, q, a, b));
    }
    if k == 54 {
        return overlap(table, p, q, a, b);
    }
    let x = sequence(table, p, q, a, b);
    if k == 50 {
        return x;
    }
    if k == 51 {
        return x.max(sequence(table, q, p, a, b));
    }
    let y = overlap(table, p, q, a, b);
    if k == 52 {
        return y.max(x);
    }
    x.max(y).max(sequence(table, q, p, a, b))
}
