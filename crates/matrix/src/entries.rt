// Entries of a matrix, and lists filled with one value. A matrix is its list of entries with n beside it: the definitions take these two.
// A struct of both would save the premise `Square`, but its clauses would read `m.now.n m.now.entries.now`, and around a buffer that is
// written to each function would have a clause more for every buffer, that it is still the one lent.
ghost use Rattle.std.specs.Prelude.{◌≡◌, ◌+◌, ◌*◌, ◌<◌, ◌≤◌, length};
ghost use Rattle.matrix.specs.Matrix.{at, put, zeros, Square};

// Where entry (i, j) of n rows lies.
pub fn cell(n: usize, i: usize, j: usize) -> usize
    requires { (n ≤ 48) × (i < n) × (j < n) }
    ensures { (result ≡ i * n + j) × (result < n * n) }
{
    i * n + j
}

pub fn get(m: &[f64], n: usize, i: usize, j: usize) -> f64
    requires square { Square n m.now }
    requires i_lt_n { (i < n) × (j < n) }
    ensures { result ≡ at n m.now i j }
{
    m[cell(n, i, j)]
}

pub fn put(m: &mut [f64], n: usize, i: usize, j: usize, v: f64)
    requires square { Square n m.old }
    requires i_lt_n { (i < n) × (j < n) }
    ensures { m.new ≡ put n m.old i j v }
{
    m[cell(n, i, j)] = v;
}

// +0.0 throughout.
pub fn clear(l: &mut [f64])
    ensures { l.new ≡ zeros (length l.old) }
{
    l.fill(0.0);
}
