// Numbers, doubles, contract numbers and indices read from bytes.
ghost use Rattle.std.specs.Prelude.{◌≡◌, true, ℕ, ◌+◌, ◌*◌, ◌<◌, ◌≤◌, length, get_or, take, drop};
ghost use Rattle.std.specs.Float.{nan};
ghost use Rattle.std.specs.Float.Ieee.Scale.{finite};
ghost use Rattle.encoding.specs.Bytes.{low_first, doubles, numbers};

// The number of the eight bytes from `at` on.
pub fn read_number(b: &[u8], at: usize) -> u64
    requires { at + 8 ≤ length b.now }
    ensures { result ≡ low_first (take 8 (drop at b.now)) }
{
    u64::from_le_bytes(b[at..at + 8].try_into().unwrap())
}

pub fn read_doubles(b: &[u8], a: &mut [f64])
    requires b_len { length b.now ≡ 8 * length a.old }
    requires by_index { (k : ℕ) → k < length a.old → finite (get_or (doubles b.now) k nan) ≡ true }
    ensures { a.new ≡ doubles b.now }
{
    for (k, x) in a.iter_mut().enumerate() {
        *x = f64::from_bits(read_number(b, 8 * k));
    }
}

// The number of the four bytes from `at` on.
pub fn read_contract_number(b: &[u8], at: usize) -> u32
    requires { at + 4 ≤ length b.now }
    ensures { result ≡ low_first (take 4 (drop at b.now)) }
{
    u32::from_le_bytes(b[at..at + 4].try_into().unwrap())
}

pub fn read_numbers(b: &[u8], out: &mut [u32])
    requires { length b.now ≡ 4 * length out.old }
    ensures { out.new ≡ numbers b.now }
{
    for (k, number) in out.iter_mut().enumerate() {
        *number = read_contract_number(b, 4 * k);
    }
}

// One byte for each index.
pub fn read_order(b: &[u8], p: &mut [usize])
    requires { length b.now ≡ length p.old }
    ensures { p.new ≡ b.now }
{
    for (k, index) in p.iter_mut().enumerate() {
        *index = usize::from(b[k]);
    }
}
