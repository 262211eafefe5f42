// Bytes written into a lent buffer. Each function writes from a position on and returns the next one.
ghost use Rattle.std.specs.Prelude.{◌≡◌, [], ◌∷◌, ◌+◌, ◌*◌, ◌≤◌, ◌<◌, length, replicate};
ghost use Rattle.matrix.specs.Plain.{AllBelow};
ghost use Rattle.encoding.specs.Bytes.{bytes, double_bytes};
ghost use Rattle.encoding.specs.Writing.{over, Wrote, EachFinite};

pub fn write_byte(out: &mut [u8], at: usize, v: u8) -> usize
    requires { at < length out.old }
    ensures { (out.new ≡ over out.old at (v ∷ [])) × (result ≡ at + 1) }
{
    out[at] = v;
    at + 1
}

// Zeros throughout.
pub fn clear_bytes(b: &mut [u8])
    ensures { b.new ≡ replicate (length b.old) 0 }
{
    b.fill(0);
}

// By elements, which becomes one store: the library's copy_from_slice asks each time whether the two places overlap.
pub fn write_number(out: &mut [u8], at: usize, v: u64) -> usize
    requires { at + 8 ≤ length out.old }
    ensures { (out.new ≡ over out.old at (bytes 8 v)) × (result ≡ at + 8) }
{
    let eight = v.to_le_bytes();
    for (k, byte) in eight.iter().enumerate() {
        out[at + k] = *byte;
    }
    at + 8
}

pub fn write_doubles(out: &mut [u8], at: usize, x: &[f64]) -> usize
    requires x_in_bounds { at + 8 * length x.now ≤ length out.old }
    requires each_finite { EachFinite x.now }
    ensures { (out.new ≡ over out.old at (double_bytes x.now)) × (result ≡ at + 8 * length x.now) }
{
    let mut next = at;
    for v in x {
        next = write_number(out, next, v.to_bits());
    }
    next
}

pub fn write_order(out: &mut [u8], at: usize, p: &[usize]) -> usize
    requires p_in_bounds { at + length p.now ≤ length out.old }
    requires all_below { AllBelow 256 p.now }
    ensures { Wrote p.now at out.old out.new result }
{
    for (k, index) in p.iter().enumerate() {
        out[at + k] = *index as u8;
    }
    at + p.len()
}
