// What a factorization hands back beside the factor, the amounts and the pivot order.
use arithmetic::refusal::Refusal;

// The Rust's Decomposition; L, e and p are in the lent buffers. An outcome with values beside it, since the marks stand beside refusal 9 too.
#[derive(Clone, Copy)]
pub struct Decomposition {
    pub outcome: Result<(), Refusal>,
    // The first step whose pivot search was tied.
    pub tied: Option<usize>,
    // The step at which SE90 or SE99 left phase one.
    pub phase2: Option<usize>,
    // How many of the n diagonal roots are inexact; 0 beside a refusal.
    pub inexact: usize,
}
