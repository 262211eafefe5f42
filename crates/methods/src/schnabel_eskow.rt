// Values of SE90 and SE99.
use matrix::utils::Eigen;

// The two methods of Schnabel and Eskow: an enum and no trait, since the definitions go by its cases.
#[derive(Clone, Copy)]
pub enum Variant {
    Se90,
    Se99,
}

// The constants that steer them; SE90 reads tau alone.
#[derive(Clone, Copy)]
pub struct Tolerances {
    pub tau: f64,
    pub tau_bar: f64,
    pub mu: f64,
}

// What a run's steps have in common: gamma is the largest magnitude on the diagonal of the matrix given, and numbers settle ties.
#[derive(Clone, Copy)]
pub struct Parameters<'a> {
    pub variant: Variant,
    pub tolerances: Tolerances,
    pub gamma: f64,
    pub numbers: &'a [u32],
}

// What phase two adds last: one amount, or two eigenvalues with a shared amount.
#[derive(Clone, Copy)]
pub enum Last {
    One(f64),
    Pair(Eigen, f64),
}
