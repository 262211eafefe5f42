// Values of GMW81.

// A step's values: d[j], e[j] and the pivot after j.
#[derive(Clone, Copy)]
pub struct StepValues {
    pub d: f64,
    pub e: f64,
    pub pivot: usize,
}
