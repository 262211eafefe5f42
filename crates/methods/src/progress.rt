// What a run of any method holds beside its lists. Its changes stand here alone, so that the runs need not name its fields.
ghost use Rattle.std.specs.Prelude.{◌≡◌, ◌+◌, ◌≤◌};
ghost use Rattle.methods.specs.Progress.{begun, searched, left, stored, counted, one_if, kept, stopped};
ghost use Rattle.methods.specs.Result.{reported};

use crate::decomposition::Decomposition;
use arithmetic::refusal::Refusal;

#[derive(Clone, Copy)]
pub struct Progress {
    // The last amount above zero that phase two added.
    pub delta_prev: f64,
    // The first step whose pivot search was tied.
    pub tied: Option<usize>,
    // The step at which SE90 or SE99 left phase one.
    pub phase2: Option<usize>,
    // The first step that stored a value that isn't finite.
    pub refused: Option<usize>,
    // How many of the diagonal roots taken so far are inexact.
    pub inexact: usize,
}

// What a step stored: whether it is finite, and how many of its roots are inexact.
#[derive(Clone, Copy)]
pub struct Stores {
    pub ok: bool,
    pub inexact: usize,
}

#[tactic(auto, unfolding(crate::specs::Progress::one_if))]
// By the name that the definitions have for it.
pub fn one_if(flag: bool) -> usize
    ensures { result ≡ one_if flag }
{
    usize::from(flag)
}

impl Progress {
    pub fn begun() -> Progress
        ensures { result ≡ begun }
    {
        Progress {
            delta_prev: 0.0,
            tied: None,
            phase2: None,
            refused: None,
            inexact: 0,
        }
    }

    // Step j has searched its pivot.
    pub fn searched(self, tie: bool, j: usize) -> Progress
        ensures { result ≡ searched tie j self }
    {
        Progress {
            tied: self.tied.or(tie.then_some(j)),
            ..self
        }
    }

    // Phase one is left at step j.
    pub fn left(self, j: usize) -> Progress
        ensures { result ≡ left j self }
    {
        Progress {
            phase2: self.phase2.or(Some(j)),
            ..self
        }
    }

    // Step j has stored values; ok: whether they are finite.
    pub fn stored(self, ok: bool, j: usize) -> Progress
        ensures { result ≡ stored ok j self }
    {
        Progress {
            refused: self.refused.or((!ok).then_some(j)),
            ..self
        }
    }

    // Step j has stored values, roots on the diagonal among them.
    pub fn rooted(self, stores: Stores, j: usize) -> Progress
        requires { self.inexact + stores.inexact ≤ 48 }
        ensures { result ≡ stored stores.ok j (counted stores.inexact self) }
    {
        Progress {
            inexact: self.inexact + stores.inexact,
            ..self
        }
        .stored(stores.ok, j)
    }

    // Phase two has added the amount e.
    pub fn kept(self, e: f64) -> Progress
        ensures { result ≡ kept e self }
    {
        Progress {
            delta_prev: if e > 0.0 { e } else { self.delta_prev },
            ..self
        }
    }

    // Whether phase one was left or a step refused.
    pub fn stopped(self) -> bool
        ensures { result ≡ stopped self }
    {
        self.phase2.is_some() || self.refused.is_some()
    }

    // What is reported of it: a refused run counts no roots.
    pub fn reported(self) -> Decomposition
        ensures { result ≡ reported self }
    {
        let (outcome, inexact) = match self.refused {
            None => (Ok(()), self.inexact),
            Some(step) => (Err(Refusal::StoredNotFinite { step }), 0),
        };
        Decomposition {
            outcome,
            tied: self.tied,
            phase2: self.phase2,
            inexact,
        }
    }
}
