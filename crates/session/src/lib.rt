// What a call of the correction log is lent and leaves: the log's two numbers, and what a call gives beside memory and log.
#![tactic(auto)]

ghost use Rattle.std.specs.Prelude.{◌+◌, ◌-◌, ◌<◌, ◌≡◌};
ghost use Rattle.numbers.specs.Numbers.{accepted};

use numbers::{Answer, Refusal};
use spectrum::Machine;

// The log's two numbers: how many corrections stand, and how many stand or wait.
#[derive(Clone, Copy)]
pub struct Counts {
    pub standing: usize,
    pub total: usize,
}

// What a call gives beside memory and log. The machine stands first, for the reason given at `DecodedHeader` of header_canonical.
#[derive(Clone, Copy)]
pub struct Done {
    pub machine: Machine,
    pub counts: Counts,
    pub answer: Answer,
}

impl Counts {
    // One more stands, and none waits.
    pub fn added(self) -> Counts
        requires { self.standing < 4096 }
        ensures { result ≡ record { standing = self.standing + 1; total = self.standing + 1 } }
    {
        Counts {
            standing: self.standing + 1,
            total: self.standing + 1,
        }
    }

    // The last that stands is the first to wait.
    pub fn back(self) -> Counts
        requires { 0 < self.standing }
        ensures { result ≡ record { standing = self.standing - 1; total = self.total } }
    {
        Counts {
            standing: self.standing - 1,
            total: self.total,
        }
    }

    // The first to wait is the last that stands.
    pub fn forward(self) -> Counts
        requires { self.standing < self.total }
        ensures { result ≡ record { standing = self.standing + 1; total = self.total } }
    {
        Counts {
            standing: self.standing + 1,
            total: self.total,
        }
    }
}

impl Done {
    // Refused: machine and numbers as they were.
    pub fn refused(why: Refusal, m: Machine, n: Counts) -> Done
        ensures { result ≡ record { answer = Err why; machine = m; counts = n } }
    {
        Done {
            answer: Err(why),
            machine: m,
            counts: n,
        }
    }

    pub fn accepted(m: Machine, n: Counts) -> Done
        ensures { result ≡ record { answer = accepted; machine = m; counts = n } }
    {
        Done {
            answer: Ok(()),
            machine: m,
            counts: n,
        }
    }
}
