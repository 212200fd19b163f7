// Undo and redo, once a call is sound: the value of a step put back where the step points, or put there again.
#![tactic(auto)]

ghost use Rattle.std.specs.Prelude.{ℕ, ◌≡◌, List};
ghost use Rattle.session.specs.Session.{session_on, result_of};
ghost use Rattle.log_steps.specs.Inner.{Ready};
ghost use Rattle.undo.specs.Undo.{moved, undo_of, redo_of};

use log_steps::Step;
use numbers::Refusal;
use session::{Counts, Done};
use spectrum::Machine;

// The last standing correction taken back.
pub fn undo(m: Machine, memory: &mut [u8], log: &[u8], n: Counts, capacity: usize) -> Done
    requires { Ready memory.old log.now n capacity }
    ensures { result_of result memory.new log.now ≡ undo_of (session_on m memory.old log.now n) }
{
    let standing = n.standing;
    if standing == 0 {
        return Done::refused(Refusal::NothingToMove, m, n);
    }
    let s = log_steps::step_at(log, standing - 1);
    moved_to(m, memory, n, s, s.new, s.old, n.back())
}

// The first waiting correction made again.
pub fn redo(m: Machine, memory: &mut [u8], log: &[u8], n: Counts, capacity: usize) -> Done
    requires { Ready memory.old log.now n capacity }
    ensures { result_of result memory.new log.now ≡ redo_of (session_on m memory.old log.now n) }
{
    let standing = n.standing;
    if standing < n.total {
        let s = log_steps::step_at(log, standing);
        return moved_to(m, memory, n, s, s.old, s.new, n.forward());
    }
    Done::refused(Refusal::NothingToMove, m, n)
}

// v put where the step points, if it is intact and `was` stands there; then the numbers are `next`. The log is not looked at.
fn moved_to(
    m: Machine,
    memory: &mut [u8],
    n: Counts,
    s: Step,
    was: u16,
    v: u16,
    next: Counts,
) -> Done
    requires { next.total ≡ n.total }
    ensures { (log : List ℕ) → result_of result memory.new log ≡ moved (session_on m memory.old log n) s was v next.standing }
{
    let model = m.model;
    if step_places::is_intact(model, s) {
        let there = step_places::present_at(m, memory, s);
        if there == was {
            return Done::accepted(step_places::put_value(m, memory, s, v), next);
        }
        return Done::refused(Refusal::StepDamaged, m, n);
    }
    Done::refused(Refusal::StepDamaged, m, n)
}
