// The correction log's calls: a machine and the log's two numbers go in by value and come back; memory and log are lent. A file opened for
// correction is read and gets a log.
#![tactic(auto)]

ghost use Rattle.std.specs.Prelude.{◌≡◌, length, replicate};
ghost use Rattle.session.specs.Session.{session_on, result_of};
ghost use Rattle.journal.specs.Journal.{soundness, journal_call, start_counts, open_of, scs_open_of};

use five_calls::Call;
use numbers::{Answer, Refusal};
use session::{Counts, Done};
use spectrum::Machine;

// A log just started: every byte zero, no correction.
pub fn start(log: &mut [u8]) -> Counts
    ensures { (result ≡ start_counts) × (log.new ≡ replicate (length log.old) 0) }
{
    slices::fill(log, 0);
    Counts {
        standing: 0,
        total: 0,
    }
}

// A .Z80 file opened for correction: read into the area, and a log started. Refused, the machine is blank, area and log are all zero and
// both numbers are 0.
pub fn open(file: &[u8], area: &mut [u8], log: &mut [u8]) -> Done
    ensures { result_of result area.new log.new ≡ open_of file.now (length area.old) (length log.old) }
{
    let opened = z80read::read(file, area);
    let answer = opened.answer;
    let machine = opened.machine;
    Done {
        answer: answer,
        machine: machine,
        counts: start(log),
    }
}

// An SCS file opened for correction, in the same way.
pub fn open_scs(file: &[u8], area: &mut [u8], log: &mut [u8]) -> Done
    ensures { result_of result area.new log.new ≡ scs_open_of file.now (length area.old) (length log.old) }
{
    let read = scs_read::read(file, area);
    let said = read.answer;
    let saved = read.machine;
    let counts = start(log);
    Done {
        answer: said,
        machine: saved,
        counts: counts,
    }
}

// One call. Refused, nothing is changed.
pub fn call_on(m: Machine, memory: &mut [u8], log: &mut [u8], n: Counts, call: Call) -> Done
    ensures { result_of result memory.new log.new ≡ journal_call call (session_on m memory.old log.old n) }
{
    let capacity = log_steps::capacity_of(log);
    let first = soundness_of(m, memory.len(), capacity, n);
    match first {
        Err(why) => return Done::refused(why, m, n),
        Ok(()) => return five_calls::sound_call(m, memory, log, n, capacity, call),
    }
}

// 20, 21, 29: what every call looks at first.
fn soundness_of(m: Machine, area: usize, capacity: usize, n: Counts) -> Answer
    ensures { result ≡ soundness m area capacity n.standing n.total }
{
    if m.valid() {
        if area != 131072 {
            return Err(Refusal::MemoryLength);
        }
        if n.standing <= n.total {
            if n.total <= capacity {
                return Ok(());
            }
            return Err(Refusal::CountsDisagree);
        }
        return Err(Refusal::CountsDisagree);
    }
    Err(Refusal::InvalidMachine)
}
