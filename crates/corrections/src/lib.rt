// A register pair and the last OUT corrected, once a call is sound: refused, or made and written as a step; the step of every correction.
#![tactic(auto)]

ghost use Rattle.std.specs.Prelude.{◌+◌, ◌*◌, ◌≤◌, ◌<◌, ◌≡◌, length};
ghost use Rattle.numbers.specs.Numbers.{accepted};
ghost use Rattle.log_steps.specs.Steps.{put_step};
ghost use Rattle.session.specs.Session.{session_on, result_of};
ghost use Rattle.log_steps.specs.Inner.{Ready};
ghost use Rattle.corrections.specs.Corrections.{pair_to, out_to, corrected};

use log_steps::Step;
use numbers::Refusal;
use pages::Model;
use session::{Counts, Done};
use spectrum::Machine;

// A register pair.
pub fn correct_pair(
    m: Machine,
    memory: &[u8],
    log: &mut [u8],
    n: Counts,
    capacity: usize,
    pair: u8,
    value: u16,
) -> Done
    requires { Ready memory.now log.old n capacity }
    ensures { result_of result memory.now log.new ≡ corrected (pair_to pair value) (session_on m memory.now log.old n) }
{
    if 11 < pair {
        return Done::refused(Refusal::PairNumber, m, n);
    }
    if capacity <= n.standing {
        return Done::refused(Refusal::JournalFull, m, n);
    }
    let p = pair as usize;
    let old = m.pair(p);
    let s = Step {
        tag: 2,
        size: 8,
        index: pair,
        offset: 0,
        old: old,
        new: value,
        last: 0,
    };
    record_step(m.with_pair(p, value), log, n, s)
}

// The last OUT to 7FFD.
pub fn correct_out(
    m: Machine,
    memory: &[u8],
    log: &mut [u8],
    n: Counts,
    capacity: usize,
    value: u8,
) -> Done
    requires { Ready memory.now log.old n capacity }
    ensures { result_of result memory.now log.new ≡ corrected (out_to value) (session_on m memory.now log.old n) }
{
    let model = m.model;
    match model {
        Model::K48 => return Done::refused(Refusal::OutOn48k, m, n),
        Model::K128 => {
            if m.out7ffd / 32 % 2 == 1 {
                return Done::refused(Refusal::PagingLocked, m, n);
            }
            if capacity <= n.standing {
                return Done::refused(Refusal::JournalFull, m, n);
            }
            let s = Step {
                tag: 3,
                size: 8,
                index: 0,
                offset: 0,
                old: slices::byte_word(m.out7ffd),
                new: slices::byte_word(value),
                last: 0,
            };
            return record_step(m.with_out(value), log, n, s);
        }
    }
}

// The end of each correction: its step is written, and it is the last.
pub fn record_step(m: Machine, log: &mut [u8], n: Counts, s: Step) -> Done
    requires { (n.standing < 4096) × (n.standing * 11 + 11 ≤ length log.old) }
    ensures { (result ≡ record { answer = accepted; machine = m; counts = record { standing = n.standing + 1; total = n.standing + 1 } }) × (log.new ≡ put_step log.old n.standing s) }
{
    let k = n.standing;
    log_steps::put_step(log, k, s);
    Done::accepted(m, n.added())
}
