// A byte at an address corrected, once a call is sound: refused, or made and written as a step.
#![tactic(auto)]

ghost use Rattle.std.specs.Prelude.{◌+◌, ◌*◌, ◌≤◌, ◌<◌, ◌≡◌, length};
ghost use Rattle.session.specs.Session.{session_on, result_of};
ghost use Rattle.log_steps.specs.Inner.{Ready};
ghost use Rattle.corrections.specs.Corrections.{byte_at, corrected};
ghost use Rattle.byte_correction.specs.Inner.{byte_made};

use log_steps::Step;
use numbers::Refusal;
use pages::Place;
use session::{Counts, Done};
use spectrum::Machine;

// A byte at an address, through the paging of this moment.
pub fn correct_byte(
    m: Machine,
    memory: &mut [u8],
    log: &mut [u8],
    n: Counts,
    capacity: usize,
    address: u16,
    value: u8,
) -> Done
    requires { Ready memory.old log.old n capacity }
    ensures { result_of result memory.new log.new ≡ corrected (byte_at address value) (session_on m memory.old log.old n) }
{
    let place = m.place(address);
    match place {
        Place::Rom => return Done::refused(Refusal::RomAddress, m, n),
        Place::Ram { page, offset } => {
            if capacity <= n.standing {
                return Done::refused(Refusal::JournalFull, m, n);
            }
            return byte_in(m, memory, log, n, page, offset, value);
        }
    }
}

// A byte of a page, with room for its step.
fn byte_in(
    m: Machine,
    memory: &mut [u8],
    log: &mut [u8],
    n: Counts,
    page: usize,
    offset: usize,
    value: u8,
) -> Done
    requires { (page < 8) × ((offset < 16384) × ((length memory.old ≡ 131072) × ((n.standing < 4096) × (n.standing * 11 + 11 ≤ length log.old)))) }
    ensures { result_of result memory.new log.new ≡ byte_made page offset value (session_on m memory.old log.old n) }
{
    let at = page * 16384 + offset;
    let old = memory[at];
    memory[at] = value;
    let s = Step {
        tag: 1,
        size: 8,
        index: page as u8,
        offset: offset as u16,
        old: slices::byte_word(old),
        new: slices::byte_word(value),
        last: 0,
    };
    corrections::record_step(m, log, n, s)
}
