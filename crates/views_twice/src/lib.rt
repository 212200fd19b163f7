// Demand 1 of the functions that a C program calls: each call made twice on buffers that differ only in what is to be overwritten.
#![tactic(auto)]

ghost use Rattle.std.specs.Prelude.{length};
ghost use Rattle.view_bytes.specs.Views.{show_of};
ghost use Rattle.views_twice.specs.ViewsTwice.{ViewsTwo, LogStartsTwo};

use numbers::TwoNumbers;

// One page viewed twice.
pub fn view_two(
    head: &[u8],
    rom: &[u8],
    area: &[u8],
    page: u8,
    in_rom: &mut u8,
    start: &mut u64,
    span: &mut u64,
    rom2: &mut u8,
    start2: &mut u64,
    span2: &mut u64,
) -> TwoNumbers
    ensures { ViewsTwo (show_of head.now (length rom.now) (length area.now) page) result in_rom.new start.new span.new rom2.new start2.new span2.new }
{
    let seen = snapshot::snap_view(head, rom, area, page, in_rom, start, span);
    let seen_again = snapshot::snap_view(head, rom, area, page, rom2, start2, span2);
    TwoNumbers {
        one: seen,
        other: seen_again,
    }
}

// Two logs started.
pub fn start_two(
    log: &mut [u8],
    standing: &mut u64,
    total: &mut u64,
    log2: &mut [u8],
    standing2: &mut u64,
    total2: &mut u64,
) -> TwoNumbers
    ensures { LogStartsTwo (length log.old) (length log2.old) result log.new standing.new total.new log2.new standing2.new total2.new }
{
    let started = snapshot::snap_log_start(log, standing, total);
    let restarted = snapshot::snap_log_start(log2, standing2, total2);
    TwoNumbers {
        one: started,
        other: restarted,
    }
}
