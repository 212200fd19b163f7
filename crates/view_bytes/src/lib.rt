// A view over bytes: the machine crosses as its header.
#![tactic(auto)]

ghost use Rattle.std.specs.Prelude.{length};
ghost use Rattle.view_bytes.specs.Views.{Shows, show_of};

use numbers::Refusal;
use view::Part;

// Where a page lies: in the ROM or in the area, from which byte on, and how long.
pub fn view(
    head: &[u8],
    rom: &[u8],
    area: &[u8],
    page: u8,
    in_rom: &mut u8,
    start: &mut u64,
    span: &mut u64,
) -> u32
    ensures { Shows (show_of head.now (length rom.now) (length area.now) page) result in_rom.new start.new span.new }
{
    *in_rom = 0;
    *start = 0;
    *span = 0;
    let decoded = header_canonical::decode_header(head);
    if decoded.canonical {
        let m = decoded.machine;
        let part = view::locate(m, rom.len(), area.len(), page);
        let answer = view::answer(m, rom.len(), area.len(), page);
        match part {
            Part::Nowhere => return numbers::number(answer),
            Part::InArea(from) => {
                *start = from as u64;
                *span = 16384;
                return numbers::number(answer);
            }
            Part::InRom(from) => {
                *in_rom = 1;
                *start = from as u64;
                *span = 16384;
                return numbers::number(answer);
            }
        }
    }
    numbers::number(Err(Refusal::InvalidMachine))
}
