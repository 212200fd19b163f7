// The blocks of a file, packed one after the other into the output itself. Above block_write, through its promise alone.
#![tactic(auto)]

ghost use Rattle.std.specs.Prelude.{◌<◌, ◌≡◌, length};
ghost use Rattle.pages.specs.declared.Model.TheVariants.{K48, K128};
ghost use Rattle.pages.specs.Pages.{slots};
ghost use Rattle.packed.specs.Packing.{Packs};
ghost use Rattle.blocks_write.specs.Laid.{laid};
ghost use Rattle.blocks_write.specs.Inner.{SlotAt};

use packed::Fit;
use pages::{Model, Slot};

// All blocks, one after the other, with zeros after them. All zero where out is too short.
pub fn lay(area: &[u8], model: Model, out: &mut [u8]) -> Fit
    requires { length area.now ≡ 131072 }
    ensures { Packs (laid (slots model) area.now) (length out.old) result out.new }
{
    let n = count(model);
    let mut at = 0;
    let mut i = 0;
    while i < n {
        let slot = slot_at(model, i);
        let base = slot.page * 16384;
        let top = base + 16384;
        // a block has 16,387 bytes at the most
        let end = at + slices::least(out.len() - at, 16387);
        let fit = block_write::write_block(&area[base..top], slot.number, &mut out[at..end]);
        match fit {
            Fit::Length(k) => {
                at += k;
                i += 1;
            }
            Fit::TooShort => {
                slices::fill(out, 0);
                return Fit::TooShort;
            }
        }
    }
    slices::clear_from(out, at);
    Fit::Length(at)
}

// How many blocks a file has.
fn count(model: Model) -> usize
    ensures { result ≡ length (slots model) }
{
    match model {
        Model::K48 => 3,
        Model::K128 => 8,
    }
}

fn slot_at(model: Model, i: usize) -> Slot
    requires { i < length (slots model) }
    ensures { SlotAt model i result }
{
    match model {
        Model::K48 => slot_48(i),
        Model::K128 => slot_128(i),
    }
}

fn slot_48(i: usize) -> Slot
    requires { i < 3 }
    ensures { SlotAt K48 i result }
{
    match i {
        0 => Slot { number: 4, page: 2 },
        1 => Slot { number: 5, page: 0 },
        _ => Slot { number: 8, page: 5 },
    }
}

fn slot_128(i: usize) -> Slot
    requires { i < 8 }
    ensures { SlotAt K128 i result }
{
    Slot {
        number: (i + 3) as u8,
        page: i,
    }
}
