// Viewing a page: where it lies, and the page itself as a part of the ROM or of the area.
#![tactic(auto)]

ghost use Rattle.std.specs.Prelude.{◌≡◌};
ghost use Rattle.view.specs.View.{rom_length, rom_pages, has_page, view_answer, part_for, view_of};

use numbers::{Answer, Refusal};
use pages::Model;
use spectrum::Machine;

// Where a page lies, and at which byte it starts.
#[derive(Clone, Copy)]
pub enum Part {
    Nowhere,
    InArea(usize),
    InRom(usize),
}

// The page, as a part of the ROM or of the area; an empty part where it is refused.
pub fn view<'a>(m: Machine, rom: &'a [u8], area: &'a [u8], page: u8) -> &'a [u8]
    ensures { result.now ≡ view_of m rom.now area.now page }
{
    let part = locate(m, rom.len(), area.len(), page);
    match part {
        Part::Nowhere => return &area[0..0],
        Part::InArea(start) => {
            let end = start + 16384;
            return &area[start..end];
        }
        Part::InRom(start) => {
            let end = start + 16384;
            return &rom[start..end];
        }
    }
}

// The number of a view.
pub fn answer(m: Machine, rom: usize, area: usize, page: u8) -> Answer
    ensures { result ≡ view_answer m rom area page }
{
    let model = m.model;
    if m.valid() {
        if area != 131072 {
            return Err(Refusal::MemoryLength);
        }
        if rom != rom_length(model) {
            return Err(Refusal::RomLength);
        }
        if has_page(model, page) {
            return Ok(());
        }
        return Err(Refusal::PageNotOwned);
    }
    Err(Refusal::InvalidMachine)
}

// Where a page lies in a ROM and an area of these lengths.
pub fn locate(m: Machine, rom: usize, area: usize, page: u8) -> Part
    ensures { result ≡ part_for (view_answer m rom area page) page }
{
    let said = answer(m, rom, area, page);
    match said {
        Err(_) => return Part::Nowhere,
        Ok(()) => {
            let p = page as usize;
            if p < 8 {
                return Part::InArea(p * 16384);
            }
            return Part::InRom((p - 8) * 16384);
        }
    }
}

fn rom_length(model: Model) -> usize
    ensures { result ≡ rom_length model }
{
    match model {
        Model::K48 => 16384,
        Model::K128 => 32768,
    }
}

fn rom_pages(model: Model) -> usize
    ensures { result ≡ rom_pages model }
{
    match model {
        Model::K48 => 9,
        Model::K128 => 10,
    }
}

// Whether a machine has a page of this number.
fn has_page(model: Model, page: u8) -> bool
    ensures { result ≡ has_page model page }
{
    let p = page as usize;
    if p < 8 {
        return pages::owns(model, p);
    }
    p < rom_pages(model)
}
