// The RAM pages that a machine owns, and where an address leads.
#![tactic(auto)]

ghost use Rattle.std.specs.Prelude.{◌≡◌};
ghost use Rattle.pages.specs.Pages.{owned, top_page, place_of};

#[derive(Clone, Copy)]
pub enum Model {
    K48,
    K128,
}

// A block number of a file and the RAM page that it stands for.
#[derive(Clone, Copy)]
pub struct Slot {
    pub number: u8,
    pub page: usize,
}

// Where an address of the processor leads.
#[derive(Clone, Copy)]
pub enum Place {
    Rom,
    Ram { page: usize, offset: usize },
}

// Whether a machine owns a RAM page.
pub fn owns(model: Model, page: usize) -> bool
    ensures { result ≡ owned model page }
{
    match model {
        Model::K48 => match page {
            2 => true,
            0 => true,
            5 => true,
            _ => false,
        },
        Model::K128 => page < 8,
    }
}

// The page at C000.
pub fn top_page(model: Model, out: u8) -> usize
    ensures { result ≡ top_page model out }
{
    match model {
        Model::K48 => 0,
        Model::K128 => (out % 8) as usize,
    }
}

// Where an address leads, by the model and the last OUT to 7FFD.
pub fn place_of(model: Model, out: u8, address: u16) -> Place
    ensures { result ≡ place_of model out address }
{
    let a = address as usize;
    if a < 16384 {
        return Place::Rom;
    }
    if a < 32768 {
        return Place::Ram {
            page: 5,
            offset: a - 16384,
        };
    }
    if a < 49152 {
        return Place::Ram {
            page: 2,
            offset: a - 32768,
        };
    }
    Place::Ram {
        page: top_page(model, out),
        offset: a - 49152,
    }
}
