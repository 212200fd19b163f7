// Block numbers of a file and the RAM pages that they stand for.
#![tactic(auto)]

ghost use Rattle.std.specs.Prelude.{◌≤◌, ◌≡◌};
ghost use Rattle.block_pages.specs.Numbered.{page_of, all_there, pages_seen, pages_due};

use pages::Model;

#[derive(Clone, Copy)]
pub enum Page {
    At(usize),
    NoPage,
}

// The RAM page of a block number.
pub fn page_of(model: Model, number: u8) -> Page
    ensures { result ≡ page_of model number }
{
    match model {
        Model::K48 => match number {
            4 => Page::At(2),
            5 => Page::At(0),
            8 => Page::At(5),
            _ => Page::NoPage,
        },
        Model::K128 => {
            if number < 3 {
                return Page::NoPage;
            }
            if 10 < number {
                return Page::NoPage;
            }
            Page::At((number - 3) as usize)
        }
    }
}

// Whether all pages of a machine were seen.
pub fn all_there(model: Model, seen: [bool; 8]) -> bool
    ensures { result ≡ all_there model seen }
{
    match model {
        Model::K48 => slices::and(seen[2], slices::and(seen[0], seen[5])),
        Model::K128 => slices::and(
            slices::and(slices::and(seen[0], seen[1]), slices::and(seen[2], seen[3])),
            slices::and(slices::and(seen[4], seen[5]), slices::and(seen[6], seen[7])),
        ),
    }
}

// How many pages were seen.
pub fn pages_seen(seen: [bool; 8]) -> usize
    ensures { (result ≡ pages_seen seen) × (result ≤ 8) }
{
    let mut n: usize = 0;
    let mut k: usize = 0;
    while k < 8 {
        if seen[k] {
            n += 1;
            k += 1;
        } else {
            k += 1;
        }
    }
    n
}

// How many pages a machine has.
pub fn pages_due(model: Model) -> usize
    ensures { result ≡ pages_due model }
{
    match model {
        Model::K48 => 3,
        Model::K128 => 8,
    }
}
