// The Memory block of an SCS file, into the pages of a lent area and out of them. Each byte of the area is written once.
#![tactic(auto)]

ghost use Rattle.std.specs.Prelude.{◌+◌, ◌-◌, ◌≤◌, ◌≡◌, length, drop, replicate};
ghost use Rattle.slices.specs.Put.{put};
ghost use Rattle.pages.specs.declared.Model.TheVariants.{K48};
ghost use Rattle.scs_blocks.specs.ScsBlocks.{zero_filled};
ghost use Rattle.scs_memory.specs.ScsMemory.{memory_size, scs_memory, scs_data};

use pages::Model;

// A block's data into the area.
pub fn load_memory(src: &[u8], model: Model, area: &mut [u8])
    requires { length area.old ≡ 131072 }
    ensures { area.new ≡ scs_memory model src.now }
{
    match model {
        Model::K48 => load_48k(src, area),
        Model::K128 => scs_blocks::fill_from(src, area),
    }
}

// Pages 0, 2 and 5 from the data, zeros between and behind them.
fn load_48k(src: &[u8], area: &mut [u8])
    requires { length area.old ≡ 131072 }
    ensures { area.new ≡ scs_memory K48 src.now }
{
    load_page(src, 32768, area, 0);
    clear_part(area, 16384, 32768);
    load_page(src, 16384, area, 32768);
    clear_part(area, 49152, 81920);
    load_page(src, 0, area, 81920);
    clear_part(area, 98304, 131072);
}

// The page that is due of the data from place k on.
fn load_page(src: &[u8], k: usize, area: &mut [u8], base: usize)
    requires { base + 16384 ≤ length area.old }
    ensures { area.new ≡ put area.old base (zero_filled 16384 (drop k src.now)) }
{
    let from = slices::least(k, src.len());
    let top = base + 16384;
    scs_blocks::fill_from(&src[from..], &mut area[base..top]);
}

fn clear_part(area: &mut [u8], from: usize, to: usize)
    requires { (from ≤ to) × (to ≤ length area.old) }
    ensures { area.new ≡ put area.old from (replicate (to - from) 0) }
{
    slices::fill(&mut area[from..to], 0);
}

// The data of an area written over out from a place on.
pub fn store_memory(area: &[u8], model: Model, out: &mut [u8], place: usize)
    requires { (length area.now ≡ 131072) × (place + memory_size model ≤ length out.old) }
    ensures { out.new ≡ put out.old place (scs_data model area.now) }
{
    match model {
        Model::K48 => store_48k(area, out, place),
        Model::K128 => slices::put_at(out, place, area),
    }
}

// Pages 5, 2 and 0.
fn store_48k(area: &[u8], out: &mut [u8], place: usize)
    requires { (length area.now ≡ 131072) × (place + 49152 ≤ length out.old) }
    ensures { out.new ≡ put out.old place (scs_data K48 area.now) }
{
    body_v1::move_page(area, 81920, out, place);
    body_v1::move_page(area, 32768, out, place + 16384);
    body_v1::move_page(area, 0, out, place + 32768);
}
