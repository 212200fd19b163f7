// The one stream of a v1 file read into the pages of a lent area, or without one. Above packing, through its promise alone.
#![tactic(auto)]

ghost use Rattle.std.specs.Prelude.{◌+◌, ◌≤◌, ◌≡◌, length, take, drop};
ghost use Rattle.slices.specs.Put.{put};
ghost use Rattle.slices.specs.Blank.{blank};
ghost use Rattle.packed.specs.Packed.{unpacked};
ghost use Rattle.numbers.specs.Faults.{fault_in, length_fault};
ghost use Rattle.blocks.specs.Blocks.{ZerosLent, ReadsBody};
ghost use Rattle.blocks.specs.declared.BodyAnswer.TheVariants.{Faulty};
ghost use Rattle.body_v1.specs.Body.{marked, spread, spread_from, body_into};
ghost use Rattle.body_v1.specs.Inner.{page_moved, top_cleared, settled, FillsPages};

use blocks::BodyAnswer;
use numbers::Refusal;
use packed::Unpacked;

// Whether the last four bytes are the end marker 00 ED ED 00.
fn has_marker(s: &[u8]) -> bool
    ensures { result ≡ marked s.now }
{
    if s.len() < 4 {
        return false;
    }
    let n = s.len() - 4;
    let marker = [0u8, 237, 237, 0];
    s[n..] == marker[..]
}

// A page, from place k of a stream of memory, to its place in the area.
pub fn move_page(body: &[u8], k: usize, area: &mut [u8], base: usize)
    requires { (k + 16384 ≤ length body.now) × (base + 16384 ≤ length area.old) }
    ensures { area.new ≡ put area.old base (take 16384 (drop k body.now)) }
{
    let e = k + 16384;
    slices::put_at(area, base, &body[k..e]);
}

// The v1 stream into pages 5, 2 and 0, where there is an area.
fn spread_out(body: &[u8], area: &mut [u8])
    requires { length body.now ≡ 49152 }
    ensures { length area.old ≡ 131072 → area.new ≡ spread area.old body.now }
{
    if area.len() == 131072 {
        move_page(body, 0, area, 81920);
        move_page(body, 16384, area, 32768);
        move_page(body, 32768, area, 0);
    }
}

// The page that stands at `from`, also at `to`, a page or more before it.
fn move_down(area: &mut [u8], from: usize, to: usize)
    requires { (to + 16384 ≤ from) × (from + 16384 ≤ length area.old) }
    ensures { area.new ≡ page_moved area.old from to }
{
    let mut k: usize = 0;
    while k < 16384 {
        area[to + k] = area[from + k];
        k += 1;
    }
}

// Page 6 moved to page 2 and 7 to 0, and zeros in their places.
fn settle(area: &mut [u8])
    requires { length area.old ≡ 131072 }
    ensures { area.new ≡ settled area.old }
{
    move_down(area, 98304, 32768);
    move_down(area, 114688, 0);
    clear_top(area);
}

// Zeros in pages 6 and 7.
fn clear_top(area: &mut [u8])
    ensures { area.new ≡ top_cleared area.old }
{
    slices::clear_from(area, 98304);
}

// A packed v1 stream without its marker, into an area of zeros: unpacked into pages 5, 6 and 7, which lie in a row, so that no other
// memory is needed. Refused, the area is all zero: so unpacking leaves its part. Without an area, the answer alone.
fn unpack_pages(src: &[u8], area: &mut [u8]) -> Unpacked
    requires { ZerosLent area.old }
    ensures { FillsPages (unpacked src.now) (length area.old) result area.new }
{
    if area.len() == 131072 {
        let answer = unpacking::unpack(src, &mut area[81920..]);
        match answer {
            Unpacked::Good => {
                settle(area);
                return Unpacked::Good;
            }
            Unpacked::Malformed(i) => return Unpacked::Malformed(i),
            Unpacked::WrongLength(n) => return Unpacked::WrongLength(n),
        }
    }
    counting::would_unpack(src, 49152)
}

fn faulty_at(why: Refusal, place: usize) -> BodyAnswer
    ensures { result ≡ Faulty (fault_in 1 place why) }
{
    BodyAnswer::Faulty(numbers::in_block(why, place, 1))
}

fn faulty_length(place: usize, found: usize) -> BodyAnswer
    ensures { result ≡ Faulty (length_fault 1 place found 49152) }
{
    BodyAnswer::Faulty(numbers::length_fault(place, 1, found, 49152))
}

// The same, of a stream that stands at a place of the file.
fn unpack_body(src: &[u8], place: usize, area: &mut [u8]) -> BodyAnswer
    requires { (place + length src.now ≤ 18446744073709551615) × ZerosLent area.old }
    ensures { ReadsBody (spread_from place (unpacked src.now) (blank 131072)) (length area.old) result area.new }
{
    match unpack_pages(src, area) {
        Unpacked::Good => BodyAnswer::Whole,
        Unpacked::Malformed(i) => faulty_at(Refusal::MalformedData, place + i),
        Unpacked::WrongLength(n) => faulty_length(place, n),
    }
}

// A v1 body from a place to the end of the file, into an area of zeros, or without one. Refused, the area is all zero still.
pub fn read_body(file: &[u8], from: usize, packed: bool, area: &mut [u8]) -> BodyAnswer
    requires { (from ≤ length file.now) × ZerosLent area.old }
    ensures { ReadsBody (body_into packed (blank 131072) from (drop from file.now)) (length area.old) result area.new }
{
    let body = &file[from..];
    if packed {
        if has_marker(body) {
            let n = body.len() - 4;
            return unpack_body(&body[0..n], from, area);
        }
        return faulty_at(Refusal::EndMarker, file.len());
    }
    if body.len() == 49152 {
        spread_out(body, area);
        return BodyAnswer::Whole;
    }
    faulty_length(from, unpack_tail::up_to(body.len()))
}
