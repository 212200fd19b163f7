// A block of a v2 or v3 file: its head, and its data unpacked into a page. Above packing, through its promise alone.
#![tactic(auto)]

ghost use Rattle.std.specs.Prelude.{◌<◌, ◌≡◌, length};
ghost use Rattle.packed.specs.Unpacking.{answer_of};
ghost use Rattle.block_read.specs.Block.{size_of, contents};
ghost use Rattle.block_read.specs.Inner.{Fills, head_at};

use block_pages::Page;
use numbers::Refusal;
use packed::Unpacked;
use pages::Model;

// A block's head: a refusal, or where its data lie and which page they are for.
#[derive(Clone, Copy)]
pub enum BlockHead {
    Bad(Refusal),
    Data {
        page: usize,
        start: usize,
        end: usize,
        plain: bool,
    },
}

fn size_of(n: usize) -> usize
    ensures { result ≡ size_of n }
{
    if n == 65535 { 16384 } else { n }
}

// The block at a place of the file: its head's own refusals, or where its data lie and which page they are for.
pub fn head_at(file: &[u8], at: usize, model: Model, seen: [bool; 8]) -> BlockHead
    requires { at < length file.now }
    ensures { result ≡ head_at model seen file.now at }
{
    let left = file.len() - at;
    if left < 3 {
        return BlockHead::Bad(Refusal::BlockCut);
    }
    let n = slices::word_of(file[at], file[at + 1]) as usize;
    let number = file[at + 2];
    let size = size_of(n);
    if left - 3 < size {
        return BlockHead::Bad(Refusal::BlockCut);
    }
    let found = block_pages::page_of(model, number);
    match found {
        Page::NoPage => BlockHead::Bad(Refusal::BlockNumber),
        Page::At(page) => {
            let twice = seen[page];
            if twice {
                return BlockHead::Bad(Refusal::BlockTwice);
            }
            let start = at + 3;
            let end = start + size;
            BlockHead::Data {
                page,
                start,
                end,
                plain: n == 65535,
            }
        }
    }
}

// A page from a block's data, packed or as they are. Refused, the page is all zero.
pub fn fill_page(src: &[u8], plain: bool, page: &mut [u8]) -> Unpacked
    ensures { Fills plain src.now page.old page.new result }
{
    if plain {
        if src.len() == page.len() {
            page.copy_from_slice(src);
            return Unpacked::Good;
        }
        slices::fill(page, 0);
        return Unpacked::WrongLength(unpack_tail::up_to(src.len()));
    }
    unpacking::unpack(src, page)
}

// The answer of `fill_page` for a page of `due` bytes, without one.
pub fn would_fill(src: &[u8], plain: bool, due: usize) -> Unpacked
    requires { due < 65536 }
    ensures { result ≡ answer_of (contents plain src.now) due }
{
    if plain {
        if src.len() == due {
            return Unpacked::Good;
        }
        return Unpacked::WrongLength(unpack_tail::up_to(src.len()));
    }
    counting::would_unpack(src, due)
}
