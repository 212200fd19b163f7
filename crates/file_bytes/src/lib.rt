// Reading and writing over bytes: the machine crosses as the 86-byte header that the writer makes for it.
#![tactic(auto)]

ghost use Rattle.std.specs.Prelude.{length};
ghost use Rattle.file_bytes.specs.Files.{read_of_bytes, ReadsBytes, write_of_bytes, WritesBytes};

use numbers::Refusal;

// A .Z80 file into an area of 131,072 bytes and a header of 86; the offset in the file that is named with the number, or 0.
pub fn read(file: &[u8], area: &mut [u8], head: &mut [u8], offset: &mut u64) -> u32
    ensures { ReadsBytes (read_of_bytes file.now (length area.old) (length head.old)) result offset.new area.new head.new }
{
    if head.len() != 86 {
        slices::fill(area, 0);
        slices::fill(head, 0);
        *offset = 0;
        return numbers::number(Err(Refusal::InvalidMachine));
    }
    let opened = z80read::read(file, area);
    let m = opened.machine;
    let answer = opened.answer;
    *offset = opened.place as u64;
    m.typed();
    header_write::write_header(m, head);
    numbers::number(answer)
}

// A header and its area into the one v3 file.
pub fn write(head: &[u8], area: &[u8], out: &mut [u8], size: &mut u64) -> u32
    ensures { WritesBytes (write_of_bytes head.now area.now (length out.old)) result size.new out.new }
{
    let decoded = header_canonical::decode_header(head);
    if decoded.canonical {
        let m = decoded.machine;
        let written = z80write::write(m, area, out);
        let answer = written.answer;
        *size = written.length as u64;
        return numbers::number(answer);
    }
    slices::fill(out, 0);
    *size = 0;
    numbers::number(Err(Refusal::InvalidMachine))
}
