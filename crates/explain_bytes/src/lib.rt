// Why a .Z80 file is refused, in numbers: what the C program gets.
#![tactic(auto)]

ghost use Rattle.z80explain.specs.Explain.{explain_of};
ghost use Rattle.explain_bytes.specs.Explains.{ExplainsBytes};

// The number, the offset, the block and both figures.
pub fn explain(
    file: &[u8],
    offset: &mut u64,
    block: &mut u64,
    found: &mut u64,
    due: &mut u64,
) -> u32
    ensures { ExplainsBytes (explain_of file.now) result offset.new block.new found.new due.new }
{
    let told = z80explain::explain(file);
    let answer = told.answer;
    *offset = told.place as u64;
    *block = told.block as u64;
    *found = told.found as u64;
    *due = told.due as u64;
    numbers::number(answer)
}
