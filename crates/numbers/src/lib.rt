// The numbers that calls answer: document 01's one table, and those that document 02 adds to it.
#![tactic(auto)]

ghost use Rattle.std.specs.Prelude.{◌≡◌};
ghost use Rattle.numbers.specs.Numbers.{number_of};
ghost use Rattle.numbers.specs.Faults.{fault_in, with_figures, length_fault, unplaced};

// Why a call is refused, with its number in the table.
#[derive(Clone, Copy)]
pub enum Refusal {
    AreaLength = 1,
    FileShort = 2,
    UnknownVersion = 3,
    ModeNotCarried = 4,
    InterruptMode = 5,
    CounterRange = 6,
    Byte60 = 7,
    BlockCut = 8,
    BlockNumber = 9,
    BlockTwice = 10,
    MalformedData = 11,
    UnpackedLength = 12,
    BlockMissing = 13,
    EndMarker = 14,
    InvalidMachine = 20,
    MemoryLength = 21,
    OutputShort = 22,
    RomAddress = 23,
    OutOn48k = 24,
    PagingLocked = 25,
    JournalFull = 26,
    NothingToMove = 27,
    StepDamaged = 28,
    CountsDisagree = 29,
    PageNotOwned = 30,
    RomLength = 31,
    PairNumber = 32,
    ScsHeader = 40,
    ScsBlockMissing = 41,
    ScsBlockTwice = 42,
    ScsMemoryNotFirst = 43,
}

// The answer of a call: accepted, or why it is refused.
pub type Answer = Result<(), Refusal>;

// Why a file is refused; the place in it that is named, an offset in the whole file, 0 where none is; the block from 1 on, 0 where none is;
// and two figures, what was found and what is due, 0 and 0 where the number has none.
#[derive(Clone, Copy)]
pub struct FileFault {
    pub why: Refusal,
    pub place: usize,
    pub block: usize,
    pub found: usize,
    pub due: usize,
}

// A fault in a block, without figures.
pub fn in_block(why: Refusal, place: usize, block: usize) -> FileFault
    ensures { result ≡ fault_in block place why }
{
    FileFault {
        why,
        place,
        block,
        found: 0,
        due: 0,
    }
}

// A fault in no block and at no place, with its figures.
pub fn figured(why: Refusal, found: usize, due: usize) -> FileFault
    ensures { result ≡ with_figures why found due }
{
    FileFault {
        why,
        place: 0,
        block: 0,
        found,
        due,
    }
}

// The bytes of a block, at a place of the file, are of another length than is due.
pub fn length_fault(place: usize, block: usize, found: usize, due: usize) -> FileFault
    ensures { result ≡ length_fault block place found due }
{
    FileFault {
        why: Refusal::UnpackedLength,
        place,
        block,
        found,
        due,
    }
}

// A fault of a file that has no place in it, and no figures.
pub fn no_place(why: Refusal) -> FileFault
    ensures { result ≡ unplaced why }
{
    figured(why, 0, 0)
}

// The numbers of two calls.
#[derive(Clone, Copy)]
pub struct TwoNumbers {
    pub one: u32,
    pub other: u32,
}

// The number of an answer.
pub fn number(answer: Answer) -> u32
    ensures { result ≡ number_of answer }
{
    match answer {
        Ok(()) => 0,
        Err(why) => why as u32,
    }
}
