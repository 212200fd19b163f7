// Looking at a machine over bytes: the machine crosses as its header. What a refused call is asked for is 0.
#![tactic(auto)]

ghost use Rattle.std.specs.Prelude.{◌≡◌};
ghost use Rattle.machine_bytes.specs.Looks.{model_number, attachment_number, model_of, TellsModel, pair_of, TellsPair, address_of, TellsPlace};

use numbers::Refusal;
use pages::{Model, Place};
use spectrum::Attachment;

// Which model, and what is attached to it.
pub fn model(head: &[u8], kind: &mut u8, attachment: &mut u8) -> u32
    ensures { TellsModel (model_of head.now) result kind.new attachment.new }
{
    *kind = 0;
    *attachment = 0;
    let decoded = header_canonical::decode_header(head);
    if decoded.canonical {
        let m = decoded.machine;
        let model = m.model;
        let attached = m.attachment;
        *kind = model_number(model);
        *attachment = attachment_number(attached);
        return numbers::number(Ok(()));
    }
    numbers::number(Err(Refusal::InvalidMachine))
}

// A register pair's value.
pub fn pair(head: &[u8], number: u8, value: &mut u16) -> u32
    ensures { TellsPair (pair_of head.now number) result value.new }
{
    *value = 0;
    let decoded = header_canonical::decode_header(head);
    if decoded.canonical {
        if 11 < number {
            return numbers::number(Err(Refusal::PairNumber));
        }
        let m = decoded.machine;
        *value = m.pair(number as usize);
        return numbers::number(Ok(()));
    }
    numbers::number(Err(Refusal::InvalidMachine))
}

// Where an address leads as paging is now.
pub fn place(head: &[u8], address: u16, in_rom: &mut u8, page: &mut u8, offset: &mut u16) -> u32
    ensures { TellsPlace (address_of head.now address) result in_rom.new page.new offset.new }
{
    *in_rom = 0;
    *page = 0;
    *offset = 0;
    let decoded = header_canonical::decode_header(head);
    if decoded.canonical {
        let m = decoded.machine;
        let found = m.place(address);
        match found {
            Place::Rom => {
                *in_rom = 1;
                return numbers::number(Ok(()));
            }
            Place::Ram { page: p, offset: o } => {
                *page = p as u8;
                *offset = o as u16;
                return numbers::number(Ok(()));
            }
        }
    }
    numbers::number(Err(Refusal::InvalidMachine))
}

fn model_number(model: Model) -> u8
    ensures { result ≡ model_number model }
{
    match model {
        Model::K48 => 0,
        Model::K128 => 1,
    }
}

fn attachment_number(attachment: Attachment) -> u8
    ensures { result ≡ attachment_number attachment }
{
    match attachment {
        Attachment::Nothing => 0,
        Attachment::InterfaceI => 1,
        Attachment::Mgt => 2,
    }
}
