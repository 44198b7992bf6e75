// What the calls have in common: a refusal where no name can be given.
ghost use Rattle.std.specs.Prelude.{◌≡◌, ◌&&◌};
ghost use Rattle.blocks.specs.Entries.{entry_of, is_named};
ghost use Rattle.names.specs.NamedForm.{named_form_ok};
ghost use Rattle.named.specs.code.Sent.{sent_as};
ghost use Rattle.names.specs.NamedReading.{cause_at};

use blocks::{Cause, Entry, Refusal, kinds, nth_entry};

// Whether an entry is a name, as the table of kinds has it.
fn is_name(e: Entry) -> bool
    ensures { result ≡ (is_named e && named_form_ok e) }
{
    if e.kind != kinds::NAME {
        return false;
    }
    e.reserved == 0 && e.number == 0
}

// Why a description is refused at a place, by why it is as a plain one: a name is 13, not 4.
fn cause_at(s: &[u8], place: u16, cause: Cause) -> Cause
    ensures { result ≡ cause_at (entry_of s.now place place) cause }
{
    match cause {
        Cause::Form => {
            let e = nth_entry(s, usize::from(place), usize::from(place));
            if is_name(e) { Cause::Name } else { Cause::Form }
        }
        _ => cause,
    }
}

// A refusal where no name can be given, by that of plain descriptions, of which s is this input.
pub(crate) fn sent_as(s: &[u8], input: u16, e: Refusal) -> Refusal
    ensures { result ≡ sent_as s.now input e }
{
    if e.input != input {
        return e;
    }
    Refusal {
        cause: cause_at(s, e.place, e.cause),
        input,
        place: e.place,
    }
}
