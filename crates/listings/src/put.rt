// The lines of a text.
ghost use Rattle.std.specs.Prelude.{◌∷◌, decimal};
ghost use Rattle.listings.specs.Text.{Writes, numbered, line, refusal_text};

use refusals::Told;
use text::Text;

// A number behind a blank.
fn write_next(text: &mut Text, number: usize) -> Option<()>
    ensures { Writes (32 ∷ decimal number) text.old text.new result }
{
    text.put(b" ")?;
    text.put_number(number)
}

// A bay, behind a blank unless it is the first of its line.
fn write_bay(text: &mut Text, index: usize, bay: u8) -> Option<()>
    ensures { Writes (numbered index bay) text.old text.new result }
{
    if index == 0 {
        text.put_number(usize::from(bay))
    } else {
        write_next(text, usize::from(bay))
    }
}

// The line of a placement.
pub(crate) fn write_line(text: &mut Text, bays: &[u8]) -> Option<()>
    ensures { Writes (line bays.now) text.old text.new result }
{
    for (u, bay) in bays.iter().enumerate() {
        write_bay(text, u, *bay)?;
    }
    text.put(b"\n") // right behind the last bay
}

// The line of a refusal.
pub(crate) fn write_refusal(text: &mut Text, told: Told) -> Option<()>
    ensures { Writes (refusal_text told) text.old text.new result }
{
    text.put(b"refused")?;
    write_next(text, usize::from(u8::from(told.reason)))?;
    write_next(text, usize::from(u8::from(told.layer)))?;
    write_next(text, told.place)?;
    text.put(b"\n")
}
