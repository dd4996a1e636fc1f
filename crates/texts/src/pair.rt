ghost use Rattle.std.specs.Prelude.{◌≡◌};
ghost use Rattle.texts.specs.Lines.{StandsFrom, chosen, line_address, line_at, line_start};

use crate::lines::numbered_line;
use crate::place::{Place, Text};

// The two texts of a table.
#[derive(Clone, Copy, Debug)]
pub struct Texts<'a> {
    pub resources: &'a [u8],
    pub tasks: &'a [u8],
}

impl<'a> Texts<'a> {
    // The text that is meant.
    pub fn of(self, text: Text) -> &'a [u8]
        ensures { result ≡ chosen self.entry.resources self.entry.tasks text }
    {
        match text {
            Text::Resources => self.resources,
            Text::Tasks => self.tasks,
        }
    }

    // The line of a place, without its LF, as a part of the text that holds it; the empty start of the resource text
    // where there is no such line.
    pub fn line(self, place: Place) -> &'a [u8]
        ensures value { result.now ≡ line_at self.entry.resources.now self.entry.tasks.now place }
        ensures part { result.ref_ptr ≡ line_address (chosen self.entry.resources self.entry.tasks place.text) place.line self.entry.resources.ref_ptr }
        ensures stands { StandsFrom (line_start place.line (chosen self.entry.resources self.entry.tasks place.text).now) (chosen self.entry.resources self.entry.tasks place.text).now result.now }
    {
        numbered_line(self.of(place.text), place.line, &self.resources[0..0])
    }
}
