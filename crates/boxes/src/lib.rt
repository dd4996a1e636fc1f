// What a box line says: how many processors a box has, and which discipline rules its synchronisation processors.
#![tactic(auto)]

ghost use Rattle.std.specs.Prelude.{◌≡◌};
ghost use Rattle.boxes.specs.Boxes.{box_of, box_with, figure_part, rule_of, rule_part};

use fields::within;
use texts::cut;

// One of the supplied disciplines.
#[derive(Clone, Copy, Debug)]
pub enum Rule {
    Ceiling,
    Whole,
}

// A box as its line declares it.
#[derive(Clone, Copy, Debug)]
pub struct BoxLine {
    pub processors: u8,
    pub rule: Rule,
}

impl Rule {
    // The discipline that a word names. No `TryFrom`, since there is no error to tell.
    fn named(word: &[u8]) -> Option<Rule>
        ensures { result ≡ rule_of word.now }
    {
        match word {
            b"ceiling" => Some(Rule::Ceiling),
            b"whole" => Some(Rule::Whole),
            _ => None,
        }
    }
}

// The figure is at most 16, so the cast loses nothing.
fn box_with(figure: &[u8], word: &[u8]) -> Option<BoxLine>
    ensures { result ≡ box_with figure.now word.now }
{
    Some(BoxLine {
        processors: within(figure, 2, 16)? as u8,
        rule: Rule::named(word)?,
    })
}

// What a line says of a box.
fn parse_line(line: &[u8]) -> Option<BoxLine>
    ensures { result ≡ box_with (figure_part line.now) (rule_part line.now) }
{
    let (figure, word) = cut(line, b' ');
    box_with(figure, word?)
}

// What the first line of an input says of a box; none where it is not in form.
pub fn parse_box(input: &[u8]) -> Option<BoxLine>
    ensures { result ≡ box_of input.now }
{
    let (line, _) = cut(input, b'\n');
    parse_line(line)
}
