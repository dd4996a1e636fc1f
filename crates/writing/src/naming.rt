ghost use Rattle.std.specs.Prelude.{◌≡◌};
ghost use Rattle.writing.specs.Naming.{text_name};

use texts::Text;

// A text as it is named: a call of its own, since it takes no memory, which writing does.
pub fn text_name(text: Text) -> &'static [u8]
    ensures { result.now ≡ text_name text }
{
    match text {
        Text::Resources => b"resources",
        Text::Tasks => b"tasks",
    }
}
