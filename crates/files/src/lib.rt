// The texts of a desk as files.
#![tactic(auto)]

ghost use Rattle.std.specs.Prelude.{◌≡◌, ◌≢◌, [], IfOk, IfErr, IsOkAnd, Ok, Err};
ghost use Rattle.std.specs.IoError.{error_kind};
ghost use Rattle.std.specs.declared.io.ErrorKind.TheVariants.{NotFound};

use std::alloc::Global;
use std::io;
use std::io::ErrorKind;

// The bytes that were read; none where the file is absent, which is an empty text.
pub fn or_empty(heap: Global, read: io::Result<Vec<u8>>) -> io::Result<Vec<u8>>
    ensures read { IfOk read (λ bytes. result ≡ Ok bytes) }
    ensures absent { IfErr read (λ e. error_kind e ≡ NotFound → IsOkAnd result (λ none. none.items ≡ [])) }
    ensures failed { IfErr read (λ e. error_kind e ≢ NotFound → result ≡ Err e) }
{
    match read {
        Err(e) if e.kind() == ErrorKind::NotFound => Ok(Vec::new(heap)),
        read => read,
    }
}
