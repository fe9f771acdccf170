//! The words that a program is called with.
#![tactic(auto)]

ghost use Rattle.std.specs.Prelude.{◌≡◌, false, [], drop, is_ok, map, string_bytes, IfErr, IfOk, MatchResult};
ghost use Rattle.std.specs.Vec.Iter.{into_iter_items};
ghost use Rattle.std.specs.IoError.{error_kind};
ghost use Rattle.std.specs.declared.io.ErrorKind.TheVariants.{OutOfMemory};

use dsql_value::{Memory, Txt};
use std::alloc::Global;
use std::env::Args;
use std::io::{self, ErrorKind};

/// Returns the words of a program's arguments: all except the first, which is the program's name. If an argument isn't
/// UTF-8, so that the arguments can't be read, there are no words, because no program here knows any of them.
///
/// # Errors
///
/// A lack of memory, also for the arguments.
pub fn words_of(alloc: Global, args: io::Result<Args>) -> Result<Vec<Txt>, Memory>
    ensures words { IfOk result (λ words. MatchResult args
        (λ args. words.items ≡ map string_bytes (drop 1 (into_iter_items args))) (λ error. words.items ≡ [])) }
    ensures lacking { IfErr args (λ error. error_kind error ≡ OutOfMemory → is_ok result ≡ false) }
{
    let mut words = Vec::new(alloc);
    match args {
        Ok(mut args) => {
            let _name = args.next();
            for word in args {
                words.push(Txt::new(word))?;
            }
            Ok(words)
        }
        Err(e) if e.kind() == ErrorKind::OutOfMemory => Err(Memory),
        Err(_) => Ok(words),
    }
}
