// Makes the words of a command from the program's arguments.
ghost use Rattle.std.specs.Prelude.{IfOk, IfSome, map, string_bytes};
ghost use Rattle.adapters.specs.Words.{IsWords};

use crate::arguments::Arguments;
use split_base::NoMemory;
use std::alloc::Global;

/// The words of a command: all arguments after the program's own path, in order. If one of
/// those isn't UTF-8, there are no words at all. The program's own path may be any bytes.
///
/// `NoMemory` means that there was no memory for the words.
pub fn words_of<A: Arguments>(alloc: Global, arguments: &A) -> Result<Vec<String>, NoMemory>
    ensures { IfOk result (λ words.
        IfSome (A.told arguments.now) (λ all. IsWords all (map string_bytes words.items))) }
{
    let mut words = Vec::new(alloc);
    for place in 1..usize::MAX {
        let Some(bytes) = arguments.argument(alloc, place)? else {
            return Ok(words);
        };
        let Ok(word) = String::from_utf8(bytes) else {
            return Ok(Vec::new(alloc));
        };
        if words.push(word).is_err() {
            return Err(NoMemory);
        }
    }
    Err(NoMemory)
}
