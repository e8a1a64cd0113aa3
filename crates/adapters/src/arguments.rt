// The arguments that a program was started with.
ghost use Rattle.std.specs.Prelude.{ℕ, List, Option, None, IfOk, IfSome, option_map};
ghost use Rattle.adapters.specs.Words.{IsArgument};

use split_base::NoMemory;
use std::alloc::Global;
use std::env::FillError;
use std::rt::Env;

/// The arguments of a program by place, from 0. Its own path comes first.
pub trait Arguments {
    /// All of them; `None` if the object doesn't reveal them.
    ghost told: { Self → Option (List (List ℕ)) };

    /// The bytes of the argument at a place, or none after the last.
    ///
    /// `NoMemory` means that there was no memory for the bytes.
    fn argument(&self, alloc: Global, place: usize) -> Result<Option<Vec<u8>>, NoMemory>
        ensures { IfOk result (λ found.
            IfSome (told self.now) (λ all.
            IsArgument all place (option_map (λ bytes. bytes.items) found))) };
}

/// How many bytes of an argument are asked for at first.
const FIRST_ROOM: usize = 256;

/// The arguments in an environment, which doesn't reveal them.
#[derive(Drop)]
pub struct Started<E> {
    environment: E,
}

impl<E: Env> Started<E> {
    /// The arguments of this environment.
    pub fn new(environment: E) -> Self {
        Started { environment }
    }
}

impl<E: Env> Arguments for Started<E> {
    ghost told = { λ _. None };

    // Doubles the room until the argument fits.
    fn argument(&self, alloc: Global, place: usize) -> Result<Option<Vec<u8>>, NoMemory> {
        let mut room = FIRST_ROOM;
        for _ in 0..usize::BITS {
            let Ok(mut bytes) = vec![in alloc; 0u8; room] else {
                return Err(NoMemory);
            };
            match self.environment.arg(place, &mut bytes) {
                Ok(count) => {
                    bytes.truncate(count);
                    return Ok(Some(bytes));
                }
                Err(FillError::NotPresent) => return Ok(None),
                Err(FillError::TooLong) => room = room.saturating_add(room),
            }
        }
        Err(NoMemory)
    }
}
