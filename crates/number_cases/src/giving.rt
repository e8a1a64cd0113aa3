// Hands out numbers.
ghost use Rattle.number_cases.specs.Handing.{IsGiven};

/// Copies numbers to the front of a list if there is room for all of them, and otherwise leaves the list as it is.
pub fn give<T: Copy>(numbers: &[T], list: &mut [T])
    ensures { IsGiven numbers.now list.old list.new }
{
    let size = numbers.len();
    if size <= list.len() {
        list[..size].copy_from_slice(numbers);
    }
}
