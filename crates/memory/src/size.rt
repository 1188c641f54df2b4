ghost use Rattle.std.specs.Prelude.{◌≡◌, if◌then◌else◌, Ok, Err, vec_len};
ghost use Rattle.memory.specs.Cells.{whole};

use crate::fault::WrongSize;

/// Whether a memory of `n` cells has 1 to 127 whole blocks of 1,024.
pub fn is_whole(n: usize) -> bool
    ensures { result ≡ whole n }
{
    n % 1024 == 0 && n >= 1024 && n <= 127 * 1024
}

/// The cells of a memory, if they are 1 to 127 whole blocks; else they come back.
pub fn whole_blocks<T>(cells: Vec<T>) -> Result<Vec<T>, WrongSize<Vec<T>>>
    ensures { result ≡ (if whole (vec_len cells) then Ok cells else Err (record { back = cells })) }
{
    if is_whole(cells.len()) {
        Ok(cells)
    } else {
        Err(WrongSize { back: cells })
    }
}
