#![tactic(auto)]

ghost use Rattle.std.specs.Prelude.{◌≡◌, ◌+◌, ◌-◌, ◌≤◌, ◌&&◌, length, if◌then◌else◌, nat_le};
ghost use Rattle.std.specs.List.{copy_within};
ghost use Rattle.cells.specs.Texts.{inserting, removing, usable};

// A text in plain cells: its bytes are the first `len` cells, and a part of those behind it is free for more. Cells,
// capacity and length come as values of their own: one string owns its cells and one borrows them, so that a struct
// round the three would be made and taken apart at each call.

// As `copy_within`, for at most 255 cells. This compiles to one memmove, while `copy_within` goes cell by cell: with
// it an insertion and a removal took 1.5 to 1.8 times as long in the middle of 240 bytes, and up to 1.2 times of 64.
fn moved(cells: &mut [u8], from: usize, end: usize, to: usize)
    requires range { from ≤ end }
    requires from { end ≤ length cells.old }
    requires to { to + (end - from) ≤ length cells.old }
    requires short { end - from ≤ 255 }
    ensures { cells.new ≡ copy_within cells.old from end to }
{
    let mut hold = [0u8; 255];
    let held = &mut hold[..end - from];
    held.copy_from_slice(&cells[from..end]);
    cells[to..to + (end - from)].copy_from_slice(held);
}

// Inserts `bytes` into the text at a place within it, if the text then fits the capacity, the cells and 255.
// Else it answers false and writes no cell.
pub fn insert_into(
    cells: &mut [u8],
    capacity: usize,
    len: usize,
    place: usize,
    bytes: &[u8],
) -> bool
    ensures answer { result ≡ (nat_le place len && nat_le (len + length bytes.now) (usable capacity cells.old)) }
    ensures cells { cells.new ≡ (if result then inserting len place bytes.now cells.old else cells.old) }
{
    let end = capacity.min(cells.len()).min(255);
    let count = bytes.len();
    if place > len || len > end || count > end - len {
        return false;
    }
    moved(cells, place, len, place + count);
    cells[place..place + count].copy_from_slice(bytes);
    true
}

// Removes `count` bytes from the text at a place within it, and makes the cells zero that it then no longer has,
// if so many bytes stand there and the text lies within the cells and 255. Else it answers false and writes no cell.
pub fn remove_from(cells: &mut [u8], len: usize, place: usize, count: usize) -> bool
    ensures answer { result ≡ (nat_le (place + count) len && nat_le len (usable len cells.old)) }
    ensures cells { cells.new ≡ (if result then removing len place count cells.old else cells.old) }
{
    if len > cells.len() || len > 255 || place > len || count > len - place {
        return false;
    }
    moved(cells, place + count, len, place);
    cells[len - count..len].fill(0);
    true
}
