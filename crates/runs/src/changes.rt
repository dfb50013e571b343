// What an update changed: the table before it beside the table after it.
ghost use Rattle.std.specs.Prelude.{◌≡◌, ◌≤◌, length, slice_index};

// The byte at a place; 0 past the end.
pub fn byte_at(s: &[u8], i: usize) -> u8
    ensures { result ≡ slice_index s.now i }
{
    s.get(i).copied().unwrap_or(0)
}

// How many bytes have changed.
pub fn count(old: &[u8], new: &[u8]) -> usize
    ensures { result ≤ length new.now }
{
    let mut n = 0;
    for i in 0..new.len() {
        n += usize::from(byte_at(old, i) != byte_at(new, i));
    }
    n
}

// A line for each byte that has changed.
pub fn say_each(rt: &impl Print, old: &[u8], new: &[u8]) {
    if count(old, new) == 0 {
        let _ = println!(rt; "  nothing changes");
        return;
    }
    for (i, is) in new.iter().enumerate() {
        let was = byte_at(old, i);
        if was != *is {
            let _ = println!(rt; "  {i} {was} {is}");
        }
    }
}

pub fn say_count(rt: &impl Print, old: &[u8], new: &[u8]) {
    let n = count(old, new);
    let _ = println!(rt; "  {n} bytes change");
}
