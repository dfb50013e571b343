// The fields of a process row, and its name.
ghost use Rattle.std.specs.Prelude.{◌≡◌, ◌≤◌, ◌<◌};
ghost use Rattle.fields.specs.Table.{view, most_number, name_of, RowOf};
ghost use Rattle.fields.specs.Table.{number, owner, tabs, size, row_zero, letter};
ghost use Rattle.fields.specs.Inner.{LetterOf, WroteField};

use crate::layout::{ROOM, ROW_HEAD, row_at};
use terms::num::{num_at, put_num};

pub fn number(t: &[u8], p: usize) -> usize
    requires { RowOf t.now p }
    ensures { (result ≡ view t.now (number p)) × (result ≤ most_number) }
{
    num_at::<4>(t, row_at(p))
}

pub fn set_number(t: &mut [u8], p: usize, x: usize)
    requires { (RowOf t.old p) × (x ≤ most_number) }
    ensures { WroteField t.old t.new (number p) x }
{
    put_num::<4>(t, row_at(p), x);
}

pub fn owner(t: &[u8], p: usize) -> u8
    requires { RowOf t.now p }
    ensures { result ≡ view t.now (owner p) }
{
    t[row_at(p) + 4]
}

pub fn set_owner(t: &mut [u8], p: usize, x: u8)
    requires { RowOf t.old p }
    ensures { WroteField t.old t.new (owner p) x }
{
    t[row_at(p) + 4] = x;
}

pub fn tabs(t: &[u8], p: usize) -> usize
    requires { RowOf t.now p }
    ensures { (result ≡ view t.now (tabs p)) × (result < 256) }
{
    usize::from(t[row_at(p) + 5])
}

pub fn set_tabs(t: &mut [u8], p: usize, x: usize)
    requires { (RowOf t.old p) × (x < 256) }
    ensures { WroteField t.old t.new (tabs p) x }
{
    t[row_at(p) + 5] = x as u8;
}

pub fn size(t: &[u8], p: usize) -> usize
    requires { RowOf t.now p }
    ensures { (result ≡ view t.now (size p)) × (result < 256) }
{
    usize::from(t[row_at(p) + 6])
}

pub fn set_size(t: &mut [u8], p: usize, x: usize)
    requires { (RowOf t.old p) × (x < 256) }
    ensures { WroteField t.old t.new (size p) x }
{
    t[row_at(p) + 6] = x as u8;
}

pub fn row_zero(t: &[u8], p: usize) -> u8
    requires { RowOf t.now p }
    ensures { result ≡ view t.now (row_zero p) }
{
    t[row_at(p) + 7]
}

pub fn letter(t: &[u8], p: usize, j: usize) -> u8
    requires { LetterOf t.now p j }
    ensures { result ≡ view t.now (letter p j) }
{
    t[row_at(p) + ROW_HEAD + (j - 1)]
}

pub fn set_letter(t: &mut [u8], p: usize, j: usize, x: u8)
    requires { LetterOf t.old p j }
    ensures { WroteField t.old t.new (letter p j) x }
{
    t[row_at(p) + ROW_HEAD + (j - 1)] = x;
}

// The row's name: a part of the table itself.
pub fn name<'t>(t: &'t [u8], p: usize) -> &'t [u8]
    requires { RowOf t.now p }
    ensures { result.now ≡ name_of (view t.now) p }
{
    let from = row_at(p) + ROW_HEAD;
    let n = size(t, p).min(ROOM);
    &t[from..from + n]
}
