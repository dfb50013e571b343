// The commands that ask about one seat, or one process row.
ghost use Rattle.std.specs.Prelude.{◌≡◌, length};
ghost use Rattle.fields.specs.Table.{table_bytes};

use crate::why;
use runs::say;

fn refused(rt: &impl Print, label: &[u8]) {
    say::told(rt, label, b"refused");
}

pub fn slot(rt: &impl Print, t: &[u8], s: usize, label: &[u8]) {
    match why::slot(t, s) {
        Ok(()) => say::shown(rt, label, table::slots::free_slot(t, s)),
        Err(_) => refused(rt, label),
    }
}

pub fn count(rt: &impl Print, t: &[u8], s: usize, label: &[u8]) {
    match why::seat(t, s) {
        Ok(()) => say::shown(rt, label, table::slots::live_tabs(t, s)),
        Err(_) => refused(rt, label),
    }
}

pub fn owner(rt: &impl Print, t: &[u8], s: usize, label: &[u8])
    requires { length t.now ≡ table_bytes }
{
    if (1..=8).contains(&s) {
        say::shown(rt, label, soundness::tab::owner_at(t, s));
    } else {
        refused(rt, label);
    }
}

pub fn name(rt: &impl Print, t: &[u8], p: usize, label: &[u8])
    requires { length t.now ≡ table_bytes }
{
    if !(1..=80).contains(&p) {
        refused(rt, label);
        return;
    }
    say::text(rt, label);
    say::text(rt, b" \"");
    say::text(rt, fields::layout::name(t, p));
    say::line(rt, b"\"");
}
