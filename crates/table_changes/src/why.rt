// What stands against an update: each condition that the table layer asks of its callers, tested.
ghost use Rattle.std.specs.Prelude.{OnOk};
ghost use Rattle.fields.specs.Table.{HasSlot, Openable, TabLive};
ghost use Rattle.table_changes.specs.Seat.{Seated, LetSeat, Suffixed};

use fields::layout::is_spent;
use runs::dot::has_dot;
use soundness::tab::is_live;
use std::fmt;
use table::find::is_let;
use table::slots::live_tabs;
use terms::name::is_name;

#[derive(Clone, Copy)]
pub enum Why {
    Unsound,
    Seat,
    Full,
    Spent,
    Suffix,
    NoTab,
    Waits,
    WaitsNot,
}

impl fmt::Display for Why {
    fn fmt<W: fmt::Write>(&self, f: &mut fmt::Formatter<W>) -> fmt::Result {
        f.write_str(match self {
            Why::Unsound => "unsound",
            Why::Seat => "seat",
            Why::Full => "full",
            Why::Spent => "spent",
            Why::Suffix => "suffix",
            Why::NoTab => "none",
            Why::Waits => "waits",
            Why::WaitsNot => "waits not",
        })
    }
}

pub fn seat(t: &[u8], s: usize) -> Result<(), Why>
    ensures { OnOk result (Seated t.now s) }
{
    if !soundness::sound(t) {
        return Err(Why::Unsound);
    }
    if !(1..=8).contains(&s) {
        return Err(Why::Seat);
    }
    Ok(())
}

#[tactic(auto, using(fields::specs::Laws::Asked::let_seat, fields::specs::Laws::Table::table_facts))]
pub fn let_seat(t: &[u8], s: usize) -> Result<(), Why>
    ensures { OnOk result (LetSeat t.now s) }
{
    if !soundness::sound(t) {
        return Err(Why::Unsound);
    }
    if !is_let(t, s) {
        return Err(Why::Seat);
    }
    Ok(())
}

pub fn slot(t: &[u8], s: usize) -> Result<(), Why>
    ensures { OnOk result (HasSlot t.now s) }
{
    seat(t, s)?;
    if 10 <= live_tabs(t, s) {
        return Err(Why::Full);
    }
    Ok(())
}

fn suffix(s: &[u8]) -> Result<(), Why>
    ensures { OnOk result (Suffixed s.now) }
{
    if (3..=64).contains(&s.len()) && is_name(s) && has_dot(s) {
        Ok(())
    } else {
        Err(Why::Suffix)
    }
}

#[tactic(auto, using(crate::proofs::Seats::seat_of, fields::specs::Laws::Asked::opens_left))]
pub fn open(t: &[u8], s: usize, name: &[u8]) -> Result<(), Why>
    requires { LetSeat t.now s }
    ensures { OnOk result (Openable t.now s name.now) }
{
    if 10 <= live_tabs(t, s) {
        return Err(Why::Full);
    }
    if is_spent(t, s) {
        return Err(Why::Spent);
    }
    suffix(name)
}

// A selection, or a mark.
#[tactic(auto, using(crate::proofs::Seats::tab_of))]
pub fn tab(t: &[u8], s: usize, k: usize) -> Result<(), Why>
    requires { LetSeat t.now s }
    ensures { OnOk result (TabLive t.now s k) }
{
    if (1..=10).contains(&k) && is_live(t, s, k) {
        Ok(())
    } else {
        Err(Why::NoTab)
    }
}
