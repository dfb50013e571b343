// Actions as frames in the output room, from a place on; the place after them is given.
ghost use Rattle.std.specs.Prelude.{[], ◌∷◌, ◌++◌, ◌+◌, length};
ghost use Rattle.terms.specs.Names.{folded};
ghost use Rattle.frames.specs.Action.{party_of, tag_of};
ghost use Rattle.rules.specs.Sheet.{framed};
ghost use Rattle.rules.specs.Inner.{Sent, Fits};

use crate::action::Action;
use crate::put::{head_of, put, put_folded};

// The payload is some bytes, a name that is folded, and some bytes.
pub fn send(
    out: &mut [u8],
    at: usize,
    action: Action,
    id: usize,
    lead: &[u8],
    name: &[u8],
    rest: &[u8],
) -> usize
    requires { Fits out.old at id (length lead.now + length name.now + length rest.now) }
    ensures { Sent out.old at (framed (party_of action) id (tag_of action) (lead.now ++ (folded name.now ++ rest.now)) ∷ []) out.new result }
{
    let size = lead.len() + name.len() + rest.len();
    let h = head_of(action, id, size);
    let a = put(out, at, &h);
    let b = put(out, a, lead);
    let c = put_folded(out, b, name);
    put(out, c, rest)
}

// No payload.
pub fn send_bare(out: &mut [u8], at: usize, action: Action, id: usize) -> usize
    requires { Fits out.old at id 0 }
    ensures { Sent out.old at (framed (party_of action) id (tag_of action) [] ∷ []) out.new result }
{
    send(out, at, action, id, b"", b"", b"")
}

// A payload as it is.
pub fn send_raw(out: &mut [u8], at: usize, action: Action, id: usize, x: &[u8]) -> usize
    requires { Fits out.old at id (length x.now) }
    ensures { Sent out.old at (framed (party_of action) id (tag_of action) x.now ∷ []) out.new result }
{
    send(out, at, action, id, x, b"", b"")
}

// Some bytes, and a name that is folded.
pub fn send_name(
    out: &mut [u8],
    at: usize,
    action: Action,
    id: usize,
    lead: &[u8],
    name: &[u8],
) -> usize
    requires { Fits out.old at id (length lead.now + length name.now) }
    ensures { Sent out.old at (framed (party_of action) id (tag_of action) (lead.now ++ folded name.now) ∷ []) out.new result }
{
    send(out, at, action, id, lead, name, b"")
}
