// A tab is opened: in the lowest free slot, on the process row of its owner and suffix, or else on the lowest free one.
ghost use Rattle.std.specs.Prelude.{◌≡◌};
ghost use Rattle.terms.specs.Base.{if_any};
ghost use Rattle.fields.specs.Table.{view, owner_at, process_with, opened, Openable};

use crate::find::free_process;
use crate::slots::free_slot;
use links::hang::{hang, make};
use soundness::tab::owner_at;

// p is the row that `process_with` finds for the seat's owner and the suffix.
pub fn open(t: &mut [u8], s: usize, p: Option<usize>, suffix: &[u8])
    requires { (Openable t.old s suffix.now) × (p ≡ if_any (process_with (view t.old) (owner_at (view t.old) s) suffix.now)) }
    ensures { t.new ≡ opened t.old s suffix.now }
{
    let k = free_slot(t, s);
    match p {
        Some(p) => hang(t, s, k, p),
        None => {
            let q = free_process(t).unwrap();
            let o = owner_at(t, s);
            make(t, q, o, suffix);
            hang(t, s, k, q);
        }
    }
}
