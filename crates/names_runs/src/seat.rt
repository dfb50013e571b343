// What a book says of a seat, and the seat's owner.
use runs::say;
use terms::order::{Letting, owner_of};

// No sound book lets a seat past the eighth, and that has no owner.
pub fn say_owner(rt: &impl Print, seat: u8, tenant: u8, options: u8) {
    let _ = print!(rt; " owner");
    if seat <= 8 {
        let owner = owner_of(seat, tenant, options);
        let _ = print!(rt; " {owner}");
    }
    let _ = println!(rt; "");
}

pub fn say(rt: &impl Print, book: &[u8], seat: u8, label: &[u8]) {
    if !names::book::is_sound(book) {
        say::told(rt, label, b"unsound");
        return;
    }
    match names::book::letting_of(book, seat) {
        None => say::told(rt, label, b"not let"),
        Some(Letting { tenant, options }) => {
            say::text(rt, label);
            let _ = print!(rt; " tenant {tenant} separate {options}");
            say_owner(rt, seat, tenant, options);
        }
    }
}
