// The order book and the suffix question of document 01.
#![tactic(auto)]

ghost use Rattle.std.specs.Prelude.{◌≡◌, [], IfOk, IfErr};
ghost use Rattle.terms.specs.Names.{suffix_of, Answered};
ghost use Rattle.names.specs.Number.{number_of};

pub mod book;
mod listed;
mod longest;
mod orders;

use terms::name::is_name;

// Why a host has no suffix: the book is unsound, or nothing fits.
#[derive(Clone, Copy, Debug, PartialEq, Eq)]
pub enum NoSuffix {
    UnsoundBook,
    Unfit,
}

impl From<NoSuffix> for u8 {
    ghost from_gives = { λ why n. n ≡ number_of why };

    fn from(why: NoSuffix) -> u8 {
        match why {
            NoSuffix::UnsoundBook => 6,
            NoSuffix::Unfit => 7,
        }
    }
}

// The suffix of a host under a book: a part of the host, case kept.
pub fn ask<'h>(host: &'h [u8], book: &[u8]) -> Result<&'h [u8], NoSuffix>
    ensures given { IfOk result (λ part. Answered (suffix_of host.now book.now) host.entry.ref_ptr part.ref_ptr part.now 0) }
    ensures refused { IfErr result (λ why. Answered (suffix_of host.now book.now) host.entry.ref_ptr host.entry.ref_ptr [] (number_of why)) }
{
    if !book::is_sound(book) {
        return Err(NoSuffix::UnsoundBook);
    }
    if !is_name(host) {
        return Err(NoSuffix::Unfit);
    }
    let public = longest::public_of(host, book).ok_or(NoSuffix::Unfit)?;
    let taken = longest::with_label(host, public).ok_or(NoSuffix::Unfit)?;
    if 64 < taken {
        return Err(NoSuffix::Unfit);
    }
    Ok(&host[host.len() - taken..])
}

// The same as the document has it: a part of the host, and 0 in `why`; or 6 (the book is unsound) or 7 in `why`, and an empty
// part.
pub fn suffix<'h>(host: &'h [u8], book: &[u8], why: &mut u8) -> &'h [u8]
    ensures { Answered (suffix_of host.now book.now)
        host.entry.ref_ptr result.ref_ptr result.now why.new }
{
    match ask(host, book) {
        Ok(part) => {
            *why = 0;
            part
        }
        Err(no) => {
            *why = u8::from(no);
            &host[..0]
        }
    }
}
