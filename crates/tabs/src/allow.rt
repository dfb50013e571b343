// What a tab may ask for.
ghost use Rattle.std.specs.Prelude.{◌≡◌, ℕ};
ghost use Rattle.terms.specs.Base.{every, within};
ghost use Rattle.rules.specs.Sheet.{cookie_domain, socket_host, socket_allowed, is_url};
ghost use Rattle.rules.specs.Inner.{goes_on};

use terms::name::is_name;
use terms::under::is_under;

// A domain whose cookies a tab of this suffix may store and retrieve.
#[tactic(auto, using(rules::proofs::Steps::Allow::cookie_is))]
pub fn is_cookie_domain(domain: &[u8], suffix: &[u8]) -> bool
    ensures { result ≡ cookie_domain domain.now suffix.now }
{
    is_name(domain) && is_under(domain, suffix)
}

// A host that a tab of this suffix may open a socket to.
#[tactic(auto, using(rules::proofs::Steps::Allow::host_is))]
fn is_socket_host(host: &[u8], suffix: &[u8]) -> bool
    ensures { result ≡ socket_host host.now suffix.now }
{
    is_name(host) && is_under(host, suffix)
}

#[tactic(auto, using(rules::proofs::Steps::Allow::socket_is, std::proofs::lemmas::Bool::Decides::nat_tests))]
pub fn is_socket_allowed(port: usize, host: &[u8], suffix: &[u8]) -> bool
    ensures { result ≡ socket_allowed port host.now suffix.now }
{
    port != 0 && is_socket_host(host, suffix)
}

// Every byte is one that is seen.
fn are_seen(u: &[u8]) -> bool
    ensures { result ≡ every (λ (x : ℕ). within 33 126 x) u.now }
{
    u.iter().all(|x| (33..=126).contains(x))
}

// u begins with these bytes and goes on.
#[tactic(auto, using(rules::proofs::Steps::Allow::goes_is, std::proofs::lemmas::Bool::Decides::nat_tests))]
fn goes_on(scheme: &[u8], u: &[u8]) -> bool
    ensures { result ≡ goes_on scheme.now u.now }
{
    scheme.len() < u.len() && u.starts_with(scheme)
}

#[tactic(auto, using(rules::proofs::Steps::Allow::url_is, std::proofs::lemmas::Bool::Decides::nat_tests))]
pub fn is_url(u: &[u8]) -> bool
    ensures { result ≡ is_url u.now }
{
    (8..=2048).contains(&u.len())
        && are_seen(u)
        && (goes_on(b"http://", u) || goes_on(b"https://", u))
}
