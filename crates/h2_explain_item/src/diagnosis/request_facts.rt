//! What is wrong with a request that this server answers all the same, and with a field block that it takes, looked up in
//! the fields (RFC 9113, 8.3.1; RFC 9110, 5.1, 5.3 and 9.1; RFC 7541, 4.2). No definition speaks of which fields they are
//! found in.

ghost use Rattle.std.specs.Prelude.{◌≡◌};
ghost use Rattle.h2_explain_item.specs.Warnings.{no_block_facts, no_request_facts};

use crate::shown_block::{ShownBlock, SpelledFields};
use std::alloc::Allocator;

/// What is wrong with a request.
#[derive(Clone, Copy)]
pub struct RequestFacts {
    /// Whether `:method` is no token (RFC 9110, 9.1).
    pub bad_method: bool,
    /// Whether `:scheme` is no scheme (RFC 3986, 3.1).
    pub bad_scheme: bool,
    /// Whether `:path` of http and https does not begin with a slash, and is not `*` with OPTIONS (RFC 9113, 8.3.1).
    pub bad_path: bool,
    /// Whether `:authority` of http and https has userinfo (RFC 9113, 8.3.1).
    pub userinfo: bool,
    /// Whether `:authority` is empty (RFC 9113, 8.3.1).
    pub empty_authority: bool,
    /// Whether a request of http or https has neither `:authority` nor the field `host` (RFC 9113, 8.3.1).
    pub no_authority: bool,
    /// Whether the field `host` is there twice (RFC 9110, 5.3).
    pub host_twice: bool,
    /// Whether the field `host` is other than `:authority`, apart from the case of letters (RFC 9113, 8.3.1).
    pub host_differs: bool,
    /// Whether the field `content-length` is there twice (RFC 9110, 5.3).
    pub length_twice: bool,
}

impl RequestFacts {
    /// Nothing is wrong.
    pub fn none() -> RequestFacts
        ensures { result ≡ no_request_facts }
    {
        RequestFacts {
            bad_method: false,
            bad_scheme: false,
            bad_path: false,
            userinfo: false,
            empty_authority: false,
            no_authority: false,
            host_twice: false,
            host_differs: false,
            length_twice: false,
        }
    }
}

/// What is wrong with a field block.
#[derive(Clone, Copy)]
pub struct BlockFacts {
    /// Whether the name of a field, apart from pseudo-fields, is no token (RFC 9110, 5.1).
    pub name_no_token: bool,
    /// Whether it has more than two table size updates (RFC 7541, 4.2).
    pub many_updates: bool,
}

impl BlockFacts {
    /// Nothing is wrong.
    pub fn none() -> BlockFacts
        ensures { result ≡ no_block_facts }
    {
        BlockFacts {
            name_no_token: false,
            many_updates: false,
        }
    }
}

/// Whether an octet is one of a token (RFC 9110, 5.6.2).
fn is_of_token(octet: u8) -> bool {
    octet.is_ascii_alphanumeric() || b"!#$%&'*+-.^_`|~".contains(&octet)
}

/// Whether octets are a token: one at least (RFC 9110, 5.6.2).
fn is_token(octets: &[u8]) -> bool {
    for octet in octets {
        if !is_of_token(*octet) {
            return false;
        }
    }
    !octets.is_empty()
}

/// Whether an octet may be in a scheme, after its first (RFC 3986, 3.1).
fn is_of_scheme(octet: u8) -> bool {
    octet.is_ascii_alphanumeric() || b"+-.".contains(&octet)
}

/// Whether octets are a scheme: a letter, and then letters, digits and `+`, `-` and `.` (RFC 3986, 3.1).
fn is_scheme(octets: &[u8]) -> bool {
    for octet in octets {
        if !is_of_scheme(*octet) {
            return false;
        }
    }
    match octets.first() {
        Some(first) => first.is_ascii_alphabetic(),
        None => false,
    }
}

/// The places of the pseudo-fields of a request, of each name the first, and how many fields `host` and `content-length`
/// there are.
#[derive(Clone, Copy)]
struct Places {
    method: Option<usize>,
    scheme: Option<usize>,
    path: Option<usize>,
    authority: Option<usize>,
    hosts: usize,
    lengths: usize,
}

impl Places {
    /// None of them.
    fn none() -> Places {
        Places {
            method: None,
            scheme: None,
            path: None,
            authority: None,
            hosts: 0,
            lengths: 0,
        }
    }

    /// Notes that a field of this name is at this place, after the others.
    fn note(&mut self, name: &[u8], place: usize) {
        if name == ":method".as_bytes() {
            self.method = self.method.or(Some(place));
        } else if name == ":scheme".as_bytes() {
            self.scheme = self.scheme.or(Some(place));
        } else if name == ":path".as_bytes() {
            self.path = self.path.or(Some(place));
        } else if name == ":authority".as_bytes() {
            self.authority = self.authority.or(Some(place));
        } else if name == "host".as_bytes() {
            self.hosts = self.hosts.saturating_add(1);
        } else if name == "content-length".as_bytes() {
            self.lengths = self.lengths.saturating_add(1);
        }
    }
}

/// The places in these fields.
fn places_in<A: Allocator>(fields: SpelledFields<'_, A>) -> Places {
    let mut places = Places::none();
    for place in 0..fields.len() {
        if let Some(field) = fields.get(place) {
            places.note(field.name, place);
        }
    }
    places
}

/// The value of the field at a place.
fn value_at<'s, A: Allocator>(
    place: Option<usize>,
    fields: SpelledFields<'s, A>,
) -> Option<&'s [u8]> {
    match fields.get(place?) {
        Some(field) => Some(field.value),
        None => None,
    }
}

/// Whether a request with this scheme is one of http or https.
fn is_web(scheme: Option<&[u8]>) -> bool {
    match scheme {
        Some(scheme) => {
            scheme.eq_ignore_ascii_case(b"http") || scheme.eq_ignore_ascii_case(b"https")
        }
        None => false,
    }
}

/// Whether a value that is there is no token.
fn is_no_token(value: Option<&[u8]>) -> bool {
    match value {
        Some(octets) => !is_token(octets),
        None => false,
    }
}

/// Whether a value that is there is no scheme.
fn is_no_scheme(value: Option<&[u8]>) -> bool {
    match value {
        Some(octets) => !is_scheme(octets),
        None => false,
    }
}

/// Whether the path of a request of http or https does not begin with a slash, and is not `*` with OPTIONS.
fn has_bad_path(path: Option<&[u8]>, method: Option<&[u8]>) -> bool {
    let Some(path) = path else {
        return false;
    };
    let options = match method {
        Some(method) => method == "OPTIONS".as_bytes(),
        None => false,
    };
    !path.starts_with(b"/") && !(options && path == "*".as_bytes())
}

/// Whether an authority has userinfo: an `@` (RFC 3986, 3.2).
fn has_userinfo(authority: Option<&[u8]>) -> bool {
    match authority {
        Some(authority) => authority.contains(&b'@'),
        None => false,
    }
}

/// Whether an authority is there, and empty.
fn is_empty(authority: Option<&[u8]>) -> bool {
    match authority {
        Some(authority) => authority.is_empty(),
        None => false,
    }
}

/// Whether the authority is there, and a field `host` is other than it, apart from the case of letters.
fn do_hosts_differ<'s, A: Allocator>(
    authority: Option<&[u8]>,
    fields: SpelledFields<'s, A>,
) -> bool {
    let Some(authority) = authority else {
        return false;
    };
    for place in 0..fields.len() {
        let Some(field) = fields.get(place) else {
            break;
        };
        if field.name == "host".as_bytes() && !field.value.eq_ignore_ascii_case(authority) {
            return true;
        }
    }
    false
}

/// What is wrong with the request that has these fields.
pub fn request_facts<A: Allocator>(fields: SpelledFields<'_, A>) -> RequestFacts {
    let places = places_in(fields);
    let (method, scheme) = (
        value_at(places.method, fields),
        value_at(places.scheme, fields),
    );
    let authority = value_at(places.authority, fields);
    let web = is_web(scheme);
    RequestFacts {
        bad_method: is_no_token(method),
        bad_scheme: is_no_scheme(scheme),
        bad_path: web && has_bad_path(value_at(places.path, fields), method),
        userinfo: web && has_userinfo(authority),
        empty_authority: is_empty(authority),
        no_authority: web && authority.is_none() && places.hosts == 0,
        host_twice: places.hosts > 1,
        host_differs: places.hosts > 0 && do_hosts_differ(authority, fields),
        length_twice: places.lengths > 1,
    }
}

/// Whether the name of a field is no token, apart from pseudo-fields (RFC 9110, 5.1).
fn has_name_no_token<A: Allocator>(fields: SpelledFields<'_, A>) -> bool {
    for place in 0..fields.len() {
        let Some(field) = fields.get(place) else {
            break;
        };
        let name = field.name;
        if !name.starts_with(b":") && !is_token(name) {
            return true;
        }
    }
    false
}

/// What is wrong with the field block that was read.
pub fn block_facts<A: Allocator>(block: ShownBlock<'_, A>) -> BlockFacts {
    BlockFacts {
        name_no_token: has_name_no_token(block.fields),
        many_updates: block.updates.len() > 2,
    }
}
