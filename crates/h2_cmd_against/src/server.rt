//! What is asked of a server before cases are played: what it announces, and which status a lawful request gets. Definitions:
//! `specs/Servers.antt`.

ghost use Rattle.std.specs.Prelude.{◌≡◌, IfOk};
ghost use Rattle.h2_cmd_against.specs.Aims.{aimed_by};
ghost use Rattle.h2_cmd_against.specs.Servers.{Asks, AsksGet, AsksPost, IsSurveyed, Surveys, request, request_script, status_among, status_of};

use crate::aim::{Aim, aimed_octets};
use h2_cmd_cases::lines_in;
use h2_cmd_exchange::link::Link;
use h2_cmd_exchange::played::Played;
use h2_cmd_judge::event::{Event, Seen};
use std::alloc::{AllocError, Global};

/// How many milliseconds without an octet end a wait here.
const WAIT: u64 = 150;

/// What is known of a server.
#[derive(Drop)]
pub struct Server {
    /// The octets that it sends first; where they were recorded, all of them.
    pub octets: Vec<u8>,
    /// The status that a lawful GET gets; 0 for none.
    pub get: u32,
    /// That of a POST.
    pub post: u32,
    /// What the client sent, where that was recorded.
    pub client: Option<Vec<u8>>,
}

/// A lawful request with its end, after the preface and SETTINGS. The first two have 24 and 9 octets.
fn request_script(is_post: bool) -> &'static [u8]
    ensures { result.now ≡ request_script is_post }
{
    if is_post {
        b"PREFACE\nSETTINGS 00 0 -\nHEADERS 05 1 hi3,i6,i4,a1=\"localhost\""
    } else {
        b"PREFACE\nSETTINGS 00 0 -\nHEADERS 05 1 hi2,i6,i4,a1=\"localhost\""
    }
}

/// Its octets, as they go out.
fn request(alloc: Global, aim: Aim<'_>, is_post: bool) -> Result<Vec<u8>, AllocError>
    ensures { IfOk result (λ octets. octets.items ≡ request (aimed_by aim.entry) is_post) }
{
    let lines = lines_in(alloc, request_script(is_post))?;
    aimed_octets(alloc, aim, lines.as_slice())
}

/// The status of an event; 0 where it has none.
fn status_of(event: Event) -> u32
    ensures { result ≡ status_of event }
{
    match event {
        Event::Answered(_, status, _) => status,
        Event::Goaway(_)
        | Event::Reset(_, _)
        | Event::Ended(_)
        | Event::Acknowledged
        | Event::Pong(_)
        | Event::Credit(_, _)
        | Event::Unreadable(_) => 0,
    }
}

/// The status of the first answer; 0 for none.
fn status_among(events: &[Seen]) -> u32
    ensures { result ≡ status_among events.now }
{
    for seen in events {
        let status = status_of(seen.event);
        if status != 0 {
            return status;
        }
    }
    0
}

/// What a server does with a request; none where nothing listens.
fn asked<L: Link>(
    alloc: Global,
    aim: Aim<'_>,
    link: &mut L,
    is_post: bool,
) -> Result<Option<Played>, AllocError>
    ensures { IfOk result (λ played. Asks (aimed_by aim.entry) is_post (L.log link.old) played (L.log link.new)) }
{
    let octets = request(alloc, aim, is_post)?;
    if !link.connect() {
        return Ok(None);
    }
    let ends = [24, 33, octets.len()];
    let played = Played::play(alloc, link, octets.as_slice(), &ends, false, WAIT)?;
    Ok(Some(played))
}

/// The status that a POST gets; 0 for none.
fn status_of_post<L: Link>(alloc: Global, aim: Aim<'_>, link: &mut L) -> Result<u32, AllocError>
    ensures { IfOk result (λ status. AsksPost (aimed_by aim.entry) (L.log link.old) status (L.log link.new)) }
{
    match asked(alloc, aim, link, true)? {
        Some(played) => Ok(status_among(played.reading.events())),
        None => Ok(0),
    }
}

/// What is known of a server to which a GET was played.
fn server_of(alloc: Global, played: &Played) -> Result<Server, AllocError>
    ensures { IfOk result (IsSurveyed played.now 0) }
{
    let octets = Vec::from_slice(alloc, played.reading.octets())?;
    Ok(Server {
        octets,
        get: status_among(played.reading.events()),
        post: 0,
        client: None,
    })
}

/// What is known of a server by a GET; none where nothing listens.
fn server_by_get<L: Link>(
    alloc: Global,
    aim: Aim<'_>,
    link: &mut L,
) -> Result<Option<Server>, AllocError>
    ensures { IfOk result (λ server. AsksGet (aimed_by aim.entry) (L.log link.old) server (L.log link.new)) }
{
    match asked(alloc, aim, link, false)? {
        Some(played) => Ok(Some(server_of(alloc, &played)?)),
        None => Ok(None),
    }
}

/// What is known of a server; none where nothing listens.
///
/// `AllocError` where memory is refused.
pub fn survey<L: Link>(
    alloc: Global,
    aim: Aim<'_>,
    link: &mut L,
) -> Result<Option<Server>, AllocError>
    ensures { IfOk result (λ server. Surveys (aimed_by aim.entry) (L.log link.old) server (L.log link.new)) }
{
    match server_by_get(alloc, aim, link)? {
        Some(server) => {
            let post = status_of_post(alloc, aim, link)?;
            Ok(Some(Server { post, ..server }))
        }
        None => Ok(None),
    }
}
