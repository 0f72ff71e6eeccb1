//! A player of a media playlist (RFC 8216).
ghost use Rattle.std.specs.Prelude.{◌≡◌, ◌++◌, ◌∷◌, ℕ, List, [], Option, Err, OnOk, OnErr, IfOk};
ghost use Rattle.std.specs.Option.{option_copied};
ghost use Rattle.usp_base.specs.Counts.{HasCause};
ghost use Rattle.usp_base.specs.declared.link.Asked.{Asked};
ghost use Rattle.usp_cookie.specs.Jars.{header_of};
ghost use Rattle.usp_player.specs.Maps.{address_of};
ghost use Rattle.usp_player.specs.Playing.{Aim, Next, begin, jar_with, step_with, toward, toward_segments, uris_of};
ghost use Rattle.usp_player.specs.Requests.{authority_of, head_of};
ghost use Rattle.usp_player.specs.Ways.{Ends, Follows, Plays, Requests, Way};
ghost use Rattle.usp_player.specs.declared.fault.PlayFault.TheVariants.{LinkFault};
ghost use Rattle.usp_player.specs.declared.transcript.Step.{Step};

use crate::limits::MAX_REDIRECTIONS;
use crate::request::{authority_of, exchange, head_of, is_web, resolve, url_of};
use crate::{AddressMap, PlayFault, Segment, Step, Transcript, read_playlist};
use std::alloc::Global;
use url::Url;
use usp_base::{Link, Octets};
use usp_cookie::{Jar, NoMemory};
use usp_http::Heard;

/// What is kept from one request to the next.
#[derive(Drop)]
pub(crate) struct Player {
    alloc: Global,
    jar: Jar,
    steps: Vec<Step>,
}

/// What was answered behind the redirections.
#[derive(Drop)]
pub(crate) struct Reached {
    pub url: Url,
    pub body: Octets,
}

// The address of a URL's authority.
fn address_for<'m>(map: &'m AddressMap, url: &Url, authority: &[u8]) -> Option<&'m [u8]>
    requires { authority.now ≡ authority_of url.now }
    ensures { option_copied result ≡ address_of map.now (authority_of url.now) }
{
    map.address_of(authority)
}

// Keeps the cookies of an answer.
fn store_cookies(
    jar: &mut Jar,
    authority: &[u8],
    path: &[u8],
    values: &[Octets],
) -> Result<(), NoMemory>
    ensures { OnOk result (jar.new ≡ jar_with authority.now path.now values.now jar.old) }
{
    for value in values {
        jar.store(authority, path, value.bytes())?;
    }
    Ok(())
}

impl Player {
    // The head of the request for a URL.
    fn head_for(&self, url: &Url, authority: &[u8]) -> Result<Vec<u8>, NoMemory>
        requires { authority.now ≡ authority_of url.now }
        ensures { IfOk result (λ head. head.items
            ≡ head_of url.now (header_of (authority_of url.now) url.now.path self.now.jar)) }
    {
        match self
            .jar
            .header_for(self.alloc, authority, url.path().as_bytes())?
        {
            Some(cookies) => Ok(head_of(self.alloc, url, authority, Some(&cookies))?),
            None => Ok(head_of(self.alloc, url, authority, None)?),
        }
    }

    // Keeps the cookies of the reply of a URL, and its step.
    fn note_reply(&mut self, url: &Url, authority: Vec<u8>, reply: &Heard) -> Result<(), NoMemory>
        requires { authority.items ≡ authority_of url.now }
        ensures jar { OnOk result (self.new.jar
            ≡ jar_with (authority_of url.now) url.now.path reply.now.cookies self.old.jar) }
        ensures step { OnOk result (self.new.steps.items ≡ self.old.steps.items
            ++ step_with (authority_of url.now) url.now.path reply.now.status ∷ []) }
        ensures same { OnErr result (self.new.steps.items ≡ self.old.steps.items) }
    {
        let path = url.path().as_bytes();
        store_cookies(&mut self.jar, &authority, path, reply.cookies.rows())?;
        let path = Vec::from_slice(self.alloc, path)?;
        self.steps.push(Step {
            authority: Octets::of(authority),
            path: Octets::of(path),
            status: reply.status,
        })?;
        Ok(())
    }

    // One request.
    fn request<L: Link>(
        &mut self,
        link: &mut L,
        map: &AddressMap,
        url: &Url,
    ) -> Result<Heard, PlayFault>
        ensures way { (start : Next) (told : Option (List Asked)) (redirections : ℕ) (aim : Aim)
            → Way map.now start told (L.asks link.old) self.old.steps.items
            (toward map.now url.now redirections self.old.jar aim)
            → Requests map.now start told (L.asks link.new) self.new.steps.items
            url.now redirections aim self.new.jar result }
        ensures cause { HasCause (L.link_count link.old) (L.link_count link.new)
            (result ≡ Err LinkFault) }
    {
        if !is_web(url) {
            return Err(PlayFault::BadUri);
        }
        let authority = authority_of(self.alloc, url)?;
        let Some(address) = address_for(map, url, &authority) else {
            return Err(PlayFault::NoAddress);
        };
        let head = self.head_for(url, &authority)?;
        let reply = exchange(self.alloc, link, address, &head)?;
        self.note_reply(url, authority, &reply)?;
        Ok(reply)
    }

    // A request and its redirections.
    fn follow<L: Link>(
        &mut self,
        link: &mut L,
        map: &AddressMap,
        first: Url,
    ) -> Result<Reached, PlayFault>
        ensures way { (start : Next) (told : Option (List Asked)) (aim : Aim)
            → Way map.now start told (L.asks link.old) self.old.steps.items
            (toward map.now first 0 self.old.jar aim)
            → Follows map.now start told (L.asks link.new) self.new.steps.items
            aim self.new.jar result }
        ensures cause { HasCause (L.link_count link.old) (L.link_count link.new)
            (result ≡ Err LinkFault) }
    {
        let mut url = first;
        let mut redirections = 0u8;
        'redirections: loop {
            let reply = self.request(link, map, &url)?;
            let Heard {
                status,
                location,
                body,
                ..
            } = reply;
            if status == 200 {
                return Ok(Reached { url, body });
            }
            if status != 302 {
                return Err(PlayFault::Denied);
            }
            let Some(location) = location else {
                return Err(PlayFault::NoLocation);
            };
            if redirections >= MAX_REDIRECTIONS {
                return Err(PlayFault::TooManyHops);
            }
            url = resolve(&url, location.bytes())?;
            redirections += 1;
        }
    }

    // All segments of a playlist that was answered at the base.
    fn play_segments<L: Link>(
        &mut self,
        link: &mut L,
        map: &AddressMap,
        base: &Url,
        segments: &[Segment],
    ) -> Result<(), PlayFault>
        ensures way { (start : Next) (told : Option (List Asked))
            → Way map.now start told (L.asks link.old) self.old.steps.items
            (toward_segments map.now self.old.jar base.now (uris_of segments.now))
            → Plays map.now start told (L.asks link.new) self.new.steps.items result }
        ensures cause { HasCause (L.link_count link.old) (L.link_count link.new)
            (result ≡ Err LinkFault) }
    {
        for segment in segments {
            let url = resolve(base, segment.uri.bytes())?;
            self.follow(link, map, url)?;
        }
        Ok(())
    }

    // The playlist at the first URI, and its segments.
    fn play<L: Link>(
        &mut self,
        link: &mut L,
        map: &AddressMap,
        first: &[u8],
    ) -> Result<(), PlayFault>
        requires steps { self.old.steps.items ≡ [] }
        requires jar { self.old.jar ≡ [] }
        ensures way { Plays map.now (begin map.now first.now) (L.asks link.old) (L.asks link.new)
            self.new.steps.items result }
        ensures cause { HasCause (L.link_count link.old) (L.link_count link.new)
            (result ≡ Err LinkFault) }
    {
        let url = url_of(self.alloc, first)?;
        let reached = self.follow(link, map, url)?;
        let list = read_playlist(self.alloc, reached.body.bytes())?;
        self.play_segments(link, map, &reached.url, list.segments.rows())
    }
}

/// Asks for the first URI, and then for each segment of the playlist that answers it, in order. A redirection is
/// followed to its location, at most `MAX_REDIRECTIONS` times in a request. The cookies of each answer go with the
/// later requests that they are for (RFC 6265). The transcript of a fault has the requests that were answered
/// before it.
///
/// ```
/// let map = read_map(alloc, b"a.example 127.0.0.1:8080\n")?;
/// match play(alloc, &mut link, &map, b"http://a.example/v/list.m3u8") {
///     Ok(transcript) => {} // transcript.steps() has the playlist's step and then those of the segments
///     Err((transcript, fault)) => {} // fault says why the player stopped behind these steps
/// }
/// ```
pub fn play<L: Link>(
    alloc: Global,
    link: &mut L,
    map: &AddressMap,
    first: &[u8],
) -> Result<Transcript, (Transcript, PlayFault)>
    ensures way { Ends map.now (begin map.now first.now) (L.asks link.old) (L.asks link.new)
        result }
    ensures cause { HasCause (L.link_count link.old) (L.link_count link.new)
        ((steps : List Step) × (result ≡ Err (steps, LinkFault))) }
{
    let mut player = Player {
        alloc,
        jar: Jar::empty(alloc),
        steps: Vec::new(alloc),
    };
    match player.play(link, map, first) {
        Ok(()) => Ok(Transcript::of(player.steps)),
        Err(fault) => Err((Transcript::of(player.steps), fault)),
    }
}
