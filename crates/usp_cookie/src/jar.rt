//! The cookies of a player.
ghost use Rattle.std.specs.Prelude.{◌≡◌, ◌<◌, ◌≤◌, ◌++◌, ◌∷◌, [], length, filter, position, slice_set, IfOk, OnErr, OnOk};
ghost use Rattle.std.specs.Option.{option_map};
ghost use Rattle.usp_cookie.specs.Jars.{header_of, is_same, is_sent_of, put_in, sent, stored, without_excess};
ghost use Rattle.usp_cookie.specs.Joining.{joined_all};

use crate::NoMemory;
use crate::cookie::{Cookie, Target, covers_rest, is_same, is_sent_of, push_pair};
use crate::limits::MAX_COOKIES;
use crate::setting::cookie_of;
use std::alloc::Global;
use std::marker::Model;

/// The cookies of a player, which contracts see as their list.
#[derive(Drop)]
pub struct Jar {
    alloc: Global,
    cookies: Vec<Cookie>,
}

impl Model for Jar {
    ghost use Rattle.std.specs.Prelude.{List};
    ghost use Rattle.usp_cookie.specs.declared.cookie.Cookie.{Cookie};

    ghost Value = { List Cookie };

    ghost view = { λ j. j.cookies.items };
}

impl Jar {
    /// A jar without cookies.
    pub fn empty(alloc: Global) -> Jar
        ensures { result ≡ [] }
    {
        Jar {
            alloc,
            cookies: Vec::new(alloc),
        }
    }

    /// Keeps the cookie of a Set-Cookie value in an answer of the authority to a request for the path (RFC 6265
    /// section 5.3). The jar is as it was where the value sets none.
    #[tactic(auto, unfolding(crate::specs::Jars::stored))]
    pub fn store(&mut self, authority: &[u8], path: &[u8], value: &[u8]) -> Result<(), NoMemory>
        ensures kept { OnOk result (self.new ≡ stored authority.now path.now value.now self.old) }
        ensures same { OnErr result (self.new ≡ self.old) }
    {
        match cookie_of(self.alloc, authority, path, value)? {
            Some(cookie) => self.keep(cookie),
            None => Ok(()),
        }
    }

    fn keep(&mut self, cookie: Cookie) -> Result<(), NoMemory>
        ensures kept { OnOk result (self.new ≡ without_excess (put_in cookie self.old)) }
        ensures same { OnErr result (self.new ≡ self.old) }
    {
        self.put_in(cookie)?;
        self.drop_excess();
        Ok(())
    }

    #[tactic(auto, using(crate::proofs::Places::put_found, crate::proofs::Places::put_none))]
    fn put_in(&mut self, cookie: Cookie) -> Result<(), NoMemory>
        ensures kept { OnOk result (self.new ≡ put_in cookie self.old) }
        ensures same { OnErr result (self.new ≡ self.old) }
    {
        match self.place_of(&cookie) {
            Some(place) => {
                self.write_at(place, cookie);
                Ok(())
            }
            None => self.push_last(cookie),
        }
    }

    // The place of the cookie with the same authority, name and path.
    fn place_of(&self, cookie: &Cookie) -> Option<usize>
        ensures { result ≡ position (λ old. is_same old cookie.now) self.now }
    {
        self.cookies.iter().position(|old| is_same(old, cookie))
    }

    fn write_at(&mut self, place: usize, cookie: Cookie)
        requires { place < length self.old }
        ensures { self.new ≡ slice_set self.old place cookie }
    {
        self.cookies[place] = cookie;
    }

    fn push_last(&mut self, cookie: Cookie) -> Result<(), NoMemory>
        ensures kept { OnOk result (self.new ≡ self.old ++ cookie ∷ []) }
        ensures same { OnErr result (self.new ≡ self.old) }
    {
        self.cookies.push(cookie)?;
        Ok(())
    }

    // The oldest goes where there is one too many.
    fn drop_excess(&mut self)
        ensures { self.new ≡ without_excess self.old }
    {
        if self.cookies.len() > MAX_COOKIES {
            self.cookies.remove(0);
        }
    }

    /// The value of the Cookie field of a request to the authority for the path (RFC 6265 section 5.4). None
    /// exactly where no cookie goes with it.
    #[tactic(auto, using(crate::proofs::Headers::no_header, crate::proofs::Headers::some_header))]
    pub fn header_for(
        &self,
        alloc: Global,
        authority: &[u8],
        path: &[u8],
    ) -> Result<Option<Vec<u8>>, NoMemory>
        ensures { IfOk result (λ header. option_map (λ text. text.items) header
            ≡ header_of authority.now path.now self.now) }
    {
        let mut text = Vec::new(alloc);
        self.push_sent(&mut text, &Target { authority, path })?;
        if text.is_empty() {
            return Ok(None);
        }
        Ok(Some(text))
    }

    // Adds the pairs of the cookies that go with the request, those with longer paths first.
    fn push_sent(&self, text: &mut Vec<u8>, target: &Target<'_>) -> Result<(), NoMemory>
        ensures { OnOk result (text.new.items ≡ joined_all text.old.items
            (sent target.now.authority.now target.now.path.now self.now)) }
    {
        let mut size = target.path.len() + 1;
        while size > 0 {
            size -= 1;
            self.push_sent_of(text, target, size)?;
        }
        Ok(())
    }

    // Adds those whose paths have so many bytes. These can only be the front of the path that is asked for.
    #[tactic(auto, using(crate::proofs::Headers::none_sent))]
    fn push_sent_of(
        &self,
        text: &mut Vec<u8>,
        target: &Target<'_>,
        size: usize,
    ) -> Result<(), NoMemory>
        requires { size ≤ length target.now.path.now }
        ensures { OnOk result (text.new.items ≡ joined_all text.old.items
            (filter (is_sent_of target.now.authority.now target.now.path.now size) self.now)) }
    {
        let (front, rest) = target.path.split_at(size);
        if !covers_rest(front, rest) {
            return Ok(());
        }
        for cookie in &self.cookies {
            if is_sent_of(cookie, target, size) {
                push_pair(text, cookie)?;
            }
        }
        Ok(())
    }
}
