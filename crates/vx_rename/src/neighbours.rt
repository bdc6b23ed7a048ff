// Which webs must have different names: what is written, and all that is live behind it; what is live at the entry, and the
// parameters.

use crate::value_sets::{NONE, at, put};
use std::alloc::Global;
use vx_base::outcome::NoMemory;

/// A neighbour of a web, and the place of the next one.
#[derive(Clone, Copy)]
pub struct Link {
    pub with: u32,
    pub next: u32,
}

/// The neighbours of webs, as a chain of links for each.
#[derive(Drop)]
pub struct Neighbours {
    /// The place of the first link of each web.
    heads: Vec<u32>,
    links: Vec<Link>,
    /// How many links there may be.
    most: usize,
}

impl Neighbours {
    /// No neighbours, of so many webs; as many links as this are kept, and a few more.
    pub(crate) fn new(alloc: Global, webs: usize, most: usize) -> Result<Neighbours, NoMemory> {
        let heads = vec![in alloc; NONE; webs]?;
        Ok(Neighbours {
            heads,
            links: Vec::new(alloc),
            most,
        })
    }

    /// Makes two webs neighbours.
    pub(crate) fn link(&mut self, one: u32, other: u32) -> Result<(), NoMemory> {
        self.note(one, other)?;
        self.note(other, one)
    }

    /// Notes one more link of a web.
    pub(crate) fn note(&mut self, web: u32, with: u32) -> Result<(), NoMemory> {
        let place = self.links.len().min(NONE as usize) as u32;
        let next = at(self.heads.as_slice(), web);
        self.links.push(Link { with, next })?;
        put(&mut self.heads, web, place);
        Ok(())
    }

    /// The place of the last link of a web.
    fn last(&self, web: u32) -> u32 {
        let mut place = at(self.heads.as_slice(), web);
        for _ in 0..self.links.len() {
            match self.link_at(place) {
                Some(link) => {
                    if link.next == NONE {
                        return place;
                    }
                    place = link.next;
                }
                None => return NONE,
            }
        }
        NONE
    }

    /// The links of one web become links of another too.
    pub(crate) fn join(&mut self, from: u32, to: u32) {
        let last = self.last(from) as usize;
        if last < self.links.len() {
            self.links[last] = Link {
                with: self.links[last].with,
                next: at(self.heads.as_slice(), to),
            };
            let first = at(self.heads.as_slice(), from);
            put(&mut self.heads, to, first);
        }
    }

    /// Whether there may be no more links, so that some may not be there.
    pub(crate) fn is_full(&self) -> bool {
        self.links.len() >= self.most
    }

    /// How many links there are.
    pub(crate) fn len(&self) -> usize {
        self.links.len()
    }

    /// The place of the first link of a web.
    pub(crate) fn first(&self, web: u32) -> u32 {
        at(self.heads.as_slice(), web)
    }

    /// The link at a place.
    pub(crate) fn link_at(&self, place: u32) -> Option<Link> {
        match self.links.as_slice().get(place as usize) {
            Some(link) => Some(*link),
            None => None,
        }
    }
}
