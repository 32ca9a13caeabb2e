// An index of the ducts at each pit.
ghost use Rattle.std.specs.Prelude.{◌≡◌, ◌<◌, length, replicate, None};
ghost use Rattle.search.specs.Index.{no_links, put_heads, put_links};
ghost use Rattle.search.specs.Steps.{Within};

use crate::links::Links;
use crate::marks::PLACES;
use plan::ducts::Duct;
use plan::limits::MAX_DUCTS;

// At a pit the place of its last duct, and at a duct the places of those before it at its two ends: chains in two arrays, since
// nothing is allocated.
#[derive(Clone, Copy)]
pub(crate) struct Index {
    pub(crate) heads: [Option<u16>; PLACES],
    pub(crate) links: [Links; MAX_DUCTS],
    ghost wide: { length heads ≡ 512 },
    ghost long: { length links ≡ 1024 },
}

impl Index {
    // The index of no ducts.
    pub(crate) fn new() -> Index
        ensures heads { result.heads ≡ replicate 512 None }
        ensures links { result.links ≡ replicate 1024 no_links }
    {
        Index {
            heads: [None; PLACES],
            links: [Links::NONE; MAX_DUCTS],
        }
    }

    // Puts the duct at the place `i` into the index of the ducts before it.
    pub(crate) fn put(&mut self, i: u16, duct: Duct)
        requires within { Within 512 duct }
        requires room { i < 1024 }
        ensures heads { self.new.heads ≡ put_heads self.old.heads duct i }
        ensures links { self.new.links ≡ put_links self.old.links self.old.heads duct i }
    {
        self.links[i as usize] = Links {
            first: self.heads[duct.first as usize],
            second: self.heads[duct.second as usize],
        };
        self.heads[duct.first as usize] = Some(i);
        self.heads[duct.second as usize] = Some(i);
    }
}
