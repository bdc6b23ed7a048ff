// The webs of the values of a graph (Chaitin, 1982): what may reach one read is one web, and a value has several where what is written
// anew reaches other reads. Webs are numbers that are united; of those that are united one stands for all.

use crate::value_sets::{NONE, at, put};
use std::alloc::Global;
use vx_base::outcome::NoMemory;
use vx_flow::graph::Value;

/// Numbers of webs, and which are one.
#[derive(Drop)]
pub struct Webs {
    /// For each number one with which it was united, or itself.
    ups: Vec<u32>,
    /// The value of each.
    values: Vec<Value>,
}

impl Webs {
    /// No webs.
    pub(crate) fn new(alloc: Global) -> Webs {
        Webs {
            ups: Vec::new(alloc),
            values: Vec::new(alloc),
        }
    }

    /// How many numbers there are.
    pub(crate) fn len(&self) -> usize {
        self.ups.len()
    }

    /// One more web, of a value.
    pub(crate) fn make(&mut self, value: Value) -> Result<(), NoMemory> {
        let web = self.ups.len().min(NONE as usize) as u32;
        self.ups.push(web)?;
        self.values.push(value)?;
        Ok(())
    }

    /// The value of each web.
    pub(crate) fn values(&self) -> &[Value] {
        self.values.as_slice()
    }

    /// The number that stands for a web. What was passed on the way is passed no more.
    pub(crate) fn find(&mut self, web: u32) -> u32 {
        let mut found = web;
        for _ in 0..self.ups.len() {
            let up = at(self.ups.as_slice(), found);
            if up == found || up == NONE {
                return found;
            }
            let next = at(self.ups.as_slice(), up);
            put(&mut self.ups, found, next);
            found = next;
        }
        found
    }

    /// The number that stands for each web.
    pub(crate) fn roots(&mut self, alloc: Global) -> Result<Vec<u32>, NoMemory> {
        let mut roots = Vec::new(alloc);
        let count = self.ups.len().min(NONE as usize) as u32;
        for web in 0..count {
            roots.push(self.find(web))?;
        }
        Ok(roots)
    }

    /// Makes two webs one.
    pub(crate) fn unite(&mut self, one: u32, other: u32) {
        let from = self.find(one);
        let to = self.find(other);
        put(&mut self.ups, from, to);
    }
}
