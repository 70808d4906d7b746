//! The arrays, maps and tags that are open, one within the other.

ghost use Rattle.std.specs.Prelude.{◌≡◌, ◌≤◌, length, reverse};
ghost use Rattle.cd_cbor.specs.Events.{passed};

use crate::event::Act;
use crate::item_reading::MOST_DEPTH;
use crate::wanted::{Wanted, after_one};
use arrayvec::ArrayVec;
use std::marker::Model;

/// The arrays, maps and tags that are open, which contracts see from the innermost on.
#[derive(Debug, Drop)]
pub struct Nest {
    // The innermost stands last.
    wants: ArrayVec<Wanted, 16>,
}

impl Model for Nest {
    ghost use Rattle.std.specs.Prelude.{List, reverse, ◌≤◌, length};
    ghost use Rattle.cd_cbor.specs.declared.wanted.Wanted.{Wanted};

    ghost Value = { List Wanted };

    ghost view = { λ n. reverse n.wants.items };

    ghost invariant = { λ n. length n.wants.items ≤ 16 };
}

// Passes an item: what wants no more is an item of what is around it.
fn pass_item(wants: &mut ArrayVec<Wanted, 16>)
    requires { length wants.old.items ≤ 16 }
    ensures passed { reverse wants.new.items ≡ passed (reverse wants.old.items) }
    ensures fewer { length wants.new.items ≤ length wants.old.items }
{
    'around: loop {
        let top = match wants.pop() {
            None => return,
            Some(top) => top,
        };
        match after_one(top) {
            None => {}
            Some(inner) => {
                wants.push(inner);
                return;
            }
        }
    }
}

impl Nest {
    ghost use Rattle.std.specs.Prelude.{[], ◌-◌, length};
    ghost use Rattle.cd_cbor.specs.Events.{acted, innermost, MayAct};

    /// Nothing is open.
    pub fn new() -> Nest
        ensures { result ≡ [] }
    {
        Nest {
            wants: ArrayVec::new(),
        }
    }

    /// How many more may be opened.
    pub fn room(&self) -> usize
        ensures { result ≡ 16 - length self.now }
    {
        MOST_DEPTH - self.wants.len()
    }

    /// The innermost, where one is open.
    pub fn innermost(&self) -> Option<Wanted>
        ensures { result ≡ innermost self.now }
    {
        self.wants.as_slice().last().copied()
    }

    /// Does what a head does.
    pub fn act(&mut self, done: Act)
        requires { MayAct done (16 - length self.old) }
        ensures { self.new ≡ acted done self.old }
    {
        match done {
            Act::Item => pass_item(&mut self.wants),
            Act::Enter(inner) => self.wants.push(inner),
            Act::Close => {
                let _closed = self.wants.pop();
                pass_item(&mut self.wants);
            }
        }
    }

    /// Passes an item.
    pub fn pass(&mut self)
        ensures { self.new ≡ passed self.old }
    {
        pass_item(&mut self.wants);
    }
}
