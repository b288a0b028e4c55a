//! How code is given up: one statement after the other, without recursion and without memory.
//!
//! What is left is always one tree. A statement is taken out of it and turned inside out: those on the way down to its first statement that
//! has none in it come to stand in one another the other way round, and in the innermost of them stands what was left before. So what is
//! left needs no room but that of the statements in it.

ghost use Rattle.std.specs.Prelude.{◌≡◌, ◌+◌, ◌≤◌, ◌<◌, [], length, IfSome, IfNone};
ghost use Rattle.flat_code.specs.Code.{codes_of, height, heights};
ghost use Rattle.flat_code.specs.Shape.{code_of};

use super::{Flat, FlatBox, FlatKids};
use std::mem;

impl Flat {
    /// A statement of this code, and what else is left of it. None: it was a single statement, or had none, and is given up.
    pub(super) fn parted(mut self) -> Option<(Flat, Flat)>
        ensures { IfSome result (λ r. height (code_of r.0) + height (code_of r.1) < height (code_of self)) }
    {
        'down: loop {
            match self {
                Flat::Seq(mut kids) => match kids.pop() {
                    None => {
                        kids.give_up();
                        return None;
                    }
                    Some(last) => {
                        if !kids.is_empty() {
                            return Some((last, Flat::Seq(kids)));
                        }
                        kids.give_up();
                        self = last;
                    }
                },
                Flat::If { cond: _, yes, no } => return Some((no.into_inner(), yes.into_inner())),
                Flat::Loop(body) => self = body.into_inner(),
                Flat::Set {
                    temp: _,
                    class: _,
                    op: _,
                    a: _,
                    b: _,
                } => return None,
                Flat::Load {
                    temp: _,
                    how: _,
                    at: _,
                } => return None,
                Flat::Store {
                    width: _,
                    value: _,
                    at: _,
                } => return None,
                Flat::Move {
                    to: _,
                    from: _,
                    bytes: _,
                } => return None,
                Flat::Leave(_) => return None,
                Flat::Call {
                    temp: _,
                    name: _name,
                    args: _args,
                } => return None,
                Flat::Ret(_) => return None,
            }
        }
    }

    /// Turns this statement inside out, with `rest` in place of its first one that has none in it, which is given up.
    pub(super) fn turned(mut self, mut rest: Flat) -> Flat
        ensures { height (code_of result) ≤ height (code_of self) + height (code_of rest) }
    {
        'down: loop {
            match self {
                Flat::Seq(mut kids) => {
                    if kids.is_empty() {
                        kids.give_up();
                        return rest;
                    }
                    self = kids.replace_first(rest);
                    rest = Flat::Seq(kids);
                }
                Flat::If { cond, mut yes, no } => {
                    self = yes.replace(rest);
                    rest = Flat::If { cond, yes, no };
                }
                Flat::Loop(body) => self = body.into_inner(),
                Flat::Set {
                    temp: _,
                    class: _,
                    op: _,
                    a: _,
                    b: _,
                } => return rest,
                Flat::Load {
                    temp: _,
                    how: _,
                    at: _,
                } => return rest,
                Flat::Store {
                    width: _,
                    value: _,
                    at: _,
                } => return rest,
                Flat::Move {
                    to: _,
                    from: _,
                    bytes: _,
                } => return rest,
                Flat::Leave(_) => return rest,
                Flat::Call {
                    temp: _,
                    name: _name,
                    args: _args,
                } => return rest,
                Flat::Ret(_) => return rest,
            }
        }
    }
}

impl FlatKids {
    /// Takes the last statement out, if there is one.
    fn pop(&mut self) -> Option<Flat>
        ensures none { IfNone result (self.new ≡ []) }
        ensures some { IfSome result (λ f. height (code_of f) + heights (codes_of self.new) < heights (codes_of self.old)) }
    {
        self.items.pop()
    }

    /// Puts a statement in place of the first one, and gives that.
    fn replace_first(&mut self, f: Flat) -> Flat
        requires { 0 < length self.old }
        ensures size { heights (codes_of self.new) + height (code_of result) ≡ heights (codes_of self.old) + height (code_of f) }
        ensures less { height (code_of result) < heights (codes_of self.old) }
    {
        mem::replace(&mut self.items[0], f)
    }

    /// Gives up a list of no statements.
    fn give_up(self)
        requires { length self ≡ 0 }
    {
        let FlatKids { items } = self;
        items.destroy_empty();
    }
}

impl FlatBox {
    /// The statement.
    fn into_inner(self) -> Flat
        ensures { code_of result ≡ self }
    {
        let FlatBox { inner } = self;
        Box::into_inner(inner)
    }

    /// Puts a statement in place of this one, and gives this one.
    fn replace(&mut self, f: Flat) -> Flat
        ensures value { code_of result ≡ self.old }
        ensures after { self.new ≡ code_of f }
    {
        Box::replace(&mut self.inner, f)
    }
}
