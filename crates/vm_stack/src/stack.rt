//! The stack of a task.
ghost use Rattle.std.specs.Prelude.{◌≡◌, ◌+◌, ◌<◌, ◌≤◌, ◌↔◌, [], ◌∷◌, length, IsTrue, IfOk, Some, slice_get, nat_lt};
ghost use Rattle.std.specs.Bool.{OnTrue, OnFalse};
ghost use Rattle.vm_stack.specs.Frames.{empty_frame, frame_cost, pushed, without, with_local, at_index, entered, initialised, begun};

use crate::link::Link;
use std::alloc::{AllocError, Global};
use std::marker::Model;
use vm_heap::{Word, Words};

/// The frames of a task, on one row of words that is reserved when it is made. A word is written first
/// when a frame comes to it.
#[derive(Drop)]
pub struct Stack {
    words: Words,
    // The bounds of the running method's frame, and the index after its operands.
    link: Link,
    top: usize,
    // The bounds of its callers' frames, the nearest last.
    links: Vec<Link>,
    // How many words are left for frames.
    free: usize,
}

impl Model for Stack {
    ghost use Rattle.std.specs.Prelude.{length, vec_capacity};
    ghost use Rattle.vm_stack.specs.Frames.{Frames};

    ghost Value = { Frames };

    ghost use Rattle.vm_stack.specs.Layout.{frames_of, IsLaidOut};

    ghost view = { λ s. frames_of s.words.values s.link s.top s.links.items s.free };

    ghost invariant = { λ s. IsLaidOut s.words.room (length s.words.values) s.link.bottom s.link.base s.link.limit s.top s.links.items s.free (vec_capacity s.links) };
}

impl Stack {
    /// Returns a stack with a budget of `words` words, all of them reserved, and no frame.
    pub fn with_words(alloc: Global, words: usize) -> Result<Stack, AllocError>
        ensures { IfOk result (λ stack. stack ≡ record { frame = empty_frame; callers = []; free = words }) }
    {
        let links = Vec::with_capacity(alloc, words / 4)?;
        Ok(Stack {
            words: Words::with_room(alloc, words)?,
            link: Link {
                method: 0,
                index: 0,
                bottom: 0,
                base: 0,
                limit: 0,
            },
            top: 0,
            links,
            free: words,
        })
    }

    /// Returns the number of the running method.
    #[inline(always)]
    pub fn method(&self) -> u32
        ensures { result ≡ self.now.frame.method }
    {
        self.link.method
    }

    /// Returns the index of the running method's next instruction.
    #[inline(always)]
    pub fn index(&self) -> usize
        ensures { result ≡ self.now.frame.index }
    {
        self.link.index
    }

    /// Sets the index of the next instruction.
    #[inline(always)]
    pub fn go_to(&mut self, index: usize)
        ensures { self.new ≡ at_index index self.old }
    {
        let link = &mut self.link;
        link.index = index;
    }

    /// Pushes an operand. The caller owes that there is room; nothing tests it.
    #[inline(always)]
    pub fn push(&mut self, word: Word)
        requires { length self.old.frame.operands < self.old.frame.room }
        ensures { self.new ≡ pushed word self.old }
    {
        self.words.set(self.top, word);
        self.top += 1;
    }

    /// Takes the operand on top off, and returns it. The caller owes that there is one; nothing
    /// tests it.
    #[inline(always)]
    pub fn pop(&mut self) -> Word
        requires { 0 < length self.old.frame.operands }
        ensures { self.old ≡ pushed result self.new }
    {
        self.top -= 1;
        self.words.get(self.top)
    }

    /// Takes the operands on top off, so many of them. The caller owes that they are there; nothing
    /// tests it.
    #[inline(always)]
    pub fn discard(&mut self, count: usize)
        requires { count ≤ length self.old.frame.operands }
        ensures { self.new ≡ without count self.old }
    {
        self.top -= count;
    }

    /// Returns the operand with `depth` others above it. The caller owes that there is one; nothing
    /// tests it.
    #[inline(always)]
    pub fn operand(&self, depth: usize) -> Word
        requires { depth < length self.now.frame.operands }
        ensures { slice_get self.now.frame.operands depth ≡ Some result }
    {
        self.words.get(self.top - 1 - depth)
    }

    /// Returns the value of a local variable. The caller owes that there is one; nothing tests it.
    #[inline(always)]
    pub fn local(&self, local: usize) -> Word
        requires { local < length self.now.frame.locals }
        ensures { slice_get self.now.frame.locals local ≡ Some result }
    {
        let _top = self.top;
        self.words.get(self.link.bottom + local)
    }

    /// Writes a local variable. The caller owes that there is one; nothing tests it.
    #[inline(always)]
    pub fn set_local(&mut self, local: usize, word: Word)
        requires { local < length self.old.frame.locals }
        ensures { self.new ≡ with_local local word self.old }
    {
        self.words.set(self.link.bottom + local, word);
    }

    /// Turns all copies of an uninitialised object, in the running method's frame, into the
    /// initialised object. It does nothing when it runs.
    #[inline(always)]
    pub fn initialise(&mut self, word: &Word)
        ensures { self.new ≡ initialised word.now self.old }
    {
        self.words.initialise(self.link.bottom, word);
    }

    /// Turns the first local variable into the receiver of the running `<init>`. It does nothing
    /// when it runs.
    #[inline(always)]
    pub fn begin_init(&mut self)
        requires { 0 < length self.old.frame.locals }
        ensures { self.new ≡ begun self.old }
    {
        let word = self.words.get(self.link.bottom);
        self.words.begin_init(self.link.bottom, &word);
    }

    /// Pushes a frame whose first local variables are the operands on top, and returns `true`, if
    /// the budget has its words: one for each local variable and operand, and four more. Else it
    /// returns `false`, and nothing changes. It takes no memory, and no word is copied or cleared.
    #[inline(always)]
    pub fn push_frame(
        &mut self,
        method: u32,
        arguments: u16,
        max_locals: u16,
        max_stack: u16,
    ) -> bool
        requires passed { arguments ≤ length self.old.frame.operands }
        requires locals { arguments ≤ max_locals }
        ensures fits { IsTrue result ↔ (frame_cost max_locals max_stack ≤ self.old.free) }
        ensures pushed { OnTrue result (self.new ≡ entered method arguments max_locals max_stack self.old) }
        ensures count { OnTrue result (length self.new.frame.locals ≡ max_locals) }
        ensures unchanged { OnFalse result (self.new ≡ self.old) }
    {
        let cost = max_locals as usize + max_stack as usize + 4;
        if self.free < cost {
            return false;
        }
        self.free -= cost;
        let used = self.words.room() - self.free;
        self.words.grow_to(used);
        let bottom = self.top - arguments as usize;
        let base = bottom + max_locals as usize;
        self.words.forget(self.top, base);
        self.links.push_reserved(self.link);
        self.link = Link {
            method,
            index: 0,
            bottom,
            base,
            limit: base + max_stack as usize,
        };
        self.top = base;
        true
    }

    /// Takes the running method's frame off: its words are free again. The caller owes that there
    /// is one below; nothing tests it.
    #[inline(always)]
    pub fn pop_frame(&mut self)
        requires { 0 < length self.old.callers }
        ensures callers { self.old.callers ≡ self.new.frame ∷ self.new.callers }
        ensures words { self.new.free
            ≡ self.old.free + frame_cost (length self.old.frame.locals) self.old.frame.room }
    {
        let Some(link) = self.links.pop() else {
            unreachable!()
        };
        self.free += self.link.limit - self.link.bottom + 4;
        self.top = self.link.bottom;
        self.link = link;
    }

    /// Returns whether a method called the running one: below all frames lies the empty one.
    #[inline(always)]
    pub fn has_caller(&self) -> bool
        ensures { result ≡ nat_lt 1 (length self.now.callers) }
    {
        1 < self.links.len()
    }
}
