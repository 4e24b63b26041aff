//! What the effects of instructions are made of: operands that are taken and given, and local variables.

ghost use Rattle.std.specs.Prelude.{◌≡◌};

use super::body::BodyView;
use super::stop::Stop;
use super::{CheckRule, StackOperation, TypeFrame, VType, ValueKind};
use ver_rules::{Want, is_wanted, kind_wanted, operand_fault};

impl BodyView<'_> {
    ghost use Rattle.std.specs.Prelude.{◌≡◌, ◌<◌, length};
    ghost use Rattle.ver_check.specs.Makes.{Makes};
    ghost use Rattle.ver_check.specs.Steps.{combined, give, give_all, incremented, load, local_type, popped_into, rearranged, replaced, store, take, take_two, taken, taken_two};
    ghost use Rattle.ver_rules.specs.Wants.{is_wanted};

    // Whether a type is what is asked.
    fn is_wanted(&self, want: Want, kind: VType) -> bool
        ensures { result ≡ is_wanted self.now.classes want kind }
    {
        let method = self.method;
        is_wanted(method.classes, want, kind)
    }

    // How many operands there may be.
    fn max_stack(&self) -> usize
        ensures { result ≡ self.now.max_stack }
    {
        let method = self.method;
        usize::from(method.code.max_stack)
    }

    // Takes the operand off the top, if it is what is asked.
    #[tactic(auto, unfolding(crate::specs::Steps::taken))]
    pub(crate) fn taken(&self, frame: &mut TypeFrame, want: Want) -> Result<VType, Stop>
        ensures taken { Makes (λ top. (top, frame.new)) result (taken self.now want frame.old) }
        ensures locals { frame.new.locals ≡ frame.old.locals }
    {
        let Some(top) = frame.pop() else {
            return Err(Stop::Broken(CheckRule::Underflow));
        };
        if !self.is_wanted(want, top) {
            return Err(Stop::Broken(operand_fault(want, top)));
        }
        Ok(top)
    }

    // The same, and what it is does not matter.
    pub(crate) fn take(&self, frame: &mut TypeFrame, want: Want) -> Result<(), Stop>
        ensures { Makes (λ _. frame.new) result (take self.now want frame.old) }
    {
        self.taken(frame, want)?;
        Ok(())
    }

    // Puts an operand on top, if there is room.
    #[tactic(auto, unfolding(crate::specs::Steps::give))]
    pub(crate) fn give(&self, frame: &mut TypeFrame, kind: VType) -> Result<(), Stop>
        ensures { Makes (λ _. frame.new) result (give self.now kind frame.old) }
    {
        if frame.depth() >= self.max_stack() {
            return Err(Stop::Broken(CheckRule::Overflow));
        }
        frame.push(kind)?;
        Ok(())
    }

    // Puts these operands on top, one after the other.
    #[tactic(auto, unfolding(crate::specs::Steps::give_all))]
    fn give_all(&self, frame: &mut TypeFrame, kinds: &[VType]) -> Result<(), Stop>
        ensures { Makes (λ _. frame.new) result (give_all self.now kinds.now frame.old) }
    {
        for kind in kinds {
            self.give(frame, *kind)?;
        }
        Ok(())
    }

    // The type of a local variable, if it is what is asked.
    #[tactic(auto, unfolding(crate::specs::Steps::local_type))]
    pub(crate) fn local_type(
        &self,
        frame: &TypeFrame,
        want: Want,
        local: u16,
    ) -> Result<VType, Stop>
        ensures { Makes (λ kind. kind) result (local_type self.now want local frame.now) }
    {
        match frame.local(local) {
            Some(kind) if self.is_wanted(want, kind) => Ok(kind),
            _ => Err(Stop::Broken(CheckRule::Local)),
        }
    }

    // Pushes a local variable.
    pub(crate) fn load(
        &self,
        frame: &mut TypeFrame,
        kind: ValueKind,
        local: u16,
    ) -> Result<(), Stop>
        ensures { Makes (λ _. frame.new) result (load self.now kind local frame.old) }
    {
        let kind = self.local_type(frame, kind_wanted(kind), local)?;
        self.give(frame, kind)
    }

    // Pops into a local variable that there is.
    fn pop_into(&self, frame: &mut TypeFrame, kind: ValueKind, local: u16) -> Result<(), Stop>
        requires { local < length frame.old.locals }
        ensures { Makes (λ _. frame.new) result (popped_into self.now kind local frame.old) }
    {
        let top = self.taken(frame, kind_wanted(kind))?;
        frame.set_local(local, top)?;
        Ok(())
    }

    // Pops into a local variable.
    pub(crate) fn store(
        &self,
        frame: &mut TypeFrame,
        kind: ValueKind,
        local: u16,
    ) -> Result<(), Stop>
        ensures { Makes (λ _. frame.new) result (store self.now kind local frame.old) }
    {
        if usize::from(local) >= frame.local_count() {
            return Err(Stop::Broken(CheckRule::Local));
        }
        self.pop_into(frame, kind, local)
    }

    // iinc.
    pub(crate) fn increment(&self, frame: &TypeFrame, local: u16) -> Result<(), Stop>
        ensures { Makes (λ _. frame.now) result (incremented self.now local frame.now) }
    {
        self.local_type(frame, Want::Int, local)?;
        Ok(())
    }

    // Takes two operands off the top.
    pub(crate) fn take_two(&self, frame: &mut TypeFrame, want: Want) -> Result<(), Stop>
        ensures { Makes (λ _. frame.new) result (take_two self.now want frame.old) }
    {
        self.take(frame, want)?;
        self.take(frame, want)
    }

    // Puts an operand on top instead of the one there.
    pub(crate) fn replace(&self, frame: &mut TypeFrame, want: Want, kind: VType) -> Result<(), Stop>
        ensures { Makes (λ _. frame.new) result (replaced self.now want kind frame.old) }
    {
        self.take(frame, want)?;
        self.give(frame, kind)
    }

    // Puts an int on top instead of two.
    pub(crate) fn combine(&self, frame: &mut TypeFrame) -> Result<(), Stop>
        ensures { Makes (λ _. frame.new) result (combined self.now frame.old) }
    {
        self.take_two(frame, Want::Int)?;
        self.give(frame, VType::Int)
    }

    // Takes a word off the top.
    fn word(&self, frame: &mut TypeFrame) -> Result<VType, Stop>
        ensures { Makes (λ top. (top, frame.new)) result (taken self.now Want.Word frame.old) }
    {
        self.taken(frame, Want::Word)
    }

    // Takes two words off the top, the one on top first.
    fn two_words(&self, frame: &mut TypeFrame) -> Result<(VType, VType), Stop>
        ensures { Makes (λ top. (top.0, top.1, frame.new)) result (taken_two self.now frame.old) }
    {
        let first = self.word(frame)?;
        let second = self.word(frame)?;
        Ok((first, second))
    }

    // pop to swap: words are taken off the top, and others are put on.
    #[tactic(auto, unfolding(crate::specs::Steps::rearranged))]
    pub(crate) fn rearrange(
        &self,
        frame: &mut TypeFrame,
        operation: StackOperation,
    ) -> Result<(), Stop>
        ensures { Makes (λ _. frame.new) result (rearranged self.now operation frame.old) }
    {
        match operation {
            StackOperation::Pop => self.take(frame, Want::Word),
            StackOperation::Pop2 => {
                self.take(frame, Want::Word)?;
                self.take(frame, Want::Word)
            }
            StackOperation::Dup => {
                let a = self.word(frame)?;
                self.give_all(frame, &[a, a])
            }
            StackOperation::DupX1 => {
                let (a, b) = self.two_words(frame)?;
                self.give_all(frame, &[a, b, a])
            }
            StackOperation::DupX2 => {
                let (a, b) = self.two_words(frame)?;
                let c = self.word(frame)?;
                self.give_all(frame, &[a, c, b, a])
            }
            StackOperation::Dup2 => {
                let (a, b) = self.two_words(frame)?;
                self.give_all(frame, &[b, a, b, a])
            }
            StackOperation::Dup2X1 => {
                let (a, b) = self.two_words(frame)?;
                let c = self.word(frame)?;
                self.give_all(frame, &[b, a, c, b, a])
            }
            StackOperation::Dup2X2 => {
                let (a, b) = self.two_words(frame)?;
                let (c, d) = self.two_words(frame)?;
                self.give_all(frame, &[b, a, d, c, b, a])
            }
            StackOperation::Swap => {
                let (a, b) = self.two_words(frame)?;
                self.give_all(frame, &[a, b])
            }
        }
    }
}
