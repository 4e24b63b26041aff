//! Tasks that come back, under the lock.

ghost use Rattle.std.specs.Prelude.{◌≡◌, true, IfErr, OnErr, OnOk};
ghost use Rattle.sp_book.specs.Passes.{IsSame, Returns, has};
ghost use Rattle.sp_events.specs.declared.fault.CoreFault.TheVariants.{NotLent};
ghost use Rattle.sp_history.specs.Logs.{back, entered};
ghost use Rattle.sp_history.specs.declared.fault.BookFault.TheVariants.{Core};
ghost use Rattle.sp_rules.specs.Books.{OnFinish, OnGiveBack, OnPark};
ghost use Rattle.sp_tasks.specs.Behaviours.{op_of};

use crate::lent::Lent;
use crate::locked::Locked;
use crate::naming::Naming;
use crate::pass::Pass;
use sp_history::{BookFault, Twice};
use sp_lender::Lender;
use sp_tasks::Op;
use std::marker::PhantomData;

impl<N: Naming, S: Lender + Drop> Locked<N, S> {
    pub(crate) fn park(
        &mut self,
        pass: &mut Pass<N>,
        lent: Lent<N, S>,
        op: Twice<Op>,
    ) -> Result<(), (Lent<N, S>, BookFault)>
        requires { has lent.id pass.old.hand ≡ true }
        ensures entered { OnOk result (self.new ≡ back (entered N.setting pass.old.number (OnPark lent.id lent.made (op_of op)) self.old)) }
        ensures listed { OnOk result (Returns lent.id (OnPark lent.id lent.made (op_of op)) pass.old pass.new) }
        ensures unchanged { OnErr result (self.new ≡ self.old) }
        ensures kept { OnErr result (IsSame pass.old pass.new) }
        ensures task { IfErr result (λ refused. refused.0 ≡ lent) }
    {
        let at = pass.place(lent.id());
        let Lent { task, name: _ } = lent;
        match self.history.park(pass.number, task, op) {
            Ok(call) => {
                let cut = self.history.cut();
                pass.take_back(&mut self.tally, cut, at, call);
                Ok(())
            }
            Err((task, fault)) => Err((
                Lent {
                    task,
                    name: PhantomData,
                },
                fault,
            )),
        }
    }

    pub(crate) fn give_back(
        &mut self,
        pass: &mut Pass<N>,
        lent: Lent<N, S>,
    ) -> Result<(), (Lent<N, S>, BookFault)>
        requires { has lent.id pass.old.hand ≡ true }
        ensures entered { OnOk result (self.new ≡ back (entered N.setting pass.old.number (OnGiveBack lent.id lent.made) self.old)) }
        ensures listed { OnOk result (Returns lent.id (OnGiveBack lent.id lent.made) pass.old pass.new) }
        ensures fault { IfErr result (λ refused. refused.1 ≡ Core NotLent) }
        ensures unchanged { OnErr result (self.new ≡ self.old) }
        ensures kept { OnErr result (IsSame pass.old pass.new) }
        ensures task { IfErr result (λ refused. refused.0 ≡ lent) }
    {
        let at = pass.place(lent.id());
        let Lent { task, name: _ } = lent;
        match self.history.give_back(pass.number, task) {
            Ok(call) => {
                let cut = self.history.cut();
                pass.take_back(&mut self.tally, cut, at, call);
                Ok(())
            }
            Err((task, fault)) => Err((
                Lent {
                    task,
                    name: PhantomData,
                },
                fault,
            )),
        }
    }

    // It answers what is left of the task too.
    pub(crate) fn finish(
        &mut self,
        pass: &mut Pass<N>,
        lent: Lent<N, S>,
    ) -> Result<S::Rest, (Lent<N, S>, BookFault)>
        requires { has lent.id pass.old.hand ≡ true }
        ensures entered { OnOk result (self.new ≡ back (entered N.setting pass.old.number (OnFinish lent.id lent.made) self.old)) }
        ensures listed { OnOk result (Returns lent.id (OnFinish lent.id lent.made) pass.old pass.new) }
        ensures unchanged { OnErr result (self.new ≡ self.old) }
        ensures kept { OnErr result (IsSame pass.old pass.new) }
        ensures task { IfErr result (λ refused. refused.0 ≡ lent) }
    {
        let at = pass.place(lent.id());
        let Lent { task, name: _ } = lent;
        match self.history.finish(pass.number, task) {
            Ok((call, rest)) => {
                let cut = self.history.cut();
                pass.take_back(&mut self.tally, cut, at, call);
                Ok(rest)
            }
            Err((task, fault)) => Err((
                Lent {
                    task,
                    name: PhantomData,
                },
                fault,
            )),
        }
    }
}
