// Making the steps of a use on a store.
ghost use Rattle.std.specs.Prelude.{◌≡◌, string_bytes, OnOk};
ghost use Rattle.book.specs.Uses.{moment};
ghost use Rattle.book.specs.declared.call.Call.TheVariants.{LookForm};
ghost use Rattle.stage.specs.Lines.{asked_line, medium_line};
ghost use Rattle.stage.specs.Steps.{CallMade, LayMade, NumberedMade, PageTold, StepMade, UseMade, with_line};

use super::stage::Stage;
use super::tell::{Answer, Dump, Field, Laid, plain};
use book::{Call, run};
use form::{ByNumber, Forms, Item, ItemKind};
use medium::Medium;
use script::Step;
use std::alloc::AllocError;
use std::slice::from_ref;
use store::Store;

impl Stage {
    // Makes a call, and tells what it answers.
    fn make_call<M: Medium>(
        &mut self,
        store: &mut Store<M>,
        work: &mut [u8],
        call: &Call<Item, ItemKind>,
    ) -> Result<(), AllocError>
        ensures { OnOk result (CallMade M.Medium.meaning call.now (moment store.old self.old.slips work.old) (moment store.new self.new.slips work.new) (string_bytes self.old.out) (string_bytes self.new.out)) }
    {
        let answers = run(store, &mut self.slips, work, from_ref(call), self.heap)?;
        let answer = &answers[0];
        self.tell(Answer { answer, work })
    }

    // Makes a call under numbers of kinds, and tells what it answers.
    fn make_numbered<M: Medium>(
        &mut self,
        store: &mut Store<M>,
        work: &mut [u8],
        call: &Call<ByNumber<Item>, u8>,
    ) -> Result<(), AllocError>
        ensures { OnOk result (NumberedMade M.Medium.meaning call.now (moment store.old self.old.slips work.old) (moment store.new self.new.slips work.new) (string_bytes self.old.out) (string_bytes self.new.out)) }
    {
        let answers = run(store, &mut self.slips, work, from_ref(call), self.heap)?;
        let answer = &plain(&answers[0]);
        self.tell(Answer { answer, work })
    }

    // Looks under the form whose kind has a number, and tells what that answers.
    fn look_numbered<M: Medium>(
        &mut self,
        store: &mut Store<M>,
        work: &mut [u8],
        key: u32,
        number: u8,
    ) -> Result<(), AllocError>
        ensures { OnOk result (NumberedMade M.Medium.meaning (LookForm key number) (moment store.old self.old.slips work.old) (moment store.new self.new.slips work.new) (string_bytes self.old.out) (string_bytes self.new.out)) }
    {
        let call = Call::LookForm { key, kind: number };
        self.make_numbered(store, work, &call)
    }

    // Lays a file, and tells what came of it.
    fn make_lay<M: Medium>(
        &mut self,
        store: &mut Store<M>,
        work: &mut [u8],
        pages: usize,
    ) -> Result<(), AllocError>
        ensures { OnOk result (LayMade M.Medium.meaning pages (moment store.old self.old.slips work.old) (moment store.new self.new.slips work.new) (string_bytes self.old.out) (string_bytes self.new.out)) }
    {
        self.tell(Laid(store.lay(pages, work)))
    }

    // Tells what a medium says of itself.
    fn ask<M: Medium>(&mut self, medium: &M) -> Result<(), AllocError>
        ensures text { OnOk result (string_bytes self.new.out ≡ with_line (string_bytes self.old.out) (asked_line (M.Medium.meaning medium.now).pages (M.Medium.meaning medium.now).stopped)) }
        ensures slips { self.new.slips ≡ self.old.slips }
    {
        let pages = medium.pages();
        let stopped = if medium.stopped() { "yes" } else { "no" };
        writeln!(self.out, "pages {pages} stopped {stopped}")
    }

    // Tells what a medium shows of a page.
    fn dump_page<M: Medium>(&mut self, medium: &M, page: usize) -> Result<(), AllocError>
        ensures text { OnOk result (PageTold (M.Medium.meaning medium.now) page (string_bytes self.old.out) (string_bytes self.new.out)) }
        ensures slips { self.new.slips ≡ self.old.slips }
    {
        let mut bytes = [0; 1024];
        let answer = medium.read(page, 0, &mut bytes);
        self.tell(Dump {
            answer,
            bytes: &bytes,
        })
    }

    // Makes one step, and tells what came of it; of a new work page there is nothing to tell.
    fn make_step<M: Medium>(
        &mut self,
        store: &mut Store<M>,
        work: &mut Vec<u8>,
        step: &Step,
    ) -> Result<(), AllocError>
        ensures { OnOk result (StepMade M.Medium.meaning step.now (moment store.old self.old.slips work.old.items) (moment store.new self.new.slips work.new.items) (string_bytes self.old.out) (string_bytes self.new.out)) }
    {
        match step {
            Step::Work { bytes } => {
                *work = vec![in self.heap; 0; *bytes]?;
                Ok(())
            }
            Step::Lay { pages } => self.make_lay(store, work.as_mut_slice(), *pages),
            Step::Call { call } => self.make_call(store, work.as_mut_slice(), call),
            Step::LookNumbered { key, number } => {
                self.look_numbered(store, work.as_mut_slice(), *key, *number)
            }
            Step::BadField { slip, bit } => {
                let slip = self.slips.has(*slip);
                self.tell(Field { slip, bit: *bit })
            }
            Step::Ask => self.ask(store.medium()),
            Step::DumpWork => self.tell(Dump {
                answer: Ok(()),
                bytes: work,
            }),
            Step::DumpPage { page } => self.dump_page(store.medium(), *page),
        }
    }

    // Tells the medium that a use begins with.
    fn begin<M: Medium>(&mut self, medium: &M) -> Result<(), AllocError>
        ensures text { OnOk result (string_bytes self.new.out ≡ with_line (string_bytes self.old.out) (medium_line (M.Medium.meaning medium.now).pages)) }
        ensures slips { self.new.slips ≡ self.old.slips }
    {
        let pages = medium.pages();
        writeln!(self.out, "medium {pages} pages")
    }

    // Makes the steps of a use, one after the other, with a new work page. It stays a function of its own: inlined where layers
    // are laid and taken off, it makes that code so long that the compiler no longer leaves out the moves of a layer's images.
    #[inline(never)]
    pub(super) fn make_steps<M: Medium>(
        &mut self,
        store: &mut Store<M>,
        steps: &[Step],
    ) -> Result<(), AllocError>
        ensures { OnOk result (UseMade M.Medium.meaning steps.now store.old store.new self.old.slips self.new.slips (string_bytes self.old.out) (string_bytes self.new.out)) }
    {
        self.begin(store.medium())?;
        let mut work = vec![in self.heap; 0; 1024]?;
        for step in steps {
            self.make_step(store, &mut work, step)?;
        }
        Ok(())
    }
}
