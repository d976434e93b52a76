// Running a use.
ghost use Rattle.std.specs.Prelude.{◌≡◌, IfOk, MatchResult};
ghost use Rattle.book.specs.Theorem.{Secure};
ghost use Rattle.book.specs.Uses.{Ran, moment};

use super::call::{Call, Denied, Done};
use super::desk::Desk;
use super::slips::Slips;
use form::Forms;
use medium::Medium;
use std::alloc::{AllocError, Global};
use store::Store;

// Makes calls one after the other, each with its answer; or none, where there is no memory for the answers.
pub fn run<M: Medium, F: Forms + Drop>(
    store: &mut Store<M>,
    slips: &mut Slips,
    work: &mut [u8],
    calls: &[Call<F, F::Kind>],
    heap: Global,
) -> Result<Vec<Result<Done<F>, Denied>>, AllocError>
    ensures ran { MatchResult result (λ answers. Ran M.Medium.meaning F.Forms.bytes F.Forms.reads calls.now answers.items (moment store.old slips.old work.old) (moment store.new slips.new work.new)) (λ _. moment store.new slips.new work.new ≡ moment store.old slips.old work.old) }
    ensures secure { IfOk result (λ answers. Secure M.Medium.meaning F.Forms.kind F.Forms.bytes F.Forms.reads calls.now answers.items (moment store.old slips.old work.old) (moment store.new slips.new work.new)) }
{
    slips.reserve(calls.len())?;
    let mut answers = Vec::with_capacity(heap, calls.len())?;
    let mut desk = Desk { store, slips, work };
    for call in calls {
        answers.push_reserved(desk.make(call));
    }
    Ok(answers)
}
